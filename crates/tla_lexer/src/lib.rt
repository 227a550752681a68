//! The tokens of a module: what its bytes are read as, with places and notes.
//!
//! A text is a run of pieces (tokens, blanks and comments) in which at each place the longest one stands. (Lamport,
//! Specifying Systems, chapter 15.)
#![tactic(auto)]

mod classes;
mod comments;
mod fault;
mod header;
mod lexing;
mod longest;
mod pieces;
mod position;
mod symbols;
mod texts;
mod token;
mod words;

pub use fault::LexFault;
pub use lexing::{one_answer, tokens};
pub use token::{Token, TokenKind, Tokens};
