//! What a search for a model keeps.
//!
//! `Search` holds clauses and what is true, in the order in which it became so, and makes true what the
//! clauses force, over two literals that watch each clause. (Davis, Logemann and Loveland, "A Machine
//! Program for Theorem-Proving", 1962; Marques-Silva and Sakallah, "GRASP: A Search Algorithm for
//! Propositional Satisfiability", 1999, on levels and reasons; Moskewicz and others, "Chaff: Engineering
//! an Efficient SAT Solver", 2001, on watched literals.) Only `new` and `learn` take memory.
#![tactic(auto)]

mod clauses;
mod codes;
mod entry;
mod levels;
mod lists;
mod pairing;
mod propagation;
mod searching;
mod status;
mod trail;

pub use codes::{code_of, literal_of};
pub use entry::Entry;
pub use searching::Search;
pub use trail::Trail;
