//! Sequences of cells: the operators of the language on sequences.
//!
//! A sequence cell is a word for its length and places, of which the first ones count. Each call
//! gives, under every satisfying assignment, what the language says of the values of its cells: a
//! sequence is a function on the numbers from 1 to its length. (Specifying Systems, sections 16.1.9
//! and 18.1.)
#![tactic(auto)]

mod domains;
mod ends;
mod gluing;
mod lengths;
mod places;
mod replacing;
mod shifts;
mod slicing;

pub use domains::seq_domain;
pub use ends::{push, rest};
pub use gluing::glue;
pub use lengths::length;
pub use places::{at_place, update_place};
pub use slicing::slice;
