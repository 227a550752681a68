//! Values and states that cells stand for under an assignment.
//!
//! A cell is read as the definition of its value says: an edge counts where its literal is true, of
//! several edges of a function with one argument the first, and of a sequence the places up to its
//! length. Only cells to which such edges lead are visited, and each of them is read once: cells are
//! shared, so that the ways to one cell may be many more than the cells. No call fails but for want
//! of memory.
//! (Konnov, Kukovec and Tran, "TLA+ Model Checking Made Symbolic", OOPSLA 2019, section 4.)
#![tactic(auto)]

mod decoder;
mod decoding;
mod functions;
mod laws;
mod words;

pub use decoding::{decode, decode_state};
pub use laws::{decoded_states_are_normal, decoded_states_stay, decoded_values_have_their_types};
