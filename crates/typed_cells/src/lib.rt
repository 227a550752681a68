//! Cells of types: their sorts, cells of known values, and cells that are made of other cells.
//!
//! Each call answers a cell of the sort that it promises, also where nothing is known of the values
//! of its parts. A record's fields stand in the order of their names' bytes, so that cells of one
//! type have one sort. After a call that was refused for want of memory the build is as usable as
//! before, and the call may be made again.
//! (Konnov, Kukovec and Tran, "TLA+ Model Checking Made Symbolic", OOPSLA 2019, section 4.)
#![tactic(auto)]

mod composites;
mod constants;
mod defaults;
mod edge_sets;
mod laws;

pub use composites::{record_of_fields, sequence_of_cells, tuple_of_cells};
pub use constants::{known_number, known_text, known_truth};
pub use defaults::default_cell;
pub use edge_sets::{set_of_edges, set_of_joined_edges};
pub use laws::kinds_have_sorts_of_parts;
