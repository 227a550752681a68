//! Cells over a growing formula: each decodes to one value under each satisfying assignment.
//!
//! An arena holds cells, each of one of eight kinds over literals, words and older cells. A `Build`
//! is an arena and the formula that its literals belong to. No two cells are of one kind: a call of
//! a build answers the older cell where one is of its kind. Every call, refused or not, leaves the
//! older cells as they were, so that an older cell keeps its kind and its value, and keeps the
//! formula's law of extension; after a refusal the same call may be made again.
//! (Konnov, Kukovec and Tran, "TLA+ Model Checking Made Symbolic", OOPSLA 2019.)
#![tactic(auto)]

mod alike;
mod arena;
mod build;
mod chains;
mod differ;
mod hashing;
mod kinds;
mod laws;

pub use arena::Arena;
pub use build::Build;
pub use differ::all_differ;
pub use kinds::{CellId, CellKind};
pub use laws::older_cells_stay;
