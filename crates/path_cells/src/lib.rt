//! Paths of an action as literals and cells.
//!
//! `rewrite_path` goes over the steps of a path: a guard is a literal, a pick is a free choice of a member of each of
//! its sets, and an assignment gives a name the cell of its value, or that of a free choice from its form. What its
//! answer says is in `path_walks`.
//! (Konnov, Kukovec and Tran, "TLA+ Model Checking Made Symbolic", OOPSLA 2019, on symbolic transitions.)
#![tactic(auto)]

mod choosing;
mod literals;
mod rewriting;
mod stepping;
mod walk;

pub use path_walks::PathCells;
pub use rewriting::rewrite_path;
