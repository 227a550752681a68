//! Paths over cells as one branch: a literal for each way in which it ends, and a cell for each name. Paths are rewritten
//! one by one, names that a path leaves out are filled, and of several paths one is chosen freely.
//! (Konnov, Kukovec and Tran, "TLA+ Model Checking Made Symbolic", OOPSLA 2019, on symbolic transitions.)
#![tactic(auto)]

mod branch;
mod ends;
mod filling;
mod following;
mod merging;
mod way;

pub use branch::{BranchCells, Ends};
pub use ends::{also, behind, condition, judged};
pub use filling::fill;
pub use following::along;
pub use merging::{choose, choose_cells};
pub use way::Way;
