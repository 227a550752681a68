//! Set forms over cells: what may stand on the right of a membership or an inclusion.
//!
//! `Int`, `Nat`, `STRING` and `Seq(S)` have infinitely many members, and `SUBSET S`, `[S -> T]` and products have very
//! many. So none of them becomes a cell: a form says how it is made, over cells of the sets of which it is made, and
//! whether a value belongs to it is asked of the parts of this value's cell.
//! (Specifying Systems, section 16.1, for what belongs to each; Konnov, Kukovec and Tran, "TLA+ Model Checking Made
//! Symbolic", OOPSLA 2019, section 5, for cells.)
#![tactic(auto)]

mod form;
mod functions;
mod laws;
mod membership;
mod parts;

pub use form::{Form, FormCells};
pub use laws::forms_of_sorts_are_set_forms;
pub use membership::{belongs, included};
