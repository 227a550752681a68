//! Members of set forms by free choice: what an assignment of a member of a form takes.
//!
//! The members of `SUBSET S`, of `[S -> T]` and of sets of records and tuples are very many. So none is listed: a free
//! choice of members of S is one of `SUBSET S`, one choice for each argument is one of `[S -> T]`, and one for each
//! field or item is one of a record or tuple. Where a subset of such a form is chosen, the form's members are listed as
//! cells.
//! (Specifying Systems, section 16.1, for what belongs to each; Konnov, Kukovec and Tran, "TLA+ Model Checking Made
//! Symbolic", OOPSLA 2019, section 5, for choices by cells; the Apalache manual, "Assignments and symbolic
//! transitions".)
#![tactic(auto)]

mod choosing;
mod laws;
mod listing;
mod making;

pub use choosing::pick_form;
pub use laws::finite_trees_have_finite_forms;
