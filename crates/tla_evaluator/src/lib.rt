//! Evaluates expressions as their meaning says.
#![tactic(auto)]

mod actions;
mod answers;
mod binders;
mod context;
mod excepts;
mod expressions;
mod forms;
mod functions;
mod numbers;
mod operators;
mod sequences;
mod sets;
mod tops;
mod trees;

pub use forms::{all_belong, belongs, is_set_form};
pub use operators::table;
pub use tops::{act, eval, invariant, next, start};
pub use trees::is_expanded;
