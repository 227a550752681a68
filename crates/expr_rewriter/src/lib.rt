//! Kernel trees as cells.
#![tactic(auto)]

mod binding;
mod cell_env;
mod folding;
mod forming;
mod leaves;
mod listed;
mod names;
mod nodes;
mod operating;
mod ranges;
mod relating;
mod rewriting;
mod settings;
mod several;
mod single;
mod taking;
mod updating;

pub use cell_env::CellEnv;
pub use outcome_cells::Cells;
pub use rewriting::{rewrite, rewrite_form};
