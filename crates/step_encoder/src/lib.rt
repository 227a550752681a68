//! Levels over cells: the states of executions of a system, level by level, and a literal for each
//! question of a level. (Konnov, Kukovec and Tran, "TLA+ Model Checking Made Symbolic", OOPSLA
//! 2019, on bounded model checking.)
#![tactic(auto)]

mod asking;
mod encoder;
mod joining;
mod names;
mod starting;
mod stepping;
mod ways;

pub use encoder::Encoder;
pub use encoder_laws::LevelCells;
