//! The cells of a level, what they say of executions, and the laws by which they do: the start put
//! together of its parts, one step more, and the questions of a level. (Konnov, Kukovec and Tran,
//! "TLA+ Model Checking Made Symbolic", OOPSLA 2019, on bounded model checking.)
#![tactic(auto)]

mod level;

pub use level::LevelCells;
