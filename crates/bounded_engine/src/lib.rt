//! The engine that checks the levels of a job in order: one question after another is asked of a
//! solver over the encoder's formula, up to the first that holds. (Konnov, Kukovec and Tran, "TLA+
//! Model Checking Made Symbolic", OOPSLA 2019.)
#![tactic(auto)]

mod asking;
mod checking;
mod decoding;
mod levels;
mod run;
mod subject;
mod telling;
mod theorems;
mod verdicts;

pub use checking::check_to;
pub use run::Run;
pub use theorems::{sections_tell_of_their_levels, verdicts_tell_the_first_question};
