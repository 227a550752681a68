//! The assignments on a path of CInit, Init or Next, or what is wrong with the path.
//!
//! The first `x' = e` or `x' \in S` of a name is its assignment, and every later one is a guard. A path may not read a
//! name before it has assigned it. (Konnov, Kukovec and Tran, "TLA+ Model Checking Made Symbolic", OOPSLA 2019, on
//! assignments.)
#![tactic(auto)]

mod assign_fault;
mod endless;
mod finder;
mod marking;
mod open_names;
mod reading;
mod theorems;

pub use assign_fault::AssignFault;
pub use finder::assign;
pub use theorems::fine_steps_read_nothing_early;
