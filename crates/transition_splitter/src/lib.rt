//! The paths of CInit, Init and Next, from left to right, counted before they are made.
//!
//! (Konnov, Kukovec and Tran, "TLA+ Model Checking Made Symbolic", OOPSLA 2019, on symbolic transitions.)
#![tactic(auto)]

mod counts;
mod mentioning;
mod routes;
mod split_fault;
mod splitter;
mod telling;

pub use split_fault::SplitFault;
pub use splitter::split;
