//! The text of verdicts with their traces, and states read back from it.
#![tactic(auto)]

mod blocks;
mod brackets;
mod bytes;
mod faults;
mod numbers;
mod reading;
mod reports;
mod texts;
mod verdict;

pub use blocks::{blocks_are_read_one_way, read_state};
pub use faults::StateTextFault;
pub use reports::{module_in, report_text, show_place};
pub use verdict::{Fault, Part, Trace, Verdict, Where};
