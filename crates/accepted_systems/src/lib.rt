//! What is accepted can be checked: its system stands for its job, and can be encoded. A law, as the
//! contract of a function that does nothing. (Konnov, Kukovec and Tran, "TLA+ Model Checking Made
//! Symbolic", OOPSLA 2019.)
#![tactic(auto)]

mod theorems;

pub use theorems::accepted_systems_can_be_checked;
