//! What literals and cells say of a path of an action: that its steps hold, that it meets a fault, and which values it
//! gives.
//!
//! The public definitions are in `specs/Paths` and `specs/Steps`; a walk over the steps, one at a time, is in
//! `specs/inner`, and its laws are in `proofs`.
//! (Konnov, Kukovec and Tran, "TLA+ Model Checking Made Symbolic", OOPSLA 2019, on symbolic transitions.)
#![tactic(auto)]

mod answer;

pub use answer::{PathCells, StepCells};
