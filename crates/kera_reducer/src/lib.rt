//! The reduction of typed expressions to the kernel: the operators of the language by the few of the kernel, with the same
//! outcomes and paths. `reduce` answers a job's kernel, or the least infinite set that stands outside a form position.
//! What is built, and its laws, stand in `kernel_reduction`. (Konnov, Kukovec and Tran, "TLA+ Model Checking Made
//! Symbolic", OOPSLA 2019, on the language KerA+.)
#![tactic(auto)]

mod actions;
mod cases;
mod excepts;
mod finite;
mod kinded;
mod making;
mod mentions;
mod naming;
mod nodes;
mod operators;
mod part_types;
mod positions;
mod powers;
mod reducer;
mod reducing;
mod scoping;
mod separating;
mod texts;
mod wholes;

pub use finite::least_infinite;
pub use reducing::reduce;
pub use texts::texts_of;
