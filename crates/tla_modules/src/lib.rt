//! The modules of a root, read from files, and the flat module that they make.
//! (Lamport, Specifying Systems, chapters 4 and 17.)
#![tactic(auto)]

mod fault;
mod files;
mod reading;
mod resolving;
mod spelling;

pub use fault::{ModuleFault, ModuleRefusal};
pub use resolving::resolve;
