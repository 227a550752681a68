//! The flat module of a root: its names resolved, its definitions with those that EXTENDS and INSTANCE bring in.
//! (Lamport, Specifying Systems, chapters 4 and 17.)
#![tactic(auto)]

mod aliases;
mod copies;
mod course;
mod entries;
mod flattening;
mod gathering;
mod index;
mod instances;
mod items;
mod knowing;
mod memo;
mod order;
mod resolving;
mod scope;
mod shared;
mod standards;
mod telling;

pub use course::{Course, course_from};
pub use flattening::{flat_of, misuse_of};
