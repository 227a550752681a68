//! The module that tokens spell. (Lamport, Specifying Systems, chapters 15 to 17.)
#![tactic(auto)]

mod ahead;
mod aliases;
mod binders;
mod builder;
mod copies;
mod digests;
mod fault;
mod fields;
mod heads;
mod items;
mod locals;
mod looks;
mod moves;
mod nodes;
mod open;
mod operands;
mod parsing;
mod places;
mod ranges;
mod recognizer;
mod rules;
mod sights;
mod signs;
mod trees;
mod units;
mod updates;

pub use fault::{ParseFault, Syntax};
pub use parsing::parse;
