//! Functions, records and tuples of cells: the operators of the language on functions.
//!
//! Each call gives, under every satisfying assignment, what the language says of the values of its
//! cells: a record is a function on the names of its fields, and a tuple one on the numbers from 1
//! to its length. (Specifying Systems, sections 16.1.7 to 16.1.9.)
#![tactic(auto)]

mod applying;
mod arrows;
mod constants;
mod domains;
mod fields;
mod function_sets;
mod items;
mod joining;
mod laws;
mod making;
mod members;
mod names;
mod picking;
mod replacing;
mod updating;

pub use applying::at;
pub use domains::domain;
pub use fields::{field, with_field};
pub use function_sets::functions;
pub use items::{item, with_item};
pub use joining::join;
pub use laws::functions_are_made;
pub use making::make;
pub use names::index_of;
pub use picking::pick_function;
pub use updating::update;
