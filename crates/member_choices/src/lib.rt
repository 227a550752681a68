//! One member from each of several sets, and what binds names to them.
//!
//! `choices` lists one member from each of several sets in every way, each with a literal that says whether it is
//! there. Over the cells of a body at each of the choices stand the two quantifiers (`some`, `every`), the members
//! that pass (`kept`), the set of the body's values (`images`) and the function of them (`function`); the sets of
//! tuples (`tuples`) and of records (`records`) are made of the choices alone. At a choice that is not there nothing
//! is asked of the body. Of a fold over a sequence there is an item at a place (`item_at`) and one step (`step`).
//! (Konnov, Kukovec and Tran, "TLA+ Model Checking Made Symbolic", OOPSLA 2019; Specifying Systems, section 16.1.)
#![tactic(auto)]

mod bodies;
mod choice;
mod edges;
mod folding;
mod graphs;
mod listing;
mod literals;
mod products;
mod quantifiers;
mod sets;
mod wholes;

pub use choice::Choice;
pub use folding::{item_at, place_count, step};
pub use graphs::function;
pub use listing::choices;
pub use products::{records, tuples};
pub use quantifiers::{every, some};
pub use sets::{images, kept};
