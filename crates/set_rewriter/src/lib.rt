//! Sets of cells: the set operators of the language.
//!
//! Each call gives, under every satisfying assignment, the value of its operator at the values of
//! its cells. The cells of one call have one sort, and the cells that are answered have the sort
//! that the operator gives. (Specifying Systems, section 16.1.6; Konnov, Kukovec and Tran, "TLA+
//! Model Checking Made Symbolic", OOPSLA 2019, section 5.)
#![tactic(auto)]

mod counting;
mod filters;
mod laws;
mod members;
mod powersets;
mod ranges;
mod unions;

pub use counting::cardinality;
pub use filters::{filter, inter, minus};
pub use laws::members_are_kept_and_mapped;
pub use members::{member, subset};
pub use powersets::{pick_subset, subsets};
pub use ranges::range;
pub use unions::{big_union, map, union};
