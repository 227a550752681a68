//! Equality of cells, and choices between them.
//!
//! The cells of one call have one sort. Equality makes no cell: it adds gates alone. Two sets are
//! equal where each is within the other; each member of the one is compared once with each of the
//! other, and those whose literal is never true are passed over. So are two functions, by the arrows
//! that are there and behind no other one of their argument. Two records, or two tuples, are equal
//! where their parts are, two sequences where their lengths are and the places within them.
//!
//! A choice between two records, or two tuples, chooses each part. A choice between two functions
//! chooses the results of the first arguments where these are alike, and keeps the other arrows of
//! both; one between two sequences chooses the length and the places that both have.
//! (Konnov, Kukovec and Tran, "TLA+ Model Checking Made Symbolic", OOPSLA 2019.)
#![tactic(auto)]

mod arrows;
mod choice;
mod composites;
mod crosses;
mod equality;
mod items;
mod laws;
mod likeness;
mod merging;
mod picking;

pub use arrows::{arrow_at, arrow_count};
pub use choice::choose_cell;
pub use composites::{part_at, part_count, with_parts};
pub use equality::{member_in, members_in, same, same_in, subset_in};
pub use laws::cells_keep_sorts_and_are_normal;
pub use likeness::known;
pub use merging::{Join, join_alike, merge_edges};
pub use picking::pick;
