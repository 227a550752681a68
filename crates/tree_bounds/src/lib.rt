//! Kernel trees whose ranges carry bounds.
//!
//! A range of numbers is encoded by a cell for each number that it may have, so the ends of these numbers are written
//! into the tree, by the shapes of the names that it reads.
#![tactic(auto)]

mod theorems;

pub use theorems::{
    bounded_trees_give_the_same, bounded_trees_stay_sound, ranges_lie_within_their_bounds,
};
