//! Paths whose ranges carry bounds, by the shapes that names have at each step.
//!
//! A range of numbers is encoded by a cell for each number that it may have. Along a path the shapes of names change: a
//! name has one behind its assignment, and picked numbers behind their pick. So each tree of a path gets the bounds of its
//! ranges where the path comes to it.
#![tactic(auto)]

mod bounding;
mod walk;

pub use bounding::bounded_path;
