//! The list of the variables that a solver has still to decide, the next one first.
//!
//! A variable of interest is moved to the front (variables move to front: Biere and Fröhlich, SAT 2015).
//! The list is doubly linked by index. Once it is made, no call takes memory, and each takes constant
//! time.
#![tactic(auto)]

mod queue;

pub use queue::DecisionQueue;
