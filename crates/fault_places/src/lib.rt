//! The places of faults: each is the place of a node of the tree that is evaluated, so that where the
//! nodes of a job stand in the job's files, its faults do.
#![tactic(auto)]

mod placing;
mod theorems;

pub use placing::are_places_below;
pub use theorems::faults_stand_in_their_trees;
