//! Lists of links, one for each literal code, that run through the two slots of each clause.
//!
//! A solver keeps each clause in the lists of the two literals that watch it (the two watched literals
//! of Chaff: Moskewicz et al., DAC 2001). Once there is room for the clauses, no call takes memory, and
//! each takes constant time.
#![tactic(auto)]

mod chains;
mod link;
mod table;

pub use chains::WatchChains;
pub use link::Link;
