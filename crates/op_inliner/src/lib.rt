//! Definitions written out at their uses.
//!
//! A flat module's definition becomes one tree (`PartKind` says for which part of a job): each use stands for the
//! definition's body, with its arguments by name, primes stand at the variables, and UNCHANGED is spelled out. The
//! tree means what the definition means in the module (Specifying Systems, section 17.1).
//!
//! Begin with `expanding`, the public calls: an operator's nodes are counted, then its tree is built, then its bound names
//! are given back. `passes` (over `scope`, `counts` and `sums`) counts without a tree, in one pass over each body.
//! `trees` builds from the root on, no deeper than a tree may be, with primes at the variables; where a root stands is
//! found in loops (`spots`), over names and what they stand for (`frames`). `naming` gives bound names back. `bodies` are
//! what each use stands for: LAMBDAs in folds, and the annotation at the result and at each argument. `checks` tests a
//! built tree. `theorems` are laws of the definitions.
#![tactic(auto)]

mod bodies;
mod checks;
mod counts;
mod expanding;
mod frames;
mod known;
mod naming;
mod parts;
mod passes;
mod scope;
mod spots;
mod sums;
mod theorems;
mod trees;

pub use expanding::{expand, job_of};
pub use known::is_known;
pub use parts::{InlineFault, PartKind};
pub use theorems::{
    captured_names_are_fresh, jobs_mean_their_definitions, trees_mean_their_definitions,
};
