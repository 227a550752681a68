//! A plain complete search for an assignment, which the solver is compared with.
//!
//! `search` tries the values of each variable in order and leaves a branch at a false clause
//! (Davis, Logemann and Loveland, "A Machine Program for Theorem-Proving", 1962, without its
//! rules). It learns nothing, so it serves small formulas alone.
#![tactic(auto)]

mod index;
mod searching;

pub use searching::search;
