//! A plain solver over lists of occurrences, which the solver is compared with.
//!
//! `solve` has the contract of `cdcl_solver`. It looks at each clause that names the negation of what
//! became true, tries the least variable without a value, and learns the negated decisions. (Davis,
//! Logemann and Loveland, "A Machine Program for Theorem-Proving", 1962; Marques-Silva and Sakallah,
//! "GRASP: A Search Algorithm for Propositional Satisfiability", 1999, on learning.)
#![tactic(auto)]

mod learning;
mod model;
mod occurrences;
mod propagation;
mod searching;
mod solving;

pub use solving::solve;
