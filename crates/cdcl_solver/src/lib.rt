//! A solver that learns a clause at each conflict and logs it.
//!
//! `solve` answers an assignment that satisfies the formula, or a log of derived clauses that
//! refutes it and that `refutation_checker` accepts, so that nothing which the solver does has to
//! be believed. It stands on `Search`, the state of a search, which is passed on. (Marques-Silva and
//! Sakallah, "GRASP: A Search Algorithm for Propositional Satisfiability", 1999; Moskewicz and
//! others, "Chaff: Engineering an Efficient SAT Solver", 2001; Cruz-Filipe and others, "Efficient
//! Certified RAT Verification", 2017, on the log.)
#![tactic(auto)]

mod acceptance;
mod analysis;
mod answer;
mod chance;
mod checking;
mod deciding;
mod heap;
mod learning;
mod marks;
mod model;
mod pace;
mod phases;
mod rows;
mod scores;
mod solver;
mod solving;
mod tally;
mod walking;

pub use answer::Answer;
pub use solving::solve;
pub use watched_search::{Entry, Search};
