//! Boolean formulas in clausal form that grow by gates.
//!
//! A `Formula` holds variables and clauses. Each gate adds at most one variable and the clauses
//! that define it, so that under every assignment that satisfies the formula the gate's literal
//! has the gate's value. Growth is a law of extension: each assignment that satisfied the
//! formula before a call extends to one that satisfies it after the call, whether the call
//! succeeded or was refused for want of memory. (Tseitin, "On the complexity of derivation in
//! propositional calculus", 1968.)
#![tactic(auto)]

mod assignment;
mod clause;
mod cnf;
mod formula;
mod gate;
mod gates;
mod lit;
mod word;

pub use assignment::{Assignment, value};
pub use clause::{Clause, Clauses};
pub use cnf::Cnf;
pub use formula::Formula;
pub use lit::Lit;
pub use word::Word;
