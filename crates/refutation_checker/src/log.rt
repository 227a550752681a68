//! Logs of derived clauses.

use sat_formula::Clause;
use tla_values::List;

/// A derived clause. `id` is its number as written: the clauses of the formula are numbered from
/// 1, and the steps go on from there. The hints are the numbers of the clauses that force it, in
/// the order in which they are used.
#[derive(Drop)]
pub struct Step {
    pub id: u64,
    pub lits: Clause,
    pub hints: List<u64>,
}

/// The steps of a log in their order.
pub type Log = List<Step>;
