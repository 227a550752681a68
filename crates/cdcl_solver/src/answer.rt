//! What the solver answers.

use refutation_checker::Log;
use sat_formula::Assignment;

/// An assignment that satisfies the formula and the assumed literal; a log that refutes the two;
/// or the steps that the budget was spent on, which leave it open.
#[derive(Drop)]
pub enum Answer {
    Sat(Assignment),
    Unsat(Log),
    Spent(Log),
}
