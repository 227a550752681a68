//! Whether a log refutes a formula.

ghost use Rattle.std.specs.Prelude.{◌≡◌, IfOk, if◌then◌else◌};
ghost use Rattle.refutation_checker.specs.Follows.{IsAnswer, IsUnsatisfiable, ends_empty};

use crate::answers::Check;
use crate::endings::ends_empty;
use crate::following::follows;
use crate::log::{Log, Step};
use crate::trail::Trail;
use sat_formula::{Clause, Cnf};
use std::alloc::{AllocError, Global};

/// Whether each step of the log follows and the last one is the empty clause. The formula's
/// number of variables is not used, and its clauses may name any; time and memory go by the
/// literals and hints, whichever variables they name.
pub fn check(alloc: Global, formula: &Cnf, log: &Log) -> Result<Check, AllocError>
    ensures exact { IfOk result (λ c. IsAnswer formula.now.clauses log.now c) }
    ensures refuted { IfOk result (λ c. c ≡ Check.Yes → IsUnsatisfiable formula.now.clauses) }
{
    let steps = log.as_slice();
    let clauses = formula.clauses.clauses();
    let mut trail = Trail::new(alloc, named_in(clauses).saturating_add(named_by(steps)))?;
    for i in 0..steps.len() {
        if !follows(clauses, &steps[..i], &steps[i], &mut trail)? {
            return Ok(Check::No(steps[i].id));
        }
    }
    Ok(verdict(steps))
}

// How many literals stand in the clauses.
fn named_in(clauses: &[Clause]) -> usize {
    clauses
        .iter()
        .fold(0, |n: usize, c| n.saturating_add(c.lits().len()))
}

// How many literals stand in the steps.
fn named_by(steps: &[Step]) -> usize {
    steps
        .iter()
        .fold(0, |n: usize, s| n.saturating_add(s.lits.lits().len()))
}

// What is left to say where all steps follow.
fn verdict(steps: &[Step]) -> Check
    ensures { result ≡ (if ends_empty steps.now then Check.Yes else Check.Open) }
{
    if ends_empty(steps) {
        Check::Yes
    } else {
        Check::Open
    }
}
