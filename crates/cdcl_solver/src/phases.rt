//! Which value of a variable is tried first, before it had one.

use sat_formula::{Clause, Lit};
use std::alloc::{AllocError, Global};

/// Whether each variable below `vars` is false at first. It is true where that makes more literals of
/// the clauses false, those of short clauses first, so that much is forced soon. (That is the opposite
/// of what Jeroslow and Wang, "Solving Propositional Satisfiability Problems", 1990, choose to find an
/// assignment, which is left to the walk.)
pub fn first_phases(
    alloc: Global,
    clauses: &[Clause],
    vars: usize,
) -> Result<Vec<bool>, AllocError> {
    let mut leans = vec![in alloc; 0; vars]?;
    for clause in clauses {
        weigh(&mut leans, clause.lits());
    }
    let mut phases = Vec::with_capacity(alloc, vars)?;
    for lean in leans.iter() {
        phases.push(*lean <= 0)?;
    }
    Ok(phases)
}

// The weight of an empty clause. Each literal halves it.
const WHOLE: i64 = 1 << 20;

// Adds the clause's weight for each variable that it negates, and takes it off for the others.
fn weigh(leans: &mut Vec<i64>, lits: &[Lit]) {
    let weight = WHOLE >> lits.len().min(20);
    for l in lits {
        if l.var < leans.len() {
            let lean = leans[l.var];
            leans[l.var] = if l.neg {
                lean.saturating_add(weight)
            } else {
                lean.saturating_sub(weight)
            };
        }
    }
}
