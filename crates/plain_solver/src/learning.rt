//! The clause that can always be learned from a conflict: some decision was wrong.

ghost use Rattle.std.specs.Prelude.{◌≡◌, ℕ, ◌+◌, ◌^◌, ◌<◌, ◌++◌, ◌∷◌, [], All, map, IfOk};
ghost use Rattle.refutation_checker.specs.Follows.{negation};
ghost use Rattle.cdcl_solver.specs.inner.Chain.{IsExplained, AreReasonsBelow, decisions, reasons};
ghost use Rattle.plain_solver.specs.inner.Trail.{IsLastOf};

use refutation_checker::Step;
use sat_formula::Clause;
use std::alloc::{AllocError, Global};
use tla_values::List;
use watched_search::Entry;

/// The place of the last decision.
pub fn last_decision(entries: &[Entry]) -> Option<usize>
    ensures { IsLastOf entries.now result }
{
    let mut i = entries.len();
    while i > 0 {
        i -= 1;
        if entries[i].reason.is_none() {
            return Some(i);
        }
    }
    None
}

/// The negated decisions, with every reason and then the false clause as hints. All of the entries
/// are gone through.
pub fn explained(
    alloc: Global,
    clauses: usize,
    entries: &[Entry],
    conflict: usize,
) -> Result<Step, AllocError>
    requires small { clauses + 1 < 2 ^ 64 }
    requires conflict { conflict < clauses }
    requires reasons { AreReasonsBelow clauses entries.now }
    ensures { IfOk result (λ s. IsExplained clauses entries.now conflict s) }
{
    let lits = negated_decisions(alloc, entries)?;
    let hints = hints_of(alloc, clauses, entries, conflict)?;
    Ok(Step {
        id: clauses as u64 + 1,
        lits,
        hints,
    })
}

fn negated_decisions(alloc: Global, entries: &[Entry]) -> Result<Clause, AllocError>
    ensures { IfOk result (λ c. c ≡ map negation (decisions entries.now)) }
{
    let mut lits = Vec::new(alloc);
    for e in entries {
        if e.reason.is_none() {
            lits.push(e.lit.negated())?;
        }
    }
    Ok(Clause::from_vec(lits))
}

fn hints_of(
    alloc: Global,
    clauses: usize,
    entries: &[Entry],
    conflict: usize,
) -> Result<List<u64>, AllocError>
    requires small { clauses + 1 < 2 ^ 64 }
    requires conflict { conflict < clauses }
    requires reasons { AreReasonsBelow clauses entries.now }
    ensures { IfOk result (λ h. h ≡ reasons entries.now ++ (conflict + 1) ∷ []) }
{
    let mut ids = Vec::new(alloc);
    for e in entries {
        if let Some(c) = e.reason {
            ids.push(c as u64 + 1)?;
        }
    }
    ids.push(conflict as u64 + 1)?;
    Ok(List::from_vec(ids))
}
