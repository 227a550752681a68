//! Whether one step follows from the clauses before it.

ghost use Rattle.std.specs.Prelude.{◌≡◌, ◌↔◌, [], IsTrue, IfOk, map, MatchBool};
ghost use Rattle.refutation_checker.specs.Follows.{negation, HasNoOpposites, Propagates, known, Follows};
ghost use Rattle.refutation_checker.specs.inner.Status.{IsStatus, IsClauseAt};

use crate::log::Step;
use crate::trail::Trail;
use sat_formula::{Clause, Lit};
use std::alloc::AllocError;

// The clause with this number: the formula's from 1 on, and then those of the steps.
fn clause_at<'a>(formula: &'a [Clause], steps: &'a [Step], number: u64) -> Option<&'a [Lit]>
    ensures { IsClauseAt (known formula.now steps.now) number result }
{
    if number == 0 {
        return None;
    }
    let i = (number - 1) as usize;
    if i < formula.len() {
        return Some(formula[i].lits());
    }
    let j = i - formula.len();
    if j < steps.len() {
        Some(steps[j].lits.lits())
    } else {
        None
    }
}

// What a clause is under a trail: false, a unit with this literal, or neither.
#[derive(Clone, Copy, Debug)]
enum Status {
    AllFalse,
    OneLeft(Lit),
    Other,
}

fn status_of(clause: &[Lit], trail: &Trail) -> Status
    ensures { IsStatus trail.now clause.now result }
{
    let mut found: Option<Lit> = None;
    for l in clause {
        match trail.value(*l) {
            Some(true) => return Status::Other,
            Some(false) => {}
            None => match found {
                None => found = Some(*l),
                Some(u) => {
                    if u != *l {
                        return Status::Other;
                    }
                }
            },
        }
    }
    match found {
        None => Status::AllFalse,
        Some(u) => Status::OneLeft(u),
    }
}

// Whether each hint's clause is a unit under what the earlier ones made true, and the last one's
// is false.
fn hints_work(
    formula: &[Clause],
    steps: &[Step],
    hints: &[u64],
    trail: &mut Trail,
) -> Result<bool, AllocError>
    ensures { IfOk result (λ b. IsTrue b ↔ Propagates (known formula.now steps.now) trail.old hints.now) }
{
    for (i, h) in hints.iter().enumerate() {
        let last = i + 1 == hints.len();
        let Some(clause) = clause_at(formula, steps, *h) else {
            return Ok(false);
        };
        match status_of(clause, trail) {
            Status::AllFalse => return Ok(last),
            Status::OneLeft(u) => {
                if last {
                    return Ok(false);
                }
                trail.push(u)?;
            }
            Status::Other => return Ok(false),
        }
    }
    Ok(false)
}

// Makes each literal false, unless one stands beside its negation.
fn assume_false(lits: &[Lit], trail: &mut Trail) -> Result<bool, AllocError>
    requires { trail.old ≡ [] }
    ensures { IfOk result (λ b.
        MatchBool b
        (trail.new ≡ map negation lits.now × HasNoOpposites lits.now)
        (HasNoOpposites lits.now → ⊥)) }
{
    for l in lits {
        if trail.is_true(*l) {
            return Ok(false);
        }
        trail.push(l.negated())?;
    }
    Ok(true)
}

/// Whether a step follows from the formula and the steps before it. The trail is empty, and is so
/// again at the return, also where memory ran out. The time goes by the literals of the step and of
/// the clauses that its hints name.
pub fn follows(
    formula: &[Clause],
    steps: &[Step],
    step: &Step,
    trail: &mut Trail,
) -> Result<bool, AllocError>
    requires { trail.old ≡ [] }
    ensures exact { IfOk result (λ b. IsTrue b ↔ Follows (known formula.now steps.now) step.now) }
    ensures trail { trail.new ≡ [] }
{
    let followed = is_forced(formula, steps, step, trail);
    trail.clear();
    followed
}

// What `follows` answers. What it made true is left on the trail.
fn is_forced(
    formula: &[Clause],
    steps: &[Step],
    step: &Step,
    trail: &mut Trail,
) -> Result<bool, AllocError>
    requires { trail.old ≡ [] }
    ensures { IfOk result (λ b. IsTrue b ↔ Follows (known formula.now steps.now) step.now) }
{
    if step.id as usize != formula.len() + steps.len() + 1 {
        return Ok(false);
    }
    let apart = assume_false(step.lits.lits(), trail)?;
    if !apart {
        return Ok(false);
    }
    hints_work(formula, steps, step.hints.as_slice(), trail)
}
