//! What the clauses force under a trail.

ghost use Rattle.std.specs.Prelude.{◌≡◌, ℕ, ◌+◌, ◌-◌, ◌<◌, ◌≤◌, [], Contains, length, take, IfOk, All, slice_index_or};
ghost use Rattle.sat_formula.specs.Lit.{IsBelow};
ghost use Rattle.sat_formula.specs.Clause.{NamesBelow};
ghost use Rattle.refutation_checker.specs.Follows.{known};
ghost use Rattle.watched_search.specs.Trail.{lits_of};
ghost use Rattle.cdcl_solver.specs.inner.Chain.{Chain};
ghost use Rattle.plain_solver.specs.inner.Looking.{IsStatus, IsPropagated};
ghost use Rattle.plain_solver.specs.inner.Trail.{IsLitAt};
ghost use Rattle.plain_solver.specs.inner.Occurrences.{AllKept, IsIndex, IsLooked};

use crate::occurrences::Occurrences;
use refutation_checker::Step;
use sat_formula::{Clause, Lit};
use watched_search::{Entry, Trail};

// What a clause is under a trail: false, a unit with this literal, or neither.
#[derive(Clone, Copy, Debug)]
pub enum Status {
    AllFalse,
    OneLeft(Lit),
    Other,
}

/// Looks at the clauses that name the negation of an entry from `head` on, and makes true what
/// they force, until one is false, whose number it answers, or none forces more.
pub fn propagate(
    clauses: &[Clause],
    steps: &[Step],
    occurrences: &Occurrences,
    head: usize,
    trail: &mut Trail,
) -> Option<usize>
    requires within { NamesBelow trail.old.room (known clauses.now steps.now) }
    requires chain { Chain (known clauses.now steps.now) [] trail.old.entries }
    requires index { IsIndex trail.old.room occurrences.now (known clauses.now steps.now) }
    requires head { head ≤ length trail.old.entries }
    requires kept { AllKept (known clauses.now steps.now) (take head (lits_of trail.old.entries)) (lits_of trail.old.entries) }
    ensures { IsPropagated (known clauses.now steps.now) trail.old trail.new result }
{
    let mut next = head;
    'literals: loop {
        let Some(l) = literal_at(trail, next) else {
            return None;
        };
        let places = occurrences.places(l.negated());
        let found = look_over(clauses, steps, places, trail);
        if let Some(conflict) = found {
            return Some(conflict);
        }
        next += 1;
    }
}

/// Looks at all clauses, once each.
pub fn look_at_all(clauses: &[Clause], steps: &[Step], trail: &mut Trail) -> Option<usize>
    requires within { NamesBelow trail.old.room (known clauses.now steps.now) }
    requires chain { Chain (known clauses.now steps.now) [] trail.old.entries }
    ensures { IsLooked (known clauses.now steps.now) trail.old trail.new (λ k. Unit {0}) result }
{
    for k in 0..clauses.len() + steps.len() {
        let found = look_at(clauses, steps, k, trail);
        if let Some(conflict) = found {
            return Some(conflict);
        }
    }
    None
}

// Looks at the clauses at these places.
fn look_over(
    clauses: &[Clause],
    steps: &[Step],
    places: &[usize],
    trail: &mut Trail,
) -> Option<usize>
    requires within { NamesBelow trail.old.room (known clauses.now steps.now) }
    requires chain { Chain (known clauses.now steps.now) [] trail.old.entries }
    ensures { IsLooked (known clauses.now steps.now) trail.old trail.new (Contains places.now) result }
{
    for k in places {
        let found = look_at(clauses, steps, *k, trail);
        if let Some(conflict) = found {
            return Some(conflict);
        }
    }
    None
}

// Looks at the clause at `k`, if there is one, and makes true what it forces.
fn look_at(clauses: &[Clause], steps: &[Step], k: usize, trail: &mut Trail) -> Option<usize>
    requires within { NamesBelow trail.old.room (known clauses.now steps.now) }
    requires chain { Chain (known clauses.now steps.now) [] trail.old.entries }
    ensures { IsLooked (known clauses.now steps.now) trail.old trail.new (λ j. j ≡ k) result }
{
    if k >= clauses.len() + steps.len() {
        return None;
    }
    match status_of(clause_at(clauses, steps, k), trail) {
        Status::AllFalse => Some(k),
        Status::OneLeft(u) => {
            trail.push(Entry {
                lit: u,
                reason: Some(k),
            });
            let _ = trail.entries();
            None
        }
        Status::Other => None,
    }
}

// The literal at this place of the trail, if there is one.
fn literal_at(trail: &Trail, place: usize) -> Option<Lit>
    ensures { IsLitAt trail.now place result }
{
    let entries = trail.entries();
    if place >= entries.len() {
        return None;
    }
    Some(entries[place].lit)
}

// The clause at `i`: the formula's, and then those of the steps.
fn clause_at<'a>(clauses: &'a [Clause], steps: &'a [Step], i: usize) -> &'a [Lit]
    requires { i < length (known clauses.now steps.now) }
    ensures { result.now ≡ slice_index_or (known clauses.now steps.now) i [] }
{
    if i < clauses.len() {
        clauses[i].lits()
    } else {
        steps[i - clauses.len()].lits.lits()
    }
}

fn status_of(clause: &[Lit], trail: &Trail) -> Status
    requires { All (IsBelow trail.now.room) clause.now }
    ensures { IsStatus (lits_of trail.now.entries) clause.now result }
{
    let mut found: Option<Lit> = None;
    for l in clause {
        match trail.value(*l) {
            Some(true) => return Status::Other,
            Some(false) => {}
            None => match found {
                None => found = Some(*l),
                Some(u) => {
                    if u != *l {
                        return Status::Other;
                    }
                }
            },
        }
    }
    match found {
        None => Status::AllFalse,
        Some(u) => Status::OneLeft(u),
    }
}
