// What the evaluator answers of a job: each call asks first for what the call requires.
ghost use Rattle.std.specs.List.{All};
ghost use Rattle.std.specs.Prelude.{◌≤◌, IfOk, IsTrue};
ghost use Rattle.tla_evaluator.specs.Trees.{is_expanded};
ghost use Rattle.tla_values.specs.Sets.{Normal};

use std::alloc::{AllocError, Global};
use tla_evaluator::{eval, invariant, is_expanded, next, start};
use tla_meaning::{Env, Expr, Job, Outcome, Place, State};
use tla_values::{List, Text, Value, is_normal};

/// What an outcome tells. What is not to be asked is no outcome.
#[derive(Clone, Copy, Debug, Drop, PartialEq, Eq)]
pub(crate) enum Seen {
    Yes,
    No,
    Wrong(Place),
    Big(Place),
    NotAsked,
}

fn told_by(outcome: Outcome) -> Seen {
    match outcome {
        Outcome::Val(Value::Bool(true)) => Seen::Yes,
        Outcome::Val(_) => Seen::No,
        Outcome::Wrong(place) => Seen::Wrong(place),
        Outcome::Big(place) => Seen::Big(place),
    }
}

fn is_width(width: u32) -> bool
    ensures { IsTrue result → 4 ≤ width × width ≤ 64 }
{
    4 <= width && width <= 64
}

fn is_normal_state(s: &State) -> bool
    ensures { IsTrue result → All Normal s.now.vals }
{
    for v in s.vals.as_slice() {
        if !is_normal(v) {
            return false;
        }
    }
    true
}

fn are_expanded(invs: &List<(Text, Expr)>) -> bool
    ensures { IsTrue result → All (λ e. IsTrue (is_expanded e.1)) invs.now }
{
    for named in invs.as_slice() {
        if !is_expanded(&named.1) {
            return false;
        }
    }
    true
}

/// What the start gives.
pub(crate) fn start_seen(
    alloc: Global,
    job: &Job,
    s: &State,
    width: u32,
) -> Result<Seen, AllocError> {
    if !is_width(width) || !is_normal_state(s) {
        return Ok(Seen::NotAsked);
    }
    if !is_expanded(&job.cinit) || !is_expanded(&job.assume) || !is_expanded(&job.init) {
        return Ok(Seen::NotAsked);
    }
    let outcome = start(alloc, job, s, width)?;
    Ok(told_by(outcome))
}

/// What Next gives.
pub(crate) fn next_seen(
    alloc: Global,
    job: &Job,
    s: &State,
    t: &State,
    width: u32,
) -> Result<Seen, AllocError> {
    if !is_width(width) || !is_normal_state(s) || !is_normal_state(t) || !is_expanded(&job.next) {
        return Ok(Seen::NotAsked);
    }
    let outcome = next(alloc, job, s, t, width)?;
    Ok(told_by(outcome))
}

/// What the first invariant gives that is not TRUE.
pub(crate) fn invariant_seen(
    alloc: Global,
    job: &Job,
    s: &State,
    width: u32,
) -> Result<Seen, AllocError> {
    if !is_width(width) || !is_normal_state(s) || !are_expanded(&job.invs) {
        return Ok(Seen::NotAsked);
    }
    let (_, outcome) = invariant(alloc, job, s, width)?;
    Ok(told_by(outcome))
}

fn members(outcome: Outcome, alloc: Global) -> Vec<Value> {
    match outcome {
        Outcome::Val(Value::Set(values)) => values.into_vec(),
        _ => Vec::new(alloc),
    }
}

/// The members of a set that reads no name.
pub(crate) fn members_of(alloc: Global, set: &Expr) -> Result<Vec<Value>, AllocError> {
    if !is_expanded(set) {
        return Ok(Vec::new(alloc));
    }
    let nothing = State {
        vals: List::new(alloc),
    };
    let unbound = Env {
        vals: List::new(alloc),
    };
    let outcome = eval(alloc, set, &unbound, &nothing, None, 64)?;
    Ok(members(outcome, alloc))
}
