// The trace of a verdict, taken step by step by the evaluator.
use crate::asking::{Seen, invariant_seen, next_seen, start_seen};
use crate::findings::Finding;
use std::alloc::{AllocError, Global};
use tla_meaning::{Job, Place, Query, State};
use trace_text::{Trace, Verdict};

// What the start gives, or Next from the state before.
fn step_seen(
    alloc: Global,
    job: &Job,
    from: Option<&State>,
    t: &State,
    width: u32,
) -> Result<Seen, AllocError> {
    match from {
        None => start_seen(alloc, job, t, width),
        Some(s) => next_seen(alloc, job, s, t, width),
    }
}

fn is_execution(
    alloc: Global,
    job: &Job,
    states: &[State],
    width: u32,
) -> Result<bool, AllocError> {
    let mut from: Option<&State> = None;
    for t in states {
        if step_seen(alloc, job, from, t, width)? != Seen::Yes {
            return Ok(false);
        }
        from = Some(t);
    }
    Ok(true)
}

// What is seen at the end: of the step to the attempt, or of the invariants.
fn end_seen(alloc: Global, job: &Job, trace: &Trace, width: u32) -> Result<Seen, AllocError> {
    let last = trace.states.as_slice().last();
    match (&trace.attempt, last) {
        (Some(t), _) => step_seen(alloc, job, last, t, width),
        (None, Some(s)) => invariant_seen(alloc, job, s, width),
        (None, None) => Ok(Seen::NotAsked),
    }
}

fn fault_of(query: Query, place: Option<Place>) -> Seen {
    match place {
        Some(place) => match query {
            Query::StepWrong | Query::InvNotTrue => Seen::Wrong(place),
            _ => Seen::Big(place),
        },
        None => Seen::No,
    }
}

// Whether there are so many states as the question speaks of, and an attempt where it is asked of a
// step.
fn has_states(finding: Finding, trace: &Trace) -> bool {
    let level = finding.level as usize;
    match finding.query {
        Query::StepWrong | Query::StepBig => {
            trace.states.len() == level && trace.attempt.is_some()
        }
        _ => trace.states.len() == level.wrapping_add(1) && trace.attempt.is_none(),
    }
}

fn is_taken(
    alloc: Global,
    job: &Job,
    width: u32,
    finding: Finding,
    trace: &Trace,
) -> Result<bool, AllocError> {
    if !has_states(finding, trace) {
        return Ok(false);
    }
    let seen = end_seen(alloc, job, trace, width)?;
    let is_seen = seen != Seen::NotAsked && seen == fault_of(finding.query, finding.place);
    let is_taken = is_execution(alloc, job, trace.states.as_slice(), width)?;
    Ok(is_seen && is_taken)
}

/// Whether the trace of a verdict is an execution with what is found at its end.
pub(crate) fn shows(
    alloc: Global,
    job: &Job,
    width: u32,
    finding: Finding,
    verdict: &Verdict,
) -> Result<bool, AllocError> {
    match verdict {
        Verdict::Error(_, _, trace) => is_taken(alloc, job, width, finding, trace),
        Verdict::Overflow(_, _, _, trace) => is_taken(alloc, job, width, finding, trace),
        _ => Ok(false),
    }
}
