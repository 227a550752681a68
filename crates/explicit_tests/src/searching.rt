// The plain search of the executions of a job, level by level, over all its states.
use crate::asking::{Seen, invariant_seen, members_of, next_seen, start_seen};
use crate::findings::{Faults, Found};
use std::alloc::{AllocError, Global};
use tla_meaning::{Expr, Job, Query, State};
use tla_values::{List, Value, copy_value};

/// A job, the bits of its integers, and all states that it may have.
#[derive(Drop)]
pub(crate) struct Space<'a> {
    pub job: &'a Job,
    pub width: u32,
    pub states: Vec<State>,
}

// The set on the right of a membership.
fn values_of(alloc: Global, membership: &Expr) -> Result<Vec<Value>, AllocError> {
    match membership.args.get(1) {
        Some(set) => members_of(alloc, set),
        None => Ok(Vec::new(alloc)),
    }
}

fn with_value(alloc: Global, s: &State, v: &Value) -> Result<State, AllocError> {
    let v = copy_value(alloc, v)?;
    let mut t = s.copy(alloc)?;
    t.vals.push(v)?;
    Ok(t)
}

fn extend(
    alloc: Global,
    s: &State,
    values: &[Value],
    all: &mut Vec<State>,
) -> Result<(), AllocError> {
    for v in values {
        let t = with_value(alloc, s, v)?;
        all.push(t)?;
    }
    Ok(())
}

// The states with a value more, which is any of these.
fn extended(alloc: Global, states: &[State], values: &[Value]) -> Result<Vec<State>, AllocError> {
    let mut all = Vec::new(alloc);
    for s in states {
        extend(alloc, s, values, &mut all)?;
    }
    Ok(all)
}

/// The states that the invariants behind the first allow, a membership for each variable.
pub(crate) fn states_of(alloc: Global, job: &Job) -> Result<Vec<State>, AllocError> {
    let mut states = Vec::new(alloc);
    states.push(State {
        vals: List::new(alloc),
    })?;
    for named in job.invs.as_slice().iter().skip(1) {
        let values = values_of(alloc, &named.1)?;
        states = extended(alloc, &states, &values)?;
    }
    Ok(states)
}

// Adds for each state whether the start leads to it, and the faults there.
fn add_first_steps(
    alloc: Global,
    space: &Space,
    reached: &mut Vec<bool>,
    faults: &mut Faults,
) -> Result<(), AllocError> {
    for t in &space.states {
        let seen = start_seen(alloc, space.job, t, space.width)?;
        faults.add(seen)?;
        reached.push(seen == Seen::Yes)?;
    }
    Ok(())
}

// Whether a step leads to the state from one of those that are reached.
fn steps_to(
    alloc: Global,
    space: &Space,
    from: &[bool],
    t: &State,
    faults: &mut Faults,
) -> Result<bool, AllocError> {
    let mut is_reached = false;
    for (s, is_from) in space.states.iter().zip(from) {
        if *is_from {
            let seen = next_seen(alloc, space.job, s, t, space.width)?;
            faults.add(seen)?;
            is_reached = is_reached || seen == Seen::Yes;
        }
    }
    Ok(is_reached)
}

// The same of a step from a state that is reached.
fn add_next_steps(
    alloc: Global,
    space: &Space,
    from: &[bool],
    reached: &mut Vec<bool>,
    faults: &mut Faults,
) -> Result<(), AllocError> {
    for t in &space.states {
        let is_reached = steps_to(alloc, space, from, t, faults)?;
        reached.push(is_reached)?;
    }
    Ok(())
}

fn add_steps(
    alloc: Global,
    space: &Space,
    level: u32,
    from: &[bool],
    reached: &mut Vec<bool>,
    faults: &mut Faults,
) -> Result<(), AllocError> {
    if level == 0 {
        add_first_steps(alloc, space, reached, faults)
    } else {
        add_next_steps(alloc, space, from, reached, faults)
    }
}

fn found_by_steps(
    alloc: Global,
    space: &Space,
    level: u32,
    from: &[bool],
    reached: &mut Vec<bool>,
) -> Result<Option<Found>, AllocError> {
    let mut faults = Faults::new(alloc);
    add_steps(alloc, space, level, from, reached, &mut faults)?;
    Ok(faults.first(level, Query::StepWrong, Query::StepBig))
}

fn add_broken(
    alloc: Global,
    space: &Space,
    reached: &[bool],
    faults: &mut Faults,
) -> Result<(), AllocError> {
    for (s, is_reached) in space.states.iter().zip(reached) {
        if *is_reached {
            let seen = invariant_seen(alloc, space.job, s, space.width)?;
            faults.add_false(seen)?;
        }
    }
    Ok(())
}

fn found_in_states(
    alloc: Global,
    space: &Space,
    level: u32,
    reached: &[bool],
) -> Result<Option<Found>, AllocError> {
    let mut faults = Faults::new(alloc);
    add_broken(alloc, space, reached, &mut faults)?;
    Ok(faults.first(level, Query::InvNotTrue, Query::InvBig))
}

// What is found at a level behind these states; those that are reached there are added.
fn found_at(
    alloc: Global,
    space: &Space,
    level: u32,
    from: &[bool],
    reached: &mut Vec<bool>,
) -> Result<Option<Found>, AllocError> {
    match found_by_steps(alloc, space, level, from, reached)? {
        Some(found) => Ok(Some(found)),
        None => found_in_states(alloc, space, level, reached),
    }
}

/// The first question that holds at a level up to the length, with the places where it does.
pub(crate) fn search(
    alloc: Global,
    space: &Space,
    length: u32,
) -> Result<Option<Found>, AllocError> {
    let mut from = Vec::new(alloc);
    for level in 0..length.saturating_add(1) {
        let mut reached = Vec::new(alloc);
        if let Some(found) = found_at(alloc, space, level, &from, &mut reached)? {
            return Ok(Some(found));
        }
        from = reached;
    }
    Ok(None)
}
