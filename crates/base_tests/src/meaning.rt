use crate::passing::passes;
use std::alloc::{AllocError, Global};
use std::test::Fail;
use tla_meaning::{Decl, Expr, Job, Op, Place, State};
use tla_values::{List, Text, Value, same_value};

const PLACE: Place = Place {
    file: 0,
    line: 2,
    col: 3,
};

fn text(alloc: Global, bytes: &[u8]) -> Result<Text, AllocError> {
    Ok(Text::from_vec(Vec::from_slice(alloc, bytes)?))
}

fn leaf(alloc: Global, op: Op) -> Expr {
    Expr {
        place: PLACE,
        op,
        args: List::new(alloc),
        binds: List::new(alloc),
    }
}

fn constant(alloc: Global) -> Result<Decl, AllocError> {
    let name = text(alloc, b"c")?;
    let note = text(alloc, b" @type: Int;")?;
    Ok(Decl {
        name,
        place: PLACE,
        constant: true,
        note,
    })
}

fn one_constant(alloc: Global) -> Result<List<Decl>, AllocError> {
    let mut names = List::new(alloc);
    names.push(constant(alloc)?)?;
    Ok(names)
}

fn one_invariant(alloc: Global) -> Result<List<(Text, Expr)>, AllocError> {
    let mut invs = List::new(alloc);
    invs.push((text(alloc, b"Inv")?, leaf(alloc, Op::Int(4))))?;
    Ok(invs)
}

// A job with a tree of its own in each part.
fn job_of(alloc: Global, names: List<Decl>, invs: List<(Text, Expr)>) -> Job {
    Job {
        files: List::new(alloc),
        names,
        aliases: List::new(alloc),
        cinit: leaf(alloc, Op::Int(0)),
        assume: leaf(alloc, Op::Int(1)),
        init: leaf(alloc, Op::Int(2)),
        next: leaf(alloc, Op::Int(3)),
        invs,
    }
}

// A job of one constant with one invariant.
fn small_job(alloc: Global) -> Result<Job, AllocError> {
    let names = one_constant(alloc)?;
    let invs = one_invariant(alloc)?;
    Ok(job_of(alloc, names, invs))
}

fn number_of(e: &Expr) -> i128 {
    match e.op {
        Op::Int(n) => n,
        _ => -1,
    }
}

fn has_trees(job: &Job) -> bool {
    number_of(&job.cinit) == 0
        && number_of(&job.assume) == 1
        && number_of(&job.init) == 2
        && number_of(&job.next) == 3
}

fn has_parts(job: &Job) -> bool {
    has_trees(job) && job.names.len() == 1 && job.invs.len() == 1
}

// A job ends in each of these two alone, since its end has many cases.
fn small_copy(alloc: Global) -> Result<Job, AllocError> {
    let job = small_job(alloc)?;
    let copy = job.copy(alloc);
    drop(job);
    copy
}

fn are_parts(job: Job) -> bool {
    let are = has_parts(&job);
    drop(job);
    are
}

fn job_is_copied(alloc: Global) -> Result<bool, AllocError> {
    Ok(are_parts(small_copy(alloc)?))
}

fn first_is(state: &State, value: &Value) -> bool {
    match state.vals.get(0) {
        Some(first) => same_value(first, value),
        None => false,
    }
}

fn state(alloc: Global, n: i128) -> Result<State, AllocError> {
    let mut vals = List::new(alloc);
    vals.push(Value::Int(n))?;
    Ok(State { vals })
}

fn state_is_copied(alloc: Global, n: i128) -> Result<bool, AllocError> {
    Ok(first_is(&state(alloc, n)?.copy(alloc)?, &Value::Int(n)))
}

fn count_copies(alloc: Global) -> Result<usize, AllocError> {
    if !job_is_copied(alloc)? {
        return Ok(0);
    }
    if !state_is_copied(alloc, 7)? {
        return Ok(1);
    }
    Ok(2)
}

#[test]
fn copies_have_the_same_parts(rt: HostRuntime) -> Result<(), Fail> {
    passes(&rt, count_copies(rt.alloc()), 2)
}
