//! Copies of kernel trees and of steps of paths.

use crate::passing::counts;
use kernel_trees::{Ker, KerOp, PathStep, copy_ker, copy_ker_op, copy_sets, copy_step};
use snowcat_rows::Ty;
use std::alloc::{AllocError, Global};
use std::test::Fail;
use tla_meaning::Place;
use tla_values::{Boxed, List, Text, Value};

fn at(col: u32) -> Place {
    Place {
        file: 0,
        line: 7,
        col,
    }
}

fn text(alloc: Global, word: &str) -> Result<Text, AllocError> {
    let bytes = Vec::from_slice(alloc, word.as_bytes())?;
    Ok(Text::from_vec(bytes))
}

fn number(alloc: Global, n: i128, col: u32) -> Ker {
    Ker {
        place: at(col),
        ty: Ty::Int,
        op: KerOp::Const(Value::Int(n)),
        args: List::new(alloc),
        binds: List::new(alloc),
    }
}

fn children(alloc: Global, n: i128) -> Result<List<Ker>, AllocError> {
    let mut args = List::new(alloc);
    args.push(number(alloc, n, 3))?;
    args.push(number(alloc, 0, 4))?;
    Ok(args)
}

fn bound_five(alloc: Global) -> Result<List<u32>, AllocError> {
    let mut binds = List::new(alloc);
    binds.push(5)?;
    Ok(binds)
}

fn set_of_numbers(alloc: Global) -> Result<Ty, AllocError> {
    Ok(Ty::Set(Boxed::new(alloc, Ty::Int)?))
}

// `{x : #5 \in {n}}` as a tree of two children that binds a number.
fn filter(alloc: Global, n: i128) -> Result<Ker, AllocError> {
    let binds = bound_five(alloc)?;
    let args = children(alloc, n)?;
    let ty = set_of_numbers(alloc)?;
    Ok(Ker {
        place: at(2),
        ty,
        op: KerOp::Filter,
        args,
        binds,
    })
}

fn is_number(k: Option<&Ker>, wanted: i128, col: u32) -> bool {
    match k {
        Some(k) => match &k.op {
            KerOp::Const(Value::Int(n)) => *n == wanted && k.place.col == col,
            _ => false,
        },
        None => false,
    }
}

fn is_filter(k: &Ker, n: i128) -> bool {
    let set = match &k.ty {
        Ty::Set(item) => match item.get() {
            Ty::Int => true,
            _ => false,
        },
        _ => false,
    };
    let op = match &k.op {
        KerOp::Filter => true,
        _ => false,
    };
    set && op
        && k.place.line == 7
        && k.place.col == 2
        && k.args.len() == 2
        && is_number(k.args.get(0), n, 3)
        && is_number(k.args.get(1), 0, 4)
        && k.binds.as_slice() == [5u32].as_slice()
}

// ---- copies, each asked in a function of its own. A tree ends by a call of `drop`, since its end at the end of a
// function has many cases.

fn copied(alloc: Global, tree: Ker) -> Result<Ker, AllocError> {
    let copy = copy_ker(alloc, &tree);
    drop(tree);
    copy
}

fn tree_is_copied(alloc: Global) -> Result<bool, AllocError> {
    let copy = copied(alloc, filter(alloc, 8)?)?;
    let is = is_filter(&copy, 8);
    drop(copy);
    Ok(is)
}

fn count_trees(alloc: Global) -> Result<usize, AllocError> {
    Ok(usize::from(tree_is_copied(alloc)?))
}

#[test]
fn trees_are_copied(rt: HostRuntime) -> Result<(), Fail> {
    counts(&rt, count_trees(rt.alloc()), 1)
}

fn copied_op(alloc: Global, op: KerOp) -> Result<KerOp, AllocError> {
    let copy = copy_ker_op(alloc, &op);
    drop(op);
    copy
}

fn is_primed_three(op: &KerOp) -> bool {
    match op {
        KerOp::Name(i, primed) => *i == 3 && *primed,
        _ => false,
    }
}

fn is_field_f(op: &KerOp) -> bool {
    match op {
        KerOp::FieldOf(f) => f.bytes() == b"f".as_slice(),
        _ => false,
    }
}

fn name_is_copied(alloc: Global) -> Result<bool, AllocError> {
    let copy = copied_op(alloc, KerOp::Name(3, true))?;
    let is = is_primed_three(&copy);
    drop(copy);
    Ok(is)
}

fn field_is_copied(alloc: Global) -> Result<bool, AllocError> {
    let copy = copied_op(alloc, KerOp::FieldOf(text(alloc, "f")?))?;
    let is = is_field_f(&copy);
    drop(copy);
    Ok(is)
}

fn count_operators(alloc: Global) -> Result<usize, AllocError> {
    if !name_is_copied(alloc)? {
        return Ok(0);
    }
    Ok(1 + usize::from(field_is_copied(alloc)?))
}

#[test]
fn operators_are_copied(rt: HostRuntime) -> Result<(), Fail> {
    counts(&rt, count_operators(rt.alloc()), 2)
}

fn copied_step(alloc: Global, step: PathStep) -> Result<PathStep, AllocError> {
    let copy = copy_step(alloc, &step);
    drop(step);
    copy
}

fn is_refused_one(step: &PathStep) -> bool {
    match step {
        PathStep::Guard(k, wanted) => is_filter(k, 1) && !*wanted,
        _ => false,
    }
}

fn guard_is_copied(alloc: Global) -> Result<bool, AllocError> {
    let copy = copied_step(alloc, PathStep::Guard(filter(alloc, 1)?, false))?;
    let is = is_refused_one(&copy);
    drop(copy);
    Ok(is)
}

// A set for one name.
fn one_set(alloc: Global) -> Result<List<(u32, Ker)>, AllocError> {
    let mut sets = List::new(alloc);
    sets.push((4, filter(alloc, 2)?))?;
    Ok(sets)
}

fn is_one_set(sets: &List<(u32, Ker)>) -> bool {
    match sets.get(0) {
        Some(pair) => pair.0 == 4 && is_filter(&pair.1, 2),
        None => false,
    }
}

fn set_is_copied(alloc: Global) -> Result<bool, AllocError> {
    let sets = one_set(alloc)?;
    let copy = copy_sets(alloc, &sets)?;
    Ok(is_one_set(&copy))
}

fn is_one_pick(step: &PathStep) -> bool {
    match step {
        PathStep::Pick(sets) => sets.len() == 1,
        _ => false,
    }
}

fn pick_is_copied(alloc: Global) -> Result<bool, AllocError> {
    let copy = copied_step(alloc, PathStep::Pick(one_set(alloc)?))?;
    let is = is_one_pick(&copy);
    drop(copy);
    Ok(is)
}

fn count_steps(alloc: Global) -> Result<usize, AllocError> {
    if !guard_is_copied(alloc)? {
        return Ok(0);
    }
    if !set_is_copied(alloc)? {
        return Ok(1);
    }
    Ok(2 + usize::from(pick_is_copied(alloc)?))
}

#[test]
fn steps_are_copied(rt: HostRuntime) -> Result<(), Fail> {
    counts(&rt, count_steps(rt.alloc()), 3)
}
