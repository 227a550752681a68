//! Which jobs can be typed.

use crate::passing::counts;
use snowcat_types::is_typable;
use std::alloc::{AllocError, Global};
use std::test::Fail;
use tla_meaning::{Decl, Expr, Form, Job, Op, Place};
use tla_values::{List, Text};

const PLACE: Place = Place {
    file: 0,
    line: 1,
    col: 1,
};

// A tree without operands.
#[derive(Drop, Clone, Copy)]
enum Leaf<'a> {
    True,
    One,
    Choose,
    Prime,
    Bound(&'a str),
    Use(&'a str),
    /// A declared name, and whether it is primed.
    Name(usize, bool),
}

fn text(alloc: Global, word: &str) -> Result<Text, AllocError> {
    let bytes = Vec::from_slice(alloc, word.as_bytes())?;
    Ok(Text::from_vec(bytes))
}

fn op_of(alloc: Global, leaf: Leaf) -> Result<Op, AllocError> {
    match leaf {
        Leaf::True => Ok(Op::Bool(true)),
        Leaf::One => Ok(Op::Int(1)),
        Leaf::Choose => Ok(Op::Outside(Form::Choose)),
        Leaf::Prime => Ok(Op::Prime),
        Leaf::Bound(name) => Ok(Op::Bound(text(alloc, name)?)),
        Leaf::Use(name) => Ok(Op::Use(text(alloc, name)?)),
        Leaf::Name(number, primed) => Ok(Op::Name(number, primed)),
    }
}

fn node(op: Op, args: List<Expr>, binds: List<Text>) -> Expr {
    Expr {
        place: PLACE,
        op,
        args,
        binds,
    }
}

fn truth(alloc: Global) -> Expr {
    node(Op::Bool(true), List::new(alloc), List::new(alloc))
}

fn tree_of(alloc: Global, leaf: Leaf) -> Result<Expr, AllocError> {
    let op = op_of(alloc, leaf)?;
    Ok(node(op, List::new(alloc), List::new(alloc)))
}

fn set_of(alloc: Global, item: Leaf) -> Result<Expr, AllocError> {
    let mut items = List::new(alloc);
    items.push(tree_of(alloc, item)?)?;
    Ok(node(Op::SetEnum, items, List::new(alloc)))
}

fn bound_x(alloc: Global) -> Result<List<Text>, AllocError> {
    let mut names = List::new(alloc);
    names.push(text(alloc, "x")?)?;
    Ok(names)
}

// `\E x \in {domain} : body`.
fn exists(alloc: Global, domain: Leaf, body: Leaf) -> Result<Expr, AllocError> {
    let mut args = List::new(alloc);
    args.push(set_of(alloc, domain)?)?;
    args.push(tree_of(alloc, body)?)?;
    Ok(node(Op::Exists, args, bound_x(alloc)?))
}

// What stands around the tree in a job: one name, and a leaf as the invariant.
#[derive(Drop)]
struct Around {
    names: List<Decl>,
    invs: List<(Text, Expr)>,
}

fn declared(alloc: Global) -> Result<Decl, AllocError> {
    let name = text(alloc, "c")?;
    let note = text(alloc, " @type: Int;")?;
    Ok(Decl {
        name,
        place: PLACE,
        constant: true,
        note,
    })
}

fn one_name(alloc: Global) -> Result<List<Decl>, AllocError> {
    let mut names = List::new(alloc);
    names.push(declared(alloc)?)?;
    Ok(names)
}

fn one_invariant(alloc: Global, inv: Leaf) -> Result<List<(Text, Expr)>, AllocError> {
    let mut invs = List::new(alloc);
    let name = text(alloc, "Inv")?;
    invs.push((name, tree_of(alloc, inv)?))?;
    Ok(invs)
}

fn surroundings(alloc: Global, inv: Leaf) -> Result<Around, AllocError> {
    let names = one_name(alloc)?;
    let invs = one_invariant(alloc, inv)?;
    Ok(Around { names, invs })
}

fn job_of(alloc: Global, init: Expr, around: Around) -> Job {
    let Around { names, invs } = around;
    Job {
        files: List::new(alloc),
        names,
        aliases: List::new(alloc),
        cinit: truth(alloc),
        assume: truth(alloc),
        init,
        next: truth(alloc),
        invs,
    }
}

// A job ends in this function alone, since its end has many cases.
fn can_be_typed(alloc: Global, job: Job) -> Result<bool, AllocError> {
    let can = is_typable(alloc, &job);
    drop(job);
    can
}

// Whether a job of one name with this tree as its Init and this leaf as its invariant can be typed.
fn both(alloc: Global, init: Expr, inv: Leaf) -> Result<bool, AllocError> {
    let around = surroundings(alloc, inv)?;
    can_be_typed(alloc, job_of(alloc, init, around))
}

// How many are right before the first that is wrong, of leaves as Init and as invariant, and whether they can be typed.
fn count_leaves(alloc: Global, cases: &[(Leaf, Leaf, bool)]) -> Result<usize, AllocError> {
    for (i, (init, inv, wanted)) in cases.iter().enumerate() {
        if both(alloc, tree_of(alloc, *init)?, *inv)? != *wanted {
            return Ok(i);
        }
    }
    Ok(cases.len())
}

static DECLARED: [(Leaf, Leaf, bool); 3] = [
    (Leaf::Name(0, false), Leaf::True, true),
    (Leaf::Name(1, false), Leaf::True, false),
    (Leaf::True, Leaf::Name(1, true), false),
];

#[test]
fn declared_names_are_of_the_job(rt: HostRuntime) -> Result<(), Fail> {
    counts(&rt, count_leaves(rt.alloc(), &DECLARED), 3)
}

static REFUSED: [(Leaf, Leaf, bool); 3] = [
    (Leaf::Choose, Leaf::True, false),
    (Leaf::Use("F"), Leaf::True, false),
    (Leaf::Prime, Leaf::True, false),
];

#[test]
fn what_is_only_refused_is_no_tree_to_type(rt: HostRuntime) -> Result<(), Fail> {
    counts(&rt, count_leaves(rt.alloc(), &REFUSED), 3)
}

// How many are right, of leaves as domain and as body of `\E x` that is the Init.
fn count_bound(alloc: Global, cases: &[(Leaf, Leaf, bool)]) -> Result<usize, AllocError> {
    for (i, (domain, body, wanted)) in cases.iter().enumerate() {
        if both(alloc, exists(alloc, *domain, *body)?, Leaf::True)? != *wanted {
            return Ok(i);
        }
    }
    Ok(cases.len())
}

static BOUND: [(Leaf, Leaf, bool); 3] = [
    (Leaf::One, Leaf::Bound("x"), true),
    (Leaf::Bound("x"), Leaf::One, false),
    (Leaf::One, Leaf::Bound("y"), false),
];

#[test]
fn bound_names_are_bound_in_the_body_alone(rt: HostRuntime) -> Result<(), Fail> {
    counts(&rt, count_bound(rt.alloc(), &BOUND), 3)
}
