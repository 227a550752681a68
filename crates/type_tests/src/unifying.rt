//! Types that are made equal, or cannot be.

use crate::cases::STEPS;
use crate::passing::{Teller, counts, first_wrong, passes};
use crate::postfix::types_of;
use crate::showing::put_both;
use snowcat_rows::{Subst, Ty, UnifyFault, has_distinct_names, is_within};
use std::alloc::{AllocError, Global};
use std::test::Fail;
use tla_values::Boxed;

// A substitution that has issued so many variables.
fn issued(alloc: Global, count: u32) -> Subst {
    let mut s = Subst::new(alloc);
    for _i in 0..count {
        if s.issued() < 4294967295 {
            let _ = s.fresh();
        }
    }
    s
}

/// A substitution that has issued five variables.
pub(crate) fn five(alloc: Global) -> Subst {
    issued(alloc, 5)
}

fn settled(alloc: Global, s: &Subst, t: &Ty) -> Result<Ty, AllocError> {
    let settled = s.settled(alloc)?;
    let whole = settled.resolved(alloc, t);
    drop(settled);
    whole
}

// What both types are.
fn both_of(alloc: Global, s: &Subst, a: &Ty, b: &Ty) -> Result<(Ty, Ty), AllocError> {
    let left = settled(alloc, s, a)?;
    let right = s.resolved(alloc, b)?;
    Ok((left, right))
}

// Adds what both types are after one call, or the two parts that clash.
fn step(alloc: Global, s: &mut Subst, a: &Ty, b: &Ty, out: &mut Vec<u8>) -> Result<(), AllocError> {
    if !is_within(a, s.issued()) || !is_within(b, s.issued()) {
        return out.extend_from_slice(b"not issued");
    }
    if !has_distinct_names(a) || !has_distinct_names(b) {
        return out.extend_from_slice(b"a name twice");
    }
    match s.unify(a, b) {
        Ok(()) => put_both(alloc, both_of(alloc, s, a, b)?, " = ", out),
        Err(UnifyFault::Clash(x, y)) => put_both(alloc, (x, y), " # ", out),
        Err(UnifyFault::Memory(e)) => Err(e),
    }
}

fn put_step(alloc: Global, s: &mut Subst, pair: &str, out: &mut Vec<u8>) -> Result<(), AllocError> {
    if !out.is_empty() {
        out.extend_from_slice(b"; ")?;
    }
    let types = types_of(alloc, pair)?;
    let put = step(alloc, s, &types.0, &types.1, out);
    drop(types);
    put
}

fn put_steps(
    alloc: Global,
    s: &mut Subst,
    steps: &str,
    out: &mut Vec<u8>,
) -> Result<(), AllocError> {
    for pair in steps.split(", ") {
        put_step(alloc, s, pair, out)?;
    }
    Ok(())
}

struct Steps;

impl Teller for Steps {
    fn tell(
        &self,
        alloc: Global,
        asked: &str,
        _wanted: &str,
        out: &mut Vec<u8>,
    ) -> Result<(), AllocError> {
        let mut s = five(alloc);
        let put = put_steps(alloc, &mut s, asked, out);
        drop(s);
        put
    }
}

#[test]
fn types_are_made_equal_in_the_most_general_way(rt: HostRuntime) -> Result<(), Fail> {
    passes(&rt, first_wrong(rt.alloc(), &Steps, STEPS, " => "))
}

/// Makes two types equal where that is possible and they may be passed.
pub(crate) fn bind(s: &mut Subst, a: &Ty, b: &Ty) -> Result<(), AllocError> {
    if !is_within(a, s.issued()) || !is_within(b, s.issued()) {
        return Ok(());
    }
    if !has_distinct_names(a) || !has_distinct_names(b) {
        return Ok(());
    }
    match s.unify(a, b) {
        Ok(()) => Ok(()),
        Err(UnifyFault::Clash(x, y)) => {
            drop((x, y));
            Ok(())
        }
        Err(UnifyFault::Memory(e)) => Err(e),
    }
}

// A variable, and the set of the next one.
fn link(alloc: Global, v: u32) -> Result<(Ty, Ty), AllocError> {
    let next = Boxed::new(alloc, Ty::Var(v.wrapping_add(1)))?;
    Ok((Ty::Var(v), Ty::Set(next)))
}

fn bind_link(alloc: Global, s: &mut Subst, v: u32) -> Result<(), AllocError> {
    let types = link(alloc, v)?;
    let bound = bind(s, &types.0, &types.1);
    drop(types);
    bound
}

// Binds so many variables, each to the set of the next.
fn bind_all(alloc: Global, s: &mut Subst, sets: u32) -> Result<(), AllocError> {
    for v in 0..sets {
        bind_link(alloc, s, v)?;
    }
    Ok(())
}

fn is_told(answer: Result<Ty, AllocError>) -> bool {
    let is = answer.is_ok();
    drop(answer);
    is
}

// How many of both calls tell what the type stands for.
fn count_told(alloc: Global, s: &Subst, t: &Ty) -> usize {
    let first = is_told(s.resolved(alloc, t));
    let second = is_told(settled(alloc, s, t));
    usize::from(first) + usize::from(second)
}

fn count_first(alloc: Global, s: &Subst) -> usize {
    let first = Ty::Var(0);
    let count = count_told(alloc, s, &first);
    drop(first);
    count
}

// How many of both calls tell what the first of a chain of so many sets stands for.
fn told(alloc: Global, sets: u32) -> Result<usize, AllocError> {
    let mut s = issued(alloc, sets.saturating_add(1));
    let bound = bind_all(alloc, &mut s, sets);
    let count = count_first(alloc, &s);
    drop(s);
    bound?;
    Ok(count)
}

#[test]
fn types_of_more_than_1000_levels_are_want_of_memory(rt: HostRuntime) -> Result<(), Fail> {
    counts(&rt, told(rt.alloc(), 999), 2)?;
    counts(&rt, told(rt.alloc(), 1000), 0)
}
