//! Paths of small actions, and of large ones that are refused.

use crate::actions::{action, names};
use crate::passing::{Shower, count_right, counts};
use kernel_trees::{ActionKind, Ker, KerPath, PathStep};
use std::alloc::{AllocError, Global};
use std::process::Abort;
use std::test::Fail;
use tla_values::List;
use transition_splitter::{SplitFault, split};

fn show_guard(alloc: Global, k: &Ker, wanted: bool, out: &mut Vec<u8>) -> Result<(), AllocError> {
    let sign = if wanted { "+" } else { "-" };
    let text = format!(in alloc; "{sign}{}", k.place.col)?;
    out.extend_from_slice(text.as_bytes())
}

fn show_sets(alloc: Global, sets: &[(u32, Ker)], out: &mut Vec<u8>) -> Result<(), AllocError> {
    for (number, set) in sets {
        let text = format!(in alloc; "!{number}:{}", set.place.col)?;
        out.extend_from_slice(text.as_bytes())?;
    }
    Ok(())
}

// A guard as its column behind `+` or, where it is to be FALSE, `-`; a pick as its numbers and the columns of its sets.
fn show_step(alloc: Global, step: &PathStep, out: &mut Vec<u8>) -> Result<(), AllocError> {
    match step {
        PathStep::Guard(k, wanted) => show_guard(alloc, k, *wanted, out),
        PathStep::Pick(sets) => show_sets(alloc, sets.as_slice(), out),
    }
}

fn show_path(alloc: Global, path: &KerPath, out: &mut Vec<u8>) -> Result<(), AllocError> {
    let text = format!(in alloc; "{}", path.place.col)?;
    out.extend_from_slice(text.as_bytes())?;
    for step in path.steps.as_slice() {
        show_step(alloc, step, out)?;
    }
    out.extend_from_slice(b";")
}

fn show_paths(alloc: Global, paths: &[KerPath], out: &mut Vec<u8>) -> Result<(), AllocError> {
    for path in paths {
        show_path(alloc, path, out)?;
    }
    Ok(())
}

/// The paths of the action of a text.
pub(crate) fn paths_of(
    alloc: Global,
    kind: ActionKind,
    text: &[u8],
) -> Result<List<KerPath>, SplitFault> {
    let names = names(alloc)?;
    let part = action(alloc, text)?;
    let paths = split(alloc, &part, &names, kind);
    drop(part);
    paths
}

struct Paths;

impl Shower for Paths {
    fn put(
        &self,
        alloc: Global,
        kind: ActionKind,
        text: &[u8],
        out: &mut Vec<u8>,
    ) -> Result<(), AllocError> {
        match paths_of(alloc, kind, text) {
            Ok(paths) => show_paths(alloc, paths.as_slice(), out),
            Err(SplitFault::TooManyPaths(_)) => out.extend_from_slice(b"many"),
            Err(SplitFault::Memory(e)) => Err(e),
        }
    }
}

fn count(alloc: Global, kind: ActionKind, table: &str) -> Result<usize, AllocError> {
    count_right(alloc, &Paths, kind, table)
}

const NEXT: &str = r#"-- one operand
x => 1+1;
-- FALSE /\ (x' \/ y') ends at FALSE
FXY|& => 5+1;
XY|x& => 1+1+4;2+2+4;
-- the first operand's paths in order, each with the second's in order
XY|XY|& => 4+1+4;5+1+5;4+2+4;5+2+5;
XY|XY|| => 1+1;2+2;4+4;5+5;
-- (FALSE \/ x') /\ y' ends at FALSE in its first path alone; TRUE is no end
FX|Y& => 1+1;2+2+4;
TXY|& => 2+1+2;3+1+3;
-- IF x THEN x' ELSE FALSE, alone and before y'
xXF? => 2+1+2;3-1+3;
xXF?Y& => 2+1+2+5;3-1+3;
-- a primed name in the guard alone, a disjunction in a branch, a branch that is one operand; FALSE ends no path as a
-- guard
Xxy? => 2+1+2;3-1+3;
xXY|X? => 2+1+2;3+1+3;5-1+5;
xyxy?X? => 5+1+5;6-1+6;
FXT?Y& => 2+1+2+5;3-1+3+5;
-- what holds no primed name is one operand
xy| => 3+3;
cc| => 3+3;
xyT? => 4+4;
Xxy|& => 5+1+4;
-- so is what stands under a negation
X~Y& => 4+2+3;
-- \E: both paths behind one choice, of one set and of two
sXY|E => 2!1:1+2;3!1:1+3;
ssXD => 4!1:1!2:2+3;
sXEY& => 5!1:1+2+4;
sxE => 3!1:1+2;
XsyE| => 1+1;4!1:2+3;
-- x' \/ (~x /\ no case), alone and before y'
Xx~N&| => 1+1;5+3+4;
Xx~N&|Y& => 1+1+7;5+3+4;
-- a conjunction of nothing, and a disjunction of nothing
A => 1;
O => 1+1;"#;

#[test]
fn actions_have_their_paths(rt: HostRuntime) -> Result<(), Fail> {
    counts(&rt, count(rt.alloc(), ActionKind::Step, NEXT), 27)
}

const CINIT: &str = r#"cc| => 1+1;2+2;
xy| => 3+3;"#;

const INIT: &str = r#"xy| => 1+1;2+2;
cc| => 3+3;"#;

#[test]
fn each_kind_assigns_its_names(rt: HostRuntime) -> Result<(), Fail> {
    counts(&rt, count(rt.alloc(), ActionKind::Constants, CINIT), 2)?;
    counts(&rt, count(rt.alloc(), ActionKind::Start, INIT), 2)
}

// ---- large actions

// The text, so many times, between the first and the last byte.
fn repeated(
    alloc: Global,
    first: &str,
    text: &str,
    count: u32,
    last: u8,
) -> Result<Vec<u8>, AllocError> {
    let mut whole = Vec::from_slice(alloc, first.as_bytes())?;
    for _ in 0..count {
        whole.extend_from_slice(text.as_bytes())?;
    }
    whole.push(last)?;
    Ok(whole)
}

// How many paths are answered, and how many a refusal tells.
fn numbers(alloc: Global, text: &[u8]) -> Result<(usize, u64), AllocError> {
    match paths_of(alloc, ActionKind::Step, text) {
        Ok(paths) => Ok((paths.len(), 0)),
        Err(SplitFault::TooManyPaths(n)) => Ok((0, n)),
        Err(SplitFault::Memory(e)) => Err(e),
    }
}

fn numbers_of(
    alloc: Global,
    first: &str,
    text: &str,
    count: u32,
    last: u8,
) -> Result<(usize, u64), AllocError> {
    let text = repeated(alloc, first, text, count, last)?;
    numbers(alloc, text.as_slice())
}

// Fails the test where other numbers are told.
fn same(
    rt: &impl Abort,
    numbers: Result<(usize, u64), AllocError>,
    wanted: (usize, u64),
) -> Result<(), Fail> {
    assert_eq!(rt; numbers?, wanted);
    Ok(())
}

#[test]
fn more_than_4096_paths_are_refused(rt: HostRuntime) -> Result<(), Fail> {
    let alloc = rt.alloc();
    same(&rt, numbers_of(alloc, "", "X", 4096, b'O'), (4096, 0))?;
    same(&rt, numbers_of(alloc, "", "X", 4097, b'O'), (0, 4097))?;
    same(&rt, numbers_of(alloc, "", "XY|", 12, b'A'), (4096, 0))?;
    same(&rt, numbers_of(alloc, "", "XY|", 13, b'A'), (0, 8192))
}

#[test]
fn numbers_are_told_up_to_a_greatest(rt: HostRuntime) -> Result<(), Fail> {
    let alloc = rt.alloc();
    let greatest = (0, 1000000000000);
    same(
        &rt,
        numbers_of(alloc, "", "XY|", 39, b'A'),
        (0, 549755813888),
    )?;
    same(&rt, numbers_of(alloc, "", "XY|", 40, b'A'), greatest)?;
    same(&rt, numbers_of(alloc, "", "XY|", 200, b'A'), greatest)
}

// Each operand x' \/ FALSE ends one path more.
#[test]
fn ends_add_up(rt: HostRuntime) -> Result<(), Fail> {
    let alloc = rt.alloc();
    same(&rt, numbers_of(alloc, "", "XF|", 100, b'A'), (101, 0))?;
    same(&rt, numbers_of(alloc, "", "XF|", 4096, b'A'), (0, 4097))
}

const TWELVE_AND_FALSE: &str = "XY|XY|XY|XY|XY|XY|XY|XY|XY|XY|XY|XY|F";

// What stands behind FALSE is not taken apart.
#[test]
fn nothing_follows_an_end(rt: HostRuntime) -> Result<(), Fail> {
    let alloc = rt.alloc();
    let behind = numbers_of(alloc, TWELVE_AND_FALSE, "XY|", 200, b'A');
    same(&rt, numbers_of(alloc, "F", "XY|", 200, b'A'), (1, 0))?;
    same(&rt, behind, (4096, 0))
}
