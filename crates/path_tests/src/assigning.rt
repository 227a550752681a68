//! The assignments on the paths of small actions, or what is wrong with them.
//!
//! A path is its place's column and its steps: a guard as its column behind `+` or, where it is to be FALSE, `-`; a pick
//! as its numbers and the columns of its sets; an assignment as the name with the column of its value behind `=` or of
//! its form behind `:`.

use crate::actions::names;
use crate::passing::{Shower, count_right, counts};
use crate::splitting::paths_of;
use assignment_finder::{AssignFault, assign};
use kernel_trees::{ActionKind, Assigned, AssignedStep, Ker, KerPath};
use std::alloc::{AllocError, Global};
use std::test::Fail;
use tla_meaning::{Decl, Place};
use tla_values::List;

fn letter(name: usize) -> &'static str {
    match name {
        0 => "c",
        1 => "x",
        2 => "y",
        _ => "?",
    }
}

fn show_sets(alloc: Global, sets: &[(u32, Ker)], out: &mut Vec<u8>) -> Result<(), AllocError> {
    for (number, set) in sets {
        let text = format!(in alloc; "!{number}:{}", set.place.col)?;
        out.extend_from_slice(text.as_bytes())?;
    }
    Ok(())
}

fn show_one(
    alloc: Global,
    before: &str,
    sign: &str,
    k: &Ker,
    out: &mut Vec<u8>,
) -> Result<(), AllocError> {
    let text = format!(in alloc; "{before}{sign}{}", k.place.col)?;
    out.extend_from_slice(text.as_bytes())
}

fn show_step(alloc: Global, step: &AssignedStep, out: &mut Vec<u8>) -> Result<(), AllocError> {
    match step {
        AssignedStep::Guard(k, true) => show_one(alloc, "", "+", k, out),
        AssignedStep::Guard(k, false) => show_one(alloc, "", "-", k, out),
        AssignedStep::Pick(sets) => show_sets(alloc, sets.as_slice(), out),
        AssignedStep::Equals(name, k) => show_one(alloc, letter(*name), "=", k, out),
        AssignedStep::Among(name, k) => show_one(alloc, letter(*name), ":", k, out),
    }
}

fn show_assigned(alloc: Global, path: &Assigned, out: &mut Vec<u8>) -> Result<(), AllocError> {
    let text = format!(in alloc; "{}", path.place.col)?;
    out.extend_from_slice(text.as_bytes())?;
    for step in path.steps.as_slice() {
        show_step(alloc, step, out)?;
    }
    Ok(())
}

fn show_named(
    alloc: Global,
    name: usize,
    word: &str,
    at: Place,
    out: &mut Vec<u8>,
) -> Result<(), AllocError> {
    let text = format!(in alloc; "{} {word} {}", letter(name), at.col)?;
    out.extend_from_slice(text.as_bytes())
}

fn show_infinite(alloc: Global, at: Place, out: &mut Vec<u8>) -> Result<(), AllocError> {
    let text = format!(in alloc; "infinite {}", at.col)?;
    out.extend_from_slice(text.as_bytes())
}

fn show_answer(
    alloc: Global,
    answer: &Result<Assigned, AssignFault>,
    out: &mut Vec<u8>,
) -> Result<(), AllocError> {
    match answer {
        Ok(path) => show_assigned(alloc, path, out),
        Err(AssignFault::Unassigned(name, at)) => show_named(alloc, *name, "lacking", *at, out),
        Err(AssignFault::ReadEarly(name, at)) => show_named(alloc, *name, "early", *at, out),
        Err(AssignFault::Infinite(at)) => show_infinite(alloc, *at, out),
        Err(AssignFault::Memory(_)) => Err(AllocError),
    }
}

// What becomes of a path. A path ends by a call of `drop`, here and elsewhere, since its end at the end of a function has
// many cases.
fn show_path(
    alloc: Global,
    path: &KerPath,
    names: &List<Decl>,
    kind: ActionKind,
    out: &mut Vec<u8>,
) -> Result<(), AllocError> {
    let answer = assign(alloc, path, names, kind);
    let shown = show_answer(alloc, &answer, out);
    drop(answer);
    shown?;
    out.extend_from_slice(b";")
}

fn show_paths(
    alloc: Global,
    paths: &[KerPath],
    kind: ActionKind,
    out: &mut Vec<u8>,
) -> Result<(), AllocError> {
    let names = names(alloc)?;
    for path in paths {
        show_path(alloc, path, &names, kind, out)?;
    }
    Ok(())
}

// What becomes of the paths of an action.
struct Assignments;

impl Shower for Assignments {
    fn put(
        &self,
        alloc: Global,
        kind: ActionKind,
        text: &[u8],
        out: &mut Vec<u8>,
    ) -> Result<(), AllocError> {
        match paths_of(alloc, kind, text) {
            Ok(paths) => show_paths(alloc, paths.as_slice(), kind, out),
            Err(_) => Err(AllocError),
        }
    }
}

fn count(alloc: Global, kind: ActionKind, table: &str) -> Result<usize, AllocError> {
    count_right(alloc, &Assignments, kind, table)
}

const ASSIGNED: &str = r#"-- x' = 1 /\ y' = 1
X1=Y1=& => 7x=2y=5;
-- the second `x' = 1` is a guard
X1=X1=Y1=A => 10x=2+6y=8;
XseY1=& => 7x:2y=5;
-- x = 1 is a guard
x1=X1=Y1=A => 10+3x=5y=8;
-- y' is read behind its assignment
Y1=XY=& => 7y=2x=5;
-- FALSE and no case end a path
F => 1+1;
N => 1+1;
X1=F& => 5x=2+4;
-- IF x THEN x' = 1 /\ y' = 1 ELSE FALSE
xX1=Y1=&F? => 8+1x=3y=6;9-1+9;
-- \E over a set
sX1=Y1=&E => 9!1:1x=3y=6;
-- a function set's domain is no part of it
XisfeY1=& => 9x:4y=7;
-- x' \in Int behind x' = 1 is a guard
X1=XieY1=A => 10x=2+6y=8;
-- SUBSET s, and [a: s]
XsPeY1=& => 8x:3y=6;
XsReY1=& => 8x:3y=6;"#;

const REFUSED: &str = r#"-- 1 = x', x' = y' /\ y' = 1, x' = x'
1X=X1=Y1=A => x early 2;
XY=Y1=& => y early 2;
XX=Y1=& => x early 2;
-- the first step that reads early decides, and in it the first place
YX&X1=Y1=A => y early 1;
XT&Y1=Y~A => x early 1;
-- x' as the guard of an IF, for both branches
XX1=T? => x early 1;x early 1;
-- ELSE behind x' = 1
X1=Y1=F? => 6x=2y=5;x early 1;
-- the sets of a pick
YX1=Y1=&E => y early 1;
sYTD => y early 2;
-- names that are not assigned, the first of them, also behind FALSE where that does not end the path
X1= => y lacking 3;
Y1= => x lacking 3;
T => x lacking 1;
X1=Y1=&X1=| => 7x=2y=5;y lacking 10;
xFX1=? => 2+1+2;y lacking 5;
-- infinite sets, and forms that have them as parts
XieY1=& => infinite 2;
XneY1=& => infinite 2;
XiPeY1=& => infinite 2;
XsifeY1=& => infinite 3;
XsqeY1=& => infinite 3;
XiqeY1=& => infinite 2;
XiReY1=& => infinite 2;
XsnpeY1=& => infinite 3;
-- of a name that is read early and an infinite set the earlier place counts
XYifeY1=& => y early 2;
XiYpeY1=& => infinite 2;"#;

#[test]
fn the_first_of_each_name_is_its_assignment(rt: HostRuntime) -> Result<(), Fail> {
    counts(&rt, count(rt.alloc(), ActionKind::Step, ASSIGNED), 14)
}

#[test]
fn the_first_that_is_wrong_with_a_path_is_told(rt: HostRuntime) -> Result<(), Fail> {
    counts(&rt, count(rt.alloc(), ActionKind::Step, REFUSED), 24)
}

const CINIT: &str = r#"c1= => 3c=2;
cse => 3c:2;
T => c lacking 1;
x1= => c lacking 3;"#;

const INIT: &str = r#"x1=y1=& => 7x=2y=5;
xy=y1=& => y early 2;
xc=y1=& => 7x=2y=5;"#;

#[test]
fn each_kind_assigns_its_names(rt: HostRuntime) -> Result<(), Fail> {
    counts(&rt, count(rt.alloc(), ActionKind::Constants, CINIT), 4)?;
    counts(&rt, count(rt.alloc(), ActionKind::Start, INIT), 3)
}
