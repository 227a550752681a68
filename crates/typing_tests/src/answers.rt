// What is answered of the cases, `NAMES | TREES ==> ANSWER` a line, the front left out where nothing is declared: NAMES and
// TREES as `job_text` reads them. ANSWER has the types of their nodes, each before its children; or the types that clash
// with their place and the places of defaults; or the place of an annotation that is no type; or a name without one.
use crate::choices::{ACCESSES, DEFAULTS, TUPLES, UPDATES};
use crate::notes::{ALIASES, CAUSES, DECLARED, DEFINITIONS, PARTS};
use crate::operators::{BINDERS, FUNCTIONS, LOGIC, NUMBERS, SEQUENCES, SETS};
use crate::refusals::{CLASHES, FIRST_CLASHES, ROOTS};
use job_text::{job_of, read};
use snowcat_rows::{Ty, Typed, renumbered, show_type};
use snowcat_types::{TypeFault, is_typable, typing};
use std::alloc::{AllocError, Global};
use std::process::Abort;
use std::test::Fail;
use tla_meaning::{Job, Place};

fn show_types(alloc: Global, types: &[Ty], out: &mut Vec<u8>) -> Result<(), AllocError> {
    for (i, t) in types.iter().enumerate() {
        if i > 0 {
            out.extend_from_slice(b"; ")?;
        }
        show_type(alloc, t, out)?;
    }
    Ok(())
}

// The types of the parts from this one on; where there is none, those of the names.
fn show_typed(
    alloc: Global,
    typed: &Typed,
    from: usize,
    out: &mut Vec<u8>,
) -> Result<(), AllocError> {
    let parts = typed.parts.as_slice();
    if parts.len() <= from {
        return show_types(alloc, typed.names.as_slice(), out);
    }
    for (i, part) in parts.iter().enumerate() {
        if i > from {
            out.extend_from_slice(b" / ")?;
        }
        if i >= from {
            show_types(alloc, part.as_slice(), out)?;
        }
    }
    Ok(())
}

fn show_column(
    alloc: Global,
    mark: &str,
    place: Place,
    out: &mut Vec<u8>,
) -> Result<(), AllocError> {
    let column = place.col;
    out.extend_from_slice(format!(in alloc; " {mark}{column}")?.as_bytes())
}

fn show_both(alloc: Global, types: &(Ty, Ty), out: &mut Vec<u8>) -> Result<(), AllocError> {
    show_type(alloc, &types.0, out)?;
    out.extend_from_slice(b" # ")?;
    show_type(alloc, &types.1, out)
}

fn show_clash(alloc: Global, a: &Ty, b: &Ty, out: &mut Vec<u8>) -> Result<(), AllocError> {
    let types = renumbered(alloc, a, b)?;
    let shown = show_both(alloc, &types, out);
    drop(types);
    shown
}

fn show_defaults(alloc: Global, places: &[Place], out: &mut Vec<u8>) -> Result<(), AllocError> {
    if !places.is_empty() {
        out.extend_from_slice(b" defaults")?;
    }
    for place in places {
        show_column(alloc, "", *place, out)?;
    }
    Ok(())
}

fn show_fault(alloc: Global, fault: &TypeFault, out: &mut Vec<u8>) -> Result<(), AllocError> {
    match fault {
        TypeFault::NotAnnotated(name, place) => {
            out.extend_from_slice(b"untyped ")?;
            out.extend_from_slice(name.bytes())?;
            show_column(alloc, "@", *place, out)
        }
        TypeFault::BadAnnotation(place) => {
            out.extend_from_slice(b"bad")?;
            show_column(alloc, "@", *place, out)
        }
        TypeFault::Clash(place, a, b, defaults) => {
            show_clash(alloc, a, b, out)?;
            show_column(alloc, "@", *place, out)?;
            show_defaults(alloc, defaults.as_slice(), out)
        }
        TypeFault::Memory(_) => out.extend_from_slice(b"memory"),
    }
}

fn show_typing(
    alloc: Global,
    answer: &Result<Typed, TypeFault>,
    from: usize,
    out: &mut Vec<u8>,
) -> Result<(), AllocError> {
    match answer {
        Ok(typed) => show_typed(alloc, typed, from, out),
        Err(fault) => show_fault(alloc, fault, out),
    }
}

// What is answered of a job, the types from this part on. Here and below a job and its types end by a call of `drop`,
// since their end at the end of a function has many cases.
fn show_answer(alloc: Global, job: &Job, from: usize, out: &mut Vec<u8>) -> Result<(), AllocError> {
    if !is_typable(alloc, job)? {
        return out.extend_from_slice(b"not typable");
    }
    let answer = typing(alloc, job);
    let shown = show_typing(alloc, &answer, from, out);
    drop(answer);
    shown
}

fn show_line(alloc: Global, front: &str, trees: &str, out: &mut Vec<u8>) -> Result<(), AllocError> {
    let (job, from) = job_of(alloc, front, read(alloc, trees.as_bytes())?)?;
    let shown = show_answer(alloc, &job, from, out);
    drop(job);
    shown
}

fn answered(alloc: Global, front: &str, trees: &str) -> Result<Vec<u8>, AllocError> {
    let mut out = Vec::new(alloc);
    show_line(alloc, front, trees, &mut out)?;
    Ok(out)
}

fn add_bytes(all: &mut String, bytes: &[u8]) -> Result<(), AllocError> {
    for byte in bytes {
        all.push(char::from(*byte))?;
    }
    Ok(())
}

fn add_wrong(line: &str, given: &[u8], all: &mut String) -> Result<(), AllocError> {
    all.push_str(line)?;
    all.push_str(" GIVES ")?;
    add_bytes(all, given)?;
    all.push('\n')
}

// The line and what is answered, where that is not what it says.
fn wrong_line(alloc: Global, line: &str, all: &mut String) -> Result<(), AllocError> {
    let (asked, wanted) = line.split_once(" ==> ").unwrap_or((line, ""));
    let (front, trees) = asked.split_once(" | ").unwrap_or(("", asked));
    let given = answered(alloc, front, trees)?;
    if given.as_slice() == wanted.as_bytes() {
        return Ok(());
    }
    add_wrong(line, given.as_slice(), all)
}

fn wrong_lines(alloc: Global, table: &str, all: &mut String) -> Result<(), AllocError> {
    for line in table.lines() {
        wrong_line(alloc, line, all)?;
    }
    Ok(())
}

fn wrong(alloc: Global, tables: &[&str]) -> Result<String, AllocError> {
    let mut all = String::new(alloc);
    for table in tables {
        wrong_lines(alloc, *table, &mut all)?;
    }
    Ok(all)
}

// Fails the test where a line of the tables is wrong.
fn passes(rt: &impl Abort, wrong: Result<String, AllocError>) -> Result<(), Fail> {
    assert_eq!(rt; wrong?.as_str(), "");
    Ok(())
}

#[test]
fn operators_have_their_types(rt: HostRuntime) -> Result<(), Fail> {
    passes(
        &rt,
        wrong(
            rt.alloc(),
            &[LOGIC, NUMBERS, SETS, BINDERS, FUNCTIONS, SEQUENCES],
        ),
    )
}

#[test]
fn types_that_differ_clash_at_their_node(rt: HostRuntime) -> Result<(), Fail> {
    passes(&rt, wrong(rt.alloc(), &[CLASHES, FIRST_CLASHES]))
}

#[test]
fn parts_are_truth_values(rt: HostRuntime) -> Result<(), Fail> {
    passes(&rt, wrong(rt.alloc(), &[ROOTS]))
}

#[test]
fn overloaded_nodes_take_a_choice(rt: HostRuntime) -> Result<(), Fail> {
    passes(&rt, wrong(rt.alloc(), &[TUPLES, ACCESSES, UPDATES]))
}

#[test]
fn defaults_are_taken_in_the_order_of_places(rt: HostRuntime) -> Result<(), Fail> {
    passes(&rt, wrong(rt.alloc(), &[DEFAULTS]))
}

#[test]
fn annotations_are_read(rt: HostRuntime) -> Result<(), Fail> {
    passes(&rt, wrong(rt.alloc(), &[DECLARED, ALIASES, CAUSES]))
}

#[test]
fn definitions_are_typed_at_each_use(rt: HostRuntime) -> Result<(), Fail> {
    passes(&rt, wrong(rt.alloc(), &[DEFINITIONS]))
}

#[test]
fn each_part_has_its_types(rt: HostRuntime) -> Result<(), Fail> {
    passes(&rt, wrong(rt.alloc(), &[PARTS]))
}
