//! What all assignments say of the paths of a job, as a text.

ghost use Rattle.kernel_trees.specs.Systems.{sound_job};
ghost use Rattle.path_cell_tests.specs.Tested.{IsTested, IsTestedSystem};
ghost use Rattle.std.specs.Prelude.{IfOk, IsTrue};
ghost use Rattle.tla_meaning.specs.declared.actions.Assignable.TheVariants as assignable;

use crate::models::{copy_formula, found, is_true, leave_out};
use crate::paths::{WIDTH, Written, write_path};
use crate::systems::{Missing, kernel_of, system_of};
use cell_arena::{Build, CellId};
use job_text::{job_of, read};
use kernel_trees::{Assigned, KerJob, System};
use sat_formula::{Assignment, Formula, Lit};
use shape_bounds::start_shapes;
use std::alloc::{AllocError, Global};
use std::str;
use tla_meaning::{Decl, Job};
use tla_values::{List, show};
use trace_decoder::decode;

// The greatest number of assignments that are looked at.
const MOST: usize = 4096;

// ---- under one assignment

fn put_value(
    alloc: Global,
    b: &Build,
    id: CellId,
    a: &Assignment,
    out: &mut Vec<u8>,
) -> Result<(), AllocError> {
    if id.index >= b.arena.len() {
        return Err(AllocError);
    }
    let v = decode(alloc, b, id, a)?;
    show(alloc, &v, out)
}

// The value that a path gives a name, if it gives one.
fn put_item(
    alloc: Global,
    b: &Build,
    item: &Option<(CellId, Lit)>,
    a: &Assignment,
    out: &mut Vec<u8>,
) -> Result<(), AllocError> {
    out.extend_from_slice(b" ")?;
    match item {
        Some((id, l)) if is_true(*l, a) => put_value(alloc, b, *id, a, out),
        _ => out.extend_from_slice(b"-"),
    }
}

// The values of the state, and those that the path gives.
fn states_text(alloc: Global, w: &Written, a: &Assignment) -> Result<Vec<u8>, AllocError> {
    let mut out = Vec::new(alloc);
    for id in w.state.as_slice() {
        put_value(alloc, &w.b, *id, a, &mut out)?;
        out.extend_from_slice(b" ")?;
    }
    out.extend_from_slice(b"->")?;
    for item in w.path.next.as_slice() {
        put_item(alloc, &w.b, item, a, &mut out)?;
    }
    Ok(out)
}

// ---- under all

// Adds the text of an assignment from a start, if it is new.
fn add_text(
    alloc: Global,
    w: &Written,
    a: &Assignment,
    texts: &mut Vec<Vec<u8>>,
) -> Result<(), AllocError> {
    let text = states_text(alloc, w, a)?;
    if is_true(w.starts, a) && !texts.iter().any(|t| t.as_slice() == text.as_slice()) {
        texts.push(text)?;
    }
    Ok(())
}

// The texts of all assignments that make the literal true, from a start, in the order of their bytes.
fn texts_where(
    alloc: Global,
    w: &Written,
    f: &mut Formula,
    l: Lit,
) -> Result<Vec<Vec<u8>>, AllocError> {
    let mut texts = Vec::new(alloc);
    for _i in 0..MOST {
        let Some(a) = found(alloc, f, l)? else {
            texts.sort()?;
            return Ok(texts);
        };
        add_text(alloc, w, &a, &mut texts)?;
        leave_out(alloc, f, &a)?;
    }
    Err(AllocError)
}

// The texts behind the word, behind what is there.
fn put_where(
    alloc: Global,
    w: &Written,
    word: &str,
    l: Lit,
    out: &mut String,
) -> Result<(), AllocError> {
    let mut f = copy_formula(alloc, &w.b.formula)?;
    let texts = texts_where(alloc, w, &mut f, l)?;
    for text in texts.as_slice() {
        if !out.is_empty() {
            out.push_str(", ")?;
        }
        out.push_str(word)?;
        out.push_str(str::from_utf8(text.as_slice()).unwrap_or("?"))?;
    }
    Ok(())
}

fn written_text(alloc: Global, w: &Written) -> Result<String, AllocError> {
    let mut out = String::new(alloc);
    put_where(alloc, w, "holds ", w.path.holds, &mut out)?;
    put_where(alloc, w, "wrong ", w.path.wrong, &mut out)?;
    put_where(alloc, w, "big ", w.path.big, &mut out)?;
    if out.is_empty() {
        out.push_str("never")?;
    }
    Ok(out)
}

fn size_text(alloc: Global, w: &Written) -> Result<String, AllocError> {
    format!(in alloc; "{} ", w.b.formula.vars())
}

// ---- of a job

// What is asked of the paths.
#[derive(Clone, Copy)]
enum Asked {
    Outcomes,
    Sizes,
}

// Of a path from the first start.
fn path_text(
    alloc: Global,
    asked: Asked,
    system: &System,
    first: &Assigned,
    path: &Assigned,
) -> Result<String, AllocError>
    requires first { IsTested system.now.ker.names (assignable.Variables 0) first.now }
    requires path { IsTested system.now.ker.names (assignable.PrimedVariables 0) path.now }
{
    let shapes = start_shapes(alloc, system, WIDTH)?;
    let types = system.ker.names.as_slice();
    match write_path(alloc, types, first, &shapes, path)? {
        Some(w) => {
            let text = match asked {
                Asked::Outcomes => written_text(alloc, &w),
                Asked::Sizes => size_text(alloc, &w),
            };
            drop(w);
            text
        }
        None => String::from_str(alloc, "not written"),
    }
}

fn system_text(alloc: Global, asked: Asked, system: &System) -> Result<String, AllocError>
    requires { IsTestedSystem system.now }
{
    let mut out = String::new(alloc);
    let starts = system.start.as_slice();
    let paths = system.next.as_slice();
    if starts.is_empty() {
        return Ok(out);
    }
    let first = &starts[0];
    for i in 0..paths.len() {
        if i > 0 {
            out.push_str(" / ")?;
        }
        let path = &paths[i];
        let text = path_text(alloc, asked, system, first, path)?;
        out.push_str(text.as_str())?;
    }
    Ok(out)
}

fn kernel_text(
    alloc: Global,
    asked: Asked,
    names: &List<Decl>,
    kernel: KerJob,
) -> Result<String, AllocError>
    requires { IsTrue (sound_job kernel) }
{
    match system_of(alloc, names, kernel) {
        Ok(system) => {
            let text = system_text(alloc, asked, &system);
            drop(system);
            text
        }
        Err(Missing(word)) => String::from_str(alloc, word),
    }
}

fn job_text(alloc: Global, asked: Asked, job: &Job) -> Result<String, AllocError> {
    match kernel_of(alloc, job) {
        Ok(kernel) => kernel_text(alloc, asked, &job.names, kernel),
        Err(Missing(word)) => String::from_str(alloc, word),
    }
}

fn line_text(alloc: Global, asked: Asked, line: &str) -> Result<String, AllocError> {
    let (names, trees) = line.split_once(" | ").unwrap_or(("", line));
    let all = format!(in alloc; "{trees} TRUE")?;
    let trees = read(alloc, all.as_bytes())?;
    let (job, _) = job_of(alloc, names, trees)?;
    let text = job_text(alloc, asked, &job);
    drop(job);
    text
}

/// What all assignments say of the paths of a line's step.
pub(crate) fn answer(alloc: Global, line: &str) -> Result<String, AllocError> {
    line_text(alloc, Asked::Outcomes, line)
}

/// How many variables the formulas of these paths have.
pub(crate) fn sizes(alloc: Global, line: &str) -> Result<String, AllocError> {
    line_text(alloc, Asked::Sizes, line)
}
