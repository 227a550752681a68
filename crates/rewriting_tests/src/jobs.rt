//! A case as a job: its first invariant is `E = E`, and a further one for each name is `x \in {V, W}`.
//!
//! A line is `x: T = V or W; y: U = V | E`, with the front left out where nothing is declared, and one value where a
//! name has no other; T, V, W and E as `job_text` reads them.

ghost use Rattle.kernel_trees.specs.Systems.{sound_job};
ghost use Rattle.rewriting_tests.specs.Cases.{IsSoundIn};
ghost use Rattle.std.specs.Prelude.{IfOk, IfSome, IsTrue};

use job_text::{job_of, read};
use kera_reducer::reduce;
use kernel_trees::{Ker, KerJob, KerOp};
use snowcat_types::{is_typable, typing, typings_meet_rows};
use std::alloc::{AllocError, Global};
use tla_meaning::{Expr, Job};

// What is declared, without the values.
fn declared(alloc: Global, front: &str) -> Result<String, AllocError> {
    let mut names = String::new(alloc);
    for entry in front.split("; ") {
        let (name, _) = entry.split_once(" = ").unwrap_or((entry, ""));
        if !names.is_empty() {
            names.push_str("; ")?;
        }
        names.push_str(name)?;
    }
    Ok(names)
}

// That the name of an entry is one of its values.
fn put_member(alloc: Global, entry: &str, trees: &mut String) -> Result<(), AllocError> {
    let Some((name, values)) = entry.split_once(" = ") else {
        return Ok(());
    };
    let (letter, _) = name.split_once(": ").unwrap_or((name, ""));
    let (v, w) = values.split_once(" or ").unwrap_or((values, values));
    let member = format!(in alloc; " (in {letter} {{{v} {w}}})")?;
    trees.push_str(member.as_str())
}

// The trees of the job.
fn trees_of(alloc: Global, front: &str, e: &str) -> Result<String, AllocError> {
    let mut trees = format!(in alloc; "TRUE TRUE TRUE TRUE (eq {e} {e})")?;
    for entry in front.split("; ") {
        put_member(alloc, entry, &mut trees)?;
    }
    Ok(trees)
}

/// The job of a line.
pub fn job_in(alloc: Global, line: &str) -> Result<Job, AllocError> {
    let (front, e) = line.split_once(" | ").unwrap_or(("", line));
    let names = declared(alloc, front)?;
    let trees = trees_of(alloc, front, e)?;
    let (job, _) = job_of(alloc, names.as_str(), read(alloc, trees.as_bytes())?)?;
    Ok(job)
}

/// The kernel of a job, where it has one.
pub fn kernel_in(alloc: Global, job: &Job) -> Result<Option<KerJob>, AllocError>
    ensures { IfOk result (λ o. IfSome o (λ k. IsTrue (sound_job k))) }
{
    if !is_typable(alloc, job)? {
        return Ok(None);
    }
    typings_meet_rows();
    let Ok(typed) = typing(alloc, job) else {
        return Ok(None);
    };
    let Ok(kernel) = reduce(alloc, job, &typed) else {
        return Ok(None);
    };
    Ok(Some(kernel))
}

/// The tree of a case.
pub fn operand(kernel: &KerJob) -> Option<&Ker>
    requires { IsTrue (sound_job kernel.now) }
    ensures { IfSome result (λ k. IsSoundIn kernel.now k.now) }
{
    let [invariant, ..] = kernel.invs.as_slice() else {
        return None;
    };
    match (&invariant.op, invariant.args.as_slice()) {
        (KerOp::Equal, [x, _]) => Some(x),
        _ => None,
    }
}

/// The tree of the set of the values of a name.
pub fn value_set(kernel: &KerJob, name: usize) -> Option<&Ker> {
    kernel.invs.get(name.wrapping_add(1))?.args.get(1)
}

/// The expression of a case.
pub fn expression(job: &Job) -> Option<&Expr> {
    job.invs.get(0)?.1.args.get(0)
}

/// The first or the second value of a name.
pub fn value(job: &Job, name: usize, which: usize) -> Option<&Expr> {
    let (_, member) = job.invs.get(name.wrapping_add(1))?;
    member.args.get(1)?.args.get(which)
}
