// What is answered of a job: its kernel, or why it has none.
use crate::showing::{Detail, tree_text};
use kera_reducer::reduce;
use kernel_trees::{Ker, KerFault, KerJob};
use snowcat_rows::Typed;
use snowcat_types::{TypeFault, is_typable, typing};
use std::alloc::{AllocError, Global};
use tla_meaning::{Decl, Job, Place};

/// What is answered of a job.
#[derive(Drop)]
pub(crate) enum Answer {
    Kernel(KerJob),
    /// An infinite set stands here.
    Infinite(Place),
    /// What went wrong.
    Nothing(&'static str),
}

fn answer_of(answer: Result<KerJob, KerFault>) -> Answer {
    match answer {
        Ok(kernel) => Answer::Kernel(kernel),
        Err(KerFault::NotFinite(place)) => Answer::Infinite(place),
        Err(KerFault::Memory(_)) => Answer::Nothing("memory"),
    }
}

// The answer of reduction. Types, kernels and jobs end by a call of `drop`, here and elsewhere, since their end at the end
// of a function has many cases.
fn of_typed(alloc: Global, job: &Job, typed: Typed) -> Answer {
    let answer = reduce(alloc, job, &typed);
    drop(typed);
    answer_of(answer)
}

fn not_typed(fault: TypeFault) -> Answer {
    drop(fault);
    Answer::Nothing("not typed")
}

/// The answer of typing and reduction.
pub(crate) fn reduced(alloc: Global, job: &Job) -> Result<Answer, AllocError> {
    if !is_typable(alloc, job)? {
        return Ok(Answer::Nothing("not typable"));
    }
    match typing(alloc, job) {
        Ok(typed) => Ok(of_typed(alloc, job, typed)),
        Err(fault) => Ok(not_typed(fault)),
    }
}

fn parts_of<'a>(alloc: Global, kernel: &'a KerJob) -> Result<Vec<&'a Ker>, AllocError> {
    let mut parts = Vec::new(alloc);
    for part in [&kernel.cinit, &kernel.assume, &kernel.init, &kernel.next] {
        parts.push(part)?;
    }
    for part in kernel.invs.as_slice() {
        parts.push(part)?;
    }
    Ok(parts)
}

/// The texts of CInit, the assumptions, Init, Next and the invariants.
pub(crate) fn part_texts(
    alloc: Global,
    names: &[Decl],
    detail: Detail,
    kernel: &KerJob,
) -> Result<Vec<Vec<u8>>, AllocError> {
    let mut texts = Vec::new(alloc);
    for part in parts_of(alloc, kernel)? {
        texts.push(tree_text(alloc, names, detail, part)?)?;
    }
    Ok(texts)
}
