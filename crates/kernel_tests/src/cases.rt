// The answers to the lines of tables.
use crate::actions::{ACTIONS, CASES, POSITIONS, REFUSALS};
use crate::details::{PLACES, TYPES};
use crate::passing::same;
use crate::reducing::{Answer, part_texts, reduced};
use crate::scans::{INFINITE, TEXTS};
use crate::showing::Detail;
use crate::updates::{PAIRED, UPDATE_PLACES, UPDATE_TYPES, UPDATES};
use crate::values::{BINDERS, COMPARISONS, FORMS, FUNCTIONS, LOGIC, NUMBERS, SEQUENCES, SETS};
use job_text::{job_of, read};
use kera_reducer::{least_infinite, texts_of};
use std::alloc::{AllocError, Global};
use std::test::Fail;
use tla_meaning::{Decl, Job, Place};
use tla_values::Text;

// A way to answer of a job.
#[derive(Clone, Copy, Drop)]
enum Question {
    Infinite,
    Texts,
    Kernel(Detail),
}

fn column_text(alloc: Global, place: Place) -> Result<Vec<u8>, AllocError> {
    let text = format!(in alloc; "{}", place.col)?;
    Vec::from_slice(alloc, text.as_bytes())
}

fn infinite_text(alloc: Global, job: &Job) -> Result<Vec<u8>, AllocError> {
    match least_infinite(job) {
        Some(place) => column_text(alloc, place),
        None => Vec::from_slice(alloc, b"none"),
    }
}

fn words_text(alloc: Global, texts: &[Text]) -> Result<Vec<u8>, AllocError> {
    let mut out = Vec::new(alloc);
    for (i, text) in texts.iter().enumerate() {
        if i > 0 {
            out.extend_from_slice(b" ")?;
        }
        out.extend_from_slice(text.bytes())?;
    }
    Ok(out)
}

fn literals_text(alloc: Global, job: &Job) -> Result<Vec<u8>, AllocError> {
    let texts = texts_of(alloc, job)?;
    words_text(alloc, texts.as_slice())
}

// The parts from this one on.
fn joined_from(alloc: Global, before: usize, texts: &[Vec<u8>]) -> Result<Vec<u8>, AllocError> {
    let mut out = Vec::new(alloc);
    for (i, text) in texts.iter().enumerate() {
        if i > before {
            out.extend_from_slice(b" / ")?;
        }
        if i >= before {
            out.extend_from_slice(text)?;
        }
    }
    Ok(out)
}

// The parts of a job's kernel from this one on, or why it has none.
fn answer_text(
    alloc: Global,
    names: &[Decl],
    before: usize,
    detail: Detail,
    answer: &Answer,
) -> Result<Vec<u8>, AllocError> {
    match answer {
        Answer::Kernel(kernel) => {
            let texts = part_texts(alloc, names, detail, kernel)?;
            joined_from(alloc, before, &texts)
        }
        Answer::Infinite(place) => infinite_at(alloc, *place),
        Answer::Nothing(why) => Vec::from_slice(alloc, why.as_bytes()),
    }
}

fn infinite_at(alloc: Global, place: Place) -> Result<Vec<u8>, AllocError> {
    let text = format!(in alloc; "infinite at {}", place.col)?;
    Vec::from_slice(alloc, text.as_bytes())
}

fn kernel_text(
    alloc: Global,
    job: &Job,
    before: usize,
    detail: Detail,
) -> Result<Vec<u8>, AllocError> {
    let answer = reduced(alloc, job)?;
    let text = answer_text(alloc, job.names.as_slice(), before, detail, &answer);
    drop(answer);
    text
}

fn told(
    alloc: Global,
    question: Question,
    job: &Job,
    before: usize,
) -> Result<Vec<u8>, AllocError> {
    match question {
        Question::Infinite => infinite_text(alloc, job),
        Question::Texts => literals_text(alloc, job),
        Question::Kernel(detail) => kernel_text(alloc, job, before, detail),
    }
}

fn answered(
    alloc: Global,
    question: Question,
    front: &str,
    trees: &str,
) -> Result<Vec<u8>, AllocError> {
    let trees = read(alloc, trees.as_bytes())?;
    let (job, before) = job_of(alloc, front, trees)?;
    let text = told(alloc, question, &job, before);
    drop(job);
    text
}

// The names that are declared where a line declares none.
fn usual_front(question: Question) -> &'static str {
    match question {
        Question::Infinite | Question::Texts => "x; y; z",
        Question::Kernel(_) => "",
    }
}

fn put_wrong(line: &str, given: &[u8], all: &mut Vec<u8>) -> Result<(), AllocError> {
    all.extend_from_slice(line.as_bytes())?;
    all.extend_from_slice(b" GIVES ")?;
    all.extend_from_slice(given)?;
    all.extend_from_slice(b"\n")
}

// The line and what is answered, where that is not what it says.
fn wrong_line(
    alloc: Global,
    question: Question,
    line: &str,
    all: &mut Vec<u8>,
) -> Result<(), AllocError> {
    let (asked, wanted) = line.split_once(" ==>").unwrap_or((line, ""));
    let wanted = wanted.strip_prefix(" ").unwrap_or("");
    let (front, trees) = asked
        .split_once(" | ")
        .unwrap_or((usual_front(question), asked));
    let given = answered(alloc, question, front, trees)?;
    if given.as_slice() == wanted.as_bytes() {
        return Ok(());
    }
    put_wrong(line, given.as_slice(), all)
}

fn wrong_lines(
    alloc: Global,
    question: Question,
    table: &str,
    all: &mut Vec<u8>,
) -> Result<(), AllocError> {
    for line in table.lines() {
        wrong_line(alloc, question, line, all)?;
    }
    Ok(())
}

fn wrong(alloc: Global, question: Question, tables: &[&str]) -> Result<Vec<u8>, AllocError> {
    let mut all = Vec::new(alloc);
    for table in tables {
        wrong_lines(alloc, question, *table, &mut all)?;
    }
    Ok(all)
}

const KERNELS: Question = Question::Kernel(Detail::Nothing);

const TYPED: Question = Question::Kernel(Detail::Types);

const PLACED: Question = Question::Kernel(Detail::Columns);

#[test]
fn infinite_sets_are_found(rt: HostRuntime) -> Result<(), Fail> {
    same(&rt, wrong(rt.alloc(), Question::Infinite, &[INFINITE]), "")
}

#[test]
fn texts_are_found_once(rt: HostRuntime) -> Result<(), Fail> {
    same(&rt, wrong(rt.alloc(), Question::Texts, &[TEXTS]), "")
}

#[test]
fn operators_have_their_kernels(rt: HostRuntime) -> Result<(), Fail> {
    same(
        &rt,
        wrong(
            rt.alloc(),
            KERNELS,
            &[
                LOGIC,
                COMPARISONS,
                NUMBERS,
                SETS,
                FORMS,
                BINDERS,
                FUNCTIONS,
                SEQUENCES,
            ],
        ),
        "",
    )
}

#[test]
fn actions_keep_their_paths(rt: HostRuntime) -> Result<(), Fail> {
    same(
        &rt,
        wrong(rt.alloc(), KERNELS, &[ACTIONS, CASES, POSITIONS, REFUSALS]),
        "",
    )
}

#[test]
fn made_nodes_have_types_and_places(rt: HostRuntime) -> Result<(), Fail> {
    same(&rt, wrong(rt.alloc(), TYPED, &[TYPES]), "")?;
    same(&rt, wrong(rt.alloc(), PLACED, &[PLACES]), "")
}

#[test]
fn updates_have_their_kernels(rt: HostRuntime) -> Result<(), Fail> {
    same(&rt, wrong(rt.alloc(), KERNELS, &[UPDATES, PAIRED]), "")?;
    same(&rt, wrong(rt.alloc(), TYPED, &[UPDATE_TYPES]), "")?;
    same(&rt, wrong(rt.alloc(), PLACED, &[UPDATE_PLACES]), "")
}
