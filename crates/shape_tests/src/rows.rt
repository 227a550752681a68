// Rows `QUESTION | NAMES | TREES ==> ANSWER`: `answers` and `trees` have the questions, and `job_text` says how NAMES and
// TREES are written.
use crate::answers::job_answer;
use crate::first_rows::{LEVELS, REFUSALS};
use crate::start_rows::{FROM_THE_START, FROM_TYPES};
use crate::tree_rows::{RANGES, SHAPES};
use job_text::{job_of, read};
use std::alloc::{AllocError, Global};
use std::process::Abort;
use std::test::Fail;

fn answered(alloc: Global, asked: &str) -> Result<String, AllocError> {
    let (question, rest) = asked.split_once(" | ").unwrap_or((asked, ""));
    let (names, trees) = rest.split_once(" | ").unwrap_or(("", rest));
    let trees = read(alloc, trees.as_bytes())?;
    let (job, _) = job_of(alloc, names, trees)?;
    let text = job_answer(alloc, question, &job);
    drop(job);
    text
}

// Whether a row is answered as it says; else it is added to the report.
fn is_right(alloc: Global, row: &str, report: &mut String) -> Result<bool, AllocError> {
    let (asked, wanted) = row.split_once(" ==> ").unwrap_or((row, ""));
    let given = answered(alloc, asked)?;
    if given.as_str() == wanted {
        return Ok(true);
    }
    let wrong = format!(in alloc; "{row} GIVES {}\n", given.as_str())?;
    report.push_str(wrong.as_str())?;
    Ok(false)
}

// The rows that are answered otherwise, and how many are answered as they say.
fn report_of(alloc: Global, table: &str) -> Result<String, AllocError> {
    let mut report = String::new(alloc);
    let mut right: usize = 0;
    for row in table.lines() {
        if is_right(alloc, row, &mut report)? {
            right = right.wrapping_add(1);
        }
    }
    let count = format!(in alloc; "{right} rows")?;
    report.push_str(count.as_str())?;
    Ok(report)
}

// Here alone it is asserted that a table has so many rows, which are answered as they say.
fn passes(rt: &impl Abort, report: Result<String, AllocError>, wanted: &str) -> Result<(), Fail> {
    let report = report?;
    assert_eq!(rt; report.as_str(), wanted);
    Ok(())
}

#[test]
fn levels_follow_from_first_shapes(rt: HostRuntime) -> Result<(), Fail> {
    passes(&rt, report_of(rt.alloc(), LEVELS), "17 rows")
}

#[test]
fn first_shapes_lead_past_limits(rt: HostRuntime) -> Result<(), Fail> {
    passes(&rt, report_of(rt.alloc(), REFUSALS), "12 rows")
}

#[test]
fn levels_follow_from_the_start(rt: HostRuntime) -> Result<(), Fail> {
    passes(&rt, report_of(rt.alloc(), FROM_THE_START), "14 rows")
}

#[test]
fn types_give_first_shapes(rt: HostRuntime) -> Result<(), Fail> {
    passes(&rt, report_of(rt.alloc(), FROM_TYPES), "7 rows")
}

#[test]
fn trees_have_their_shapes(rt: HostRuntime) -> Result<(), Fail> {
    passes(&rt, report_of(rt.alloc(), SHAPES), "10 rows")
}

#[test]
fn ranges_have_their_bounds(rt: HostRuntime) -> Result<(), Fail> {
    passes(&rt, report_of(rt.alloc(), RANGES), "13 rows")
}
