//! What is answered of the cases.
use crate::cases::{FAULTS, FORMS, PICKS, SIMPLE};
use crate::outcomes::{answer, sizes};
use std::alloc::{AllocError, Global};
use std::process::Abort;
use std::test::Fail;

// Whether a line is answered as it says; else it is added to the report.
fn is_right(alloc: Global, line: &str, report: &mut String) -> Result<bool, AllocError> {
    let (asked, wanted) = line.split_once(" => ").unwrap_or((line, ""));
    let given = answer(alloc, asked)?;
    if given.as_str() == wanted {
        return Ok(true);
    }
    let wrong = format!(in alloc; "{line} GIVES {}\n", given.as_str())?;
    report.push_str(wrong.as_str())?;
    Ok(false)
}

// The lines that are answered otherwise, and how many are answered as they say.
fn report_of(alloc: Global, table: &str) -> Result<String, AllocError> {
    let mut report = String::new(alloc);
    let mut right: usize = 0;
    for line in table.lines() {
        if is_right(alloc, line, &mut report)? {
            right = right.wrapping_add(1);
        }
    }
    let count = format!(in alloc; "{right} lines")?;
    report.push_str(count.as_str())?;
    Ok(report)
}

// The numbers of variables of the formulas.
fn sizes_of(alloc: Global, table: &str) -> Result<String, AllocError> {
    let mut out = String::new(alloc);
    for line in table.lines() {
        let text = sizes(alloc, line)?;
        out.push_str(text.as_str())?;
    }
    Ok(out)
}

fn passes(rt: &impl Abort, report: Result<String, AllocError>, wanted: &str) -> Result<(), Fail> {
    let report = report?;
    assert_eq!(rt; report.as_str(), wanted);
    Ok(())
}

#[test]
fn faults_count_where_a_path_leads(rt: HostRuntime) -> Result<(), Fail> {
    passes(&rt, report_of(rt.alloc(), FAULTS), "10 lines")
}

#[test]
fn all_members_are_reached_and_nothing_else(rt: HostRuntime) -> Result<(), Fail> {
    passes(&rt, report_of(rt.alloc(), PICKS), "10 lines")
}

#[test]
fn members_of_forms_are_reached(rt: HostRuntime) -> Result<(), Fail> {
    passes(&rt, report_of(rt.alloc(), FORMS), "10 lines")
}

#[test]
fn steps_without_a_choice_add_no_variable(rt: HostRuntime) -> Result<(), Fail> {
    passes(&rt, sizes_of(rt.alloc(), SIMPLE), "1 1 1 1 ")
}
