//! How a test ends: the lines of a table of which something is wrong, and how many lines there are.

use std::alloc::{AllocError, Global};
use std::process::Abort;
use std::test::Fail;

/// What was found, where this is not what was wanted.
pub fn unlike<'a>(found: &'a str, wanted: &str) -> &'a str {
    if found == wanted {
        return "";
    }
    found
}

/// Adds a line with what is wrong with it, where this is not nothing.
pub fn put_line(
    alloc: Global,
    line: &str,
    wrong: &str,
    report: &mut String,
) -> Result<(), AllocError> {
    if wrong.is_empty() {
        return Ok(());
    }
    let text = format!(in alloc; "{line} -->{wrong}\n")?;
    report.push_str(text.as_str())
}

/// Adds how many cases were looked at.
pub fn ended(alloc: Global, report: &mut String, cases: usize) -> Result<(), AllocError> {
    let text = format!(in alloc; "{cases} cases")?;
    report.push_str(text.as_str())
}

/// Here alone it is asserted that a report is as wanted.
pub fn passes(
    rt: &impl Abort,
    report: Result<String, AllocError>,
    wanted: &str,
) -> Result<(), Fail> {
    let report = report?;
    assert_eq!(rt; report.as_str(), wanted);
    Ok(())
}
