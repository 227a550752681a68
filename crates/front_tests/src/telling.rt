// Which line is answered of sets of modules.
use crate::asking::{Told, asked, passes};
use crate::line_cases::{LINES, TWO_CAUSES};
use crate::sets::{Part, fails_of, part_of, put_files};
use std::alloc::{AllocError, Global};
use std::test::Fail;
use tool_outside::MemoryFiles;

fn answer_over(
    alloc: Global,
    set: &str,
    words: &str,
    files: &mut MemoryFiles,
) -> Result<String, AllocError> {
    put_files(alloc, set, files)?;
    asked(alloc, Told::Line, words, files)
}

// The line that is answered where the files of a set are there.
fn answer(alloc: Global, set: &str, words: &str) -> Result<String, AllocError> {
    let fails = fails_of(alloc, set)?;
    let mut files = MemoryFiles::new(alloc, fails);
    let line = answer_over(alloc, set, words, &mut files);
    drop(files);
    line
}

// Adds a title and what is answered there.
fn tell(title: &str, words: &str, found: &str, report: &mut String) -> Result<(), AllocError> {
    report.push_str(title)?;
    report.push_str(": ")?;
    report.push_str(words)?;
    report.push_str(" gives ")?;
    report.push_str(found)
}

// How many lines are answered as they stand there, of the one that is asked for; if it is not, it is added to the report.
fn right_line(
    alloc: Global,
    set: &str,
    part: Part,
    report: &mut String,
) -> Result<usize, AllocError> {
    let line = answer(alloc, set, part.rest)?;
    if line.as_str().strip_suffix('\n') == Some(part.body) {
        return Ok(1);
    }
    let title = set.lines().next().unwrap_or("");
    tell(title, part.rest, line.as_str(), report)?;
    Ok(0)
}

// The same of all that are asked for in a set.
fn right_lines(alloc: Global, set: &str, report: &mut String) -> Result<usize, AllocError> {
    let mut count: usize = 0;
    for text in set.split("\n>").skip(1) {
        let part = part_of(text);
        if part.word == "ask" {
            count = count.wrapping_add(right_line(alloc, set, part, report)?);
        }
    }
    Ok(count)
}

// The lines that are answered otherwise than they stand in the text, and how many are answered so.
fn told(alloc: Global, text: &str) -> Result<String, AllocError> {
    let mut report = String::new(alloc);
    let mut count: usize = 0;
    for set in text.split("\n>set ").skip(1) {
        count = count.wrapping_add(right_lines(alloc, set, &mut report)?);
    }
    let last = format!(in alloc; "{count} lines as they stand")?;
    report.push_str(last.as_str())?;
    Ok(report)
}

#[test]
fn each_cause_has_its_line(rt: HostRuntime) -> Result<(), Fail> {
    passes(&rt, told(rt.alloc(), LINES), "45 lines as they stand")
}

#[test]
fn of_two_causes_the_first_is_told(rt: HostRuntime) -> Result<(), Fail> {
    passes(&rt, told(rt.alloc(), TWO_CAUSES), "16 lines as they stand")
}
