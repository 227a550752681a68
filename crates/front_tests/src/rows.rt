// What is answered of the lines of tables.
use crate::asking::{Told, asked, passes};
use crate::cases::{CONSTANTS, PAIRS, ROWS, WITH_CONSTANT};
use std::alloc::{AllocError, Global};
use std::test::Fail;
use tla_values::List;
use tool_outside::MemoryFiles;

fn answer_over(
    alloc: Global,
    module: &str,
    words: &str,
    files: &mut MemoryFiles,
) -> Result<String, AllocError> {
    files.put("Row.tla", module.as_bytes())?;
    asked(alloc, Told::Words, words, files)
}

// What is answered where this is the text of the module `Row`.
fn answer(alloc: Global, module: &str, words: &str) -> Result<String, AllocError> {
    let mut files = MemoryFiles::new(alloc, List::new(alloc));
    let text = answer_over(alloc, module, words, &mut files);
    drop(files);
    text
}

// The operator; a number stands for a conjunction of so many disjunctions.
fn body(alloc: Global, part: &str) -> Result<String, AllocError> {
    let Ok(count) = part.parse::<usize>() else {
        return String::from_str(alloc, part);
    };
    let mut all = String::from_str(alloc, "(x' = 0 \\/ x' = 1)")?;
    for _ in 1..count {
        all.push_str(" /\\ (x' = 0 \\/ x' = 1)")?;
    }
    Ok(all)
}

// What stands before the first mark, and behind it.
fn cut(parts: &str) -> (&str, &str) {
    parts.split_once(" ; ").unwrap_or((parts, ""))
}

// The module `Row` of a type, Init, Next and Inv.
fn row(alloc: Global, parts: &str) -> Result<String, AllocError> {
    let (ty, parts) = cut(parts);
    let (init, parts) = cut(parts);
    let (next, inv) = cut(parts);
    let next = body(alloc, next)?;
    format!(in alloc;
        "---- MODULE Row ----\nEXTENDS Integers, Sequences, FiniteSets\nVARIABLE\n  \\* @type: {ty};\n  x\nInit == {init}\nNext == {}\nInv == {inv}\n====\n",
        next.as_str()
    )
}

// Words without a module are asked of the one with a constant.
fn answer_to(alloc: Global, line: &str) -> Result<String, AllocError> {
    match line.rsplit_once(" ; ") {
        Some((parts, words)) => {
            let module = row(alloc, parts)?;
            answer(alloc, module.as_str(), words)
        }
        None => answer(alloc, WITH_CONSTANT, line),
    }
}

fn tell(line: &str, found: &str, report: &mut String) -> Result<(), AllocError> {
    report.push_str(line)?;
    report.push_str(" BUT ")?;
    report.push_str(found)?;
    report.push_str("\n")
}

// Whether a line is answered as it says; if not, it is added to the report.
fn is_right(alloc: Global, line: &str, report: &mut String) -> Result<bool, AllocError> {
    let (words, expected) = line.split_once("=> ").unwrap_or((line, ""));
    let found = answer_to(alloc, words)?;
    if found.as_str() == expected {
        return Ok(true);
    }
    tell(line, found.as_str(), report)?;
    Ok(false)
}

// The lines that are answered otherwise than they say, and how many are answered so.
fn report_of(alloc: Global, table: &str) -> Result<String, AllocError> {
    let mut report = String::new(alloc);
    let mut right: u32 = 0;
    for line in table.lines() {
        if is_right(alloc, line, &mut report)? {
            right = right.saturating_add(1);
        }
    }
    let count = format!(in alloc; "{right} right")?;
    report.push_str(count.as_str())?;
    Ok(report)
}

#[test]
fn rows_are_answered_by_their_stage(rt: HostRuntime) -> Result<(), Fail> {
    passes(&rt, report_of(rt.alloc(), ROWS), "26 right")
}

#[test]
fn earlier_stages_come_first(rt: HostRuntime) -> Result<(), Fail> {
    passes(&rt, report_of(rt.alloc(), PAIRS), "9 right")
}

#[test]
fn constants_are_assigned_by_cinit(rt: HostRuntime) -> Result<(), Fail> {
    passes(&rt, report_of(rt.alloc(), CONSTANTS), "4 right")
}
