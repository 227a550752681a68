// Modules of a table. A record is a line of the width and the length, a line of each variable with
// its type and, behind a semicolon, the values that it has; and the lines of Init, Next and Inv. A
// `>` begins each record but the first.
use std::alloc::{AllocError, Global};

/// The width and the length of a record.
pub(crate) fn options(record: &str) -> (u32, u32) {
    let line = record.lines().next().unwrap_or("");
    let (width, length) = line.split_once(' ').unwrap_or(("", ""));
    (
        width.parse::<u32>().unwrap_or(0),
        length.parse::<u32>().unwrap_or(0),
    )
}

// The name and the type of a variable, and its values, where it is such a line.
fn variable(line: &str) -> Option<(&str, &str, &str)> {
    let (declared, values) = line.split_once(" ; ")?;
    let (name, ty) = declared.split_once(' ')?;
    Some((name, ty, values))
}

fn declared(alloc: Global, record: &str) -> Result<String, AllocError> {
    let mut text = String::new(alloc);
    for line in record.lines() {
        if let Some((name, ty, _)) = variable(line) {
            let one = format!(in alloc; "VARIABLE\n  \\* @type: {ty};\n  {name}\n")?;
            text.push_str(one.as_str())?;
        }
    }
    Ok(text)
}

// What stands there, and for each variable an invariant that says which values it has.
fn defined(alloc: Global, record: &str) -> Result<String, AllocError> {
    let mut text = String::new(alloc);
    for line in record.lines().skip(1) {
        let one = match variable(line) {
            Some((name, _, values)) => format!(in alloc; "In{name} == {name} \\in {values}\n")?,
            None => format!(in alloc; "{line}\n")?,
        };
        text.push_str(one.as_str())?;
    }
    Ok(text)
}

/// The names of the invariants, with commas between them.
pub(crate) fn invariants(alloc: Global, record: &str) -> Result<String, AllocError> {
    let mut text = String::from_str(alloc, "Inv")?;
    for line in record.lines() {
        if let Some((name, _, _)) = variable(line) {
            text.push_str(",In")?;
            text.push_str(name)?;
        }
    }
    Ok(text)
}

/// The text of the module `Row`.
pub(crate) fn module(alloc: Global, record: &str) -> Result<String, AllocError> {
    let declared = declared(alloc, record)?;
    let defined = defined(alloc, record)?;
    format!(in alloc;
        "---- MODULE Row ----\nEXTENDS Integers, Sequences, FiniteSets\n{}{}====\n",
        declared.as_str(),
        defined.as_str()
    )
}
