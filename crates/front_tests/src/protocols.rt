// The modules of examples/ are accepted for the lengths that users ask for.
//
// Each text begins with a line behind `>`: `root`, the module's name and how many paths its Init and its Next have,
// counted by hand, or `part` and the name of a module that others use.
use crate::asking::{Told, asked, passes};
use crate::protocol_texts::PROTOCOLS;
use crate::small_texts::SMALL;
use std::alloc::{AllocError, Global};
use std::test::Fail;
use tla_values::List;
use tool_outside::MemoryFiles;

// What the first line of a text says.
#[derive(Drop)]
struct Head<'a> {
    is_root: bool,
    name: &'a str,
    starts: &'a str,
    steps: &'a str,
}

fn head_of<'a>(text: &'a str) -> Head<'a> {
    let mut words = text.lines().next().unwrap_or("").split_whitespace();
    Head {
        is_root: words.next() == Some("root"),
        name: words.next().unwrap_or(""),
        starts: words.next().unwrap_or(""),
        steps: words.next().unwrap_or(""),
    }
}

fn put_text(alloc: Global, text: &str, files: &mut MemoryFiles) -> Result<(), AllocError> {
    let (_, module) = text.split_once('\n').unwrap_or((text, ""));
    let file = format!(in alloc; "{}.tla", head_of(text).name)?;
    files.put(file.as_str(), module.as_bytes())
}

fn put_texts(alloc: Global, texts: &str, files: &mut MemoryFiles) -> Result<(), AllocError> {
    for text in texts.split("\n>").skip(1) {
        put_text(alloc, text, files)?;
    }
    Ok(())
}

// What is answered of a module at a length.
fn answer(
    alloc: Global,
    name: &str,
    length: u32,
    files: &mut MemoryFiles,
) -> Result<String, AllocError> {
    let words = format!(in alloc; "root={name}.tla length={length}")?;
    asked(alloc, Told::Words, words.as_str(), files)
}

// Whether this is the answer where the module is accepted, with its paths.
fn is_accepted(alloc: Global, head: &Head, length: u32, found: &str) -> Result<bool, AllocError> {
    let expected = format!(in alloc;
        "accepted, paths 1 {} {}, levels {}",
        head.starts,
        head.steps,
        length.saturating_add(1)
    )?;
    Ok(found == expected.as_str())
}

fn tell(
    alloc: Global,
    name: &str,
    length: u32,
    found: &str,
    report: &mut String,
) -> Result<(), AllocError> {
    let line = format!(in alloc; "{name} to {length}: {found}\n")?;
    report.push_str(line.as_str())
}

// Whether a module is accepted at a length, with its paths; if not, what is answered is added.
fn is_right(
    alloc: Global,
    head: &Head,
    length: u32,
    files: &mut MemoryFiles,
    report: &mut String,
) -> Result<bool, AllocError> {
    let found = answer(alloc, head.name, length, files)?;
    if is_accepted(alloc, head, length, found.as_str())? {
        return Ok(true);
    }
    tell(alloc, head.name, length, found.as_str(), report)?;
    Ok(false)
}

// At how many of the lengths the module is answered as it should be.
fn right_lengths(
    alloc: Global,
    head: &Head,
    lengths: &[u32],
    files: &mut MemoryFiles,
    report: &mut String,
) -> Result<u32, AllocError> {
    let mut right: u32 = 0;
    for length in lengths {
        if is_right(alloc, head, *length, files, report)? {
            right = right.saturating_add(1);
        }
    }
    Ok(right)
}

// At how many of the lengths the roots among the texts are answered so.
fn right_texts(
    alloc: Global,
    texts: &str,
    lengths: &[u32],
    files: &mut MemoryFiles,
    report: &mut String,
) -> Result<u32, AllocError> {
    put_texts(alloc, texts, files)?;
    let mut right: u32 = 0;
    for text in texts.split("\n>").skip(1) {
        let head = head_of(text);
        if head.is_root {
            let more = right_lengths(alloc, &head, lengths, files, report)?;
            right = right.saturating_add(more);
        }
    }
    Ok(right)
}

// What is answered otherwise, and how many answers are right.
fn answers(alloc: Global, texts: &str, lengths: &[u32]) -> Result<String, AllocError> {
    let mut report = String::new(alloc);
    let mut files = MemoryFiles::new(alloc, List::new(alloc));
    let right = right_texts(alloc, texts, lengths, &mut files, &mut report);
    drop(files);
    let line = format!(in alloc; "{} right", right?)?;
    report.push_str(line.as_str())?;
    Ok(report)
}

#[test]
fn protocols_are_accepted(rt: HostRuntime) -> Result<(), Fail> {
    passes(&rt, answers(rt.alloc(), PROTOCOLS, &[1, 10]), "20 right")
}

#[test]
fn protocols_are_accepted_at_the_ends(rt: HostRuntime) -> Result<(), Fail> {
    passes(&rt, answers(rt.alloc(), PROTOCOLS, &[0, 20]), "20 right")
}

#[test]
fn small_modules_are_accepted(rt: HostRuntime) -> Result<(), Fail> {
    passes(&rt, answers(rt.alloc(), SMALL, &[0, 1, 10, 20]), "28 right")
}
