// Sets of modules with what is asked of them. A line that begins with `>` is a heading: a word, and what belongs to it;
// the lines up to the next heading are its body.
//
//   >set T          a new set of the title T
//   >file M         the body is the text of M.tla; the module `Row` is the root
//   >times A B      the body is added to the text of the last file for each number from A to B; `%` in it is the number
//                   and `@` the next
//   >more           the body is added to the text of the last file
//   >each A B       the body is the text of a module for each number from A to B
//   >padded N       blanks are added to the text of the last file, so that it has N bytes
//   >fails N        this call of the files fails, numbered from 0
//   >ask WORDS      the request of these words, and the line that is answered
use std::alloc::{AllocError, Global};
use tla_values::List;
use tool_outside::MemoryFiles;

/// A heading, cut at its first blank, and the lines below it.
#[derive(Clone, Copy)]
pub(crate) struct Part<'a> {
    pub(crate) word: &'a str,
    pub(crate) rest: &'a str,
    pub(crate) body: &'a str,
}

pub(crate) fn part_of<'a>(text: &'a str) -> Part<'a> {
    let (head, body) = text.split_once('\n').unwrap_or((text, ""));
    let (word, rest) = head.split_once(' ').unwrap_or((head, ""));
    Part { word, rest, body }
}

// ---- texts

fn add_lines(body: &str, text: &mut Vec<u8>) -> Result<(), AllocError> {
    for line in body.lines() {
        text.extend_from_slice(line.as_bytes())?;
        text.push(b'\n')?;
    }
    Ok(())
}

fn add_number(alloc: Global, number: u32, text: &mut Vec<u8>) -> Result<(), AllocError> {
    let digits = format!(in alloc; "{number}")?;
    text.extend_from_slice(digits.as_bytes())
}

// The lines with the number for `%` and the next one for `@`.
fn add_numbered(
    alloc: Global,
    lines: &[u8],
    number: u32,
    text: &mut Vec<u8>,
) -> Result<(), AllocError> {
    for byte in lines {
        match *byte {
            b'%' => add_number(alloc, number, text)?,
            b'@' => add_number(alloc, number.wrapping_add(1), text)?,
            other => text.push(other)?,
        }
    }
    Ok(())
}

fn lines_of(alloc: Global, body: &str) -> Result<Vec<u8>, AllocError> {
    let mut lines = Vec::new(alloc);
    add_lines(body, &mut lines)?;
    Ok(lines)
}

fn numbered(alloc: Global, lines: &[u8], number: u32) -> Result<Vec<u8>, AllocError> {
    let mut text = Vec::new(alloc);
    add_numbered(alloc, lines, number, &mut text)?;
    Ok(text)
}

// The first number of a heading, and the one behind the last.
fn range(rest: &str) -> (u32, u32) {
    let (first, last) = rest.split_once(' ').unwrap_or(("", ""));
    let last = last.parse::<u32>().unwrap_or(0);
    (first.parse::<u32>().unwrap_or(0), last.saturating_add(1))
}

fn add_each(alloc: Global, part: Part, text: &mut Vec<u8>) -> Result<(), AllocError> {
    let (first, end) = range(part.rest);
    let lines = lines_of(alloc, part.body)?;
    for number in first..end {
        add_numbered(alloc, &lines, number, text)?;
    }
    Ok(())
}

// What a part adds to the text of a file; the first part has the file's name for its heading.
fn add_part(alloc: Global, part: Part, text: &mut Vec<u8>) -> Result<(), AllocError> {
    match part.word {
        "times" => add_each(alloc, part, text),
        "padded" => text.resize(part.rest.parse::<usize>().unwrap_or(0), b' '),
        "each" | "fails" | "ask" => Ok(()),
        _ => add_lines(part.body, text),
    }
}

// ---- files

fn text_of(alloc: Global, parts: &str) -> Result<Vec<u8>, AllocError> {
    let mut text = Vec::new(alloc);
    for part in parts.split("\n>") {
        add_part(alloc, part_of(part), &mut text)?;
    }
    Ok(text)
}

fn put(alloc: Global, name: &str, text: &[u8], files: &mut MemoryFiles) -> Result<(), AllocError> {
    let file = format!(in alloc; "{name}.tla")?;
    files.put(file.as_str(), text)
}

fn put_file(alloc: Global, parts: &str, files: &mut MemoryFiles) -> Result<(), AllocError> {
    let text = text_of(alloc, parts)?;
    put(alloc, part_of(parts).word, &text, files)
}

fn put_number(
    alloc: Global,
    number: u32,
    text: &[u8],
    files: &mut MemoryFiles,
) -> Result<(), AllocError> {
    let file = format!(in alloc; "M{number}.tla")?;
    files.put(file.as_str(), text)
}

fn put_numbered(
    alloc: Global,
    lines: &[u8],
    number: u32,
    files: &mut MemoryFiles,
) -> Result<(), AllocError> {
    let text = numbered(alloc, lines, number)?;
    put_number(alloc, number, &text, files)
}

fn put_each(alloc: Global, part: Part, files: &mut MemoryFiles) -> Result<(), AllocError> {
    let (first, end) = range(part.rest);
    let lines = lines_of(alloc, part.body)?;
    for number in first..end {
        put_numbered(alloc, &lines, number, files)?;
    }
    Ok(())
}

/// Puts the files of a set there.
pub(crate) fn put_files(
    alloc: Global,
    set: &str,
    files: &mut MemoryFiles,
) -> Result<(), AllocError> {
    for parts in set.split("\n>file ").skip(1) {
        put_file(alloc, parts, files)?;
    }
    put_numbered_files(alloc, set, files)
}

fn put_numbered_files(alloc: Global, set: &str, files: &mut MemoryFiles) -> Result<(), AllocError> {
    for text in set.split("\n>").skip(1) {
        let part = part_of(text);
        if part.word == "each" {
            put_each(alloc, part, files)?;
        }
    }
    Ok(())
}

/// The calls of the files that fail.
pub(crate) fn fails_of(alloc: Global, set: &str) -> Result<List<u64>, AllocError> {
    let mut fails = Vec::new(alloc);
    for text in set.split("\n>fails ").skip(1) {
        let number = text.lines().next().unwrap_or("");
        fails.push(number.parse::<u64>().unwrap_or(0))?;
    }
    Ok(List::from_vec(fails))
}
