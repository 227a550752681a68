// Which flat modules sets of modules make, and why they make none. What is expected was written from the language
// (Specifying Systems, chapters 4 and 17) by one who saw no code.
use crate::expansions_cases::EXPANSIONS;
use crate::extending_cases::EXTENDING;
use crate::further_cases::FURTHER;
use crate::generated_cases::GENERATED;
use crate::instances_cases::INSTANCES;
use crate::names_cases::NAMES;
use crate::reader::Part;
use crate::room_cases::ROOM;
use crate::sets::{Asker, ask_sets, passes, same};
use crate::showing::{put_aliases, put_files, put_items, put_names, put_refusal};
use crate::sources_cases::SOURCES;
use crate::users_cases::USERS;
use std::alloc::{AllocError, Global};
use std::test::Fail;
use tla_meaning::Flat;
use tla_modules::{ModuleRefusal, resolve};
use tla_values::List;
use tool_outside::MemoryFiles;

// What is given of the headings of a set.
fn put_answer(
    alloc: Global,
    word: &str,
    answer: &Result<Flat, ModuleRefusal>,
    out: &mut Vec<u8>,
) -> Result<(), AllocError> {
    match answer {
        Ok(flat) => put_flat(alloc, word, flat, out),
        Err(refusal) => match word {
            "files" => put_files(&refusal.files, out),
            _ => put_refusal(alloc, refusal, out),
        },
    }
}

fn put_flat(alloc: Global, word: &str, flat: &Flat, out: &mut Vec<u8>) -> Result<(), AllocError> {
    match word {
        "files" => put_files(&flat.files, out),
        "names" => put_names(flat, out),
        "aliases" => put_aliases(flat, out),
        "flat" => put_items(alloc, flat, out),
        "refused" => out.extend_from_slice(b"a flat module"),
        _ => Ok(()),
    }
}

// Whether the heading says something of the answer.
fn is_expected(word: &str) -> bool {
    matches!(
        word,
        "files" | "refused" | "ok" | "names" | "aliases" | "flat" | "expand" | "job"
    )
}

// ---- lines that are the same

fn wanted(alloc: Global, part: &Part) -> Result<Vec<u8>, AllocError> {
    let mut out = Vec::new(alloc);
    if part.word == "expand" || part.word == "job" {
        return Ok(out);
    }
    out.extend_from_slice(part.rest.as_bytes())?;
    out.push(b'\n')?;
    out.extend_from_slice(&part.body)?;
    Ok(out)
}

// A place `-` is not compared.
fn is_same_line(wanted: &[u8], given: &[u8]) -> bool {
    match wanted.strip_suffix(b"-") {
        Some(front) => given.starts_with(front),
        None => wanted == given,
    }
}

fn is_same(wanted: &[u8], given: &[u8]) -> bool {
    let mut lines = given.split(|byte| *byte == b'\n');
    for line in wanted.split(|byte| *byte == b'\n') {
        if line.is_empty() {
            continue;
        }
        match lines.next() {
            Some(other) => {
                if !is_same_line(line, other) {
                    return false;
                }
            }
            None => return false,
        }
    }
    match lines.next() {
        Some(rest) => rest.is_empty(),
        None => true,
    }
}

// ---- sets

// What the modules of a set are joined to.
struct Joined;

impl Asker for Joined {
    fn asks(&self, word: &str, _is_flat: bool) -> bool {
        is_expected(word)
    }

    fn tell(
        &self,
        alloc: Global,
        part: &Part,
        answer: &Result<Flat, ModuleRefusal>,
        given: &mut Vec<u8>,
    ) -> Result<bool, AllocError> {
        put_answer(alloc, part.word, answer, given)?;
        let wanted = wanted(alloc, part)?;
        Ok(is_same(&wanted, given.as_slice()))
    }
}

// What differs in the sets of a text, and how many there are.
fn join_all(alloc: Global, text: &str) -> Result<(Vec<u8>, usize), Fail> {
    let mut report = Vec::new(alloc);
    let found = ask_sets(alloc, &Joined, text, &mut report)?;
    Ok((report, found.sets))
}

#[test]
fn extends_brings_in_what_is_exported(rt: HostRuntime) -> Result<(), Fail> {
    passes(&rt, join_all(rt.alloc(), EXTENDING), 14)
}

#[test]
fn instances_bring_in_definitions_under_their_names(rt: HostRuntime) -> Result<(), Fail> {
    passes(&rt, join_all(rt.alloc(), INSTANCES), 32)
}

#[test]
fn names_are_looked_up_where_they_stand(rt: HostRuntime) -> Result<(), Fail> {
    passes(&rt, join_all(rt.alloc(), NAMES), 44)
}

#[test]
fn files_are_read_in_the_order_of_mentions(rt: HostRuntime) -> Result<(), Fail> {
    passes(&rt, join_all(rt.alloc(), SOURCES), 24)
}

#[test]
fn sets_that_are_expanded_are_joined(rt: HostRuntime) -> Result<(), Fail> {
    passes(&rt, join_all(rt.alloc(), EXPANSIONS), 31)
}

#[test]
fn further_sets_are_joined(rt: HostRuntime) -> Result<(), Fail> {
    passes(&rt, join_all(rt.alloc(), FURTHER), 17)
}

#[test]
fn sets_that_users_write_are_joined(rt: HostRuntime) -> Result<(), Fail> {
    passes(&rt, join_all(rt.alloc(), USERS), 11)
}

#[test]
fn there_are_at_most_64_modules(rt: HostRuntime) -> Result<(), Fail> {
    passes(&rt, join_all(rt.alloc(), GENERATED), 17)
}

#[test]
fn where_the_language_leaves_room_the_first_reading_is_taken(rt: HostRuntime) -> Result<(), Fail> {
    passes(&rt, join_all(rt.alloc(), ROOM), 10)
}

// The text with blanks behind it, so many bytes long.
fn padded(alloc: Global, text: &[u8], size: usize) -> Result<Vec<u8>, AllocError> {
    let mut out = Vec::from_slice(alloc, text)?;
    out.resize(size, b' ')?;
    Ok(out)
}

fn put_padded(
    alloc: Global,
    name: &str,
    text: &str,
    size: usize,
    files: &mut MemoryFiles,
) -> Result<(), AllocError> {
    let text = padded(alloc, text.as_bytes(), size)?;
    files.put(name, text.as_slice())
}

// Adds what the root gives, where `A.tla` and `B.tla` hold an empty module and so many bytes.
fn put_of_sizes(
    alloc: Global,
    sizes: (usize, usize),
    files: &mut MemoryFiles,
    out: &mut Vec<u8>,
) -> Result<(), AllocError> {
    files.put("Row.tla", b"---- MODULE Row ----\nEXTENDS A, B\n====\n")?;
    put_padded(alloc, "A.tla", "---- MODULE A ----\n====", sizes.0, files)?;
    put_padded(alloc, "B.tla", "---- MODULE B ----\n====", sizes.1, files)?;
    let answer = resolve(alloc, "Row.tla", files);
    let put = put_answer(alloc, "refused", &answer, out);
    drop(answer);
    put
}

fn of_sizes(alloc: Global, a: usize, b: usize) -> Result<Vec<u8>, AllocError> {
    let mut out = Vec::new(alloc);
    let mut files = MemoryFiles::new(alloc, List::new(alloc));
    let put = put_of_sizes(alloc, (a, b), &mut files, &mut out);
    drop(files);
    put?;
    Ok(out)
}

const MOST: usize = 4_194_304;

#[test]
fn files_have_at_most_four_megabytes(rt: HostRuntime) -> Result<(), Fail> {
    same(&rt, of_sizes(rt.alloc(), MOST, MOST)?, "a flat module")?;
    same(
        &rt,
        of_sizes(rt.alloc(), MOST, MOST + 1)?,
        "file is too long: B.tla",
    )
}
