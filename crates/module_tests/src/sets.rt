// What is asked at the headings of sets, and how a test of sets ends.
use crate::reader::{Case, Part, cases};
use crate::showing::put_words;
use std::alloc::{AllocError, Global};
use std::process::Abort;
use std::test::Fail;
use tla_meaning::Flat;
use tla_modules::{ModuleRefusal, resolve};
use tool_outside::MemoryFiles;

/// Asks something of what the modules of a set make.
pub(crate) trait Asker {
    /// Whether it asks at headings of the word, where there is a flat module or none.
    fn asks(&self, word: &str, is_flat: bool) -> bool;

    /// Adds what is given at the heading. Whether that is what the heading says.
    fn tell(
        &self,
        alloc: Global,
        part: &Part,
        answer: &Result<Flat, ModuleRefusal>,
        given: &mut Vec<u8>,
    ) -> Result<bool, AllocError>;
}

/// How many sets a text has, and at how many headings something was asked.
#[derive(Clone, Copy, Drop)]
pub(crate) struct Asked {
    pub(crate) sets: usize,
    pub(crate) headings: usize,
}

fn put_wrong(
    title: &str,
    part: &Part,
    given: &[u8],
    report: &mut Vec<u8>,
) -> Result<(), AllocError> {
    let pieces: [&[u8]; 8] = [
        title.as_bytes(),
        b": ",
        part.word.as_bytes(),
        b" ",
        part.rest.as_bytes(),
        b" gives ",
        given,
        b"\n",
    ];
    put_words(&pieces, report)
}

fn ask_at<A: Asker>(
    alloc: Global,
    asker: &A,
    title: &str,
    part: &Part,
    answer: &Result<Flat, ModuleRefusal>,
    report: &mut Vec<u8>,
) -> Result<(), AllocError> {
    let mut given = Vec::new(alloc);
    if asker.tell(alloc, part, answer, &mut given)? {
        return Ok(());
    }
    put_wrong(title, part, given.as_slice(), report)
}

// Asks at each heading of the set.
fn ask_all<A: Asker>(
    alloc: Global,
    asker: &A,
    case: &Case,
    answer: &Result<Flat, ModuleRefusal>,
    report: &mut Vec<u8>,
) -> Result<usize, AllocError> {
    let mut count: usize = 0;
    for part in &case.parts {
        if asker.asks(part.word, answer.is_ok()) {
            ask_at(alloc, asker, case.title, part, answer, report)?;
            count = count.saturating_add(1);
        }
    }
    Ok(count)
}

// A flat module ends by the call of `drop`, since its end at the end of a function has many cases.
fn ask_in<A: Asker>(
    alloc: Global,
    asker: &A,
    case: &Case,
    files: &mut MemoryFiles,
    report: &mut Vec<u8>,
) -> Result<usize, Fail> {
    case.put_files(alloc, files)?;
    let root = case.root(alloc)?;
    let answer = resolve(alloc, root.as_str(), files);
    let count = ask_all(alloc, asker, case, &answer, report);
    drop(answer);
    Ok(count?)
}

fn ask<A: Asker>(
    alloc: Global,
    asker: &A,
    case: &Case,
    report: &mut Vec<u8>,
) -> Result<usize, Fail> {
    let mut files = MemoryFiles::new(alloc, case.fails(alloc)?);
    let count = ask_in(alloc, asker, case, &mut files, report);
    drop(files);
    count
}

/// Asks at the headings of a text's sets, and adds what differs.
pub(crate) fn ask_sets<A: Asker>(
    alloc: Global,
    asker: &A,
    text: &str,
    report: &mut Vec<u8>,
) -> Result<Asked, Fail> {
    let cases = cases(alloc, text)?;
    let mut headings: usize = 0;
    for case in &cases {
        headings = headings.saturating_add(ask(alloc, asker, case, report)?);
    }
    Ok(Asked {
        sets: cases.len(),
        headings,
    })
}

/// Fails the test where something else is given.
pub(crate) fn same(rt: &impl Abort, given: Vec<u8>, wanted: &str) -> Result<(), Fail> {
    let given = String::from_utf8(given)?;
    assert_eq!(rt; given.as_str(), wanted);
    Ok(())
}

/// Fails the test where something differs, or where there is another number of sets or of headings.
pub(crate) fn passes(
    rt: &impl Abort,
    found: Result<(Vec<u8>, usize), Fail>,
    wanted: usize,
) -> Result<(), Fail> {
    let (report, count) = found?;
    same(rt, report, "")?;
    assert_eq!(rt; count, wanted);
    Ok(())
}
