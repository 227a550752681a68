// What the program answers of files, from a text. A line that begins with `>` is a heading, and the lines up to the next
// heading are its body.
//
//   >set F S       a new folder; where these are numbers, the call F of its files fails, and the call S of each sink
//   >file NAME     the body is the text of this file
//   >row TYPE      the body is that of Row.tla from line 6 on, of a module with the variable x of this type
//   >STATUS WORDS  at these words (`""` is the empty one) the program ends with this status, and writes the body
use crate::run;
use std::alloc::{AllocError, Global};
use std::process::Abort;
use std::str;
use std::test::Fail;
use tla_values::List;
use tool_outside::{MemoryFiles, MemorySink};

// No object has a call of this number.
const NEVER: u64 = 1_000_000;

// The call that a word names.
fn call(word: Option<&str>) -> u64 {
    word.unwrap_or("").parse::<u64>().unwrap_or(NEVER)
}

// ---- the program

// The words, each as a text of its own.
fn owned(alloc: Global, words: &str) -> Result<Vec<String>, AllocError> {
    let mut owned = Vec::new(alloc);
    for word in words.split_whitespace() {
        let word = if word == "\"\"" { "" } else { word };
        owned.push(String::from_str(alloc, word)?)?;
    }
    Ok(owned)
}

fn written_at(
    alloc: Global,
    words: &[String],
    files: &mut MemoryFiles,
    fails: List<u64>,
) -> Result<String, AllocError> {
    let mut out = MemorySink::new(alloc, fails);
    let status = run(alloc, words, files, &mut out);
    let text = str::from_utf8(out.bytes()).unwrap_or("?");
    let written = format!(in alloc; "{status}\n{text}");
    drop(out);
    written
}

// The status of the program at these words, and from the second line on what it writes until the call of the sink that
// fails.
fn written(
    alloc: Global,
    words: &str,
    files: &mut MemoryFiles,
    fails: u64,
) -> Result<String, AllocError> {
    let words = owned(alloc, words)?;
    let fails = vec![in alloc; fails]?;
    written_at(alloc, &words, files, List::from_vec(fails))
}

// ---- items

// A heading, cut at its first blank, and its body.
#[derive(Clone, Copy)]
struct Item<'a> {
    word: &'a str,
    rest: &'a str,
    body: &'a str,
}

fn item_of<'a>(text: &'a str) -> Item<'a> {
    let (head, body) = text.split_once('\n').unwrap_or((text, ""));
    let (word, rest) = head.split_once(' ').unwrap_or((head, ""));
    Item { word, rest, body }
}

// The text of a file; a body of no line is the empty one.
fn text_of(alloc: Global, item: Item) -> Result<String, AllocError> {
    if item.word == "row" {
        return format!(in alloc;
            "---- MODULE Row ----\nEXTENDS Integers, Sequences, FiniteSets\nVARIABLE\n  \\* @type: {};\n  x\n{}\n====\n",
            item.rest, item.body
        );
    }
    let end = if item.body.is_empty() { "" } else { "\n" };
    format!(in alloc; "{}{end}", item.body)
}

fn put(alloc: Global, item: Item, files: &mut MemoryFiles) -> Result<(), AllocError> {
    let name = if item.word == "row" {
        "Row.tla"
    } else {
        item.rest
    };
    let text = text_of(alloc, item)?;
    files.put(name, text.as_bytes())
}

fn put_all(alloc: Global, items: &str, files: &mut MemoryFiles) -> Result<(), AllocError> {
    for text in items.split("\n>").skip(1) {
        put(alloc, item_of(text), files)?;
    }
    Ok(())
}

/// The status and what is written, where these files stand in the folder.
pub(crate) fn written_over(
    alloc: Global,
    items: &str,
    words: &str,
    files: &mut MemoryFiles,
) -> Result<String, AllocError> {
    put_all(alloc, items, files)?;
    written(alloc, words, files, NEVER)
}

// Whether the lines of the body are written, and nothing else.
fn are_lines(written: &str, body: &str) -> bool {
    match written.strip_suffix('\n') {
        Some(lines) => !body.is_empty() && lines == body,
        None => written.is_empty() && body.is_empty(),
    }
}

fn is_as_told(found: &str, item: Item) -> bool {
    let (status, written) = found.split_once('\n').unwrap_or((found, ""));
    status == item.word && are_lines(written, item.body)
}

fn tell(words: &str, found: &str, report: &mut String) -> Result<(), AllocError> {
    report.push_str(words)?;
    report.push_str(" GIVES ")?;
    report.push_str(found)
}

// How many answers are as they stand, of the one that is asked for; if it is not, it is added to the report.
fn right_answer(
    alloc: Global,
    item: Item,
    files: &mut MemoryFiles,
    fails: u64,
    report: &mut String,
) -> Result<usize, AllocError> {
    let found = written(alloc, item.rest, files, fails)?;
    if is_as_told(found.as_str(), item) {
        return Ok(1);
    }
    tell(item.rest, found.as_str(), report)?;
    Ok(0)
}

// The same of any item.
fn right_item(
    alloc: Global,
    item: Item,
    files: &mut MemoryFiles,
    fails: u64,
    report: &mut String,
) -> Result<usize, AllocError> {
    if item.word != "file" && item.word != "row" {
        return right_answer(alloc, item, files, fails, report);
    }
    put(alloc, item, files)?;
    Ok(0)
}

// The same of all items.
fn right_items(
    alloc: Global,
    items: &str,
    files: &mut MemoryFiles,
    fails: u64,
    report: &mut String,
) -> Result<usize, AllocError> {
    let mut right: usize = 0;
    for text in items.split("\n>").skip(1) {
        let more = right_item(alloc, item_of(text), files, fails, report)?;
        right = right.wrapping_add(more);
    }
    Ok(right)
}

// ---- sets

// The same of a set, behind the files that stand in each folder.
fn right_set(
    alloc: Global,
    common: &str,
    set: &str,
    report: &mut String,
) -> Result<usize, AllocError> {
    let mut words = set.lines().next().unwrap_or("").split_whitespace();
    let fails = vec![in alloc; call(words.next())]?;
    let of_sink = call(words.next());
    let mut files = MemoryFiles::new(alloc, List::from_vec(fails));
    let right = right_behind(alloc, common, set, &mut files, of_sink, report);
    drop(files);
    right
}

fn right_behind(
    alloc: Global,
    common: &str,
    set: &str,
    files: &mut MemoryFiles,
    fails: u64,
    report: &mut String,
) -> Result<usize, AllocError> {
    put_all(alloc, common, files)?;
    right_items(alloc, set, files, fails, report)
}

/// What is answered otherwise than it stands in the text, and how many answers are as they stand. The common files stand in
/// each folder from the start.
pub(crate) fn report_of(alloc: Global, common: &str, text: &str) -> Result<String, AllocError> {
    let mut report = String::new(alloc);
    let mut right: usize = 0;
    for set in text.split("\n>set").skip(1) {
        let more = right_set(alloc, common, set, &mut report)?;
        right = right.wrapping_add(more);
    }
    let count = format!(in alloc; "{right} right")?;
    report.push_str(count.as_str())?;
    Ok(report)
}

/// Here alone it is asserted that a text has so many answers, and that they are as they stand.
pub(crate) fn passes(
    rt: &impl Abort,
    report: Result<String, AllocError>,
    wanted: &str,
) -> Result<(), Fail> {
    let report = report?;
    assert_eq!(rt; report.as_str(), wanted);
    Ok(())
}
