// What is answered to requests, as a text.
use crate::options::request_of;
use crate::requests::may_be_asked;
use crate::showing::{accepted_words, refusal_words};
use front_end::{Accepted, Refusal, Request, accept, refusal_text};
use std::alloc::{AllocError, Global};
use std::process::Abort;
use std::str;
use std::test::Fail;
use tool_outside::MemoryFiles;

/// How an answer is told: by the words of `showing`, or by the line that is printed.
#[derive(Clone, Copy)]
pub(crate) enum Told {
    Words,
    Line,
}

fn of_accepted(alloc: Global, told: Told, accepted: &Accepted) -> Result<String, AllocError> {
    match told {
        Told::Words => accepted_words(alloc, accepted),
        Told::Line => String::from_str(alloc, "accepted\n"),
    }
}

fn refusal_line(alloc: Global, refusal: &Refusal) -> Result<String, AllocError> {
    let line = refusal_text(alloc, refusal)?;
    String::from_str(alloc, str::from_utf8(&line).unwrap_or("?"))
}

fn of_refusal(alloc: Global, told: Told, refusal: &Refusal) -> Result<String, AllocError> {
    match told {
        Told::Words => refusal_words(alloc, refusal),
        Told::Line => refusal_line(alloc, refusal),
    }
}

fn answered(
    alloc: Global,
    told: Told,
    request: &Request,
    files: &mut MemoryFiles,
) -> Result<String, AllocError> {
    if !may_be_asked(request) {
        return String::from_str(alloc, "not to be asked\n");
    }
    match accept(alloc, request, files) {
        Ok(accepted) => {
            let text = of_accepted(alloc, told, &accepted);
            drop(accepted);
            text
        }
        Err(refusal) => {
            let text = of_refusal(alloc, told, &refusal);
            drop(refusal);
            text
        }
    }
}

/// What is answered to the request of these words, over these files.
pub(crate) fn asked(
    alloc: Global,
    told: Told,
    words: &str,
    files: &mut MemoryFiles,
) -> Result<String, AllocError> {
    let request = request_of(alloc, words)?;
    let text = answered(alloc, told, &request, files);
    drop(request);
    text
}

/// Here alone it is asserted what is told of a table.
pub(crate) fn passes(
    rt: &impl Abort,
    report: Result<String, AllocError>,
    wanted: &str,
) -> Result<(), Fail> {
    let report = report?;
    assert_eq!(rt; report.as_str(), wanted);
    Ok(())
}
