// What is accepted of requests. It is all that the engine and the encoder ask for.
ghost use Rattle.std.specs.Prelude.{IfOk};
ghost use Rattle.front_end.specs.Accepted.{IsAccepted};
ghost use Rattle.accepted_systems.specs.Checking.{CanCheck};

use crate::requests::may_be_asked;
use accepted_systems::accepted_systems_can_be_checked;
use front_end::{Accepted, Refusal, Request, accept, refusal_text};
use std::alloc::{AllocError, Global};
use tla_values::List;
use tool_outside::MemoryFiles;

/// One file, of this name and this text.
pub(crate) fn file(alloc: Global, name: &str, text: &str) -> Result<MemoryFiles, AllocError> {
    let mut files = MemoryFiles::new(alloc, List::new(alloc));
    files.put(name, text.as_bytes())?;
    Ok(files)
}

// For want of memory the line is empty.
fn or_empty(alloc: Global, line: Result<Vec<u8>, AllocError>) -> Vec<u8> {
    match line {
        Ok(line) => line,
        Err(_) => Vec::new(alloc),
    }
}

fn line_of(alloc: Global, refusal: Refusal) -> Vec<u8> {
    let line = refusal_text(alloc, &refusal);
    drop(refusal);
    or_empty(alloc, line)
}

/// What is accepted, or the line that is printed of a refusal.
pub(crate) fn accepted(
    alloc: Global,
    request: &Request,
    files: &mut MemoryFiles,
) -> Result<Accepted, Vec<u8>>
    ensures accepted { IfOk result IsAccepted }
    ensures ready { IfOk result CanCheck }
{
    if !may_be_asked(request) {
        let line = Vec::from_slice(alloc, b"not to be asked\n");
        return Err(or_empty(alloc, line));
    }
    accepted_systems_can_be_checked();
    match accept(alloc, request, files) {
        Ok(accepted) => Ok(accepted),
        Err(refusal) => Err(line_of(alloc, refusal)),
    }
}
