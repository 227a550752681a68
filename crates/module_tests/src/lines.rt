// The lines that tell refusals.
use front_end::{FrontFault, Refusal, refusal_text};
use std::alloc::{AllocError, Global};
use tla_values::{List, Text, copy_text};

fn copies(alloc: Global, texts: &List<Text>) -> Result<List<Text>, AllocError> {
    let mut copies = Vec::new(alloc);
    for text in texts.as_slice() {
        copies.push(copy_text(alloc, text)?)?;
    }
    Ok(List::from_vec(copies))
}

/// The line for a fault in modules of these files. The refusal ends by the call of `drop`, since its end at the end of a
/// function has many cases.
pub(crate) fn line_of(
    alloc: Global,
    files: &List<Text>,
    fault: FrontFault,
) -> Result<Vec<u8>, AllocError> {
    match copies(alloc, files) {
        Ok(files) => line(alloc, files, fault),
        Err(fail) => {
            drop(fault);
            Err(fail)
        }
    }
}

fn line(alloc: Global, files: List<Text>, fault: FrontFault) -> Result<Vec<u8>, AllocError> {
    let refusal = Refusal {
        files,
        names: List::new(alloc),
        fault,
    };
    let text = refusal_text(alloc, &refusal);
    drop(refusal);
    text
}
