//! How a test ends: what is told of each line of a table is compared here alone.

use std::alloc::{AllocError, Global};
use std::process::Abort;
use std::test::Fail;

/// Tells what a line asks for. A line may be told by what it wants, too.
pub(crate) trait Teller {
    fn tell(
        &self,
        alloc: Global,
        asked: &str,
        wanted: &str,
        out: &mut Vec<u8>,
    ) -> Result<(), AllocError>;
}

// Whether a line has, behind its mark, what is told of what stands before it.
fn is_right<T: Teller>(
    alloc: Global,
    teller: &T,
    line: &str,
    mark: &str,
) -> Result<bool, AllocError> {
    let (asked, wanted) = line.split_once(mark).unwrap_or((line, ""));
    let mut out = Vec::new(alloc);
    teller.tell(alloc, asked, wanted, &mut out)?;
    Ok(out.as_slice() == wanted.as_bytes())
}

/// The first line of a table of which something else is told.
pub(crate) fn first_wrong<'a, T: Teller>(
    alloc: Global,
    teller: &T,
    table: &'a str,
    mark: &str,
) -> Result<Option<&'a str>, AllocError> {
    for line in table.lines() {
        if !is_right(alloc, teller, line, mark)? {
            return Ok(Some(line));
        }
    }
    Ok(None)
}

/// Fails the test with the line that is wrong.
pub(crate) fn passes(rt: &impl Abort, wrong: Result<Option<&str>, AllocError>) -> Result<(), Fail> {
    match wrong? {
        Some(line) => panic!(rt; "{line}"),
        None => Ok(()),
    }
}

/// Fails the test where fewer cases are right, before the first that is wrong, than there are.
pub(crate) fn counts(
    rt: &impl Abort,
    right: Result<usize, AllocError>,
    cases: usize,
) -> Result<(), Fail> {
    assert_eq!(rt; right?, cases);
    Ok(())
}
