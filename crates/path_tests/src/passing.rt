//! Tables of actions, and how a test ends.
//!
//! A line is an action and what is wanted of it, `ACTION => WANTED`; one that begins with `--` says what the next are.

use kernel_trees::ActionKind;
use std::alloc::{AllocError, Global};
use std::process::Abort;
use std::test::Fail;

/// Shows what becomes of an action.
pub(crate) trait Shower {
    fn put(
        &self,
        alloc: Global,
        kind: ActionKind,
        text: &[u8],
        out: &mut Vec<u8>,
    ) -> Result<(), AllocError>;
}

fn is_right<S: Shower>(
    alloc: Global,
    shower: &S,
    kind: ActionKind,
    text: &str,
    wanted: &str,
) -> Result<bool, AllocError> {
    let mut found = Vec::new(alloc);
    shower.put(alloc, kind, text.as_bytes(), &mut found)?;
    Ok(found.as_slice() == wanted.as_bytes())
}

/// How many lines of the table are right before the first that is not.
pub(crate) fn count_right<S: Shower>(
    alloc: Global,
    shower: &S,
    kind: ActionKind,
    table: &str,
) -> Result<usize, AllocError> {
    let mut right: usize = 0;
    for line in table.lines() {
        let Some((text, wanted)) = line.split_once(" => ") else {
            continue;
        };
        if !is_right(alloc, shower, kind, text, wanted)? {
            return Ok(right);
        }
        right = right.saturating_add(1);
    }
    Ok(right)
}

/// Fails the test where another number is given.
pub(crate) fn counts(
    rt: &impl Abort,
    given: Result<usize, AllocError>,
    wanted: usize,
) -> Result<(), Fail> {
    assert_eq!(rt; given?, wanted);
    Ok(())
}
