//! How a test ends: each case answers a plain value, and here alone it is asserted.

use std::alloc::{AllocError, Global};
use std::process::Abort;
use std::test::Fail;

/// How many cases are right before the first that is wrong.
pub fn count_right<C, F: Fn(Global, &C) -> Result<bool, AllocError>>(
    alloc: Global,
    cases: &[C],
    is_right: F,
) -> Result<usize, AllocError>
    requires { F.IsAlwaysCallable is_right }
{
    for i in 0..cases.len() {
        if !is_right(alloc, &cases[i])? {
            return Ok(i);
        }
    }
    Ok(cases.len())
}

/// How many lines are right before the first that is wrong.
pub fn count_lines<F: Fn(Global, &str) -> Result<bool, AllocError>>(
    alloc: Global,
    lines: &str,
    is_right: F,
) -> Result<usize, AllocError>
    requires { F.IsAlwaysCallable is_right }
{
    let mut right: usize = 0;
    for line in lines.lines() {
        if !is_right(alloc, line)? {
            return Ok(right);
        }
        right = right.saturating_add(1);
    }
    Ok(right)
}

/// Fails the test where fewer cases are right, before the first that is wrong, than there are.
pub fn passes(rt: &impl Abort, right: Result<usize, AllocError>, cases: usize) -> Result<(), Fail> {
    assert_eq!(rt;
        right?,
        cases,
        "the cases that are right before the first that is wrong"
    );
    Ok(())
}
