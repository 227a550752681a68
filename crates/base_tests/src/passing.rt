//! How a test ends: each case answers a plain value, and here alone it is asserted.
use std::alloc::AllocError;
use std::process::Abort;
use std::test::Fail;

// Fails the test where fewer cases are right, before the first that is wrong, than there are.
pub fn passes(rt: &impl Abort, right: Result<usize, AllocError>, cases: usize) -> Result<(), Fail> {
    assert_eq!(rt;
        right?,
        cases,
        "the cases that are right before the first that is wrong"
    );
    Ok(())
}
