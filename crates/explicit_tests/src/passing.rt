// The one assertion of these tests.
use std::alloc::AllocError;
use std::process::Abort;
use std::test::Fail;

/// This is what is told.
pub(crate) fn passes(
    rt: &impl Abort,
    told: Result<String, AllocError>,
    wanted: &str,
) -> Result<(), Fail> {
    let told = told?;
    assert_eq!(rt; told.as_str(), wanted);
    Ok(())
}
