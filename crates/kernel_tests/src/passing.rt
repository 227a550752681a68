// How a test ends: what is shown is compared here alone.
use std::alloc::AllocError;
use std::process::Abort;
use std::test::Fail;

/// Fails the test where something else is shown.
pub(crate) fn same(
    rt: &impl Abort,
    shown: Result<Vec<u8>, AllocError>,
    wanted: &str,
) -> Result<(), Fail> {
    let shown = String::from_utf8(shown?)?;
    assert_eq!(rt; shown.as_str(), wanted);
    Ok(())
}
