//! Each call on sequences against its values, and what calls add.

use crate::sequence_calls::{call_size, call_texts};
use crate::sequence_cases::CASES;
use std::alloc::{AllocError, Global};
use std::test::Fail;

// Whether the line gives what it says.
fn holds(alloc: Global, line: &str) -> Result<bool, AllocError> {
    let (head, want) = line.split_once(" => ").unwrap_or((line, ""));
    let (op, rest) = head.split_once(" ").unwrap_or((head, ""));
    let (x, cells) = rest.split_once(" ").unwrap_or((rest, ""));
    let (y, varying) = cells.split_once(" ").unwrap_or((cells, ""));
    let texts = call_texts(alloc, op, (x, y), varying.as_bytes())?;
    Ok(texts.as_slice() == want.as_bytes())
}

#[test]
fn calls_agree_with_lists(rt: HostRuntime) -> Result<(), Fail> {
    for line in CASES.lines() {
        assert!(rt; holds(rt.alloc(), line)?, "{line}");
    }
    Ok(())
}

// As measured: variables, clauses and cells, where all of 8 places, the length (0 to 7) and the numbers
// (of 4 bits) are free.
const SIZES: [(&str, [usize; 3]); 3] = [
    ("glue", [44, 167, 29]),
    ("at", [27, 99, 6]),
    ("slice", [54, 202, 18]),
];

#[test]
fn calls_on_eight_places_stay_small(rt: HostRuntime) -> Result<(), Fail> {
    for (op, size) in SIZES {
        assert_eq!(rt; call_size(rt.alloc(), op)?, size, "{op}");
    }
    Ok(())
}
