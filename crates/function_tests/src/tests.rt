//! Each case against its value, and what calls add.

use crate::cases::CASES;
use crate::solving::{size_of, text_of};
use std::alloc::{AllocError, Global};
use std::test::Fail;

// Whether the line gives what it says.
fn holds(alloc: Global, line: &str) -> Result<bool, AllocError> {
    let (head, want) = line.split_once(" => ").unwrap_or((line, ""));
    let (op, rest) = head.split_once(" ").unwrap_or((head, ""));
    let (x, cells) = rest.split_once(" ").unwrap_or((rest, ""));
    let (y, given) = cells.split_once(" ").unwrap_or((cells, ""));
    let text = text_of(alloc, op, x, y, given)?;
    Ok(text.as_slice() == want.as_bytes())
}

#[test]
fn calls_agree_with_records_and_tuples(rt: HostRuntime) -> Result<(), Fail> {
    for line in CASES.lines() {
        assert!(rt; holds(rt.alloc(), line)?, "{line}");
    }
    Ok(())
}

// By a model of the gates: a part that is alike on both sides adds nothing, an equality of two free
// bits one variable and four clauses, a choice between them as many and a cell, and a conjunction of
// several parts one variable and a clause more than parts.
const SIZES: [(&str, &str, &str, [usize; 3]); 8] = [
    ("same", "1a", "1b", [1, 4, 1]),
    ("same", "ma", "1b", [2, 7, 1]),
    ("same", "1a", "2b", [1, 4, 1]),
    ("same", "1ma", "11b", [2, 7, 1]),
    ("choose", "1a", "1b", [1, 4, 2]),
    ("choose", "11a", "11b", [1, 4, 3]),
    ("with1", "1a", "2b", [0, 0, 1]),
    ("p", "11a", "22b", [0, 0, 0]),
];

#[test]
fn calls_add_no_more_than_they_need(rt: HostRuntime) -> Result<(), Fail> {
    for (op, left, right, size) in SIZES {
        assert_eq!(rt; size_of(rt.alloc(), op, left, right)?, size, "{op} {left}");
    }
    Ok(())
}
