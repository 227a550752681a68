//! Each call against its value, the functions that a pick gives, and what calls add.

use crate::call_cases::CASES;
use crate::calls::{call_size, call_text};
use std::alloc::{AllocError, Global};
use std::test::Fail;

// Whether the line gives what it says.
fn holds(alloc: Global, line: &str) -> Result<bool, AllocError> {
    let (head, want) = line.split_once(" => ").unwrap_or((line, ""));
    let (op, rest) = head.split_once(" ").unwrap_or((head, ""));
    let (x, cells) = rest.split_once(" ").unwrap_or((rest, ""));
    let (y, given) = cells.split_once(" ").unwrap_or((cells, ""));
    let text = call_text(alloc, (op, x, y), given, 0)?;
    Ok(text.as_slice() == want.as_bytes())
}

#[test]
fn calls_agree_with_functions(rt: HostRuntime) -> Result<(), Fail> {
    for line in CASES.lines() {
        assert!(rt; holds(rt.alloc(), line)?, "{line}");
    }
    Ok(())
}

// One bit for each text of the list that a pick gives, and the highest for any other text but `no`.
fn outcomes(
    alloc: Global,
    from: &str,
    to: &str,
    given: &str,
    wanted: &[&str],
) -> Result<u32, AllocError> {
    let mut found = 0;
    for mask in 0..64u8 {
        let text = call_text(alloc, ("pick", from, to), given, mask)?;
        found |= place(text.as_slice(), wanted);
    }
    Ok(found)
}

// The bit of the text in the list.
fn place(text: &[u8], wanted: &[&str]) -> u32 {
    let mut bit: u32 = 1;
    for want in wanted {
        if text == want.as_bytes() {
            return bit;
        }
        bit = bit.wrapping_mul(2);
    }
    if text == b"no".as_slice() { 0 } else { 1 << 31 }
}

// The bits of all texts of a list of this length.
fn all_bits(count: usize) -> u32 {
    let mut bits: u32 = 0;
    for _i in 0..count {
        bits = bits.wrapping_mul(2) | 1;
    }
    bits
}

// Two sets, values of the bits, and the functions from the one to the other, or `no` where there is
// none.
const PICKS: [(&str, &str, &str, &[&str]); 11] = [
    ("", "1T2T", "0000", &["<<>>"]),
    ("", "", "0000", &["<<>>"]),
    ("1T", "", "0000", &["no"]),
    ("1F", "", "0000", &["<<>>"]),
    ("1a", "2F", "0000", &["<<>>"]),
    ("1a", "2F", "1000", &["no"]),
    ("1T", "1T2T3T", "0000", &["<<1>>", "<<2>>", "<<3>>"]),
    (
        "1T2T",
        "0T3T",
        "0000",
        &["<<0, 0>>", "<<0, 3>>", "<<3, 0>>", "<<3, 3>>"],
    ),
    ("1a2b", "0c3T", "0110", &["(2 :> 0)", "(2 :> 3)"]),
    ("mT1T", "2T3T", "0001", &["<<2>>", "<<3>>"]),
    (
        "mT1T",
        "2T3T",
        "0000",
        &[
            "(0 :> 2 @@ 1 :> 2)",
            "(0 :> 2 @@ 1 :> 3)",
            "(0 :> 3 @@ 1 :> 2)",
            "(0 :> 3 @@ 1 :> 3)",
        ],
    ),
];

#[test]
fn picks_give_each_function_and_no_other(rt: HostRuntime) -> Result<(), Fail> {
    for (from, to, given, wanted) in PICKS {
        let found = outcomes(rt.alloc(), from, to, given, wanted)?;
        assert_eq!(rt; found, all_bits(wanted.len()), "{from} {to} {given}");
    }
    Ok(())
}

// Nothing but cells, where arguments are constants; a pick adds a variable for each argument that has
// two results to take.
const SIZES: [(&str, &str, &str, [usize; 3]); 9] = [
    ("make", "1a22b3", "", [0, 0, 1]),
    ("join", "1T22T3", "2T13a4", [0, 0, 1]),
    ("domain", "1T22a3", "", [0, 0, 1]),
    ("at", "1T22T33T4", "2", [0, 0, 0]),
    ("update", "1T22T33T4", "25", [0, 0, 1]),
    ("functions", "1T2T", "1T2T3T", [0, 0, 10]),
    ("functions", "1T2T3T", "1T2T", [0, 0, 9]),
    ("pick", "1T2T", "0T3T", [2, 0, 3]),
    ("pick", "0T1T2T3T4T5T6T7T", "0T3T", [8, 0, 9]),
];

#[test]
fn calls_on_constants_add_nothing_but_cells(rt: HostRuntime) -> Result<(), Fail> {
    for (op, left, right, size) in SIZES {
        assert_eq!(rt;
            call_size(rt.alloc(), op, left, right)?,
            size,
            "{op} {left} {right}"
        );
    }
    Ok(())
}
