//! Free choices: what they may give over all values of the free bits. And parts, images and rows.

ghost use Rattle.cell_arena.specs.Cells.{kind_at};
ghost use Rattle.cell_arena.specs.Growth.{Grows};
ghost use Rattle.cell_merge.specs.Edges.{edges_of};
ghost use Rattle.cell_merge.specs.Sorts.{OfSort, number, set_of as set_sort};
ghost use Rattle.std.specs.Prelude.{◌<◌, ◌≡◌, IfOk, IsTrue, length};
ghost use Rattle.tla_values.specs.Integers.{fits_width};

use crate::arena::free;
use crate::decoding::shown_at;
use crate::equality::{are_met, extended, int, is_met};
use crate::sets::{free_bits, set};
use crate::sizes::{counts, differences};
use cell_arena::{Build, CellId};
use cell_merge::{choose_cell, pick};
use sat_formula::{Formula, Lit};
use set_rewriter::{cardinality, filter, map, member, pick_subset, range};
use std::alloc::{AllocError, Global};
use std::test::Fail;
use tla_values::List;

// Whether no clause is false with one value more.
fn is_free_for(f: &Formula, values: &mut Vec<bool>, value: bool) -> Result<bool, AllocError> {
    values.push(value)?;
    let met = are_met(f, values.as_slice());
    let _ = values.pop();
    Ok(met)
}

// The assignment with values of the further variables. Those that the clauses leave free are the
// bits of the mask, the lowest first.
fn preferring(alloc: Global, f: &Formula, a: &[bool], mask: u8) -> Result<Vec<bool>, AllocError> {
    let mut values = Vec::from_slice(alloc, a)?;
    let mut rest = mask;
    for _i in a.len()..f.vars() {
        let on = is_free_for(f, &mut values, true)?;
        let off = is_free_for(f, &mut values, false)?;
        if on && off {
            values.push(rest % 2 == 1)?;
            rest /= 2;
        } else {
            values.push(on)?;
        }
    }
    Ok(values)
}

// The bits as truth values, behind that of `top`.
fn given_bits(alloc: Global, given: &str) -> Result<Vec<bool>, AllocError> {
    let mut a = Vec::new(alloc);
    a.push(true)?;
    for c in given.as_bytes() {
        a.push(*c == b'1')?;
    }
    Ok(a)
}

// What a pick from the set gives: `none`, `no` where its literal is false, or else a member.
#[tactic(auto, using(cell_arena::proofs::Growing::growing))]
fn picked(alloc: Global, edges: &str, given: &str, mask: u8) -> Result<Vec<u8>, AllocError> {
    let mut b = Build::new(alloc, &List::new(alloc), 5)?;
    let bits = free_bits(alloc, &mut b)?;
    let x = set(alloc, &mut b, 2, bits.as_slice(), edges.as_bytes())?;
    let Some((cell, l)) = pick(&mut b, x)? else {
        return Vec::from_slice(alloc, b"none");
    };
    let a = given_bits(alloc, given)?;
    let values = preferring(alloc, &b.formula, a.as_slice(), mask)?;
    if is_met(&[l.negated()], values.as_slice()) {
        return Vec::from_slice(alloc, b"no");
    }
    shown_at(alloc, &b, values.as_slice(), cell)
}

// A part of the set that is picked.
#[tactic(auto, using(cell_arena::proofs::Growing::growing))]
fn part(alloc: Global, edges: &str, given: &str, mask: u8) -> Result<Vec<u8>, AllocError> {
    let mut b = Build::new(alloc, &List::new(alloc), 5)?;
    let bits = free_bits(alloc, &mut b)?;
    let x = set(alloc, &mut b, 2, bits.as_slice(), edges.as_bytes())?;
    let cell = pick_subset(&mut b, x)?;
    let a = given_bits(alloc, given)?;
    let values = preferring(alloc, &b.formula, a.as_slice(), mask)?;
    shown_at(alloc, &b, values.as_slice(), cell)
}

// One bit for each text of the list that a choice gives, and the highest for any other text. That no
// member is picked counts only where the list has it.
fn outcomes(
    alloc: Global,
    subset: bool,
    edges: &str,
    given: &str,
    wanted: &[&str],
) -> Result<u32, AllocError> {
    let mut found = 0;
    for mask in 0..128u8 {
        let text = if subset {
            part(alloc, edges, given, mask)?
        } else {
            picked(alloc, edges, given, mask)?
        };
        found |= place(text.as_slice(), wanted);
    }
    Ok(found)
}

// The bit of the text in the list.
fn place(text: &[u8], wanted: &[&str]) -> u32 {
    let mut bit: u32 = 1;
    for want in wanted {
        if text == want.as_bytes() {
            return bit;
        }
        bit = bit.wrapping_mul(2);
    }
    if text == b"no".as_slice() { 0 } else { 1 << 31 }
}

// The bits of all texts of a list of this length.
fn all_bits(count: usize) -> u32 {
    let mut bits: u32 = 0;
    for _i in 0..count {
        bits = bits.wrapping_mul(2) | 1;
    }
    bits
}

// Edges, values of the bits a to h, and what a pick may give: the members, or that there is none.
const PICKS: [(&str, &str, &[&str]); 20] = [
    ("", "00000000", &["none"]),
    ("1F", "00000000", &["no"]),
    ("1F2F", "00000000", &["no"]),
    ("1T2T3T", "00000000", &["1", "2", "3"]),
    ("1a2b3c", "10100000", &["1", "3", "no"]),
    ("1amTnT", "10000001", &["1", "0", "3"]),
    (
        "0T1a2b3T4T5c6T7T1T2T",
        "11100000",
        &["0", "1", "2", "3", "4", "5", "6", "7"],
    ),
    ("kd", "10101101", &[]),
    ("0b0bmTkf", "10000010", &["1"]),
    ("ndmTnckb0T1f", "01111001", &["0", "1", "3"]),
    ("mBkT0e", "10000001", &["0", "1"]),
    ("mT3B2F0gmf", "01111011", &["0", "1"]),
    ("ng2fmF", "11101101", &["2"]),
    ("mT3T1e", "00001101", &["0", "1", "3"]),
    ("ng", "01111101", &[]),
    ("2dna3e3h3g1T", "00001101", &["1", "3"]),
    ("3F0F1Tne0F", "11111001", &["1", "3"]),
    ("2engkbmanhkf3hmb3c", "10110110", &["1", "2", "3"]),
    ("1Akemf1T2FmakcnfnhkB", "01111100", &["0", "1", "2"]),
    ("3Tnb3B3AkT2f3f3g0T2fkenA", "01111111", &["0", "2", "3"]),
];

#[test]
fn picks_give_each_member_and_no_other(rt: HostRuntime) -> Result<(), Fail> {
    for (edges, given, wanted) in PICKS {
        let found = outcomes(rt.alloc(), false, edges, given, wanted)?;
        assert_eq!(rt; found, all_bits(wanted.len()), "{edges}");
    }
    Ok(())
}

// The same for subsets.
const PARTS: [(&str, &str, &[&str]); 10] = [
    ("1T2a", "10000000", &["{}", "{1}", "{2}", "{1, 2}"]),
    ("1T2a1T", "00000000", &["{}", "{1}"]),
    ("mT", "00110011", &["{}", "{1}"]),
    ("2A1g", "11110011", &["{}", "{1}"]),
    (
        "kf3f0f",
        "10111111",
        &[
            "{}",
            "{0}",
            "{2}",
            "{3}",
            "{0, 2}",
            "{0, 3}",
            "{2, 3}",
            "{0, 2, 3}",
        ],
    ),
    ("0bkgmB", "10100111", &["{}", "{1}", "{2}", "{1, 2}"]),
    ("2T", "01011110", &["{}", "{2}"]),
    ("3g", "01111111", &["{}", "{3}"]),
    ("ke2c", "00011111", &["{}", "{2}"]),
    ("1F0Bkg", "01111101", &["{}"]),
];

#[test]
fn picked_subsets_are_each_subset(rt: HostRuntime) -> Result<(), Fail> {
    for (edges, given, wanted) in PARTS {
        let found = outcomes(rt.alloc(), true, edges, given, wanted)?;
        assert_eq!(rt; found, all_bits(wanted.len()), "{edges}");
    }
    Ok(())
}

// 1 where p and 2 where q.
#[tactic(auto, using(cell_arena::proofs::Growing::growing, cell_merge::proofs::SortLaws::sorts))]
fn couple(alloc: Global, b: &mut Build, p: Lit, q: Lit) -> Result<(CellId, CellId), AllocError>
    requires p_below { p.var < b.old.formula.vars }
    requires q_below { q.var < b.old.formula.vars }
    ensures sort { IfOk result (λ r. OfSort b.new.arena.kinds (set_sort number) r.0) }
    ensures last { IfOk result (λ r. OfSort b.new.arena.kinds number r.1) }
    ensures count { IfOk result (λ r. length (edges_of (kind_at b.new.arena.kinds r.0)) ≡ 2) }
    ensures grows { Grows b.old b.new }
{
    let x = int(alloc, b, 1)?;
    let y = int(alloc, b, 2)?;
    let edges = Vec::from_slice(alloc, &[(p, x), (q, y)])?;
    let id = b.set(List::from_vec(edges))?;
    Ok((id, y))
}

// The members that are kept by two literals, the images that are all 2, and whether 2 is a member.
#[tactic(auto, using(cell_arena::proofs::Growing::growing))]
fn parts(alloc: Global, values: [bool; 4]) -> Result<[Vec<u8>; 3], AllocError> {
    let mut b = Build::new(alloc, &List::new(alloc), 5)?;
    let p = free(&mut b)?;
    let q = free(&mut b)?;
    let r = free(&mut b)?;
    let s = free(&mut b)?;
    let (x, y) = couple(alloc, &mut b, p, q)?;
    let keep = Vec::from_slice(alloc, &[r, s])?;
    let kept = filter(&mut b, x, keep.as_slice())?;
    let images = Vec::from_slice(alloc, &[y, y])?;
    let imaged = map(&mut b, x, images.as_slice())?;
    let l = member(&mut b, y, x)?;
    let found = b.bit(l)?;
    let [v, w, t, u] = values;
    let a = extended(alloc, &b.formula, &[true, v, w, t, u])?;
    Ok([
        shown_at(alloc, &b, a.as_slice(), kept)?,
        shown_at(alloc, &b, a.as_slice(), imaged)?,
        shown_at(alloc, &b, a.as_slice(), found)?,
    ])
}

#[test]
fn parts_and_images_have_their_members(rt: HostRuntime) -> Result<(), Fail> {
    let sets: [&[u8]; 4] = [b"{}", b"{1}", b"{2}", b"{1, 2}"];
    for i in 0..16usize {
        let (p, q, r, s) = (i % 2, i / 2 % 2, i / 4 % 2, i / 8);
        let [kept, imaged, found] = parts(rt.alloc(), [p == 1, q == 1, r == 1, s == 1])?;
        assert_eq!(rt; kept.as_slice(), sets[p * r + 2 * (q * s)], "{i}");
        assert_eq!(rt;
            imaged.as_slice(),
            sets[if p + q > 0 { 2 } else { 0 }],
            "{i}"
        );
        assert_eq!(rt;
            found.as_slice(),
            if q == 1 {
                b"TRUE".as_slice()
            } else {
                b"FALSE".as_slice()
            }
        );
    }
    Ok(())
}

// The numbers from m to n where the bit is true, and else from m to m, and from low to high; and
// what the range adds.
#[tactic(auto, using(cell_arena::proofs::Growing::growing))]
fn row(
    alloc: Global,
    ends: (i128, i128),
    low: i128,
    high: i128,
    bit: bool,
) -> Result<(Vec<u8>, [usize; 3]), AllocError>
    requires low { IsTrue (fits_width 5 low) }
    requires high { IsTrue (fits_width 5 high) }
{
    let mut b = Build::new(alloc, &List::new(alloc), 5)?;
    let l = free(&mut b)?;
    let x = int(alloc, &mut b, ends.0)?;
    let last = int(alloc, &mut b, ends.1)?;
    let y = choose_cell(&mut b, l, last, x)?;
    let before = counts(&b);
    let id = range(&mut b, x, y, low, high)?;
    let adds = differences(counts(&b), before);
    let a = extended(alloc, &b.formula, &[true, bit])?;
    Ok((shown_at(alloc, &b, a.as_slice(), id)?, adds))
}

// The number of a digit, at most 7.
fn digit(code: u8) -> i128
    ensures { IsTrue (fits_width 5 result) }
{
    match code {
        b'0' => 0,
        b'1' => 1,
        b'2' => 2,
        b'3' => 3,
        b'4' => 4,
        b'5' => 5,
        b'6' => 6,
        _ => 7,
    }
}

// The digits of m, n, low and high, the bit, and the numbers.
const ROWS: &str = r#"23331 => {3}
44271 => {4}
45031 => {}
03071 => {0, 1, 2, 3}
44170 => {4}
47041 => {4}
13341 => {3}
46131 => {}
13070 => {1}
44161 => {4}
35370 => {3}
24141 => {2, 3, 4}
11271 => {}
27351 => {3, 4, 5}
01340 => {}
14330 => {}
13071 => {1, 2, 3}
36241 => {3, 4}
22261 => {2}
52031 => {}
13071 => {1, 2, 3}
13070 => {1}
32071 => {}
13210 => {}
"#;

fn row_holds(alloc: Global, line: &str) -> Result<bool, AllocError> {
    let (head, want) = line.split_once(" => ").unwrap_or((line, ""));
    let [m, n, low, high, bit] = head.as_bytes() else {
        return Ok(false);
    };
    let ends = (digit(*m), digit(*n));
    let (text, _) = row(alloc, ends, digit(*low), digit(*high), *bit == b'1')?;
    Ok(text.as_slice() == want.as_bytes())
}

#[test]
fn rows_end_where_both_bounds_end(rt: HostRuntime) -> Result<(), Fail> {
    for line in ROWS.lines() {
        assert!(rt; row_holds(rt.alloc(), line)?, "{line}");
    }
    Ok(())
}

#[test]
fn rows_have_negative_numbers(rt: HostRuntime) -> Result<(), Fail> {
    let (high, _) = row(rt.alloc(), (-16, 15), 14, 15, true)?;
    assert_eq!(rt; high.as_slice(), b"{14, 15}".as_slice());
    let (low, _) = row(rt.alloc(), (-2, 2), -1, 1, true)?;
    assert_eq!(rt; low.as_slice(), b"{-1, 0, 1}".as_slice());
    Ok(())
}

// The numbers without the two ends, which are cells already, and the set.
#[test]
fn rows_add_no_more_than_they_need(rt: HostRuntime) -> Result<(), Fail> {
    let (_, four) = row(rt.alloc(), (1, 3), 0, 3, true)?;
    assert_eq!(rt; four, [0, 0, 3]);
    let (_, eight) = row(rt.alloc(), (1, 6), 0, 7, true)?;
    assert_eq!(rt; eight, [0, 0, 7]);
    Ok(())
}

// How many members the set has at width 4, or `out` where that is outside of the width.
#[tactic(auto, using(cell_arena::proofs::Growing::growing))]
fn counted(alloc: Global, edges: &str, given: &str) -> Result<Vec<u8>, AllocError> {
    let mut b = Build::new(alloc, &List::new(alloc), 4)?;
    let bits = free_bits(alloc, &mut b)?;
    let x = set(alloc, &mut b, 2, bits.as_slice(), edges.as_bytes())?;
    let (id, outside) = cardinality(&mut b, x)?;
    let a = given_bits(alloc, given)?;
    let values = extended(alloc, &b.formula, a.as_slice())?;
    if !is_met(&[outside.negated()], values.as_slice()) {
        return Vec::from_slice(alloc, b"out");
    }
    shown_at(alloc, &b, values.as_slice(), id)
}

#[test]
fn members_are_counted_once(rt: HostRuntime) -> Result<(), Fail> {
    let cases: [(&str, &str, &[u8]); 7] = [
        ("", "00000000", b"0"),
        ("3T3T4T", "00000000", b"2"),
        ("1TkT", "00000000", b"1"),
        ("1TkT", "00000010", b"2"),
        ("1a2b3c1d", "10110000", b"2"),
        ("0T1T2T3T4T5T6T", "00000000", b"7"),
        ("0T1T2T3T4T5T6T7Tna", "10000000", b"out"),
    ];
    for (edges, given, want) in cases {
        assert_eq!(rt;
            counted(rt.alloc(), edges, given)?.as_slice(),
            want,
            "{edges}"
        );
    }
    Ok(())
}
