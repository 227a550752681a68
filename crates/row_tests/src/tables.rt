//! Domains with the values that the language gives, and what calls add.

use crate::agreeing::{parts, texts_under};
use crate::calls::called;
use crate::operands::{operands, with_bits};
use crate::passing::{count_lines, count_right, passes};
use cell_arena::Build;
use std::alloc::{AllocError, Global};
use std::test::Fail;

// How many of the bits vary, a call, and the texts of what it gives under their values, where the first
// bit changes fastest. A record is a function on the names of its fields, and a tuple or a sequence one
// on the numbers from 1 to its length, which may be outside of the width (4).
const DOMAINS: &str = r#"0 domain r12 => {"n", "p"}
1 domain rmw => {"n", "p"}; {"n", "p"}
0 domain t => {}
0 domain t5 => {1}
0 domain t345 => {1, 2, 3}
0 domain tw/m0123 => {1, 2, 3, 4, 5, 6, 7}
0 domain q: => {}
0 domain q5:T => {1}
1 domain q5:a => {}; {1}
2 domain q123:ab => {}; {1}; {1, 2}; {1, 2, 3}
2 domain q123:Ab => {1}; {}; {1, 2, 3}; {1, 2}
2 domain q1234567:aTb => {1, 2}; {1, 2, 3}; {1, 2, 3, 4, 5, 6}; {1, 2, 3, 4, 5, 6, 7}
2 domain q012345670123456:aaaB => big; big; {}; {1, 2, 3, 4, 5, 6, 7}
"#;

fn has_domain(alloc: Global, line: &str) -> Result<bool, AllocError> {
    let (head, want) = line.split_once(" => ").unwrap_or((line, ""));
    let (varying, call) = head.split_once(" ").unwrap_or((head, ""));
    let texts = texts_under(alloc, call, varying.parse::<usize>().unwrap_or(0))?;
    Ok(texts.as_slice() == want.as_bytes())
}

#[test]
fn domains_have_the_names_and_numbers_of_their_values(rt: HostRuntime) -> Result<(), Fail> {
    passes(&rt, count_lines(rt.alloc(), DOMAINS, has_domain), 13)
}

// The numbers of variables, clauses and cells.
fn counts(b: &Build) -> [usize; 3] {
    let clauses = b.formula.clauses().clauses().len();
    [b.formula.vars(), clauses, b.arena.len()]
}

// What the later numbers are above the earlier ones.
fn differences(after: [usize; 3], before: [usize; 3]) -> [usize; 3] {
    let [vars, clauses, cells] = before;
    let [v, c, n] = after;
    [
        v.saturating_sub(vars),
        c.saturating_sub(clauses),
        n.saturating_sub(cells),
    ]
}

fn added_in(alloc: Global, b: &mut Build, line: &str) -> Result<[usize; 3], AllocError> {
    let (op, key, words) = parts(line);
    let ids = operands(alloc, b, words)?;
    let before = counts(b);
    let _ = called(alloc, b, op, key, ids.as_slice())?;
    Ok(differences(counts(b), before))
}

// What the call adds, at a width of 8.
fn added(alloc: Global, line: &str) -> Result<[usize; 3], AllocError> {
    added_in(alloc, &mut with_bits(alloc, 8, 36)?, line)
}

// A call with its first operand, the second one, and what it adds.
type Size = (&'static str, &'static str, [usize; 3]);

fn is_size(alloc: Global, row: &Size) -> Result<bool, AllocError> {
    let (first, second, size) = *row;
    let line = format!(in alloc; "{first} {second}")?;
    Ok(added(alloc, line.as_str())? == size)
}

// As measured. A pick of a function from 40 known arguments to two known results: all are there, or each
// argument (but six) by a bit of its own, or also the results. And the equality of two functions from 16
// known arguments, each arrow there by a bit of its own: with known results that are equal, or that differ
// by a bit, or with a free truth value as each result. Its cell is the one that tells the equality.
static SIZES: [Size; 6] = [
    (
        "pick s0T1T2T3T4T5T6T7T8T9T:T;T<T=T>T?T@TATBTCTDTETFTGTHTITJTKTLTMTNTOTPTQTRTSTTTUTVTWT",
        "s0T3T",
        [40, 0, 41],
    ),
    (
        "pick s0a1b2c3d4e5f6g7h8i9j:k;l<m=n>o?p@qArBsCtDuEvFwGxHyIzJ0K1L2M3N4O5P6Q7RTSTTTUTVTWT",
        "s0T3T",
        [40, 0, 41],
    ),
    (
        "pick s0a1b2c3d4e5f6g7h8i9j:k;l<m=n>o?p@qArBsCtDuEvFwGxHyIzJ0K1L2M3N4O5P6Q7RTSTTTUTVTWT",
        "s0839",
        [115, 303, 41],
    ),
    (
        "same f0a51b52c53d54e55f56g57h58i59j5:k5;l5<m5=n5>o5?p5",
        "f0q51r52s53t54u55v56w57x58y59z5:05;15<25=35>45?55",
        [33, 129, 1],
    ),
    (
        "same f0am1bm2cm3dm4em5fm6gm7hm8im9jm:km;lm<mm=nm>om?pm",
        "f0q11r12s13t14u15v16w17x18y19z1:01;11<21=31>41?51",
        [64, 222, 1],
    ),
    (
        "same g0a61b62c63d64e65f66g67h68i69j6:k6;l6<m6=n6>o6?p6",
        "g0q71r72s73t74u75v76w77x78y79z7:07;17<27=37>47?57",
        [66, 229, 1],
    ),
];

#[test]
fn calls_add_no_more_than_was_measured(rt: HostRuntime) -> Result<(), Fail> {
    passes(&rt, count_right(rt.alloc(), &SIZES, is_size), 6)
}
