//! Each call against 128-bit arithmetic, on constants and on free words that unit clauses fix.

ghost use Rattle.std.specs.Prelude.{◌≡◌, ◌<◌, ◌≤◌, length, IfOk};
ghost use Rattle.word_blaster.specs.Word.{WordBelow};

use sat_formula::{Assignment, Clause, Formula, Lit, Word};
use std::alloc::{AllocError, Global};
use std::process::Abort;
use std::test::Fail;
use word_blaster::{add, div_floor, div_rem_floor, equal, less, literal, mul, neg, rem_floor, sub};

#[derive(Clone, Copy, Debug)]
enum Call {
    Add,
    Sub,
    Mul,
    Neg,
    DivFloor,
    RemFloor,
    Quotient,
    Rest,
    Less,
    Equal,
}

// What a call gave, and what it has to give where that is said.
#[derive(Drop)]
struct Answer {
    word: Option<Word>,
    lit: Option<Lit>,
}

struct Expected {
    number: Option<i128>,
    truth: Option<bool>,
}

// The widths, each with its least and its greatest number.
const RANGES: [(u32, i128, i128); 5] = [
    (1, -1, 0),
    (4, -8, 7),
    (8, -128, 127),
    (32, -2147483648, 2147483647),
    (64, -9223372036854775808, 9223372036854775807),
];

fn only_word(word: Word) -> Answer {
    Answer {
        word: Some(word),
        lit: None,
    }
}

fn only_lit(lit: Lit) -> Answer {
    Answer {
        word: None,
        lit: Some(lit),
    }
}

fn both(pair: (Word, Lit)) -> Answer {
    let (word, lit) = pair;
    Answer {
        word: Some(word),
        lit: Some(lit),
    }
}

fn answer_of(
    alloc: Global,
    f: &mut Formula,
    call: Call,
    x: &Word,
    y: &Word,
) -> Result<Answer, AllocError>
    requires some { 0 < length x.now }
    requires same { length x.now ≡ length y.now }
    requires x_below { WordBelow f.old.vars x.now }
    requires y_below { WordBelow f.old.vars y.now }
{
    Ok(match call {
        Call::Add => both(add(alloc, f, x, y)?),
        Call::Sub => both(sub(alloc, f, x, y)?),
        Call::Mul => both(mul(alloc, f, x, y)?),
        Call::Neg => both(neg(alloc, f, x)?),
        Call::DivFloor => only_word(div_floor(alloc, f, x, y)?),
        Call::RemFloor => only_word(rem_floor(alloc, f, x, y)?),
        Call::Quotient => only_word(div_rem_floor(alloc, f, x, y)?.0),
        Call::Rest => only_word(div_rem_floor(alloc, f, x, y)?.1),
        Call::Less => only_lit(less(alloc, f, x, y)?),
        Call::Equal => only_lit(equal(alloc, f, x, y)?),
    })
}

fn expected_of(call: Call, x: i128, y: i128, least: i128, greatest: i128) -> Expected {
    let in_range = |n: i128| {
        let fits = least <= n && n <= greatest;
        Expected {
            number: if fits { Some(n) } else { None },
            truth: Some(!fits),
        }
    };
    match call {
        Call::Add => in_range(x.wrapping_add(y)),
        Call::Sub => in_range(x.wrapping_sub(y)),
        Call::Mul => in_range(x.wrapping_mul(y)),
        Call::Neg => in_range(x.wrapping_neg()),
        Call::DivFloor | Call::Quotient => Expected {
            number: if y > 0 { x.checked_div_euclid(y) } else { None },
            truth: None,
        },
        Call::RemFloor | Call::Rest => Expected {
            number: if y > 0 { x.checked_rem_euclid(y) } else { None },
            truth: None,
        },
        Call::Less => Expected {
            number: None,
            truth: Some(x < y),
        },
        Call::Equal => Expected {
            number: None,
            truth: Some(x == y),
        },
    }
}

// Fresh variables, and a unit clause for each that gives it the value of a constant.
#[tactic(auto, using(word_blaster::proofs::Words::words))]
fn fixed(alloc: Global, f: &mut Formula, known: &Word) -> Result<Word, AllocError>
    ensures below { IfOk result (λ w. WordBelow f.new.vars w) }
    ensures width { IfOk result (λ w. length w ≡ length known.now) }
    ensures grown { f.old.vars ≤ f.new.vars }
{
    let mut lits = Vec::new(alloc);
    for bit in known.lits() {
        let l = f.fresh()?;
        f.add(&[Lit {
            var: l.var,
            neg: bit.neg,
        }])?;
        lits.push(l)?;
    }
    Ok(Word::from_vec(lits))
}

#[tactic(auto, using(word_blaster::proofs::Words::words))]
pub(crate) fn word(
    alloc: Global,
    f: &mut Formula,
    n: i128,
    width: u32,
    free: bool,
) -> Result<Word, AllocError>
    requires { 0 < width }
    ensures below { IfOk result (λ w. WordBelow f.new.vars w) }
    ensures width { IfOk result (λ w. length w ≡ width) }
    ensures grown { f.old.vars ≤ f.new.vars }
{
    let (known, _outside) = literal(alloc, f, n, width)?;
    if free {
        let w = fixed(alloc, f, &known)?;
        return Ok(w);
    }
    Ok(known)
}

// Gives the one literal of the clause that has no value yet a value, if no other is true.
fn settle(values: &mut [Option<bool>], clause: &Clause) {
    let mut open = None;
    for l in clause.lits() {
        match values.get(l.var) {
            Some(Some(v)) => {
                if *v != l.neg {
                    return;
                }
            }
            _ => {
                if open.is_some() {
                    return;
                }
                open = Some(*l);
            }
        }
    }
    if let Some(l) = open {
        if let Some(slot) = values.get_mut(l.var) {
            *slot = Some(!l.neg);
        }
    }
}

// Unit propagation that takes each clause once, in order: a gate's clauses stand after those of
// its operands, so this gives every gate its value.
pub(crate) fn solved(alloc: Global, f: &Formula) -> Result<Vec<bool>, AllocError> {
    let mut values = vec![in alloc; None; f.vars()]?;
    for clause in f.clauses().clauses() {
        settle(values.as_mut_slice(), clause);
    }
    values.iter().map(|v| v.unwrap_or(false)).collect(alloc)
}

pub(crate) fn is_set(l: Lit, values: &[bool]) -> bool {
    values.get(l.var).copied().unwrap_or(false) != l.neg
}

// The number of a word in two's complement, from its highest bit down.
fn number_of(w: &Word, values: &[bool]) -> i128 {
    let mut n: i128 = 0;
    for (i, l) in w.lits().iter().rev().enumerate() {
        let bit = if is_set(*l, values) { 1 } else { 0 };
        n = if i == 0 {
            -bit
        } else {
            n.wrapping_mul(2).wrapping_add(bit)
        };
    }
    n
}

// A formula after one call on two numbers, which are constants or free words.
#[derive(Drop)]
struct Run {
    formula: Formula,
    // How many variables and clauses the call added.
    vars: usize,
    clauses: usize,
    answer: Answer,
}

#[tactic(auto, using(word_blaster::proofs::Words::words))]
fn outcome_of(
    alloc: Global,
    call: Call,
    x: i128,
    y: i128,
    width: u32,
    free: bool,
) -> Result<Run, AllocError>
    requires { 0 < width }
{
    let mut formula = Formula::new(alloc)?;
    let a = word(alloc, &mut formula, x, width, free)?;
    let b = word(alloc, &mut formula, y, width, free)?;
    let vars = formula.vars();
    let clauses = formula.clauses().clauses().len();
    let answer = answer_of(alloc, &mut formula, call, &a, &b)?;
    Ok(Run {
        vars: formula.vars().saturating_sub(vars),
        clauses: formula.clauses().clauses().len().saturating_sub(clauses),
        formula,
        answer,
    })
}

// One call on two numbers, against what is expected.
fn decide(
    rt: &impl Abort,
    alloc: Global,
    call: Call,
    x: i128,
    y: i128,
    range: (u32, i128, i128),
    free: bool,
) -> Result<(), Fail> {
    let (width, least, greatest) = range;
    assert!(rt; width > 0);
    let Run {
        formula,
        answer,
        ..
    } = outcome_of(alloc, call, x, y, width, free)?;
    let Answer { word, lit } = answer;
    let Expected { number, truth } = expected_of(call, x, y, least, greatest);
    let solution = Assignment::from_vec(solved(alloc, &formula)?);
    let values = solution.values();
    if let (Some(w), Some(n)) = (&word, number) {
        assert_eq!(rt;
            number_of(w, values),
            n,
            "{call:?} of {x} and {y} at {width}"
        );
    }
    if let (Some(l), Some(t)) = (lit, truth) {
        assert_eq!(rt; is_set(l, values), t, "{call:?} of {x} and {y} at {width}");
    }
    assert_eq!(rt; values.len(), formula.vars());
    assert!(rt;
        formula.satisfies(&solution),
        "{call:?} of {x} and {y} at {width}"
    );
    Ok(())
}

// A call on each two of these numbers that the width has.
fn table(rt: &impl Abort, alloc: Global, call: Call) -> Result<(), Fail> {
    for range in RANGES {
        let (_, least, greatest) = range;
        let ends = [
            least,
            least.wrapping_add(1),
            greatest.wrapping_sub(1),
            greatest,
        ];
        let mut numbers = ends.to_vec(alloc)?;
        numbers.extend_from_slice(&[-1, 0, 2])?;
        for x in numbers.as_slice() {
            for y in numbers.as_slice() {
                if least <= *x && *x <= greatest && least <= *y && *y <= greatest {
                    decide(rt, alloc, call, *x, *y, range, false)?;
                    decide(rt, alloc, call, *x, *y, range, true)?;
                }
            }
        }
    }
    Ok(())
}

#[test]
fn adds(rt: HostRuntime) -> Result<(), Fail> {
    table(&rt, rt.alloc(), Call::Add)
}

#[test]
fn subtracts(rt: HostRuntime) -> Result<(), Fail> {
    table(&rt, rt.alloc(), Call::Sub)
}

#[test]
fn multiplies(rt: HostRuntime) -> Result<(), Fail> {
    table(&rt, rt.alloc(), Call::Mul)
}

#[test]
fn negates(rt: HostRuntime) -> Result<(), Fail> {
    table(&rt, rt.alloc(), Call::Neg)
}

#[test]
fn divides(rt: HostRuntime) -> Result<(), Fail> {
    table(&rt, rt.alloc(), Call::DivFloor)
}

#[test]
fn leaves_a_rest(rt: HostRuntime) -> Result<(), Fail> {
    table(&rt, rt.alloc(), Call::RemFloor)
}

#[test]
fn orders(rt: HostRuntime) -> Result<(), Fail> {
    table(&rt, rt.alloc(), Call::Less)
}

#[test]
fn tells_equal_words(rt: HostRuntime) -> Result<(), Fail> {
    table(&rt, rt.alloc(), Call::Equal)
}

#[test]
fn makes_words_of_numbers(rt: HostRuntime) -> Result<(), Fail> {
    let alloc = rt.alloc();
    for (width, least, greatest) in RANGES {
        for (_, low, high) in RANGES {
            for n in [
                low.wrapping_sub(1),
                low,
                low.wrapping_add(1),
                0,
                1,
                high,
                high.wrapping_add(1),
                i128::MIN,
                i128::MAX,
            ] {
                assert!(rt; width > 0);
                let mut f = Formula::new(alloc)?;
                let (word, outside) = literal(alloc, &mut f, n, width)?;
                let fits = least <= n && n <= greatest;
                assert_eq!(rt; is_set(outside, &[true]), !fits, "{n} at {width}");
                if fits {
                    assert_eq!(rt; number_of(&word, &[true]), n, "{n} at {width}");
                }
            }
        }
    }
    Ok(())
}

// At width 8, and that constants add nothing.
#[test]
fn decides_known_examples(rt: HostRuntime) -> Result<(), Fail> {
    for (call, x, y, number, outside) in [
        (Call::Add, 120, 8, None, Some(true)),
        (Call::Mul, -16, 8, Some(-128), Some(false)),
        (Call::Mul, 16, 8, None, Some(true)),
        (Call::DivFloor, -7, 2, Some(-4), None),
        (Call::RemFloor, -7, 2, Some(1), None),
        (Call::Quotient, -7, 2, Some(-4), None),
        (Call::Rest, -7, 2, Some(1), None),
        (Call::Quotient, 127, 10, Some(12), None),
        (Call::Rest, 127, 10, Some(7), None),
    ] {
        let Run {
            vars,
            clauses,
            answer,
            ..
        } = outcome_of(rt.alloc(), call, x, y, 8, false)?;
        let Answer { word, lit } = answer;
        if let Some(n) = number {
            assert_eq!(rt;
                word.map(|w| number_of(&w, &[true])),
                Some(n),
                "{call:?} of {x}, {y}"
            );
        }
        assert_eq!(rt;
            lit.map(|l| is_set(l, &[true])),
            outside,
            "{call:?} of {x}, {y}"
        );
        assert_eq!(rt; (vars, clauses), (0, 0), "{call:?} of {x}, {y}");
    }
    Ok(())
}

#[test]
fn adds_no_more_than_documented(rt: HostRuntime) -> Result<(), Fail> {
    for (call, at8, at32, at64) in [
        (Call::Add, (25, 99), (97, 387), (193, 771)),
        (Call::Sub, (25, 99), (97, 387), (193, 771)),
        (Call::Neg, (16, 57), (64, 225), (128, 449)),
        (Call::Mul, (247, 910), (4063, 15166), (16319, 61054)),
        (Call::DivFloor, (229, 902), (3997, 15926), (16189, 64630)),
        (Call::RemFloor, (229, 902), (3997, 15926), (16189, 64630)),
        (Call::Quotient, (229, 902), (3997, 15926), (16189, 64630)),
        (Call::Less, (16, 63), (64, 255), (128, 511)),
        (Call::Equal, (9, 41), (33, 161), (65, 321)),
    ] {
        for (width, counts) in [(8, at8), (32, at32), (64, at64)] {
            assert!(rt; width > 0);
            let Run { vars, clauses, .. } = outcome_of(rt.alloc(), call, 0, 0, width, true)?;
            assert_eq!(rt; (vars, clauses), counts, "{call:?} at {width}");
        }
    }
    Ok(())
}
