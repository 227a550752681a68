//! Counts: each call on all small numbers, as free bits that unit clauses fix, against 128-bit arithmetic.

ghost use Rattle.std.specs.Prelude.{◌≡◌, ◌<◌, ◌≤◌, length, IfOk};
ghost use Rattle.word_blaster.specs.Word.{WordBelow};

use crate::circuits::{is_set, solved, word};
use sat_formula::{Formula, Lit};
use std::alloc::{AllocError, Global};
use std::test::Fail;
use word_blaster::{
    add_counts, count_less, equals_number, index_bits, is_above, low_bits, subtract_bit,
    subtract_counts, trimmed,
};

#[derive(Clone, Copy, Debug)]
enum Call {
    Sum,
    Difference,
    OneLess,
    Less,
    Equals,
    Above,
}

fn one(alloc: Global, l: Lit) -> Result<Vec<Lit>, AllocError> {
    Ok(vec![in alloc; l]?)
}

// The number of bits without a sign, from the highest down.
fn unsigned(bits: &[Lit], values: &[bool]) -> i128 {
    let mut n: i128 = 0;
    for l in bits.iter().rev() {
        let bit = if is_set(*l, values) { 1 } else { 0 };
        n = n.wrapping_mul(2).wrapping_add(bit);
    }
    n
}

#[tactic(auto, using(word_blaster::proofs::Words::words))]
fn answer_of(
    alloc: Global,
    f: &mut Formula,
    call: Call,
    x: &[Lit],
    y: &[Lit],
    n: usize,
) -> Result<Vec<Lit>, AllocError>
    requires same { length x.now ≡ length y.now }
    requires x_below { WordBelow f.old.vars x.now }
    requires y_below { WordBelow f.old.vars y.now }
{
    let top = f.top();
    match call {
        Call::Sum => add_counts(alloc, f, x, y),
        Call::Difference => subtract_counts(alloc, f, x, y),
        Call::OneLess => subtract_bit(alloc, f, x, top),
        Call::Less => one(alloc, count_less(alloc, f, x, y)?),
        Call::Equals => one(alloc, equals_number(alloc, f, x, n)?),
        Call::Above => one(alloc, is_above(f, x, n)?),
    }
}

// What a call gives of two numbers below 8, which have four bits.
#[tactic(auto, using(word_blaster::proofs::Words::words))]
fn given(alloc: Global, call: Call, x: usize, y: usize) -> Result<i128, AllocError> {
    let mut f = Formula::new(alloc)?;
    let a = word(alloc, &mut f, x as i128, 4, true)?;
    let b = word(alloc, &mut f, y as i128, 4, true)?;
    let answer = answer_of(alloc, &mut f, call, a.lits(), b.lits(), y)?;
    let values = solved(alloc, &f)?;
    Ok(unsigned(answer.as_slice(), values.as_slice()))
}

fn wanted(call: Call, x: usize, y: usize) -> Option<i128> {
    let (m, n) = (x as i128, y as i128);
    match call {
        Call::Sum => Some(m.wrapping_add(n)),
        Call::Difference => if y <= x {
            Some(m.wrapping_sub(n))
        } else {
            None
        },
        Call::OneLess => if x > 0 { Some(m.wrapping_sub(1)) } else { None },
        Call::Less => Some((x < y) as i128),
        Call::Equals => Some((x == y) as i128),
        Call::Above => Some((x > y) as i128),
    }
}

// On how many pairs of numbers below 8 the call gives something else.
fn differing(alloc: Global, call: Call) -> Result<usize, AllocError> {
    let mut count: usize = 0;
    for x in 0..8 {
        for y in 0..8 {
            if let Some(n) = wanted(call, x, y) {
                if given(alloc, call, x, y)? != n {
                    count = count.wrapping_add(1);
                }
            }
        }
    }
    Ok(count)
}

#[test]
fn counts_are_added_compared_and_subtracted(rt: HostRuntime) -> Result<(), Fail> {
    for call in [
        Call::Sum,
        Call::Difference,
        Call::OneLess,
        Call::Less,
        Call::Equals,
        Call::Above,
    ] {
        assert_eq!(rt; differing(rt.alloc(), call)?, 0, "{call:?}");
    }
    Ok(())
}

#[test]
fn numbers_past_the_bits_are_neither_equal_nor_exceeded(rt: HostRuntime) -> Result<(), Fail> {
    for n in [16, 19, 100] {
        assert_eq!(rt; given(rt.alloc(), Call::Equals, 3, n)?, 0, "{n}");
        assert_eq!(rt; given(rt.alloc(), Call::Above, 3, n)?, 0, "{n}");
    }
    Ok(())
}

// The low bits for numbers up to 5, the same trimmed, the two low bits, and whether there is more.
#[tactic(auto, using(word_blaster::proofs::Words::words))]
fn parts(alloc: Global, n: i128) -> Result<(i128, i128, i128, bool), AllocError> {
    let mut f = Formula::new(alloc)?;
    let a = word(alloc, &mut f, n, 5, true)?;
    let low = low_bits(alloc, &a, 5)?;
    let short = trimmed(alloc, &f, &a, 5)?;
    let (two, more) = index_bits(alloc, &mut f, &a, 2)?;
    let values = solved(alloc, &f)?;
    let values = values.as_slice();
    Ok((
        unsigned(low.as_slice(), values),
        unsigned(short.lits(), values),
        unsigned(two.as_slice(), values),
        is_set(more, values),
    ))
}

#[test]
fn words_are_cut_to_the_bits_of_an_index(rt: HostRuntime) -> Result<(), Fail> {
    for (n, low, two, more) in [
        (0, 0, 0, false),
        (3, 3, 3, false),
        (4, 4, 0, true),
        (5, 5, 1, true),
        (15, 7, 3, true),
        (-1, 7, 3, true),
        (-16, 0, 0, true),
    ] {
        assert_eq!(rt; parts(rt.alloc(), n)?, (low, low, two, more), "{n}");
    }
    Ok(())
}
