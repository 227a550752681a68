//! Numbers without a sign, in as many bits as they need.

ghost use Rattle.std.specs.Prelude.{◌≡◌, ◌+◌, ◌^◌, ◌<◌, ◌≤◌, Bool, IsTrue, List, IfOk, false, pos};
ghost use Rattle.sat_formula.specs.Lit.{lit_value};
ghost use Rattle.sat_formula.specs.Formula.{Grows, Satisfies};
ghost use Rattle.word_blaster.specs.Word.{bit, number, values, IsExact, WordBelow};

use crate::adders::narrow;
use sat_formula::{Formula, Lit, Word};
use std::alloc::{AllocError, Global};

// Whether the number has at most so many bits.
#[tactic(auto, using(crate::proofs::Unsigned::room))]
pub(crate) fn has_room(n: usize, bits: usize) -> bool
    ensures some { IsTrue result → n < 2 ^ bits }
    ensures none { result ≡ false → 2 ^ bits ≤ n }
{
    if bits >= 64 {
        return true;
    }
    n >> bits == 0
}

/// The bits, lowest first, of the number of x and one more where the literal is true. The sum is at
/// most `most` under each satisfying assignment, and has no more bits than that number or x. Over
/// free bits it adds two variables and seven clauses for each.
#[tactic(auto, using(sat_formula::proofs::Extension::gates, crate::proofs::Words::words))]
pub fn add_bit(
    alloc: Global,
    f: &mut Formula,
    x: &[Lit],
    one: Lit,
    most: usize,
) -> Result<Vec<Lit>, AllocError>
    requires one_below { one.var < f.old.vars }
    requires x_below { WordBelow f.old.vars x.now }
    requires most { (a : List Bool) → Satisfies a f.old → number (values x.now a) + bit (lit_value one a) ≤ most }
    ensures below { IfOk result (λ r. WordBelow f.new.vars r.items) }
    ensures value { IfOk result (λ r. (a : List Bool) → Satisfies a f.new → number (values r.items a) ≡ number (values x.now a) + bit (lit_value one a)) }
    ensures grows { Grows f.old f.new }
{
    let mut sum = Vec::new(alloc);
    let mut carry = one;
    for i in 0..x.len() {
        let place = f.xor(x[i], carry)?;
        let next = f.and(x[i], carry)?;
        sum.push(place)?;
        carry = next;
    }
    if has_room(most, x.len()) {
        return Ok(sum);
    }
    sum.push(carry)?;
    Ok(sum)
}

/// The number of bits without a sign as a word, and a literal that is true where it is outside of
/// the width; the word then holds its low bits.
#[tactic(auto, using(sat_formula::proofs::Extension::gates, crate::proofs::Words::words))]
pub fn natural(
    alloc: Global,
    f: &mut Formula,
    x: &[Lit],
    width: u32,
) -> Result<(Word, Lit), AllocError>
    requires some { 0 < width }
    requires x_below { WordBelow f.old.vars x.now }
    ensures exact { IfOk result (λ r. IsExact f.new width r.0 r.1 (λ a. pos (number (values x.now a)))) }
    ensures grows { Grows f.old f.new }
{
    let none = f.top().negated();
    let mut bits = Vec::from_slice(alloc, x)?;
    for _i in x.len()..width as usize {
        bits.push(none)?;
    }
    bits.push(none)?;
    let (word, outside) = narrow(alloc, f, bits.as_slice(), width as usize)?;
    Ok((word, outside))
}
