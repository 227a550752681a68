//! Counts: numbers without a sign in a few bits, lowest first, as the lengths of sequences and the places in them are.

ghost use Rattle.std.specs.Prelude.{◌≡◌, ◌&&◌, ◌||◌, ◌+◌, ◌-◌, ◌^◌, ◌<◌, ◌≤◌, ◌==◌, ℕ, Bool, IfOk, List, if◌then◌else◌, length, max, nat_lt, not, pos, take};
ghost use Rattle.sat_formula.specs.Formula.{Grows, HasValue, Satisfies};
ghost use Rattle.sat_formula.specs.Lit.{lit_value};
ghost use Rattle.word_blaster.specs.Word.{AreFew, AreWords, IsWord, WordBelow, bit, is_below, number, values, word_value};
ghost use Rattle.word_blaster.specs.inner.Padding.{IsPadded};

use crate::adders::ripple;
use crate::bitwise::{complement, filled};
use crate::comparisons::number_below;
use crate::naturals::has_room;
use sat_formula::{Formula, Lit, Word};
use std::alloc::{AllocError, Global};

// How many bits a number up to this one needs, and all of the room where that is too small.
fn bits_for(most: usize, room: usize) -> usize
    ensures within { result ≤ room }
    ensures enough { result < room → most < 2 ^ result }
    ensures least { 0 < result → 2 ^ (result - 1) ≤ most }
{
    for k in 0..room {
        if has_room(most, k) {
            return k;
        }
    }
    room
}

// The bits with zeros behind them, up to so many.
fn padded(alloc: Global, f: &Formula, x: &[Lit], n: usize) -> Result<Vec<Lit>, AllocError>
    ensures { IfOk result (λ r. IsPadded f.now x.now n r.items) }
{
    let mut bits = Vec::from_slice(alloc, x)?;
    let mut zeros = filled(alloc, f.top().negated(), n.saturating_sub(x.len()))?;
    bits.append(&mut zeros)?;
    Ok(bits)
}

/// The low bits of a word, as many as a number up to `most` needs, without the sign. It adds nothing to the formula.
pub fn low_bits(alloc: Global, word: &Word, most: usize) -> Result<Vec<Lit>, AllocError>
    requires some { 0 < length word.now }
    ensures below { IfOk result (λ r. (v : ℕ) → WordBelow v word.now → WordBelow v r.items) }
    ensures few { IfOk result (λ r. AreFew most (length word.now) r.items) }
    ensures value { IfOk result (λ r. (a : List Bool) (n : ℕ) → word_value word.now a ≡ pos n → n ≤ most →
        number (values r.items a) ≡ n) }
{
    let lits = word.lits();
    let k = bits_for(most, lits.len() - 1);
    let low = Vec::from_slice(alloc, &lits[..k])?;
    Ok(low)
}

/// The word with zeros above the bits that a number up to `most` needs: the same number where that is from 0 to `most`.
/// It adds nothing to the formula.
pub fn trimmed(alloc: Global, f: &Formula, word: &Word, most: usize) -> Result<Word, AllocError>
    requires some { 0 < length word.now }
    requires x_below { WordBelow f.now.vars word.now }
    ensures word { IfOk result (λ r. IsWord f.now.vars (length word.now) r) }
    ensures value { IfOk result (λ r. (a : List Bool) (n : ℕ) → Satisfies a f.now → word_value word.now a ≡ pos n →
        n ≤ most → word_value r a ≡ pos n) }
{
    let bits = low_bits(alloc, word, most)?;
    let all = padded(alloc, f, &bits, word.lits().len())?;
    Ok(Word::from_vec(all))
}

/// The k low bits of a word, and a literal that is true where its number is not one of k bits without a sign.
#[tactic(auto, using(sat_formula::proofs::Extension::gates, crate::proofs::Words::words))]
pub fn index_bits(
    alloc: Global,
    f: &mut Formula,
    word: &Word,
    k: usize,
) -> Result<(Vec<Lit>, Lit), AllocError>
    requires few { k < length word.now }
    requires x_below { WordBelow f.old.vars word.now }
    ensures front { IfOk result (λ r. r.0.items ≡ take k word.now) }
    ensures beyond { IfOk result (λ r. HasValue f.new r.1 (λ a. not (is_below k (word_value word.now a)))) }
    ensures value { IfOk result (λ r. (a : List Bool) (n : ℕ) → word_value word.now a ≡ pos n → n < 2 ^ k →
        number (values r.0.items a) ≡ n) }
    ensures grows { Grows f.old f.new }
{
    let lits = word.lits();
    let low = Vec::from_slice(alloc, &lits[..k])?;
    let others = complement(alloc, &lits[k..])?;
    let none = f.and_all(alloc, others.as_slice())?;
    Ok((low, none.negated()))
}

/// A literal that is true where the bits are this number.
#[tactic(auto, using(sat_formula::proofs::Extension::gates, crate::proofs::Words::words))]
pub fn equals_number(
    alloc: Global,
    f: &mut Formula,
    bits: &[Lit],
    n: usize,
) -> Result<Lit, AllocError>
    requires x_below { WordBelow f.old.vars bits.now }
    ensures value { IfOk result (λ r. HasValue f.new r (λ a. number (values bits.now a) == n)) }
    ensures grows { Grows f.old f.new }
{
    let mut tests = Vec::new(alloc);
    let mut rest = n;
    for bit in bits {
        tests.push(as_set(*bit, rest % 2 == 1))?;
        rest /= 2;
    }
    if rest != 0 {
        return Ok(f.top().negated());
    }
    let all = f.and_all(alloc, tests.as_slice())?;
    Ok(all)
}

// A literal that is true where the bit is set, or where it is not.
fn as_set(bit: Lit, set: bool) -> Lit
    ensures var { result.var ≡ bit.var }
    ensures value { (a : List Bool) → lit_value result a ≡ (if set then lit_value bit a else not (lit_value bit a)) }
{
    if set { bit } else { bit.negated() }
}

/// A literal that is true where the bits are a greater number than this one.
#[tactic(auto, using(sat_formula::proofs::Extension::gates, crate::proofs::Words::words))]
pub fn is_above(f: &mut Formula, bits: &[Lit], n: usize) -> Result<Lit, AllocError>
    requires x_below { WordBelow f.old.vars bits.now }
    ensures value { IfOk result (λ r. HasValue f.new r (λ a. nat_lt n (number (values bits.now a)))) }
    ensures grows { Grows f.old f.new }
{
    let mut above = f.top().negated();
    let mut rest = n;
    for bit in bits {
        above = greater(f, *bit, rest % 2 == 1, above)?;
        rest /= 2;
    }
    if rest != 0 {
        return Ok(f.top().negated());
    }
    Ok(above)
}

// One bit more above what was compared: where the known bit is set this one must be, and else it may.
fn greater(f: &mut Formula, bit: Lit, known: bool, below: Lit) -> Result<Lit, AllocError>
    requires x_below { bit.var < f.old.vars }
    requires y_below { below.var < f.old.vars }
    ensures value { IfOk result (λ r. HasValue f.new r (λ a. if known then lit_value bit a && lit_value below a else lit_value bit a || lit_value below a)) }
    ensures grows { Grows f.old f.new }
{
    if known {
        f.and(bit, below)
    } else {
        f.or(bit, below)
    }
}

/// A literal that is true where the first number is less than the second.
#[tactic(auto, using(sat_formula::proofs::Extension::gates, crate::proofs::Words::words))]
pub fn count_less(alloc: Global, f: &mut Formula, x: &[Lit], y: &[Lit]) -> Result<Lit, AllocError>
    requires x_below { WordBelow f.old.vars x.now }
    requires y_below { WordBelow f.old.vars y.now }
    ensures value { IfOk result (λ r. HasValue f.new r (λ a. nat_lt (number (values x.now a)) (number (values y.now a)))) }
    ensures grows { Grows f.old f.new }
{
    let left = padded(alloc, f, x, y.len())?;
    let right = padded(alloc, f, y, x.len())?;
    let less = number_below(f, left.as_slice(), right.as_slice())?;
    Ok(less)
}

/// The sum of two numbers, with one bit more than the longer has.
#[tactic(auto, using(sat_formula::proofs::Extension::gates, crate::proofs::Words::words))]
pub fn add_counts(
    alloc: Global,
    f: &mut Formula,
    x: &[Lit],
    y: &[Lit],
) -> Result<Vec<Lit>, AllocError>
    requires x_below { WordBelow f.old.vars x.now }
    requires y_below { WordBelow f.old.vars y.now }
    ensures word { IfOk result (λ r. IsWord f.new.vars (max (length x.now) (length y.now) + 1) r.items) }
    ensures value { IfOk result (λ r. (a : List Bool) → Satisfies a f.new →
        number (values r.items a) ≡ number (values x.now a) + number (values y.now a)) }
    ensures grows { Grows f.old f.new }
{
    let left = padded(alloc, f, x, y.len())?;
    let right = padded(alloc, f, y, x.len())?;
    let zero = f.top().negated();
    let (mut sum, carry) = ripple(alloc, f, left.as_slice(), right.as_slice(), zero)?;
    sum.push(carry)?;
    Ok(sum)
}

/// The difference of two numbers of as many bits, where the second is not the greater.
#[tactic(auto, using(sat_formula::proofs::Extension::gates, crate::proofs::Words::words))]
pub fn subtract_counts(
    alloc: Global,
    f: &mut Formula,
    x: &[Lit],
    y: &[Lit],
) -> Result<Vec<Lit>, AllocError>
    requires words { AreWords f.old.vars x.now y.now }
    ensures word { IfOk result (λ r. IsWord f.new.vars (length x.now) r.items) }
    ensures value { IfOk result (λ r. (a : List Bool) → Satisfies a f.new → number (values y.now a) ≤ number (values x.now a) →
        number (values r.items a) + number (values y.now a) ≡ number (values x.now a)) }
    ensures grows { Grows f.old f.new }
{
    let turned = complement(alloc, y)?;
    let one = f.top();
    let (difference, _) = ripple(alloc, f, x, turned.as_slice(), one)?;
    Ok(difference)
}

/// The number less one where the literal is true, if it is not 0 there. Over free bits it adds two variables and seven
/// clauses for each.
#[tactic(auto, using(sat_formula::proofs::Extension::gates, crate::proofs::Words::words))]
pub fn subtract_bit(
    alloc: Global,
    f: &mut Formula,
    x: &[Lit],
    one: Lit,
) -> Result<Vec<Lit>, AllocError>
    requires one_below { one.var < f.old.vars }
    requires x_below { WordBelow f.old.vars x.now }
    ensures word { IfOk result (λ r. IsWord f.new.vars (length x.now) r.items) }
    ensures value { IfOk result (λ r. (a : List Bool) → Satisfies a f.new → bit (lit_value one a) ≤ number (values x.now a) →
        number (values r.items a) + bit (lit_value one a) ≡ number (values x.now a)) }
    ensures grows { Grows f.old f.new }
{
    let mut difference = Vec::new(alloc);
    let mut borrow = one;
    for i in 0..x.len() {
        let place = f.xor(x[i], borrow)?;
        let next = f.and(x[i].negated(), borrow)?;
        difference.push(place)?;
        borrow = next;
    }
    Ok(difference)
}
