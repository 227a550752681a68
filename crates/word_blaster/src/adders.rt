//! Sums, differences and negations.

ghost use Rattle.std.specs.Prelude.{◌≡◌, ◌+◌, ◌-◌, ◌*◌, ◌^◌, ◌<◌, ◌≤◌, Bool, length, IfOk, List, if◌then◌else◌, ℤ, ◌+ℤ◌, ◌-ℤ◌, neg_ℤ};
ghost use Rattle.sat_formula.specs.Lit.{lit_value, differ};
ghost use Rattle.sat_formula.specs.Formula.{Grows, HasValue, Satisfies};
ghost use Rattle.word_blaster.specs.Word.{word_value, bit, number, taken, signed, values, IsExact, WordBelow, IsWord, AreWords};

use crate::bitwise::{complement, filled};
use sat_formula::{Formula, Lit, Word};
use std::alloc::{AllocError, Global};

/// The sum and the carry of three bits.
#[tactic(auto, using(sat_formula::proofs::Extension::gates))]
fn full_adder(f: &mut Formula, x: Lit, y: Lit, z: Lit) -> Result<(Lit, Lit), AllocError>
    requires x_below { x.var < f.old.vars }
    requires y_below { y.var < f.old.vars }
    requires z_below { z.var < f.old.vars }
    ensures sum { IfOk result (λ r. HasValue f.new r.0 (λ a. differ (differ (lit_value x a) (lit_value y a)) (lit_value z a))) }
    ensures carry { IfOk result (λ r. HasValue f.new r.1 (λ a. if differ (lit_value x a) (lit_value y a) then lit_value z a else lit_value x a)) }
    ensures grows { Grows f.old f.new }
{
    let half = f.xor(x, y)?;
    let sum = f.xor(half, z)?;
    let carry = f.mux(half, z, x)?;
    Ok((sum, carry))
}

/// The sum of two unsigned numbers and a carry, without its carry.
#[tactic(auto, using(sat_formula::proofs::Extension::gates, crate::proofs::Words::words))]
pub(crate) fn ripple(
    alloc: Global,
    f: &mut Formula,
    x: &[Lit],
    y: &[Lit],
    carry_in: Lit,
) -> Result<(Vec<Lit>, Lit), AllocError>
    requires words { AreWords f.old.vars x.now y.now }
    requires carry_below { carry_in.var < f.old.vars }
    ensures word { IfOk result (λ r. IsWord f.new.vars (length x.now) r.0.items) }
    ensures carry_out { IfOk result (λ r. r.1.var < f.new.vars) }
    ensures value { IfOk result (λ r. (a : List Bool) → Satisfies a f.new → number (values r.0.items a) + bit (lit_value r.1 a) * 2 ^ length x.now ≡ number (values x.now a) + number (values y.now a) + bit (lit_value carry_in a)) }
    ensures grows { Grows f.old f.new }
{
    let mut sum = Vec::new(alloc);
    let mut carry = carry_in;
    for i in 0..x.len() {
        let (s, c) = full_adder(f, x[i], y[i], carry)?;
        sum.push(s)?;
        carry = c;
    }
    Ok((sum, carry))
}

/// The sum of two signed numbers and a carry, with one bit more, so that it is always exact.
#[tactic(auto, using(sat_formula::proofs::Extension::gates, crate::proofs::Words::words))]
pub(crate) fn wide_sum(
    alloc: Global,
    f: &mut Formula,
    x: &[Lit],
    y: &[Lit],
    carry_in: Lit,
) -> Result<Vec<Lit>, AllocError>
    requires some { 0 < length x.now }
    requires words { AreWords f.old.vars x.now y.now }
    requires carry_below { carry_in.var < f.old.vars }
    ensures word { IfOk result (λ r. IsWord f.new.vars (length x.now + 1) r.items) }
    ensures value { IfOk result (λ r. (a : List Bool) → Satisfies a f.new → number (values r.items a) + taken (values x.now a) + taken (values y.now a) ≡ number (values x.now a) + number (values y.now a) + bit (lit_value carry_in a) + taken (values r.items a)) }
    ensures grows { Grows f.old f.new }
{
    let last = x.len() - 1;
    let (mut sum, carry) = ripple(alloc, f, x, y, carry_in)?;
    let half = f.xor(x[last], y[last])?;
    let top = f.xor(half, carry)?;
    sum.push(top)?;
    Ok(sum)
}

/// The difference of two signed numbers, with one bit more, so that it is always exact.
#[tactic(auto, using(sat_formula::proofs::Extension::gates, crate::proofs::Words::words))]
pub(crate) fn wide_difference(
    alloc: Global,
    f: &mut Formula,
    x: &[Lit],
    y: &[Lit],
) -> Result<Vec<Lit>, AllocError>
    requires some { 0 < length x.now }
    requires words { AreWords f.old.vars x.now y.now }
    ensures word { IfOk result (λ r. IsWord f.new.vars (length x.now + 1) r.items) }
    ensures value { IfOk result (λ r. (a : List Bool) → Satisfies a f.new → number (values r.items a) + taken (values x.now a) + number (values y.now a) ≡ number (values x.now a) + taken (values y.now a) + taken (values r.items a)) }
    ensures grows { Grows f.old f.new }
{
    let turned = complement(alloc, y)?;
    let one = f.top();
    let difference = wide_sum(alloc, f, x, turned.as_slice(), one)?;
    Ok(difference)
}

/// The low bits of a number, and whether it is outside of their width.
#[tactic(auto, using(sat_formula::proofs::Extension::gates, crate::proofs::Words::words))]
pub(crate) fn narrow(
    alloc: Global,
    f: &mut Formula,
    x: &[Lit],
    width: usize,
) -> Result<(Word, Lit), AllocError>
    requires some { 0 < width }
    requires enough { width ≤ length x.now }
    requires x_below { WordBelow f.old.vars x.now }
    ensures exact { IfOk result (λ r. IsExact f.new width r.0 r.1 (λ a. signed (values x.now a))) }
    ensures grows { Grows f.old f.new }
{
    let mut outside = f.top().negated();
    for i in width..x.len() {
        let changed = f.xor(x[i], x[i - 1])?;
        outside = f.or(outside, changed)?;
    }
    let word = Word::from_vec(Vec::from_slice(alloc, &x[..width])?);
    Ok((word, outside))
}

/// The sum, and a literal that is true where it is outside of the width; the word then holds its
/// low bits.
/// Over free words it adds 25, 97 and 193 variables, and 99, 387 and 771 clauses, at
/// widths 8, 32 and 64.
#[tactic(auto, using(sat_formula::proofs::Extension::gates, crate::proofs::Words::words))]
pub fn add(alloc: Global, f: &mut Formula, x: &Word, y: &Word) -> Result<(Word, Lit), AllocError>
    requires some { 0 < length x.now }
    requires words { AreWords f.old.vars x.now y.now }
    ensures exact { IfOk result (λ r. IsExact f.new (length x.now) r.0 r.1 (λ a. word_value x.now a +ℤ word_value y.now a)) }
    ensures grows { Grows f.old f.new }
{
    let zero = f.top().negated();
    let sum = wide_sum(alloc, f, x.lits(), y.lits(), zero)?;
    let exact = narrow(alloc, f, sum.as_slice(), x.lits().len())?;
    Ok(exact)
}

/// The difference x - y, and a literal that is true where it is outside of the width; the word
/// then holds its low bits.
/// Over free words it adds 25, 97 and 193 variables, and 99, 387 and 771 clauses, at
/// widths 8, 32 and 64.
#[tactic(auto, using(sat_formula::proofs::Extension::gates, crate::proofs::Words::words))]
pub fn sub(alloc: Global, f: &mut Formula, x: &Word, y: &Word) -> Result<(Word, Lit), AllocError>
    requires some { 0 < length x.now }
    requires words { AreWords f.old.vars x.now y.now }
    ensures exact { IfOk result (λ r. IsExact f.new (length x.now) r.0 r.1 (λ a. word_value x.now a -ℤ word_value y.now a)) }
    ensures grows { Grows f.old f.new }
{
    let difference = wide_difference(alloc, f, x.lits(), y.lits())?;
    let exact = narrow(alloc, f, difference.as_slice(), x.lits().len())?;
    Ok(exact)
}

/// The negation, and a literal that is true where it is outside of the width, which it is for the
/// least number alone; the word then holds its low bits.
/// Over free words it adds 16, 64 and 128 variables, and 57, 225 and 449 clauses, at
/// widths 8, 32 and 64.
#[tactic(auto, using(sat_formula::proofs::Extension::gates, crate::proofs::Words::words))]
pub fn neg(alloc: Global, f: &mut Formula, x: &Word) -> Result<(Word, Lit), AllocError>
    requires some { 0 < length x.now }
    requires x_below { WordBelow f.old.vars x.now }
    ensures exact { IfOk result (λ r. IsExact f.new (length x.now) r.0 r.1 (λ a. neg_ℤ (word_value x.now a))) }
    ensures grows { Grows f.old f.new }
{
    let zero = filled(alloc, f.top().negated(), x.lits().len())?;
    let difference = wide_difference(alloc, f, zero.as_slice(), x.lits())?;
    let exact = narrow(alloc, f, difference.as_slice(), x.lits().len())?;
    Ok(exact)
}
