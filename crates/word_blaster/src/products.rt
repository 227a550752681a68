//! Products, by adding and shifting.

ghost use Rattle.std.specs.Prelude.{◌≡◌, ◌+◌, ◌*◌, ◌<◌, ◌≤◌, Bool, length, IfOk, List, ℤ, ◌*ℤ◌};
ghost use Rattle.sat_formula.specs.Lit.{lit_value};
ghost use Rattle.sat_formula.specs.Formula.{Grows, Satisfies};
ghost use Rattle.word_blaster.specs.Word.{word_value, bit, number, taken, signed, values, IsExact, WordBelow, IsWord, AreWords};

use crate::adders::{narrow, wide_difference, wide_sum};
use crate::bitwise::{filled, masked};
use sat_formula::{Formula, Lit, Word};
use std::alloc::{AllocError, Global};

/// One step of a product: adds x where the literal is true, and splits off the lowest bit.
#[tactic(auto, using(sat_formula::proofs::Extension::gates, crate::proofs::Words::words))]
fn add_part(
    alloc: Global,
    f: &mut Formula,
    high: &[Lit],
    x: &[Lit],
    l: Lit,
) -> Result<(Lit, Vec<Lit>), AllocError>
    requires some { 0 < length x.now }
    requires words { AreWords f.old.vars high.now x.now }
    requires l_below { l.var < f.old.vars }
    ensures low_below { IfOk result (λ r. r.0.var < f.new.vars) }
    ensures word { IfOk result (λ r. IsWord f.new.vars (length x.now) r.1.items) }
    ensures value { IfOk result (λ r. (a : List Bool) → Satisfies a f.new → bit (lit_value r.0 a) + 2 * number (values r.1.items a) + taken (values high.now a) + bit (lit_value l a) * taken (values x.now a) ≡ number (values high.now a) + bit (lit_value l a) * number (values x.now a) + 2 * taken (values r.1.items a)) }
    ensures grows { Grows f.old f.new }
{
    let zero = f.top().negated();
    let part = masked(alloc, f, x, l)?;
    let sum = wide_sum(alloc, f, high, part.as_slice(), zero)?;
    let bits = sum.as_slice();
    let lowest = bits[0];
    let rest = Vec::from_slice(alloc, &bits[1..])?;
    Ok((lowest, rest))
}

/// The product of two signed numbers, with the bits of both, so that it is always exact.
#[tactic(auto, using(sat_formula::proofs::Extension::gates, crate::proofs::Words::words))]
fn wide_product(
    alloc: Global,
    f: &mut Formula,
    x: &[Lit],
    y: &[Lit],
) -> Result<Vec<Lit>, AllocError>
    requires x_some { 0 < length x.now }
    requires y_some { 0 < length y.now }
    requires x_below { WordBelow f.old.vars x.now }
    requires y_below { WordBelow f.old.vars y.now }
    ensures word { IfOk result (λ r. IsWord f.new.vars (length x.now + length y.now) r.items) }
    ensures value { IfOk result (λ r. (a : List Bool) → Satisfies a f.new → signed (values r.items a) ≡ signed (values x.now a) *ℤ signed (values y.now a)) }
    ensures grows { Grows f.old f.new }
{
    let zero = f.top().negated();
    let last = y.len() - 1;
    let mut low = Vec::new(alloc);
    let mut high = filled(alloc, zero, x.len())?;
    for i in 0..last {
        let (bit, rest) = add_part(alloc, f, high.as_slice(), x, y[i])?;
        low.push(bit)?;
        high = rest;
    }
    let part = masked(alloc, f, x, y[last])?;
    let difference = wide_difference(alloc, f, high.as_slice(), part.as_slice())?;
    low.extend_from_slice(difference.as_slice())?;
    Ok(low)
}

/// The product, and a literal that is true where it is outside of the width; the word then holds
/// its low bits.
/// Over free words it adds 247, 4063 and 16319 variables, and 910, 15166 and 61054 clauses, at
/// widths 8, 32 and 64.
#[tactic(auto, using(sat_formula::proofs::Extension::gates, crate::proofs::Words::words))]
pub fn mul(alloc: Global, f: &mut Formula, x: &Word, y: &Word) -> Result<(Word, Lit), AllocError>
    requires some { 0 < length x.now }
    requires words { AreWords f.old.vars x.now y.now }
    ensures exact { IfOk result (λ r. IsExact f.new (length x.now) r.0 r.1 (λ a. word_value x.now a *ℤ word_value y.now a)) }
    ensures grows { Grows f.old f.new }
{
    let product = wide_product(alloc, f, x.lits(), y.lits())?;
    let exact = narrow(alloc, f, product.as_slice(), x.lits().len())?;
    Ok(exact)
}
