//! Quotients towards minus infinity and their rests, by long division.

ghost use Rattle.std.specs.Prelude.{◌≡◌, ℕ, suc, ◌+◌, ◌<◌, ◌≤◌, Bool, length, IfOk, List, pos};
ghost use Rattle.sat_formula.specs.Lit.{lit_value};
ghost use Rattle.sat_formula.specs.Formula.{Grows, Satisfies};
ghost use Rattle.word_blaster.specs.inner.Division.{IsDivideStep, IsFirstRest, IsDivided};
ghost use Rattle.word_blaster.specs.Quotient.{IsDividedWhere, IsFloorQuotient, IsFloorRemainder};
ghost use Rattle.word_blaster.specs.Word.{values, WordBelow, IsWord, AreWords};

use crate::adders::ripple;
use crate::bitwise::{choose, complement, filled, masked};
use sat_formula::{Formula, Lit, Word};
use std::alloc::{AllocError, Global};

/// One step of a long division: puts a bit below the rest, and takes y off where it is not greater.
#[tactic(auto, using(sat_formula::proofs::Extension::gates, crate::proofs::Words::words))]
fn divide_step(
    alloc: Global,
    f: &mut Formula,
    y: &[Lit],
    rest: &[Lit],
    lowest: Lit,
) -> Result<(Lit, Vec<Lit>), AllocError>
    requires same { length rest.now + 1 ≡ length y.now }
    requires y_below { WordBelow f.old.vars y.now }
    requires rest_below { WordBelow f.old.vars rest.now }
    requires lowest_below { lowest.var < f.old.vars }
    ensures bit_below { IfOk result (λ r. r.0.var < f.new.vars) }
    ensures word { IfOk result (λ r. IsWord f.new.vars (length rest.now) r.1.items) }
    ensures value { IfOk result (λ r. (a : List Bool) → Satisfies a f.new → IsDivideStep (lit_value lowest a) (values y.now a) (values rest.now a) (lit_value r.0 a) (values r.1.items a)) }
    ensures grows { Grows f.old f.new }
{
    let one = f.top();
    let turned = complement(alloc, y)?;
    let mut shifted = Vec::from_slice(alloc, &[lowest])?;
    shifted.extend_from_slice(rest)?;
    let (difference, enough) = ripple(alloc, f, shifted.as_slice(), turned.as_slice(), one)?;
    let len = rest.len();
    let high = difference.as_slice();
    let old = shifted.as_slice();
    let chosen = choose(alloc, f, enough, &high[..len], &old[..len])?;
    Ok((enough, chosen))
}

/// y - 1 where the literal is true, and else 0, for a y above 0: what is left of -1 or 0.
#[tactic(auto, using(sat_formula::proofs::Extension::gates, crate::proofs::Words::words))]
fn first_rest(alloc: Global, f: &mut Formula, y: &[Lit], l: Lit) -> Result<Vec<Lit>, AllocError>
    requires some { 0 < length y.now }
    requires y_below { WordBelow f.old.vars y.now }
    requires l_below { l.var < f.old.vars }
    ensures below { IfOk result (λ r. WordBelow f.new.vars r.items) }
    ensures len { IfOk result (λ r. length r.items + 1 ≡ length y.now) }
    ensures value { IfOk result (λ r. (a : List Bool) → Satisfies a f.new → IsFirstRest (lit_value l a) (values y.now a) (values r.items a)) }
    ensures grows { Grows f.old f.new }
{
    let top = f.top();
    let zero = top.negated();
    let last = y.len() - 1;
    let ones = filled(alloc, top, last)?;
    let (less_one, _carry) = ripple(alloc, f, &y[..last], ones.as_slice(), zero)?;
    let rest = masked(alloc, f, less_one.as_slice(), l)?;
    Ok(rest)
}

/// The quotient and the rest of a signed number by a number above 0.
#[tactic(auto, using(sat_formula::proofs::Extension::gates, crate::proofs::Words::words))]
fn divide(
    alloc: Global,
    f: &mut Formula,
    x: &[Lit],
    y: &[Lit],
) -> Result<(Vec<Lit>, Vec<Lit>), AllocError>
    requires some { 0 < length x.now }
    requires words { AreWords f.old.vars x.now y.now }
    ensures quotient_word { IfOk result (λ r. IsWord f.new.vars (length x.now) r.0.items) }
    ensures rest_below { IfOk result (λ r. WordBelow f.new.vars r.1.items) }
    ensures rest_len { IfOk result (λ r. length r.1.items + 1 ≡ length x.now) }
    ensures value { IfOk result (λ r. (a : List Bool) → Satisfies a f.new → IsDivided (values y.now a) (values x.now a) (values r.0.items a) (values r.1.items a)) }
    ensures grows { Grows f.old f.new }
{
    let last = x.len() - 1;
    let sign = x[last];
    let mut quotient = Vec::from_slice(alloc, &[sign])?;
    let mut rest = first_rest(alloc, f, y, sign)?;
    for k in 0..last {
        let (bit, left) = divide_step(alloc, f, y, rest.as_slice(), x[last - 1 - k])?;
        quotient.insert(0, bit)?;
        rest = left;
    }
    Ok((quotient, rest))
}

/// The quotient towards minus infinity and what is left of x by y, where y is above 0, and any
/// two words elsewhere. Both are built once, so it adds no more than `div_floor` or `rem_floor`.
/// Over free words it adds 229, 3997 and 16189 variables, and 902, 15926 and 64630 clauses, at
/// widths 8, 32 and 64.
#[tactic(auto, using(sat_formula::proofs::Extension::gates, crate::proofs::Words::words))]
pub fn div_rem_floor(
    alloc: Global,
    f: &mut Formula,
    x: &Word,
    y: &Word,
) -> Result<(Word, Word), AllocError>
    requires some { 0 < length x.now }
    requires words { AreWords f.old.vars x.now y.now }
    ensures quotient_word { IfOk result (λ r. IsWord f.new.vars (length x.now) r.0) }
    ensures quotient { IfOk result (λ r. IsFloorQuotient f.new x.now y.now r.0) }
    ensures rest_word { IfOk result (λ r. IsWord f.new.vars (length x.now) r.1) }
    ensures rest { IfOk result (λ r. IsFloorRemainder f.new x.now y.now r.1) }
    ensures division { IfOk result (λ r. IsDividedWhere f.new x.now y.now r.0 r.1) }
    ensures grows { Grows f.old f.new }
{
    let zero = f.top().negated();
    let (quotient, mut rest) = divide(alloc, f, x.lits(), y.lits())?;
    rest.push(zero)?;
    Ok((Word::from_vec(quotient), Word::from_vec(rest)))
}

/// The quotient of x by y towards minus infinity where y is above 0, and any word elsewhere.
/// Over free words it adds 229, 3997 and 16189 variables, and 902, 15926 and 64630 clauses, at
/// widths 8, 32 and 64.
#[tactic(auto, using(sat_formula::proofs::Extension::gates, crate::proofs::Words::words))]
pub fn div_floor(alloc: Global, f: &mut Formula, x: &Word, y: &Word) -> Result<Word, AllocError>
    requires some { 0 < length x.now }
    requires words { AreWords f.old.vars x.now y.now }
    ensures word { IfOk result (IsWord f.new.vars (length x.now)) }
    ensures value { IfOk result (λ r. IsFloorQuotient f.new x.now y.now r) }
    ensures grows { Grows f.old f.new }
{
    let (quotient, _rest) = div_rem_floor(alloc, f, x, y)?;
    Ok(quotient)
}

/// What is left of x by y, from 0 to y - 1, where y is above 0, and any word elsewhere.
/// Over free words it adds 229, 3997 and 16189 variables, and 902, 15926 and 64630 clauses, at
/// widths 8, 32 and 64.
#[tactic(auto, using(sat_formula::proofs::Extension::gates, crate::proofs::Words::words))]
pub fn rem_floor(alloc: Global, f: &mut Formula, x: &Word, y: &Word) -> Result<Word, AllocError>
    requires some { 0 < length x.now }
    requires words { AreWords f.old.vars x.now y.now }
    ensures word { IfOk result (IsWord f.new.vars (length x.now)) }
    ensures value { IfOk result (λ r. IsFloorRemainder f.new x.now y.now r) }
    ensures grows { Grows f.old f.new }
{
    let (_quotient, rest) = div_rem_floor(alloc, f, x, y)?;
    Ok(rest)
}
