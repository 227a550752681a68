//! The order and the equality of words.

ghost use Rattle.std.specs.Prelude.{◌≡◌, ◌<◌, ◌≤◌, Bool, List, length, IfOk, nat_lt, int_lt, ◌==◌};
ghost use Rattle.std.specs.Ordering.{int_eq};
ghost use Rattle.std.specs.List.{list_all};
ghost use Rattle.sat_formula.specs.Lit.{lit_value};
ghost use Rattle.sat_formula.specs.Formula.{Grows, HasValue, Satisfies};
ghost use Rattle.word_blaster.specs.Word.{word_value, number, values, WordBelow, AreWords};

use sat_formula::{Formula, Lit, Word};
use std::alloc::{AllocError, Global};

// A literal for each place, which is true where the two agree there. All are true exactly where
// the two numbers without sign are equal.
#[tactic(auto, using(sat_formula::proofs::Extension::gates, crate::proofs::Words::words))]
fn agreements(alloc: Global, f: &mut Formula, x: &[Lit], y: &[Lit]) -> Result<Vec<Lit>, AllocError>
    requires words { AreWords f.old.vars x.now y.now }
    ensures below { IfOk result (λ r. WordBelow f.new.vars r.items) }
    ensures value { IfOk result (λ r. (a : List Bool) → Satisfies a f.new → list_all (λ l. lit_value l a) r.items ≡ (number (values x.now a) == number (values y.now a))) }
    ensures grows { Grows f.old f.new }
{
    let mut agree = Vec::new(alloc);
    for i in 0..x.len() {
        let same = f.iff(x[i], y[i])?;
        agree.push(same)?;
    }
    Ok(agree)
}

/// Whether an unsigned number is below another.
#[tactic(auto, using(sat_formula::proofs::Extension::gates, crate::proofs::Words::words))]
pub(crate) fn number_below(f: &mut Formula, x: &[Lit], y: &[Lit]) -> Result<Lit, AllocError>
    requires words { AreWords f.old.vars x.now y.now }
    ensures value { IfOk result (λ r. HasValue f.new r (λ a. nat_lt (number (values x.now a)) (number (values y.now a)))) }
    ensures grows { Grows f.old f.new }
{
    let mut below = f.top().negated();
    for i in 0..x.len() {
        let apart = f.xor(x[i], y[i])?;
        below = f.mux(apart, y[i], below)?;
    }
    Ok(below)
}

/// A literal that is true where the two words stand for one number: one long conjunction over the
/// places.
/// Over free words it adds 9, 33 and 65 variables, and 41, 161 and 321 clauses, at
/// widths 8, 32 and 64.
#[tactic(auto, using(sat_formula::proofs::Extension::gates, crate::proofs::Words::words))]
pub fn equal(alloc: Global, f: &mut Formula, x: &Word, y: &Word) -> Result<Lit, AllocError>
    requires some { 0 < length x.now }
    requires words { AreWords f.old.vars x.now y.now }
    ensures value { IfOk result (λ r. HasValue f.new r (λ a. int_eq (word_value x.now a) (word_value y.now a))) }
    ensures grows { Grows f.old f.new }
{
    let agree = agreements(alloc, f, x.lits(), y.lits())?;
    let same = f.and_all(alloc, agree.as_slice())?;
    Ok(same)
}

/// A literal that is true where the number of x is less than that of y.
/// Over free words it adds 16, 64 and 128 variables, and 63, 255 and 511 clauses, at
/// widths 8, 32 and 64.
#[tactic(auto, using(sat_formula::proofs::Extension::gates, crate::proofs::Words::words))]
pub fn less(_alloc: Global, f: &mut Formula, x: &Word, y: &Word) -> Result<Lit, AllocError>
    requires some { 0 < length x.now }
    requires words { AreWords f.old.vars x.now y.now }
    ensures value { IfOk result (λ r. HasValue f.new r (λ a. int_lt (word_value x.now a) (word_value y.now a))) }
    ensures grows { Grows f.old f.new }
{
    let p = x.lits();
    let q = y.lits();
    let last = p.len() - 1;
    let below = number_below(f, &p[..last], &q[..last])?;
    let apart = f.xor(p[last], q[last])?;
    let less = f.mux(apart, p[last], below)?;
    Ok(less)
}
