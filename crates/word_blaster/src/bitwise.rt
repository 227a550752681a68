//! Bit lists made one bit at a time.

ghost use Rattle.std.specs.Prelude.{◌≡◌, ◌<◌, ◌≤◌, ◌&&◌, Bool, not, length, IfOk, List, if◌then◌else◌, map, replicate};
ghost use Rattle.sat_formula.specs.Lit.{lit_value};
ghost use Rattle.sat_formula.specs.Formula.{Grows, Satisfies};
ghost use Rattle.word_blaster.specs.Word.{values, WordBelow, IsWord, AreWords};

use sat_formula::{Formula, Lit};
use std::alloc::{AllocError, Global};

// The literal that is always true or always false.
pub(crate) fn constant(f: &Formula, b: bool) -> Lit
    ensures below { result.var < f.now.vars }
    ensures value { (a : List Bool) → Satisfies a f.now → lit_value result a ≡ b }
{
    let top = f.top();
    if b { top } else { top.negated() }
}

/// All literals turned.
pub(crate) fn complement(alloc: Global, x: &[Lit]) -> Result<Vec<Lit>, AllocError>
    ensures { IfOk result (λ r. r.items ≡ map (λ l. record { var = l.var; neg = not l.neg }) x.now) }
{
    x.iter().map(|l| l.negated()).collect(alloc)
}

/// One literal n times.
pub(crate) fn filled(alloc: Global, l: Lit, n: usize) -> Result<Vec<Lit>, AllocError>
    ensures { IfOk result (λ r. r.items ≡ replicate n l) }
{
    let mut items = Vec::new(alloc);
    for _i in 0..n {
        items.push(l)?;
    }
    Ok(items)
}

/// The bits where the literal is true, and else zeros.
#[tactic(auto, using(sat_formula::proofs::Extension::gates, crate::proofs::Words::words))]
pub(crate) fn masked(
    alloc: Global,
    f: &mut Formula,
    x: &[Lit],
    l: Lit,
) -> Result<Vec<Lit>, AllocError>
    requires x_below { WordBelow f.old.vars x.now }
    requires l_below { l.var < f.old.vars }
    ensures word { IfOk result (λ r. IsWord f.new.vars (length x.now) r.items) }
    ensures value { IfOk result (λ r. (a : List Bool) → Satisfies a f.new → values r.items a ≡ map (λ b. b && lit_value l a) (values x.now a)) }
    ensures grows { Grows f.old f.new }
{
    let mut bits = Vec::new(alloc);
    for i in 0..x.len() {
        let bit = f.and(x[i], l)?;
        bits.push(bit)?;
    }
    Ok(bits)
}

/// The bits of x where the literal is true, and else those of y.
#[tactic(auto, using(sat_formula::proofs::Extension::gates, crate::proofs::Words::words))]
pub(crate) fn choose(
    alloc: Global,
    f: &mut Formula,
    c: Lit,
    x: &[Lit],
    y: &[Lit],
) -> Result<Vec<Lit>, AllocError>
    requires c_below { c.var < f.old.vars }
    requires words { AreWords f.old.vars x.now y.now }
    ensures word { IfOk result (λ r. IsWord f.new.vars (length x.now) r.items) }
    ensures value { IfOk result (λ r. (a : List Bool) → Satisfies a f.new → values r.items a ≡ (if lit_value c a then values x.now a else values y.now a)) }
    ensures grows { Grows f.old f.new }
{
    let mut bits = Vec::new(alloc);
    for i in 0..x.len() {
        let bit = f.mux(c, x[i], y[i])?;
        bits.push(bit)?;
    }
    Ok(bits)
}
