//! Whether some choice is there and passes.

ghost use Rattle.member_choices.specs.Choices.{ChoicesBelow};
ghost use Rattle.member_choices.specs.inner.Tests.{Guards, IsAny};
ghost use Rattle.sat_formula.specs.Formula.{Grows};
ghost use Rattle.sat_formula.specs.Lit.{IsBelow};
ghost use Rattle.std.specs.Prelude.{◌≡◌, All, IfOk, length};

use crate::choice::Choice;
use outcome_cells::any_of;
use sat_formula::{Formula, Lit};
use std::alloc::{AllocError, Global};

// For each choice a literal that is true where it is there and its other literal is true.
#[tactic(auto, using(sat_formula::proofs::Extension::gates))]
fn guarded(
    alloc: Global,
    f: &mut Formula,
    cs: &[Choice],
    lits: &[Lit],
) -> Result<Vec<Lit>, AllocError>
    requires one_each { length lits.now ≡ length cs.now }
    requires below { ChoicesBelow f.old.vars cs.now }
    requires named { All (IsBelow f.old.vars) lits.now }
    ensures guards { IfOk result (λ out. Guards f.new cs.now cs.now lits.now out.items) }
    ensures grows { Grows f.old f.new }
{
    let mut out = Vec::new(alloc);
    for i in 0..cs.len() {
        let both = f.and(cs[i].there, lits[i])?;
        out.push(both)?;
    }
    Ok(out)
}

/// Whether some choice is there whose other literal is true: one gate over all of them, which is none where each is
/// known.
#[tactic(auto, using(sat_formula::proofs::Extension::gates))]
pub(crate) fn any_there(
    alloc: Global,
    f: &mut Formula,
    cs: &[Choice],
    lits: &[Lit],
) -> Result<Lit, AllocError>
    requires one_each { length lits.now ≡ length cs.now }
    requires below { ChoicesBelow f.old.vars cs.now }
    requires named { All (IsBelow f.old.vars) lits.now }
    ensures any { IfOk result (IsAny f.new cs.now lits.now) }
    ensures grows { Grows f.old f.new }
{
    let both = guarded(alloc, f, cs, lits)?;
    let any = any_of(alloc, f, both.as_slice())?;
    Ok(any)
}
