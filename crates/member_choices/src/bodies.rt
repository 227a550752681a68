//! The faults and the truth values of bodies at all choices.

ghost use Rattle.cell_merge.specs.Sorts.{IsOver, OfSort, truth};
ghost use Rattle.member_choices.specs.Choices.{ChoicesBelow};
ghost use Rattle.member_choices.specs.inner.Tests.{AreOver, AreTurned, FindsBody, JoinsBodies};
ghost use Rattle.outcome_cells.specs.Shows.{FaultsBelow, faults_of};
ghost use Rattle.sat_formula.specs.Formula.{Grows};
ghost use Rattle.std.specs.Prelude.{◌≡◌, All, IfOk, length, map, not};

use crate::choice::Choice;
use crate::literals::any_there;
use cell_arena::Arena;
use outcome_cells::{Cells, Faults, bits_of};
use sat_formula::{Formula, Lit};
use std::alloc::{AllocError, Global};

fn wrongs(alloc: Global, bodies: &[Cells]) -> Result<Vec<Lit>, AllocError>
    ensures { IfOk result (λ r. r.items ≡ map (λ x. x.wrong) bodies.now) }
{
    bodies.iter().map(|x| x.wrong).collect(alloc)
}

fn bigs(alloc: Global, bodies: &[Cells]) -> Result<Vec<Lit>, AllocError>
    ensures { IfOk result (λ r. r.items ≡ map (λ x. x.big) bodies.now) }
{
    bodies.iter().map(|x| x.big).collect(alloc)
}

/// The faults of the bodies at the choices that are there: Wrong where one of them is, and else Big where one of them
/// is. Where no body can have a fault, nothing is added.
#[tactic(auto, using(sat_formula::proofs::Extension::gates))]
pub(crate) fn join_bodies(
    alloc: Global,
    f: &mut Formula,
    cs: &[Choice],
    bodies: &[Cells],
) -> Result<Faults, AllocError>
    requires one_each { length bodies.now ≡ length cs.now }
    requires below { ChoicesBelow f.old.vars cs.now }
    requires named { All (λ x. FaultsBelow f.old.vars (faults_of x)) bodies.now }
    ensures joins { IfOk result (JoinsBodies f.new cs.now bodies.now) }
    ensures grows { Grows f.old f.new }
{
    let wrong_lits = wrongs(alloc, bodies)?;
    let big_lits = bigs(alloc, bodies)?;
    let wrong = any_there(alloc, f, cs, wrong_lits.as_slice())?;
    let some_big = any_there(alloc, f, cs, big_lits.as_slice())?;
    let big = f.and(wrong.negated(), some_big)?;
    Ok(Faults { wrong, big })
}

// The literals of truth values, or of the opposite ones.
fn turned(
    alloc: Global,
    arena: &Arena,
    bodies: &[Cells],
    wanted: bool,
) -> Result<Vec<Lit>, AllocError>
    requires { All (λ x. OfSort arena.now.kinds truth x.cell) bodies.now }
    ensures { IfOk result (λ ls. AreTurned arena.now bodies.now wanted ls.items) }
{
    let bits = bits_of(alloc, arena, bodies)?;
    if wanted {
        return Ok(bits);
    }
    let others = negations(alloc, bits.as_slice())?;
    Ok(others)
}

// The negation of each literal.
fn negations(alloc: Global, lits: &[Lit]) -> Result<Vec<Lit>, AllocError>
    ensures { IfOk result (λ r. r.items ≡ map (λ l. record { var = l.var; neg = not l.neg }) lits.now) }
{
    lits.iter().map(|l| l.negated()).collect(alloc)
}

/// Whether some body at a choice that is there is the truth value, and the faults of all.
#[tactic(auto, using(sat_formula::proofs::Extension::gates))]
pub(crate) fn find_body(
    arena: &Arena,
    f: &mut Formula,
    cs: &[Choice],
    bodies: &[Cells],
    wanted: bool,
) -> Result<(Lit, Faults), AllocError>
    requires over { IsOver arena.now f.old }
    requires bodies { AreOver arena.now.kinds f.old.vars truth cs.now bodies.now }
    ensures finds { IfOk result (FindsBody arena.now f.new cs.now bodies.now wanted) }
    ensures grows { Grows f.old f.new }
{
    let alloc = arena.alloc();
    let faults = join_bodies(alloc, f, cs, bodies)?;
    let lits = turned(alloc, arena, bodies, wanted)?;
    let any = any_there(alloc, f, cs, lits.as_slice())?;
    Ok((any, faults))
}
