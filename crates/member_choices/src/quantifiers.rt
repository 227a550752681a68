//! The two quantifiers.

ghost use Rattle.cell_arena.specs.Growth.{Grows};
ghost use Rattle.cell_merge.specs.Sorts.{truth};
ghost use Rattle.member_choices.specs.Binders.{Binds};
ghost use Rattle.member_choices.specs.Choices.{AreBodies};
ghost use Rattle.outcome_cells.specs.Shows.{AreCells};
ghost use Rattle.std.specs.Prelude.{IfOk};
ghost use Rattle.tla_meaning.specs.declared.op.Op.TheVariants as op;

use crate::bodies::find_body;
use crate::choice::Choice;
use cell_arena::Build;
use outcome_cells::Cells;
use std::alloc::AllocError;

/// `\E`: whether the body is true at some choice that is there. The faults of all bodies there join, also where one is
/// true. The value is one gate over all choices, whatever faults there are.
#[tactic(auto, using(cell_arena::proofs::Growing::growing))]
pub fn some(b: &mut Build, cs: &[Choice], bodies: &[Cells]) -> Result<Cells, AllocError>
    requires { AreBodies b.old truth cs.now bodies.now }
    ensures cells { IfOk result (AreCells b.new truth) }
    ensures binds { IfOk result (Binds b.old b.new op.Exists cs.now bodies.now) }
    ensures grows { Grows b.old b.new }
{
    let (any, faults) = find_body(&b.arena, &mut b.formula, cs, bodies, true)?;
    let cell = b.bit(any)?;
    Ok(Cells {
        cell,
        wrong: faults.wrong,
        big: faults.big,
    })
}

/// `\A`: whether the body is true at each choice that is there. The faults of all bodies there join, also where one is
/// false. The value is one gate over all choices, whatever faults there are.
#[tactic(auto, using(cell_arena::proofs::Growing::growing))]
pub fn every(b: &mut Build, cs: &[Choice], bodies: &[Cells]) -> Result<Cells, AllocError>
    requires { AreBodies b.old truth cs.now bodies.now }
    ensures cells { IfOk result (AreCells b.new truth) }
    ensures binds { IfOk result (Binds b.old b.new op.Forall cs.now bodies.now) }
    ensures grows { Grows b.old b.new }
{
    let (any, faults) = find_body(&b.arena, &mut b.formula, cs, bodies, false)?;
    let cell = b.bit(any.negated())?;
    Ok(Cells {
        cell,
        wrong: faults.wrong,
        big: faults.big,
    })
}
