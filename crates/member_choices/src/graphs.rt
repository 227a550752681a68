//! The function of a body's values.

ghost use Rattle.cell_arena.specs.Growth.{Grows};
ghost use Rattle.member_choices.specs.Binders.{MakesFunction};
ghost use Rattle.member_choices.specs.Choices.{BodiesOfOne, ChoicesOfSome};
ghost use Rattle.std.specs.Prelude.{IfOk};
ghost use Rattle.tla_meaning.specs.declared.op.Op.TheVariants as op;

use crate::bodies::join_bodies;
use crate::choice::Choice;
use crate::edges::{arrows_to, cells_of};
use crate::wholes::wholes;
use cell_arena::Build;
use outcome_cells::Cells;
use std::alloc::AllocError;
use tla_values::List;

/// `[x \in S |-> e]`: the function from the choices that are there to the body's values. Its argument is the one cell
/// of a choice, or the tuple of several. All choices have one number of cells: one cell with a tuple and the parts of
/// that as several would be one argument.
#[tactic(auto, using(cell_arena::proofs::Growing::growing))]
pub fn function(b: &mut Build, cs: &[Choice], bodies: &[Cells]) -> Result<Cells, AllocError>
    requires bodies { BodiesOfOne b.old cs.now bodies.now }
    requires choices { ChoicesOfSome b.old.arena.kinds cs.now }
    ensures makes { IfOk result (MakesFunction b.old b.new op.Lambda cs.now bodies.now) }
    ensures grows { Grows b.old b.new }
{
    let alloc = b.arena.alloc();
    let arguments = wholes(b, cs, true)?;
    let results = cells_of(alloc, bodies)?;
    let arrows = arrows_to(alloc, cs, arguments.as_slice(), results.as_slice())?;
    let faults = join_bodies(alloc, &mut b.formula, cs, bodies)?;
    let cell = b.fun(List::from_vec(arrows))?;
    Ok(Cells {
        cell,
        wrong: faults.wrong,
        big: faults.big,
    })
}
