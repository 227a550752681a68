//! A fold over the places of a sequence.

ghost use Rattle.cell_arena.specs.Growth.{Grows};
ghost use Rattle.member_choices.specs.Folds.{HasPlaceIn, HoldsItems, IsItemAt, IsSequenceIn, IsStep};
ghost use Rattle.cell_merge.specs.Sorts.{IsOver};
ghost use Rattle.member_choices.specs.inner.Steps.{IsAbsent};
ghost use Rattle.outcome_cells.specs.Shows.{CellsOfOneSort};
ghost use Rattle.sat_formula.specs.Formula.{Grows as FormulaGrows};
ghost use Rattle.std.specs.Prelude.{◌<◌, IfOk};

use cell_arena::{Arena, Build, CellId, CellKind};
use cell_merge::{choose_cell, part_at, part_count};
use outcome_cells::{Cells, in_front};
use sat_formula::{Formula, Lit};
use std::alloc::AllocError;
use word_blaster::{is_above, low_bits};

/// How many places the sequence has, behind which no item stands. It takes no memory.
pub fn place_count(b: &Build, s: CellId) -> usize
    requires { IsSequenceIn b.now.arena.kinds s }
    ensures { HoldsItems b.now s result }
{
    part_count(&b.arena, s)
}

// Whether no item stands at the place.
#[tactic(auto, using(sat_formula::proofs::Extension::gates))]
fn absent(arena: &Arena, f: &mut Formula, s: CellId, place: usize) -> Result<Lit, AllocError>
    requires over { IsOver arena.now f.old }
    requires sequence { IsSequenceIn arena.now.kinds s }
    ensures absent { IfOk result (IsAbsent arena.now f.new s place) }
    ensures grows { FormulaGrows f.old f.new }
{
    let CellKind::Seq(count, places) = arena.kind(s) else {
        return Err(AllocError);
    };
    let bits = low_bits(arena.alloc(), count, places.as_slice().len())?;
    let present = is_above(f, bits.as_slice(), place)?;
    Ok(present.negated())
}

/// The item at a place of the sequence, from 0, and a literal that is true where there is none. It makes no cell.
#[tactic(auto, using(cell_arena::proofs::Growing::growing))]
pub fn item_at(b: &mut Build, s: CellId, place: usize) -> Result<(CellId, Lit), AllocError>
    requires { HasPlaceIn b.old.arena.kinds s place }
    ensures item { IfOk result (IsItemAt b.old b.new s place) }
    ensures grows { Grows b.old b.new }
{
    let out = absent(&b.arena, &mut b.formula, s, place)?;
    Ok((part_at(&b.arena, s, place), out))
}

/// One step of a fold: where the place is there, what the step gives of the value so far, and else that value. A
/// fault so far stays, and nothing is asked of the step's cells where there is one, or where the place is not there.
#[tactic(auto, using(cell_arena::proofs::Growing::growing))]
pub fn step(b: &mut Build, there: Lit, so_far: Cells, next: Cells) -> Result<Cells, AllocError>
    requires below { there.var < b.old.formula.vars }
    requires types { CellsOfOneSort b.old so_far next }
    ensures step { IfOk result (IsStep b.old b.new there so_far next) }
    ensures grows { Grows b.old b.new }
{
    let cell = choose_cell(b, there, next.cell, so_far.cell)?;
    let faults = in_front(&mut b.formula, so_far.faults(), there, next.faults())?;
    Ok(Cells {
        cell,
        wrong: faults.wrong,
        big: faults.big,
    })
}
