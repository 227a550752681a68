// One level more.

ghost use Rattle.cell_arena.specs.Growth.{Grows};
ghost use Rattle.kernel_trees.specs.TypeKinds.{Kind};
ghost use Rattle.std.specs.Prelude.{◌≡◌, IfOk, List as Items};
ghost use Rattle.step_encoder.specs.inner.Asked.{AreKept, names_of};
ghost use Rattle.step_encoder.specs.inner.Made.{CanStep, IsNextLevel, IsStepPart};

use crate::asking::level_of;
use crate::joining::after_run;
use crate::names::formed;
use crate::ways::step_way;
use branch_cells::{BranchCells, along};
use cell_arena::Build;
use encoder_laws::LevelCells;
use kernel_shapes::Shape;
use kernel_trees::System;
use std::alloc::AllocError;
use tla_values::List;

// The paths of Next behind a level, where its run literal is true.
#[tactic(auto, using(cell_arena::proofs::Growing::growing))]
fn step_part(
    b: &mut Build,
    system: &System,
    from: &LevelCells,
    shapes: &List<Shape>,
) -> Result<BranchCells, AllocError>
    ghost names: { Items Kind }
    requires over { CanStep b.old system.now from.now shapes.now }
    requires named { names ≡ names_of system.now }
    ensures part { IfOk result (IsStepPart b.old b.new system.now from.entry.now shapes.entry.now) }
    ensures grows { Grows b.old b.new }
{
    formed(b);
    let alloc = b.arena.alloc();
    let width = b.width();
    let way = step_way(
        alloc,
        system,
        width,
        from.cells.as_slice(),
        shapes.as_slice(),
    )?;
    let part = along(b, &way, system.next.as_slice())?;
    formed(b);
    let ends = after_run(b, from.run, part.ends)?;
    Ok(BranchCells {
        ends,
        next: part.next,
    })
}

// The cells of the states to which a step leads from those of a level with these shapes; their own
// shapes are `after`.
#[tactic(auto, using(cell_arena::proofs::Growing::growing))]
pub(crate) fn next_level(
    b: &mut Build,
    system: &System,
    from: &LevelCells,
    shapes: &List<Shape>,
    after: &List<Shape>,
) -> Result<LevelCells, AllocError>
    requires can { CanStep b.old system.now from.now shapes.now }
    requires after { AreKept after.now }
    ensures next { IfOk result
        (IsNextLevel b.old b.new system.now from.entry.now shapes.entry.now after.entry.now) }
    ensures grows { Grows b.old b.new }
{
    let whole = step_part(b, system, from, shapes)?;
    formed(b);
    let level = level_of(b, system, after, whole)?;
    Ok(level)
}
