// The first level: CInit, the assumption and Init, one behind the other.

ghost use Rattle.cell_arena.specs.Growth.{Grows};
ghost use Rattle.kernel_trees.specs.TypeKinds.{Kind};
ghost use Rattle.std.specs.Prelude.{◌≡◌, IfOk, List as Items};
ghost use Rattle.step_encoder.specs.inner.Asked.{AreKept, IsOver, names_of};
ghost use Rattle.step_encoder.specs.inner.Made.{CanGoOn, IsConstantsPart, IsFirst};
ghost use Rattle.step_encoder.specs.inner.Made.{IsStartPart, IsWayOfStart};

use crate::asking::{condition_of, level_of};
use crate::joining::both;
use crate::names::{default_cells, formed};
use crate::ways::{constants_way, start_way};
use branch_cells::{BranchCells, Way, along, choose_cells};
use cell_arena::Build;
use encoder_laws::LevelCells;
use kernel_shapes::Shape;
use kernel_trees::System;
use shape_bounds::constant_shapes;
use std::alloc::AllocError;
use tla_values::List;

// The paths of CInit.
#[tactic(auto, using(cell_arena::proofs::Growing::growing))]
fn constants_part(b: &mut Build, system: &System) -> Result<BranchCells, AllocError>
    ghost names: { Items Kind }
    requires over { IsOver b.old system.now }
    requires named { names ≡ names_of system.now }
    ensures part { IfOk result (IsConstantsPart b.old b.new system.now) }
    ensures grows { Grows b.old b.new }
{
    let alloc = b.arena.alloc();
    let width = b.width();
    formed(b);
    let cells = default_cells(b, system.ker.names.as_slice())?;
    formed(b);
    let way = constants_way(alloc, system, width, cells.as_slice())?;
    let part = along(b, &way, system.constants.as_slice())?;
    Ok(part)
}

// The way of Init behind the constants.
fn way_of_start(b: &Build, system: &System, constants: &BranchCells) -> Result<Way, AllocError>
    ensures { IfOk result (IsWayOfStart b.now system.now constants.now) }
{
    let alloc = b.arena.alloc();
    let width = b.width();
    let shapes = constant_shapes(alloc, system, width)?;
    let way = start_way(
        alloc,
        system,
        width,
        constants.next.as_slice(),
        shapes.as_slice(),
    )?;
    Ok(way)
}

// Behind the constants, and where CInit holds: the assumption, and where it holds too the paths of
// Init. Where Init is not reached, the names have what they have behind CInit.
#[tactic(auto, using(cell_arena::proofs::Growing::growing))]
fn start_part(
    b: &mut Build,
    system: &System,
    constants: &BranchCells,
    way: &Way,
) -> Result<BranchCells, AllocError>
    ghost names: { Items Kind }
    requires over { CanGoOn b.old system.now constants.now way.now }
    requires named { names ≡ names_of system.now }
    ensures part { IfOk result
        (IsStartPart b.old b.new system.now constants.entry.now way.entry.now) }
    ensures grows { Grows b.old b.new }
{
    formed(b);
    let truth = condition_of(b, &system.ker.assume, &way.env, &way.now, &way.next)?;
    let known = both(b, constants.ends, truth)?;
    formed(b);
    let part = along(b, way, system.start.as_slice())?;
    formed(b);
    let cells = part.next.as_slice();
    let others = constants.next.as_slice();
    let next = choose_cells(b, known.holds, cells, others)?;
    formed(b);
    let ends = both(b, known, part.ends)?;
    Ok(BranchCells { ends, next })
}

// The cells of the states at which the start is TRUE. The shapes are those of the start.
#[tactic(auto, using(cell_arena::proofs::Growing::growing))]
pub(crate) fn first_level(
    b: &mut Build,
    system: &System,
    shapes: &List<Shape>,
) -> Result<LevelCells, AllocError>
    requires can { IsOver b.old system.now }
    requires shapes { AreKept shapes.now }
    ensures first { IfOk result (IsFirst b.old b.new system.now shapes.now) }
    ensures grows { Grows b.old b.new }
{
    let constants = constants_part(b, system)?;
    let way = way_of_start(b, system, &constants)?;
    let whole = start_part(b, system, &constants, &way)?;
    formed(b);
    let level = level_of(b, system, shapes, whole)?;
    Ok(level)
}
