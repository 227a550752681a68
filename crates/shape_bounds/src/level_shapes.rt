// The shapes of names behind CInit, at the start, and one level further, for whoever goes from level to level.
ghost use Rattle.std.specs.Prelude.{◌≡◌, IfOk, List as Lists, map};
ghost use Rattle.kernel_shapes.specs.Codes.{mean};
ghost use Rattle.kernel_shapes.specs.Levels.{constant_shapes as behind_cinit, next_shapes as behind, start_shapes as at_start};
ghost use Rattle.kernel_shapes.specs.Shape.{Shape as Meaning};
ghost use Rattle.kernel_shapes.specs.Systems.{system_parts};
ghost use Rattle.shape_bounds.specs.Kept.{IsWidth, capped};

use crate::starting::{constants_level, next_level, start_level};
use kernel_shapes::Shape;
use kernel_trees::System;
use std::alloc::{AllocError, Global};
use tla_values::List;

/// The shapes of the names behind CInit, which gives the constants theirs; a variable has Empty.
pub fn constant_shapes(
    alloc: Global,
    system: &System,
    width: u32,
) -> Result<List<Shape>, AllocError>
    requires sized { IsWidth width }
    ensures { IfOk result (λ r. map capped (behind_cinit (system_parts width system.now)) ≡ map mean r) }
{
    let level = constants_level(alloc, system, width)?;
    Ok(level.shapes)
}

/// The shapes of the names at level 0.
pub fn start_shapes(alloc: Global, system: &System, width: u32) -> Result<List<Shape>, AllocError>
    requires sized { IsWidth width }
    ensures { IfOk result (λ r. map capped (at_start (system_parts width system.now)) ≡ map mean r) }
{
    let level = start_level(alloc, system, width)?;
    Ok(level.shapes)
}

/// The shapes of the names one step behind a level of these shapes.
pub fn next_shapes(
    alloc: Global,
    system: &System,
    shapes: &List<Shape>,
    width: u32,
) -> Result<List<Shape>, AllocError>
    requires sized { IsWidth width }
    ensures { IfOk result (λ r. (as' : Lists Meaning) → map capped as' ≡ map mean shapes.now
        → map capped (behind (system_parts width system.now) as') ≡ map mean r) }
{
    let level = next_level(alloc, system, shapes.as_slice(), width)?;
    Ok(level.shapes)
}
