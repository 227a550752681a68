// The shapes of the levels of a system.
ghost use Rattle.std.specs.Prelude.{List as Lists, Some, [], ◌++◌, ◌∷◌, ◌≡◌, IfOk, OnOk, map};
ghost use Rattle.kernel_shapes.specs.Codes.{mean};
ghost use Rattle.kernel_shapes.specs.Counts.{Count};
ghost use Rattle.kernel_shapes.specs.Levels.{start_numbers, start_shapes, typed_numbers};
ghost use Rattle.kernel_shapes.specs.Shape.{Shape as Meaning};
ghost use Rattle.kernel_shapes.specs.Systems.{system_parts};
ghost use Rattle.kernel_shapes.specs.TypedStates.{typed_first};
ghost use Rattle.kernel_trees.specs.TypeKinds.{Kind, all_there, kind_of};
ghost use Rattle.shape_bounds.specs.inner.Climbing.{IsClimb};
ghost use Rattle.shape_bounds.specs.inner.Stage.{IsOf};
ghost use Rattle.shape_bounds.specs.Kept.{IsWidth, capped};
ghost use Rattle.shape_bounds.specs.Stages.{IsAnswer};

use crate::equality::are_same;
use crate::levels::Level;
use crate::shape_fault::{ShapeFault, fault_at};
use crate::starting::{first_at, next_level, start_level};
use crate::typed_start::typed_level;
use kernel_shapes::{Bounds, Shape, Shapes, copy_shape};
use kernel_trees::System;
use std::alloc::{AllocError, Global};
use tla_values::List;

/// The shapes of the names at levels 0 to `length` of a system, in numbers of members up to 2^64 - 1, which stands for
/// all greater ones; or the first number past its limit at the least level that has one. (Konnov, Kukovec and Tran,
/// "TLA+ Model Checking Made Symbolic", OOPSLA 2019, on static bounds of cells.)
///
/// Want of memory stands also for a tree that is not sound, and for a fold of 2^64 - 1 steps or more.
pub fn shapes(alloc: Global, system: &System, length: u32, width: u32) -> Result<Shapes, ShapeFault>
    requires sized { IsWidth width }
    ensures { IsAnswer (system_parts width system.now)
        (start_numbers (system_parts width system.now))
        (start_shapes (system_parts width system.now)) length result }
{
    let start = start_level(alloc, system, width)?;
    levels_from(alloc, system, start, length, width)
}

/// The same from shapes that the names have at level 0, where nothing of the start counts: for all shapes that these
/// stand for.
pub fn shapes_from(
    alloc: Global,
    system: &System,
    first: &List<Shape>,
    length: u32,
    width: u32,
) -> Result<Shapes, ShapeFault>
    requires sized { IsWidth width }
    ensures { (as' : Lists Meaning) → map capped as' ≡ map mean first.now →
        IsAnswer (system_parts width system.now) [] as' length result }
{
    let shapes = copy_each(alloc, first.as_slice())?;
    let start = Level {
        shapes,
        first: None,
    };
    levels_from(alloc, system, start, length, width)
}

/// The shapes at levels 0 and 1 from a state of which nothing is known but that its variables have values of their
/// types within bounds: the numbers of the start count without those of Init.
pub fn typed_shapes(
    alloc: Global,
    system: &System,
    bounds: &Bounds,
    width: u32,
) -> Result<Shapes, ShapeFault>
    requires sized { IsWidth width }
    ensures { (ks : Lists Kind) → all_there (map kind_of system.now.ker.names) ≡ Some ks →
        IsAnswer (system_parts width system.now) (typed_numbers (system_parts width system.now))
        (typed_first bounds.now.low bounds.now.high bounds.now.size
        (system_parts width system.now) ks) 1 result }
{
    let start = typed_level(alloc, system, *bounds, width)?;
    levels_from(alloc, system, start, 1, width)
}

fn copy_each(alloc: Global, shapes: &[Shape]) -> Result<List<Shape>, AllocError>
    ensures { IfOk result (λ r. r ≡ shapes.now) }
{
    let mut copies = Vec::new(alloc);
    for shape in shapes {
        let copy = copy_shape(alloc, shape)?;
        copies.push(copy)?;
    }
    Ok(List::from_vec(copies))
}

fn keep(made: &mut Vec<List<Shape>>, shapes: List<Shape>) -> Result<(), AllocError>
    ensures { OnOk result (made.new.items ≡ made.old.items ++ shapes ∷ []) }
{
    made.push(shapes)?;
    Ok(())
}

// Levels one behind another, and the last of them.
#[derive(Drop)]
struct Climb {
    before: Vec<List<Shape>>,
    number: u32,
    last: Level,
}

// All levels, or the refusal of the first that is refused. Behind a level with the shapes of the one before it nothing
// changes, and nothing is walked again.
fn levels_from(
    alloc: Global,
    system: &System,
    start: Level,
    length: u32,
    width: u32,
) -> Result<Shapes, ShapeFault>
    requires sized { IsWidth width }
    ensures { (as' : Lists Meaning) (cs : Lists Count) → IsOf start as' cs →
        IsAnswer (system_parts width system.now) cs as' length result }
{
    let Climb {
        before: mut made,
        number,
        last,
    } = climb_from(alloc, system, start, length, width)?;
    let excess = first_at(alloc, system, &last, width)?;
    if let Some(fault) = fault_at(number, excess) {
        return Err(fault);
    }
    for _ in number..length {
        let copies = copy_each(alloc, last.shapes.as_slice())?;
        keep(&mut made, copies)?;
    }
    keep(&mut made, last.shapes)?;
    Ok(Shapes {
        levels: List::from_vec(made),
    })
}

// Level by level, up to one that is the last or behind which nothing changes, or to the first before it that is refused.
fn climb_from(
    alloc: Global,
    system: &System,
    start: Level,
    length: u32,
    width: u32,
) -> Result<Climb, ShapeFault>
    requires sized { IsWidth width }
    ensures { (as' : Lists Meaning) (cs : Lists Count) → IsOf start as' cs →
        IsClimb (system_parts width system.now) cs as' length result }
{
    let mut before = Vec::new(alloc);
    let mut last = start;
    for number in 0..length {
        let found = first_at(alloc, system, &last, width)?;
        if let Some(fault) = fault_at(number, found) {
            return Err(fault);
        }
        let next = next_level(alloc, system, last.shapes.as_slice(), width)?;
        let is_still = are_same(next.shapes.as_slice(), last.shapes.as_slice());
        keep(&mut before, last.shapes)?;
        last = next;
        if is_still {
            return Ok(Climb {
                before,
                number: number + 1,
                last,
            });
        }
    }
    Ok(Climb {
        before,
        number: length,
        last,
    })
}
