// A path with the bounds of its ranges.
ghost use Rattle.std.specs.Prelude.{◌≡◌, [], IfOk};
ghost use Rattle.kernel_shapes.specs.Sized.{Extent};
ghost use Rattle.shape_bounds.specs.Extents.{assigns_in, extent_of, kept_extent};
ghost use Rattle.shape_bounds.specs.Kept.{IsWidth};
ghost use Rattle.path_bounds.specs.BoundedPaths.{HasPathBounds, bounded_steps};
ghost use Rattle.path_bounds.specs.inner.Walking.{IsAt};

use crate::walk::{Walk, start};
use kernel_shapes::Shape;
use kernel_trees::{Assigned, AssignedStep};
use shape_bounds::Target;
use std::alloc::{AllocError, Global};
use tla_values::List;

/// The path with the same steps, in whose trees each `Range` has behind its two ends the bounds of its numbers, where the
/// names have the shapes that they have at that step. Before the first step the declared names have the shapes `now` in a
/// state of this width and `next` in the next one: both lists have a shape for each name, `Empty` where it has none; no
/// number is bound. `target` says where the path assigns. Bounds that ranges have already go. (Konnov, Kukovec and Tran,
/// "TLA+ Model Checking Made Symbolic", OOPSLA 2019, on static bounds of cells and on assignments.)
///
/// Want of memory stands also for a tree that is not sound, and for a fold of 2^64 - 1 steps or more.
pub fn bounded_path(
    alloc: Global,
    path: &Assigned,
    now: &List<Shape>,
    next: &List<Shape>,
    target: Target,
    width: u32,
) -> Result<Assigned, AllocError>
    requires sized { IsWidth width }
    ensures { IfOk result (λ r. (g : Extent) → kept_extent g ≡ extent_of now.now next.now []
        → HasPathBounds width (assigns_in target) path.now g r) }
{
    let mut walk = start(alloc, now, next, target, width)?;
    let steps = bounded_each(&mut walk, path.steps.as_slice())?;
    Ok(Assigned {
        place: path.place,
        steps: List::from_vec(steps),
    })
}

// The steps, each where the walk comes to it.
fn bounded_each(walk: &mut Walk, steps: &[AssignedStep]) -> Result<Vec<AssignedStep>, AllocError>
    requires sized { IsWidth walk.old.width }
    ensures { IfOk result (λ rs. (g : Extent) → IsAt walk.old g
        → rs.items ≡ bounded_steps walk.old.width (assigns_in walk.old.target) steps.now g) }
{
    let mut bounded = Vec::new(walk.alloc);
    for i in 0..steps.len() {
        let step = &steps[i];
        let changed = walk.bounded(step)?;
        walk.pass(step)?;
        bounded.push(changed)?;
    }
    Ok(bounded)
}
