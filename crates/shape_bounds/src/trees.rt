// What is computed of one tree where the names that it reads have shapes.
ghost use Rattle.std.specs.Prelude.{◌≡◌, [], ◌∷◌, IfOk};
ghost use Rattle.kernel_shapes.specs.Codes.{mean};
ghost use Rattle.kernel_shapes.specs.Kernel.{ker_shape};
ghost use Rattle.kernel_shapes.specs.Sized.{Extent};
ghost use Rattle.tree_bounds.specs.Bounded.{with_bounds};
ghost use Rattle.shape_bounds.specs.BoundedTrees.{HasBounds};
ghost use Rattle.shape_bounds.specs.Extents.{extent_of, kept_extent};
ghost use Rattle.shape_bounds.specs.Kept.{IsWidth, capped};

use crate::stacks::copy_bound;
use crate::starting::names_with;
use kernel_shapes::Shape;
use kernel_trees::Ker;
use std::alloc::{AllocError, Global};
use tla_values::List;

/// The shape of a kernel tree where the declared names have the shapes `now` in a state of this width and `next` in the
/// next one, and the bound numbers those of `bound`, the last of a number counting: in numbers of members up to
/// 2^64 - 1, which stands for all greater ones. Both lists have a shape for each name, `Empty` where it has none. (Konnov,
/// Kukovec and Tran, "TLA+ Model Checking Made Symbolic", OOPSLA 2019, on static bounds of cells.)
///
/// Want of memory stands also for a tree that is not sound, and for a fold of 2^64 - 1 steps or more.
pub fn shape_of(
    alloc: Global,
    e: &Ker,
    now: &List<Shape>,
    next: &List<Shape>,
    bound: &List<(u32, Shape)>,
    width: u32,
) -> Result<Shape, AllocError>
    requires sized { IsWidth width }
    ensures { IfOk result (λ r. (g : Extent) → kept_extent g ≡ extent_of now.now next.now
        bound.now → mean r ≡ capped (ker_shape width e.now g)) }
{
    let mut names = names_with(alloc, now.as_slice(), next.as_slice(), width)?;
    names.shape_at(e, bound)
}

/// The tree, changed in its ranges alone: behind its two ends each `Range` has as integer constants the ends of the hull of
/// its numbers, over all extents in which it is evaluated where the names have these shapes. An interval upside down gives
/// its ends as they are, and a set without numbers 0 and 0. Bounds that it has already go. Both lists have a shape for each
/// name, `Empty` where it has none. (Konnov, Kukovec and Tran, "TLA+ Model Checking Made Symbolic", OOPSLA 2019, on static
/// bounds of cells.)
///
/// Want of memory stands also for a tree that is not sound, and for a fold of 2^64 - 1 steps or more.
pub fn with_bounds(
    alloc: Global,
    e: &Ker,
    now: &List<Shape>,
    next: &List<Shape>,
    bound: &List<(u32, Shape)>,
    width: u32,
) -> Result<Ker, AllocError>
    requires sized { IsWidth width }
    ensures { IfOk result (λ r. (g : Extent) → kept_extent g ≡ extent_of now.now next.now
        bound.now → HasBounds width e.now g r) }
{
    let tree = bounded_tree(alloc, e, now, next, bound, width)?;
    Ok(tree)
}

fn bounded_tree(
    alloc: Global,
    e: &Ker,
    now: &List<Shape>,
    next: &List<Shape>,
    bound: &List<(u32, Shape)>,
    width: u32,
) -> Result<Ker, AllocError>
    requires sized { IsWidth width }
    ensures { IfOk result (λ r. (g : Extent) → kept_extent g ≡ extent_of now.now next.now
        bound.now → r ≡ with_bounds width e.now (g ∷ [])) }
{
    let mut names = names_with(alloc, now.as_slice(), next.as_slice(), width)?;
    let stack = copy_bound(alloc, bound.as_slice())?;
    names.bounded(e, &[List::from_vec(stack)])
}
