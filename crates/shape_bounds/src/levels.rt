// The shapes of names at levels.
ghost use Rattle.std.specs.Prelude.{[], ◌≡◌, IfOk, Some, map, option_map};
ghost use Rattle.kernel_shapes.specs.Codes.{mean};
ghost use Rattle.kernel_shapes.specs.Levels.{after_paths, join_each, kept_constants, numbers_of};
ghost use Rattle.kernel_shapes.specs.Sized.{found};
ghost use Rattle.kernel_shapes.specs.Systems.{sized_paths};
ghost use Rattle.shape_bounds.specs.inner.Turns.{IsAgain, IsLevel};
ghost use Rattle.shape_bounds.specs.inner.Walks.{assigns_in, some_shapes};
ghost use Rattle.shape_bounds.specs.Kept.{IsWidth};

use crate::joins::join_items;
use crate::limits::Excess;
use crate::names::{Names, shape_in};
use crate::paths::Target;
use kernel_shapes::{Shape, copy_shape};
use kernel_trees::Assigned;
use std::alloc::{AllocError, Global};
use tla_values::List;

/// Shapes of the names in a state, and what was first past its limit on the ways to it.
#[derive(Drop)]
pub struct Level {
    pub shapes: List<Shape>,
    pub first: Option<Excess>,
}

impl Names {
    // Over paths from these names: the join of what each leaves in the next state.
    pub(crate) fn over_paths(&self, paths: &[Assigned], target: Target) -> Result<Level, AllocError>
        requires sized { IsWidth self.now.width }
        requires unbound { self.now.bound.items ≡ [] }
        ensures { IfOk result (λ r. IsLevel self.now
            (after_paths (assigns_in target) (sized_paths self.now.width paths.now))
            (numbers_of (assigns_in target) (sized_paths self.now.width paths.now)) r) }
    {
        let mut shapes = all_found(self.alloc, self.next.as_slice())?;
        let mut first = self.first;
        for i in (0..paths.len()).rev() {
            let mut along = self.again(first)?;
            along.path(paths[i].steps.as_slice(), target)?;
            shapes = join_found(self.alloc, along.next.as_slice(), shapes.as_slice())?;
            first = along.first;
        }
        Ok(Level { shapes, first })
    }

    // The declared names again, with what was first by then.
    fn again(&self, first: Option<Excess>) -> Result<Names, AllocError>
        ensures { IfOk result (λ r. IsAgain self.now r first) }
    {
        let state = copy_named(self.alloc, self.state.as_slice())?;
        let next = copy_named(self.alloc, self.next.as_slice())?;
        let mut names = Names::new(self.alloc, self.width, state, next);
        names.first = first;
        Ok(names)
    }
}

fn copy_named(alloc: Global, names: &[Option<Shape>]) -> Result<Vec<Option<Shape>>, AllocError>
    ensures { IfOk result (λ r. some_shapes r.items ≡ some_shapes names.now) }
{
    let mut copies = Vec::new(alloc);
    for i in 0..names.len() {
        let copy = copy_name(alloc, &names[i])?;
        copies.push(copy)?;
    }
    Ok(copies)
}

fn copy_name(alloc: Global, name: &Option<Shape>) -> Result<Option<Shape>, AllocError>
    ensures { IfOk result (λ r. option_map mean r ≡ option_map mean name.now) }
{
    match name {
        Some(shape) => {
            let copy = copy_shape(alloc, shape)?;
            Ok(Some(copy))
        }
        None => Ok(None),
    }
}

// A name without a shape has Empty.
fn all_found(alloc: Global, names: &[Option<Shape>]) -> Result<List<Shape>, AllocError>
    ensures { IfOk result (λ r. map mean r ≡ map found (some_shapes names.now)) }
{
    let mut shapes = Vec::new(alloc);
    for i in 0..names.len() {
        let shape = shape_in(alloc, names, i)?;
        shapes.push(shape)?;
    }
    Ok(List::from_vec(shapes))
}

fn join_found(
    alloc: Global,
    names: &[Option<Shape>],
    shapes: &[Shape],
) -> Result<List<Shape>, AllocError>
    ensures { IfOk result (λ r. map mean r
        ≡ join_each (map found (some_shapes names.now)) (map mean shapes.now)) }
{
    let found = all_found(alloc, names)?;
    if found.as_slice().len() != shapes.len() {
        return Err(AllocError);
    }
    let joined = join_items(alloc, found.as_slice(), shapes)?;
    Ok(joined)
}
