// A walk along the steps of a path: the shapes of names at the step that comes next.
ghost use Rattle.std.specs.Prelude.{[], ◌∷◌, ◌≡◌, IfOk, OnOk, map};
ghost use Rattle.kernel_trees.specs.declared.path.AssignedStep.TheVariants as mark;
ghost use Rattle.kernel_shapes.specs.Codes.{mean};
ghost use Rattle.kernel_shapes.specs.Kernel.{ker_shape};
ghost use Rattle.kernel_shapes.specs.Shape.{inside};
ghost use Rattle.kernel_shapes.specs.Sized.{Extent};
ghost use Rattle.tree_bounds.specs.Bounded.{with_bounds};
ghost use Rattle.shape_bounds.specs.Extents.{assigns_in, given_shape, given_shapes};
ghost use Rattle.shape_bounds.specs.Kept.{IsWidth, capped};
ghost use Rattle.path_bounds.specs.BoundedPaths.{bounded_step, past, put_shape};
ghost use Rattle.path_bounds.specs.inner.Walking.{AreMembers, GoesOn, IsAssigned, IsAt, IsStart, with_set};

use kernel_shapes::{Shape, copy_shape};
use kernel_trees::{AssignedStep, Ker};
use shape_bounds::{Target, copy_part, inside, shape_of, with_bounds};
use std::alloc::{AllocError, Global};
use std::mem;
use tla_values::List;

// The shapes of the declared names in a state of this width and in the next one, with `Empty` for a name that has none,
// and those of bound numbers; and where the path assigns.
#[derive(Drop)]
pub(crate) struct Walk {
    pub(crate) alloc: Global,
    pub(crate) width: u32,
    pub(crate) target: Target,
    pub(crate) state: List<Shape>,
    pub(crate) next: List<Shape>,
    pub(crate) bound: List<(u32, Shape)>,
}

// Before the first step.
pub(crate) fn start(
    alloc: Global,
    now: &List<Shape>,
    next: &List<Shape>,
    target: Target,
    width: u32,
) -> Result<Walk, AllocError>
    ensures { IfOk result (λ r. IsStart r width target now.now next.now) }
{
    let state = copy_shapes(alloc, now.as_slice())?;
    let after = copy_shapes(alloc, next.as_slice())?;
    Ok(Walk {
        alloc,
        width,
        target,
        state,
        next: after,
        bound: List::new(alloc),
    })
}

fn copy_shapes(alloc: Global, shapes: &[Shape]) -> Result<List<Shape>, AllocError>
    ensures { IfOk result (λ r. r ≡ shapes.now) }
{
    let mut copies = Vec::new(alloc);
    for i in 0..shapes.len() {
        let copy = copy_shape(alloc, &shapes[i])?;
        copies.push(copy)?;
    }
    Ok(List::from_vec(copies))
}

impl Walk {
    // The step, each tree of which has the bounds of its ranges.
    pub(crate) fn bounded(&self, step: &AssignedStep) -> Result<AssignedStep, AllocError>
        requires sized { IsWidth self.now.width }
        ensures { IfOk result (λ r. (g : Extent) → IsAt self.now g
            → r ≡ bounded_step self.now.width g step.now) }
    {
        match step {
            AssignedStep::Guard(guard, holds) => {
                let tree = self.tree(guard)?;
                Ok(AssignedStep::Guard(tree, *holds))
            }
            AssignedStep::Pick(sets) => {
                let trees = self.sets(sets.as_slice())?;
                Ok(AssignedStep::Pick(List::from_vec(trees)))
            }
            AssignedStep::Equals(i, value) => {
                let tree = self.tree(value)?;
                Ok(AssignedStep::Equals(*i, tree))
            }
            AssignedStep::Among(i, set) => {
                let tree = self.tree(set)?;
                Ok(AssignedStep::Among(*i, tree))
            }
        }
    }

    fn sets(&self, sets: &[(u32, Ker)]) -> Result<Vec<(u32, Ker)>, AllocError>
        requires sized { IsWidth self.now.width }
        ensures { IfOk result (λ rs. (g : Extent) → IsAt self.now g
            → rs.items ≡ map (with_set self.now.width g) sets.now) }
    {
        let mut trees = Vec::new(self.alloc);
        for i in 0..sets.len() {
            let set = &sets[i];
            let tree = self.tree(&set.1)?;
            trees.push((set.0, tree))?;
        }
        Ok(trees)
    }

    fn tree(&self, k: &Ker) -> Result<Ker, AllocError>
        requires sized { IsWidth self.now.width }
        ensures { IfOk result (λ r. (g : Extent) → IsAt self.now g
            → r ≡ with_bounds self.now.width k.now (g ∷ [])) }
    {
        let tree = with_bounds(
            self.alloc,
            k,
            &self.state,
            &self.next,
            &self.bound,
            self.width,
        )?;
        Ok(tree)
    }

    fn shape(&self, k: &Ker) -> Result<Shape, AllocError>
        requires sized { IsWidth self.now.width }
        ensures { IfOk result (λ r. (g : Extent) → IsAt self.now g
            → mean r ≡ capped (ker_shape self.now.width k.now g)) }
    {
        let shape = shape_of(
            self.alloc,
            k,
            &self.state,
            &self.next,
            &self.bound,
            self.width,
        )?;
        Ok(shape)
    }

    // The shape of the members of a set.
    fn member(&self, set: &Ker) -> Result<Shape, AllocError>
        requires sized { IsWidth self.now.width }
        ensures { IfOk result (λ r. (g : Extent) → IsAt self.now g
            → mean r ≡ capped (inside (ker_shape self.now.width set.now g))) }
    {
        let shape = self.shape(set)?;
        let member = copy_part(self.alloc, inside(&shape))?;
        Ok(member)
    }

    // Goes on behind the step.
    pub(crate) fn pass(&mut self, step: &AssignedStep) -> Result<(), AllocError>
        requires sized { IsWidth self.old.width }
        ensures { OnOk result (GoesOn self.old self.new
            (past self.old.width (assigns_in self.old.target) step.now)) }
    {
        match step {
            AssignedStep::Guard(_, _) => Ok(()),
            AssignedStep::Pick(sets) => {
                self.pick(sets)?;
                Ok(())
            }
            AssignedStep::Equals(i, value) => {
                let shape = self.shape(value)?;
                self.assign(*i, shape)?;
                Ok(())
            }
            AssignedStep::Among(i, set) => {
                let shape = self.member(set)?;
                self.assign(*i, shape)?;
                Ok(())
            }
        }
    }

    // Each number has the shape of a member of its set; the sets are read outside the numbers.
    fn pick(&mut self, sets: &List<(u32, Ker)>) -> Result<(), AllocError>
        requires sized { IsWidth self.old.width }
        ensures { OnOk result (GoesOn self.old self.new
            (past self.old.width (assigns_in self.old.target) (mark.Pick sets.now))) }
    {
        let mut members = self.members(sets.as_slice())?;
        let mut bound = mem::replace(&mut self.bound, List::new(self.alloc)).into_vec();
        bound.append(&mut members)?;
        self.bound = List::from_vec(bound);
        Ok(())
    }

    fn members(&self, sets: &[(u32, Ker)]) -> Result<Vec<(u32, Shape)>, AllocError>
        requires sized { IsWidth self.now.width }
        ensures { IfOk result (λ rs. AreMembers self.now sets.now rs.items) }
    {
        let mut members = Vec::new(self.alloc);
        for i in 0..sets.len() {
            let set = &sets[i];
            let member = self.member(&set.1)?;
            members.push((set.0, member))?;
        }
        Ok(members)
    }

    // A declared name is given a shape.
    fn assign(&mut self, i: usize, shape: Shape) -> Result<(), AllocError>
        ensures { OnOk result (IsAssigned self.old self.new i (mean shape)) }
    {
        match self.target {
            Target::Next => {
                put(self.alloc, &mut self.next, i, shape);
                Ok(())
            }
            Target::State => {
                let copy = copy_shape(self.alloc, &shape)?;
                put(self.alloc, &mut self.state, i, copy);
                put(self.alloc, &mut self.next, i, shape);
                Ok(())
            }
        }
    }
}

// Another shape in one place, if it is there.
fn put(alloc: Global, shapes: &mut List<Shape>, i: usize, shape: Shape)
    ensures { given_shapes shapes.new
        ≡ put_shape i (given_shape (mean shape)) (given_shapes shapes.old) }
{
    let mut items = mem::replace(shapes, List::new(alloc)).into_vec();
    put_item(&mut items, i, shape);
    *shapes = List::from_vec(items);
}

fn put_item(shapes: &mut Vec<Shape>, i: usize, shape: Shape)
    ensures { given_shapes shapes.new.items
        ≡ put_shape i (given_shape (mean shape)) (given_shapes shapes.old.items) }
{
    if i < shapes.as_slice().len() {
        shapes[i] = shape;
    }
}
