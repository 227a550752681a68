// The shapes of names along the steps of paths.
ghost use Rattle.std.specs.Prelude.{◌≡◌, IfOk, OnOk, map};
ghost use Rattle.kernel_shapes.specs.Codes.{mean};
ghost use Rattle.kernel_shapes.specs.Levels.{Pick, after_path, after_step, path_numbers, put, step_numbers};
ghost use Rattle.kernel_shapes.specs.Systems.{sized_path, sized_step};
ghost use Rattle.shape_bounds.specs.Kept.{IsWidth};
ghost use Rattle.shape_bounds.specs.inner.Walks.{IsAssigned, SizesPicked, Walks, assigns_in, sized_sets, some_shapes};

use crate::names::{Names, Site};
use crate::parts::{copy_part, inside};
use kernel_shapes::{Shape, copy_shape};
use kernel_trees::{AssignedStep, Ker};
use std::alloc::{AllocError, Global};

/// Where a path assigns: in the next state, or in the state itself as in CInit and Init.
#[derive(Clone, Copy, Drop)]
pub enum Target {
    Next,
    State,
}

impl Names {
    // The names behind the steps of a path.
    pub(crate) fn path(&mut self, steps: &[AssignedStep], target: Target) -> Result<(), AllocError>
        requires sized { IsWidth self.old.width }
        ensures { OnOk result (Walks self.old self.new
            (after_path (assigns_in target) (sized_path self.old.width steps.now))
            (path_numbers (assigns_in target) (sized_path self.old.width steps.now))) }
    {
        for i in 0..steps.len() {
            self.step(&steps[i], target)?;
        }
        Ok(())
    }

    fn step(&mut self, step: &AssignedStep, target: Target) -> Result<(), AllocError>
        requires sized { IsWidth self.old.width }
        ensures { OnOk result (Walks self.old self.new
            (after_step (assigns_in target) (sized_step self.old.width step.now))
            (step_numbers (sized_step self.old.width step.now))) }
    {
        match step {
            AssignedStep::Guard(guard, _) => {
                self.size(guard, Site::Walked)?;
                Ok(())
            }
            AssignedStep::Pick(sets) => {
                self.pick(sets.as_slice(), target)?;
                Ok(())
            }
            AssignedStep::Equals(i, value) => {
                let shape = self.size(value, Site::Walked)?;
                self.assign(*i, shape, target)?;
                Ok(())
            }
            AssignedStep::Among(i, set) => {
                let shape = self.size(set, Site::Assigned)?;
                let member = copy_part(self.alloc, inside(&shape))?;
                self.assign(*i, member, target)?;
                Ok(())
            }
        }
    }

    // A declared name is given a shape.
    fn assign(&mut self, i: usize, shape: Shape, target: Target) -> Result<(), AllocError>
        ensures { OnOk result (IsAssigned self.old self.new (assigns_in target) i (mean shape)) }
    {
        match target {
            Target::Next => {
                put(&mut self.next, i, shape);
                Ok(())
            }
            Target::State => {
                let copy = copy_shape(self.alloc, &shape)?;
                put(&mut self.state, i, copy);
                put(&mut self.next, i, shape);
                Ok(())
            }
        }
    }

    // Each number is bound to a member of its set; the sets are read outside the numbers.
    fn pick(&mut self, sets: &[(u32, Ker)], target: Target) -> Result<(), AllocError>
        requires sized { IsWidth self.old.width }
        ensures { OnOk result (Walks self.old self.new
            (after_step (assigns_in target) (Pick (sized_sets self.old.width sets.now)))
            (step_numbers (Pick (sized_sets self.old.width sets.now)))) }
    {
        let shapes = self.picked(sets)?;
        let numbers = numbers_of(self.alloc, sets)?;
        self.bind(numbers.as_slice(), shapes.as_slice())?;
        Ok(())
    }

    // The shapes of the members of sets of which a member is picked.
    fn picked(&mut self, sets: &[(u32, Ker)]) -> Result<Vec<Shape>, AllocError>
        requires sized { IsWidth self.old.width }
        ensures { IfOk result (λ rs.
            SizesPicked self.old self.new (sized_sets self.old.width sets.now) rs.items) }
    {
        let mut shapes = Vec::new(self.alloc);
        for i in 0..sets.len() {
            let set = &sets[i];
            let shape = self.size(&set.1, Site::Picked)?;
            let member = copy_part(self.alloc, inside(&shape))?;
            shapes.push(member)?;
        }
        Ok(shapes)
    }
}

fn put(names: &mut Vec<Option<Shape>>, i: usize, shape: Shape)
    ensures { some_shapes names.new.items ≡ put i (mean shape) (some_shapes names.old.items) }
{
    if i < names.as_slice().len() {
        names[i] = Some(shape);
    }
}

fn numbers_of(alloc: Global, sets: &[(u32, Ker)]) -> Result<Vec<u32>, AllocError>
    ensures { IfOk result (λ r. r.items ≡ map (λ p. p.0) sets.now) }
{
    let mut numbers = Vec::new(alloc);
    for set in sets {
        numbers.push(set.0)?;
    }
    Ok(numbers)
}
