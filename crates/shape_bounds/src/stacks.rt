// Stacks of bound numbers with their shapes: each stands for an extent in which a tree is evaluated.
ghost use Rattle.std.specs.Prelude.{◌≡◌, IfOk, OnOk, map};
ghost use Rattle.kernel_shapes.specs.Codes.{mean};
ghost use Rattle.shape_bounds.specs.Kept.{IsWidth};
ghost use Rattle.shape_bounds.specs.inner.Stacks.{AreShapes, IsExtended, IsLeft, IsShape, Stays};

use crate::names::{Names, Site};
use kernel_shapes::{Shape, copy_shape};
use kernel_trees::Ker;
use std::alloc::{AllocError, Global};
use std::mem;
use tla_values::List;

pub(crate) type Stack = List<(u32, Shape)>;

pub(crate) fn copy_bound(
    alloc: Global,
    bound: &[(u32, Shape)],
) -> Result<Vec<(u32, Shape)>, AllocError>
    ensures { IfOk result (λ r. r.items ≡ bound.now) }
{
    let mut copies = Vec::new(alloc);
    for i in 0..bound.len() {
        let entry = &bound[i];
        let shape = copy_shape(alloc, &entry.1)?;
        copies.push((entry.0, shape))?;
    }
    Ok(copies)
}

impl Names {
    // These numbers are bound, and no others.
    pub(crate) fn enter(&mut self, stack: &Stack) -> Result<(), AllocError>
        ensures stays { OnOk result (Stays self.old self.new) }
        ensures bound { OnOk result (self.new.bound.items ≡ stack.now) }
    {
        self.bound = copy_bound(self.alloc, stack.as_slice())?;
        Ok(())
    }

    // What was bound, which is bound no more.
    fn leave(&mut self) -> Stack
        ensures { IsLeft self.old self.new result }
    {
        List::from_vec(mem::replace(&mut self.bound, Vec::new(self.alloc)))
    }

    // A stack on which further numbers have these shapes.
    pub(crate) fn extended(
        &mut self,
        stack: &Stack,
        numbers: &[u32],
        shapes: &[Shape],
    ) -> Result<Stack, AllocError>
        ensures { IfOk result (λ r. IsExtended self.old self.new stack.now numbers.now
            (map mean shapes.now) r) }
    {
        self.enter(stack)?;
        self.bind(numbers, shapes)?;
        Ok(self.leave())
    }

    // The shape of a tree where the numbers of a stack are bound.
    pub(crate) fn shape_at(&mut self, k: &Ker, stack: &Stack) -> Result<Shape, AllocError>
        requires sized { IsWidth self.old.width }
        ensures { IfOk result (λ r. IsShape self.old self.new k.now stack.now r) }
    {
        self.enter(stack)?;
        self.size(k, Site::Walked)
    }

    // The shapes of a tree, one for each stack.
    pub(crate) fn shapes_at(&mut self, k: &Ker, stacks: &[Stack]) -> Result<Vec<Shape>, AllocError>
        requires sized { IsWidth self.old.width }
        ensures { IfOk result (λ rs. AreShapes self.old self.new k.now stacks.now rs.items) }
    {
        let mut shapes = Vec::new(self.alloc);
        for i in 0..stacks.len() {
            let shape = self.shape_at(k, &stacks[i])?;
            shapes.push(shape)?;
        }
        Ok(shapes)
    }
}
