// In which extents what stands under bound numbers is evaluated.
ghost use Rattle.std.specs.Prelude.{◌≡◌, IfOk, map, true};
ghost use Rattle.kernel_trees.specs.declared.kernel.Ker.{out-Ker};
ghost use Rattle.kernel_trees.specs.declared.kernel.KerOp.TheVariants as ker;
ghost use Rattle.kernel_shapes.specs.Codes.{mean};
ghost use Rattle.kernel_shapes.specs.Shape.{inside};
ghost use Rattle.shape_bounds.specs.Kept.{IsWidth};
ghost use Rattle.shape_bounds.specs.inner.Bindings.{is_binding, mark_at};
ghost use Rattle.shape_bounds.specs.inner.Nodes.{is_binder};
ghost use Rattle.shape_bounds.specs.inner.Stacks.{AreAlong, AreUnder, AreUnderAll};

use crate::names::{Names, Site};
use crate::nodes::literal_of;
use crate::parts::{applied, copy_part, inside, pair};
use crate::records::insides;
use crate::stacks::Stack;
use kernel_shapes::Shape;
use kernel_trees::{Ker, KerOp};
use std::alloc::AllocError;

// Whether an operator binds numbers.
pub(crate) fn is_binding(op: &KerOp) -> bool
    ensures { result ≡ is_binding op.now }
{
    match op {
        KerOp::Filter | KerOp::MapOver | KerOp::FunOf | KerOp::Some | KerOp::Every => true,
        KerOp::Update | KerOp::FoldLeft => true,
        _ => false,
    }
}

// Whether the child at a place stands under the numbers that a node binds, so many.
pub(crate) fn stands_under(op: &KerOp, numbers: usize, place: usize) -> bool
    ensures { result ≡ mark_at op.now numbers place }
{
    match op {
        KerOp::Filter | KerOp::MapOver | KerOp::FunOf => place == numbers,
        KerOp::Some | KerOp::Every => place == numbers,
        KerOp::Update => place == 2,
        KerOp::FoldLeft => place == 0,
        _ => false,
    }
}

impl Names {
    // For a node that binds numbers: all extents of its children under them.
    pub(crate) fn under_all(&mut self, k: &Ker, stacks: &[Stack]) -> Result<Vec<Stack>, AllocError>
        requires sized { IsWidth self.old.width }
        ensures { IfOk result (λ rs. AreUnderAll self.old self.new k.now stacks.now rs.items) }
    {
        let mut all = Vec::new(self.alloc);
        for i in 0..stacks.len() {
            let mut under = self.under_at(k, &stacks[i])?;
            all.append(&mut under)?;
        }
        Ok(all)
    }

    fn under_at(&mut self, k: &Ker, stack: &Stack) -> Result<Vec<Stack>, AllocError>
        requires sized { IsWidth self.old.width }
        ensures { IfOk result (λ rs. AreUnder self.old self.new k.now stack.now rs.items) }
    {
        match &k.op {
            KerOp::Update => self.under_update(k, stack),
            KerOp::FoldLeft => self.under_fold(k, stack),
            KerOp::Filter | KerOp::MapOver | KerOp::FunOf => self.under_sets(k, stack),
            KerOp::Some | KerOp::Every => self.under_sets(k, stack),
            _ => Err(AllocError),
        }
    }

    // The numbers have the shapes of members of the sets.
    fn under_sets(&mut self, k: &Ker, stack: &Stack) -> Result<Vec<Stack>, AllocError>
        requires sized { IsWidth self.old.width }
        requires kind { is_binder (out-Ker k.now).op ≡ true }
        ensures { IfOk result (λ rs. AreUnder self.old self.new k.now stack.now rs.items) }
    {
        let numbers = k.binds.as_slice();
        self.enter(stack)?;
        let sets = self.sizes(k.args.as_slice(), numbers.len(), Site::Walked)?;
        let members = insides(self.alloc, sets.as_slice())?;
        let extended = self.extended(stack, numbers, members.as_slice())?;
        Ok(vec![in self.alloc; extended]?)
    }

    // The number has the shape of what stands at the index.
    fn under_update(&mut self, k: &Ker, stack: &Stack) -> Result<Vec<Stack>, AllocError>
        requires sized { IsWidth self.old.width }
        requires kind { (out-Ker k.now).op ≡ ker.Update }
        ensures { IfOk result (λ rs. AreUnder self.old self.new k.now stack.now rs.items) }
    {
        match k.args.as_slice() {
            [updated, index, ..] => {
                let whole = self.shape_at(updated, stack)?;
                let part = copy_part(self.alloc, applied(&whole, literal_of(index)))?;
                let extended = self.extended(stack, k.binds.as_slice(), &[part])?;
                Ok(vec![in self.alloc; extended]?)
            }
            _ => Err(AllocError),
        }
    }

    // At each step the first number has the shape of the value so far, and the second that of the items.
    fn under_fold(&mut self, k: &Ker, stack: &Stack) -> Result<Vec<Stack>, AllocError>
        requires sized { IsWidth self.old.width }
        requires kind { (out-Ker k.now).op ≡ ker.FoldLeft }
        ensures { IfOk result (λ rs. AreUnder self.old self.new k.now stack.now rs.items) }
    {
        match k.args.as_slice() {
            [body, start, list] => {
                let numbers = k.binds.as_slice();
                self.enter(stack)?;
                let first = self.size(start, Site::Walked)?;
                let items = self.size(list, Site::Walked)?;
                let mut values = self.steps(body, numbers, first, &items)?;
                values.pop();
                let stacks = self.along(stack, numbers, values.as_slice(), &items)?;
                Ok(stacks)
            }
            _ => Err(AllocError),
        }
    }

    // One extent for each value so far.
    fn along(
        &mut self,
        stack: &Stack,
        numbers: &[u32],
        values: &[Shape],
        list: &Shape,
    ) -> Result<Vec<Stack>, AllocError>
        ensures { IfOk result (λ rs. AreAlong self.old self.new stack.now numbers.now
            (map mean values.now) (inside (mean list.now)) rs.items) }
    {
        let mut stacks = Vec::new(self.alloc);
        for i in 0..values.len() {
            let shapes = pair(self.alloc, &values[i], inside(list))?;
            let extended = self.extended(stack, numbers, shapes.as_slice())?;
            stacks.push(extended)?;
        }
        Ok(stacks)
    }
}
