// The tree of a node from those of its children.
ghost use Rattle.std.specs.Prelude.{◌≡◌, ◌+◌, IfOk, []};
ghost use Rattle.kernel_reduction.specs.Rows.{tree};
ghost use Rattle.kera_reducer.specs.inner.Standing.{Makes, MakesOf, MakesValue};

use crate::actions::action;
use crate::excepts::except;
use crate::nodes::{only, tree};
use crate::operators::{by_others, literal, same_operator};
use crate::positions::binds_some;
use crate::scoping::{binder, fold};
use kernel_trees::{Ker, KerOp};
use snowcat_rows::{Ty, copy_type};
use std::alloc::{AllocError, Global};
use tla_meaning::{Assignable, Op, Place};

/// What the tree of a node is made with: the node's place and type, how many names are bound around it, and how many by it.
#[derive(Clone, Copy, Drop)]
pub(crate) struct Made<'a> {
    pub(crate) alloc: Global,
    pub(crate) place: Place,
    pub(crate) ty: &'a Ty,
    pub(crate) depth: u32,
    pub(crate) bound: usize,
}

pub(crate) fn as_number(number: usize) -> Result<u32, AllocError>
    ensures { IfOk result (λ n. n ≡ number) }
{
    match u32::try_from(number) {
        Ok(number) => Ok(number),
        Err(_) => Err(AllocError),
    }
}

impl<'a> Made<'a> {
    /// A number that is this far above those of the names around.
    pub(crate) fn number(&self, above: u32) -> Result<u32, AllocError>
        ensures { IfOk result (λ n. n ≡ self.now.depth + above) }
    {
        self.depth.checked_add(above).ok_or(AllocError)
    }

    /// A node with the node's type, which binds these numbers.
    pub(crate) fn binding(
        &self,
        op: KerOp,
        kids: Vec<Ker>,
        numbers: Vec<u32>,
    ) -> Result<Ker, AllocError>
        ensures { IfOk result (λ k. k ≡ tree self.now.place self.now.ty.now op kids.items numbers.items) }
    {
        let ty = copy_type(self.alloc, self.ty)?;
        Ok(tree(self.place, ty, op, kids, numbers))
    }

    /// A node with the node's type.
    pub(crate) fn whole(&self, op: KerOp, kids: Vec<Ker>) -> Result<Ker, AllocError>
        ensures { IfOk result (λ k. k ≡ tree self.now.place self.now.ty.now op kids.items []) }
    {
        self.binding(op, kids, Vec::new(self.alloc))
    }
}

// A node that binds nothing, as a value.
fn value(made: &Made, op: &Op, kids: Vec<Ker>) -> Result<Ker, AllocError>
    ensures { IfOk result (λ k. MakesOf made.now op.now kids.items k) }
{
    if let Some(same) = same_operator(made, op, kids.as_slice())? {
        return made.whole(same, kids);
    }
    match op {
        Op::Bool(_) | Op::Int(_) | Op::Str(_) | Op::Name(_, _) => literal(made, op, kids),
        _ => by_others(made, op, kids),
    }
}

// A node that binds names, as a value.
fn scope(made: &Made, op: &Op, kids: Vec<Ker>) -> Result<Ker, AllocError>
    ensures { IfOk result (λ k. MakesValue made.now op.now kids.items k) }
{
    match op {
        Op::Exists => binder(made, op, KerOp::Some, kids),
        Op::Forall => binder(made, op, KerOp::Every, kids),
        Op::Filter => binder(made, op, KerOp::Filter, kids),
        Op::MapTo => binder(made, op, KerOp::MapOver, kids),
        Op::Lambda => binder(made, op, KerOp::FunOf, kids),
        Op::Fold => fold(made, kids),
        Op::Except(counts) => except(made, counts.as_slice(), kids),
        _ => Err(AllocError),
    }
}

// A node as a value.
fn as_value(made: &Made, op: &Op, kids: Vec<Ker>) -> Result<Ker, AllocError>
    ensures { IfOk result (λ k. MakesValue made.now op.now kids.items k) }
{
    if binds_some(op) {
        scope(made, op, kids)
    } else {
        value(made, op, kids)
    }
}

/// The tree of a node that passes this position on, from those of its children.
pub(crate) fn make(
    made: &Made,
    op: &Op,
    passed: Option<Assignable>,
    kids: Vec<Ker>,
) -> Result<Ker, AllocError>
    ensures { IfOk result (λ k. Makes made.now passed op.now kids.items k) }
{
    match passed {
        Some(assignable) => action(made, op, assignable, kids),
        None => as_value(made, op, kids),
    }
}
