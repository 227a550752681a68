// Nodes that bind names.
ghost use Rattle.std.specs.Prelude.{IfOk};
ghost use Rattle.tla_meaning.specs.declared.op.Op.TheVariants.{Fold as fold_op};
ghost use Rattle.kera_reducer.specs.inner.Standing.{IsBinderOf, MakesValue};

use crate::making::Made;
use crate::nodes::upward;
use kernel_trees::{Ker, KerOp};
use std::alloc::AllocError;
use tla_meaning::Op;

/// A binder, for which one of the kernel stands.
pub(crate) fn binder(made: &Made, op: &Op, stands: KerOp, kids: Vec<Ker>) -> Result<Ker, AllocError>
    requires row { IsBinderOf op.now stands }
    ensures { IfOk result (λ k. MakesValue made.now op.now kids.items k) }
{
    let numbers = upward(made.alloc, made.depth, made.bound)?;
    made.binding(stands, kids, numbers)
}

/// A fold over a sequence.
pub(crate) fn fold(made: &Made, kids: Vec<Ker>) -> Result<Ker, AllocError>
    ensures { IfOk result (λ k. MakesValue made.now fold_op kids.items k) }
{
    let numbers = upward(made.alloc, made.depth, made.bound)?;
    made.binding(KerOp::FoldLeft, kids, numbers)
}
