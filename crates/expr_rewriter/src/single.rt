//! Operators with one operand.

ghost use Rattle.cell_arena.specs.Growth.{Grows};
ghost use Rattle.expr_rewriter.specs.Operating.{CanOperate};
ghost use Rattle.expr_rewriter.specs.inner.Owning.{MakesOwn};
ghost use Rattle.std.specs.Prelude.{IfOk};

use crate::taking::one;
use cell_arena::Build;
use function_operators::{domain, field, first, item, length, rest};
use kernel_trees::{Ker, KerOp};
use outcome_cells::Cells;
use std::alloc::AllocError;
use value_operators::{count, flatten, not, subsets};

// Of a truth value, a set or a sequence.
#[tactic(auto, using(cell_arena::proofs::Growing::growing))]
pub(crate) fn of_one(b: &mut Build, e: &Ker, parts: &[Cells]) -> Result<Cells, AllocError>
    requires { CanOperate b.old e.now parts.now }
    ensures own { IfOk result (MakesOwn b.old b.new e.now parts.now) }
    ensures grows { Grows b.old b.new }
{
    let Some(x) = one(parts) else {
        return Err(AllocError);
    };
    match &e.op {
        KerOp::Not => {
            let own = not(b, x.cell)?;
            Ok(own)
        }
        KerOp::Flatten => {
            let own = flatten(b, x.cell)?;
            Ok(own)
        }
        KerOp::Subsets => {
            let own = subsets(b, x.cell)?;
            Ok(own)
        }
        KerOp::Count => {
            let own = count(b, x.cell)?;
            Ok(own)
        }
        KerOp::Length => {
            let own = length(b, x.cell)?;
            Ok(own)
        }
        KerOp::Rest => {
            let own = rest(b, x.cell)?;
            Ok(own)
        }
        _ => Err(AllocError),
    }
}

// The domain, or what stands in a tuple, a record or a sequence at a place that is written out.
#[tactic(auto, using(cell_arena::proofs::Growing::growing))]
pub(crate) fn part_of_one(b: &mut Build, e: &Ker, parts: &[Cells]) -> Result<Cells, AllocError>
    requires { CanOperate b.old e.now parts.now }
    ensures own { IfOk result (MakesOwn b.old b.new e.now parts.now) }
    ensures grows { Grows b.old b.new }
{
    let Some(x) = one(parts) else {
        return Err(AllocError);
    };
    match &e.op {
        KerOp::Domain => {
            let own = domain(b, x.cell)?;
            Ok(own)
        }
        KerOp::First => {
            let own = first(b, x.cell, &e.ty)?;
            Ok(own)
        }
        KerOp::Item(i) => Ok(item(b, x.cell, *i)),
        KerOp::FieldOf(name) => Ok(field(b, x.cell, name)),
        _ => Err(AllocError),
    }
}
