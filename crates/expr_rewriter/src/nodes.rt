//! A node whose children stand in its setting.

ghost use Rattle.cell_arena.specs.Growth.{Grows};
ghost use Rattle.expr_rewriter.specs.Rewriting.{HasTreeSort};
ghost use Rattle.expr_rewriter.specs.inner.Parts.{CanJoin, Joins};
ghost use Rattle.std.specs.Prelude.{IfOk};

use crate::operating::operate;
use cell_arena::Build;
use kernel_trees::{Ker, KerOp};
use outcome_cells::{Cells, chosen, in_turn};
use std::alloc::AllocError;

/// The node over the cells of those of its children that are evaluated.
#[tactic(auto, using(cell_arena::proofs::Growing::growing))]
pub(crate) fn join(b: &mut Build, e: &Ker, parts: &[Cells]) -> Result<Cells, AllocError>
    requires { CanJoin b.old e.now parts.now }
    ensures sort { IfOk result (HasTreeSort b.new e.now) }
    ensures joins { IfOk result (Joins b.old b.new e.now parts.now) }
    ensures grows { Grows b.old b.new }
{
    match &e.op {
        KerOp::And => {
            let x = in_turn(b, true, parts)?;
            Ok(x)
        }
        KerOp::Or => {
            let x = in_turn(b, false, parts)?;
            Ok(x)
        }
        KerOp::If => match parts {
            [guard, first, second] => {
                let x = chosen(b, *guard, *first, *second)?;
                Ok(x)
            }
            _ => Err(AllocError),
        },
        _ => {
            let x = operate(b, e, parts)?;
            Ok(x)
        }
    }
}
