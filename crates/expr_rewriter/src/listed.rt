//! Operators with any number of operands.

ghost use Rattle.cell_arena.specs.Growth.{Grows};
ghost use Rattle.expr_rewriter.specs.Operating.{CanOperate};
ghost use Rattle.expr_rewriter.specs.inner.Owning.{MakesOwn};
ghost use Rattle.std.specs.Prelude.{IfOk};

use crate::taking::ids_of;
use cell_arena::{Build, all_differ};
use function_operators::{record, sequence, tuple};
use kernel_trees::{Ker, KerOp};
use member_choices::{records, tuples};
use outcome_cells::Cells;
use std::alloc::AllocError;
use value_operators::set;

// A set, a sequence, a tuple or a record of the operands.
#[tactic(auto, using(cell_arena::proofs::Growing::growing))]
pub(crate) fn of_all(b: &mut Build, e: &Ker, parts: &[Cells]) -> Result<Cells, AllocError>
    requires { CanOperate b.old e.now parts.now }
    ensures own { IfOk result (MakesOwn b.old b.new e.now parts.now) }
    ensures grows { Grows b.old b.new }
{
    let ids = ids_of(b.arena.alloc(), parts)?;
    match &e.op {
        KerOp::SetOf => {
            let members = ids.as_slice();
            let own = set(b, members)?;
            Ok(own)
        }
        KerOp::SeqOf => {
            let own = sequence(b, ids)?;
            Ok(own)
        }
        KerOp::TupOf => {
            let own = tuple(b, ids)?;
            Ok(own)
        }
        KerOp::RecOf(names) => {
            let texts = names.as_slice();
            if !all_differ(texts) {
                return Err(AllocError);
            }
            let cells = ids.as_slice();
            let own = record(b, texts, cells)?;
            Ok(own)
        }
        _ => Err(AllocError),
    }
}

// The set of the tuples or of the records of the operands' members.
#[tactic(auto, using(cell_arena::proofs::Growing::growing))]
pub(crate) fn product_of_all(b: &mut Build, e: &Ker, parts: &[Cells]) -> Result<Cells, AllocError>
    requires { CanOperate b.old e.now parts.now }
    ensures own { IfOk result (MakesOwn b.old b.new e.now parts.now) }
    ensures grows { Grows b.old b.new }
{
    let ids = ids_of(b.arena.alloc(), parts)?;
    let sets = ids.as_slice();
    match &e.op {
        KerOp::TupForm => {
            let own = tuples(b, sets)?;
            Ok(own)
        }
        KerOp::RecForm(names) => {
            let texts = names.as_slice();
            if !all_differ(texts) {
                return Err(AllocError);
            }
            let own = records(b, texts, sets)?;
            Ok(own)
        }
        _ => Err(AllocError),
    }
}
