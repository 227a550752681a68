//! Operators whose operands are all evaluated, over the cells of these.

ghost use Rattle.cell_arena.specs.Growth.{Grows};
ghost use Rattle.expr_rewriter.specs.Operating.{CanOperate, Operates};
ghost use Rattle.expr_rewriter.specs.Rewriting.{HasTreeSort};
ghost use Rattle.expr_rewriter.specs.inner.Owning.{MakesOwn};
ghost use Rattle.std.specs.Prelude.{IfOk};

use crate::listed::{of_all, product_of_all};
use crate::ranges::of_range;
use crate::several::{of_numbers, of_sets, of_two, part_of_sequence};
use crate::single::{of_one, part_of_one};
use cell_arena::Build;
use kernel_trees::{Ker, KerOp};
use outcome_cells::{Cells, strict};
use std::alloc::AllocError;

// The operator's own cells, by its operands.
#[tactic(auto, using(cell_arena::proofs::Growing::growing))]
fn own_cells(b: &mut Build, e: &Ker, parts: &[Cells]) -> Result<Cells, AllocError>
    requires { CanOperate b.old e.now parts.now }
    ensures own { IfOk result (MakesOwn b.old b.new e.now parts.now) }
    ensures grows { Grows b.old b.new }
{
    match &e.op {
        KerOp::Not | KerOp::Flatten | KerOp::Subsets | KerOp::Count => of_one(b, e, parts),
        KerOp::Length | KerOp::Rest => of_one(b, e, parts),
        KerOp::Domain | KerOp::Item(_) | KerOp::FieldOf(_) => part_of_one(b, e, parts),
        KerOp::First => part_of_one(b, e, parts),
        KerOp::Plus | KerOp::Minus | KerOp::Times => of_numbers(b, e, parts),
        KerOp::Quotient | KerOp::Remainder => of_numbers(b, e, parts),
        KerOp::Union | KerOp::Inter | KerOp::Without => of_sets(b, e, parts),
        KerOp::Equal | KerOp::Less | KerOp::Functions => of_two(b, e, parts),
        KerOp::At | KerOp::Join | KerOp::Push | KerOp::Glue => of_two(b, e, parts),
        KerOp::Range => of_range(b, e, parts),
        KerOp::Slice => part_of_sequence(b, e, parts),
        KerOp::SetOf | KerOp::SeqOf | KerOp::TupOf | KerOp::RecOf(_) => of_all(b, e, parts),
        KerOp::TupForm | KerOp::RecForm(_) => product_of_all(b, e, parts),
        _ => Err(AllocError),
    }
}

/// A node whose operands are all evaluated, over their cells: their faults, and where there is none what the operator
/// gives of their values. (Specifying Systems, section 16.1; Konnov, Kukovec and Tran, "TLA+ Model Checking Made
/// Symbolic", OOPSLA 2019, section 5.)
#[tactic(auto, using(cell_arena::proofs::Growing::growing))]
pub(crate) fn operate(b: &mut Build, e: &Ker, parts: &[Cells]) -> Result<Cells, AllocError>
    requires { CanOperate b.old e.now parts.now }
    ensures sort { IfOk result (HasTreeSort b.new e.now) }
    ensures operates { IfOk result (Operates b.old b.new e.now parts.now) }
    ensures grows { Grows b.old b.new }
{
    let own = own_cells(b, e, parts)?;
    let cells = strict(b.arena.alloc(), &mut b.formula, parts, own)?;
    Ok(cells)
}
