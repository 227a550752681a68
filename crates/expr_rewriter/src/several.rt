//! Operators with two or three operands.

ghost use Rattle.cell_arena.specs.Growth.{Grows};
ghost use Rattle.cell_merge.specs.Sorts.{SetsOfOneType, number, set_of};
ghost use Rattle.expr_rewriter.specs.Operating.{CanOperate};
ghost use Rattle.expr_rewriter.specs.inner.Owning.{MakesOwn, is_arithmetic, is_of_sets};
ghost use Rattle.kernel_trees.specs.Trees.{op_of};
ghost use Rattle.kernel_trees.specs.declared.kernel.Ker.{out-Ker};
ghost use Rattle.outcome_cells.specs.Shows.{AreCells};
ghost use Rattle.set_rewriter.specs.Ranges.{AreNumbers};
ghost use Rattle.std.specs.Prelude.{◌∷◌, ◌≡◌, [], IfOk, true};
ghost use Rattle.value_operators.specs.Operands.{HasRow, HasSorts};

use crate::taking::{three, two};
use cell_arena::{Build, CellId};
use function_operators::{at, glue, join, push, slice};
use kernel_trees::{Ker, KerOp};
use outcome_cells::Cells;
use std::alloc::AllocError;
use value_operators::{
    equal, functions, inter, less, minus, plus, quotient, remainder, times, union, without,
};

// A number of two numbers.
#[tactic(auto, using(cell_arena::proofs::Growing::growing))]
fn computed(b: &mut Build, op: &KerOp, x: CellId, y: CellId) -> Result<Cells, AllocError>
    requires { AreNumbers b.old.arena.kinds x y }
    ensures cells { IfOk result (AreCells b.new number) }
    ensures row { IfOk result (HasRow b.old b.new (op_of op.now) (x ∷ y ∷ [])) }
    ensures grows { Grows b.old b.new }
{
    match op {
        KerOp::Plus => plus(b, x, y),
        KerOp::Minus => minus(b, x, y),
        KerOp::Times => times(b, x, y),
        KerOp::Quotient => quotient(b, x, y),
        KerOp::Remainder => remainder(b, x, y),
        _ => Err(AllocError),
    }
}

// The operators of arithmetic.
#[tactic(auto, using(cell_arena::proofs::Growing::growing))]
pub(crate) fn of_numbers(b: &mut Build, e: &Ker, parts: &[Cells]) -> Result<Cells, AllocError>
    requires can { CanOperate b.old e.now parts.now }
    requires operator { is_arithmetic (out-Ker e.now).op ≡ true }
    ensures own { IfOk result (MakesOwn b.old b.new e.now parts.now) }
    ensures grows { Grows b.old b.new }
{
    let Some((x, y)) = two(parts) else {
        return Err(AllocError);
    };
    let own = computed(b, &e.op, x.cell, y.cell)?;
    Ok(own)
}

// A set of two sets.
#[tactic(auto, using(cell_arena::proofs::Growing::growing))]
fn combined(b: &mut Build, op: &KerOp, x: CellId, y: CellId) -> Result<Cells, AllocError>
    requires { SetsOfOneType b.old.arena.kinds x y }
    ensures cells { IfOk result (HasSorts b.old b.new set_of set_of (x ∷ y ∷ [])) }
    ensures row { IfOk result (HasRow b.old b.new (op_of op.now) (x ∷ y ∷ [])) }
    ensures grows { Grows b.old b.new }
{
    match op {
        KerOp::Union => union(b, x, y),
        KerOp::Inter => inter(b, x, y),
        KerOp::Without => without(b, x, y),
        _ => Err(AllocError),
    }
}

// The operators on two sets.
#[tactic(auto, using(cell_arena::proofs::Growing::growing))]
pub(crate) fn of_sets(b: &mut Build, e: &Ker, parts: &[Cells]) -> Result<Cells, AllocError>
    requires can { CanOperate b.old e.now parts.now }
    requires operator { is_of_sets (out-Ker e.now).op ≡ true }
    ensures own { IfOk result (MakesOwn b.old b.new e.now parts.now) }
    ensures grows { Grows b.old b.new }
{
    let Some((x, y)) = two(parts) else {
        return Err(AllocError);
    };
    let own = combined(b, &e.op, x.cell, y.cell)?;
    Ok(own)
}

// The other operators with two operands.
#[tactic(auto, using(cell_arena::proofs::Growing::growing))]
pub(crate) fn of_two(b: &mut Build, e: &Ker, parts: &[Cells]) -> Result<Cells, AllocError>
    requires { CanOperate b.old e.now parts.now }
    ensures own { IfOk result (MakesOwn b.old b.new e.now parts.now) }
    ensures grows { Grows b.old b.new }
{
    let Some((x, y)) = two(parts) else {
        return Err(AllocError);
    };
    match &e.op {
        KerOp::Equal => {
            let own = equal(b, x.cell, y.cell)?;
            Ok(own)
        }
        KerOp::Less => {
            let own = less(b, x.cell, y.cell)?;
            Ok(own)
        }
        KerOp::Functions => {
            let own = functions(b, x.cell, y.cell)?;
            Ok(own)
        }
        KerOp::At => {
            let own = at(b, x.cell, y.cell, &e.ty)?;
            Ok(own)
        }
        KerOp::Join => {
            let own = join(b, x.cell, y.cell)?;
            Ok(own)
        }
        KerOp::Push => {
            let own = push(b, x.cell, y.cell)?;
            Ok(own)
        }
        KerOp::Glue => {
            let own = glue(b, x.cell, y.cell)?;
            Ok(own)
        }
        _ => Err(AllocError),
    }
}

// A part of a sequence, between two numbers.
#[tactic(auto, using(cell_arena::proofs::Growing::growing))]
pub(crate) fn part_of_sequence(b: &mut Build, e: &Ker, parts: &[Cells]) -> Result<Cells, AllocError>
    requires { CanOperate b.old e.now parts.now }
    ensures own { IfOk result (MakesOwn b.old b.new e.now parts.now) }
    ensures grows { Grows b.old b.new }
{
    let Some((x, y, z)) = three(parts) else {
        return Err(AllocError);
    };
    match &e.op {
        KerOp::Slice => {
            let own = slice(b, x.cell, y.cell, z.cell)?;
            Ok(own)
        }
        _ => Err(AllocError),
    }
}
