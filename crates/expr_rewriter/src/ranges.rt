//! Ranges between the bounds that stand beside their ends.

ghost use Rattle.cell_arena.specs.Growth.{Grows};
ghost use Rattle.expr_rewriter.specs.Operating.{CanOperate};
ghost use Rattle.expr_rewriter.specs.inner.Owning.{MakesOwn};
ghost use Rattle.kernel_ranges.specs.Ranges.{in_bounds};
ghost use Rattle.kernel_trees.specs.Sound.{literal_of};
ghost use Rattle.kernel_trees.specs.declared.kernel.Ker.{out-Ker};
ghost use Rattle.kernel_trees.specs.declared.kernel.KerOp.TheVariants as ker;
ghost use Rattle.std.specs.Prelude.{◌≡◌, IfOk, drop, true, ℤ};
ghost use Rattle.tla_values.specs.declared.value.Value.{Value as AnyValue, out-Value};
ghost use Rattle.tla_values.specs.declared.value.Value.TheOpen as layer;
ghost use Rattle.value_operators.specs.Ranges.{is_between};

use crate::taking::two;
use cell_arena::Build;
use kernel_trees::{Ker, KerOp};
use outcome_cells::Cells;
use std::alloc::AllocError;
use tla_values::Value;
use value_operators::range;

// The number that a tree is written as; of any other tree 0.
fn number_of(k: &Ker) -> i128
    ensures { (n : ℤ) → literal_of (out-Ker k.now).op ≡ layer.Int n → result ≡ n }
{
    match &k.op {
        KerOp::Const(Value::Int(n)) => *n,
        _ => 0,
    }
}

// The numbers between which a range lies: of one without bounds, none.
fn bounds_of(args: &[Ker]) -> (i128, i128)
    ensures { (v : AnyValue) → in_bounds (drop 2 args.now) v ≡ true →
        is_between result.0 result.1 (out-Value v) ≡ true }
{
    match args {
        [_, _, low, high] => (number_of(low), number_of(high)),
        _ => (0, -1),
    }
}

// The numbers from the first to the second.
#[tactic(auto, using(cell_arena::proofs::Growing::growing))]
pub(crate) fn of_range(b: &mut Build, e: &Ker, parts: &[Cells]) -> Result<Cells, AllocError>
    requires can { CanOperate b.old e.now parts.now }
    requires operator { (out-Ker e.now).op ≡ ker.Range }
    ensures own { IfOk result (MakesOwn b.old b.new e.now parts.now) }
    ensures grows { Grows b.old b.new }
{
    let Some((x, y)) = two(parts) else {
        return Err(AllocError);
    };
    let (low, high) = bounds_of(e.args.as_slice());
    let own = range(b, x.cell, y.cell, low, high)?;
    Ok(own)
}
