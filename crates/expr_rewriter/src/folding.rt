//! Folds over sequences.

ghost use Rattle.cell_arena.specs.Growth.{Grows};
ghost use Rattle.expr_rewriter.specs.Rewriting.{HasTreeSort};
ghost use Rattle.expr_rewriter.specs.inner.Folding.{CanFoldNode, FoldsNode};
ghost use Rattle.std.specs.Prelude.{IfOk};

use cell_arena::Build;
use kernel_trees::Ker;
use outcome_cells::{Cells, strict};
use std::alloc::AllocError;

/// The fold: the faults of the first value and of the sequence, and where they have none all steps.
#[tactic(auto, using(cell_arena::proofs::Growing::growing))]
pub(crate) fn fold_node(
    b: &mut Build,
    e: &Ker,
    first: Cells,
    seq: Cells,
    own: Cells,
) -> Result<Cells, AllocError>
    requires { CanFoldNode b.old e.now first seq own }
    ensures sort { IfOk result (HasTreeSort b.new e.now) }
    ensures folds { IfOk result (FoldsNode b.old b.new e.now first seq own) }
    ensures grows { Grows b.old b.new }
{
    let parts = [first, seq];
    let x = strict(b.arena.alloc(), &mut b.formula, &parts, own)?;
    Ok(x)
}
