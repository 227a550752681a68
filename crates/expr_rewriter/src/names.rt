//! The cells of names and of bound numbers while a tree is rewritten.

ghost use Rattle.cell_arena.specs.Growth.{Grows};
ghost use Rattle.expr_rewriter.specs.Rewriting.{CanRewrite};
ghost use Rattle.expr_rewriter.specs.inner.Parts.{IsTree};
ghost use Rattle.expr_rewriter.specs.inner.Settings.{cut_bound, setting_of, with_bound};
ghost use Rattle.kernel_trees.specs.declared.kernel.Ker.{out-Ker};
ghost use Rattle.expr_rewriter.specs.declared.settings.Setting.TheVariants.{Leaf};
ghost use Rattle.std.specs.Prelude.{◌++◌, ◌≡◌, IfOk, length, zip};

use crate::cell_env::CellEnv;
use crate::leaves::leaf;
use cell_arena::{Build, CellId};
use kernel_trees::Ker;
use outcome_cells::Cells;
use std::alloc::{AllocError, Global};
use std::marker::Model;

// The cells of the declared names, which stay, and a stack of those of bound numbers, to which a body adds its own till
// it is done. So no list is copied for a member of a set.
#[derive(Drop)]
pub(crate) struct Names<'a> {
    current: &'a [CellId],
    following: &'a [Option<CellId>],
    bound: Vec<(u32, CellId)>,
}

impl<'a> Model for Names<'a> {
    ghost use Rattle.expr_rewriter.specs.declared.cell_env.CellEnv.{CellEnv};

    ghost Value = { CellEnv };

    ghost view = { λ n. record { now = n.current.now; next = n.following.now; bound = n.bound.items } };
}

// Each number with its cell, behind the others.
fn push_all(
    bound: &mut Vec<(u32, CellId)>,
    numbers: &[u32],
    cells: &[CellId],
) -> Result<(), AllocError>
    requires { length numbers.now ≡ length cells.now }
    ensures { IfOk result (λ _. bound.new.items ≡ bound.old.items ++ zip numbers.now cells.now) }
{
    for i in 0..numbers.len() {
        bound.push((numbers[i], cells[i]))?;
    }
    Ok(())
}

impl<'a> Names<'a> {
    // The stack begins with what is bound around the tree.
    pub(crate) fn new(alloc: Global, env: &'a CellEnv) -> Result<Names<'a>, AllocError>
        ensures { IfOk result (λ n. n ≡ env.entry.now) }
    {
        let bound = Vec::from_slice(alloc, env.bound.as_slice())?;
        Ok(Names {
            current: env.now.as_slice(),
            following: env.next.as_slice(),
            bound,
        })
    }

    // How many bound numbers there are.
    pub(crate) fn count(&self) -> usize
        ensures { result ≡ length self.now.bound }
    {
        self.bound.len()
    }

    // A cell for each of the numbers.
    pub(crate) fn bind(&mut self, numbers: &[u32], cells: &[CellId]) -> Result<(), AllocError>
        requires { length numbers.now ≡ length cells.now }
        ensures { IfOk result (λ _. self.new ≡ with_bound self.old numbers.now cells.now) }
    {
        push_all(&mut self.bound, numbers, cells)
    }

    // The first bound numbers alone.
    pub(crate) fn cut(&mut self, count: usize)
        ensures { self.new ≡ cut_bound self.old count }
    {
        self.bound.truncate(count);
    }

    // A tree that has no operands.
    #[tactic(auto, using(cell_arena::proofs::Growing::growing))]
    pub(crate) fn read(&self, b: &mut Build, e: &Ker) -> Result<Cells, AllocError>
        requires can { CanRewrite b.old e.now self.now }
        requires leaf { setting_of (out-Ker e.now).op ≡ Leaf }
        ensures tree { IfOk result (IsTree b.new e.now self.now) }
        ensures grows { Grows b.old b.new }
    {
        let x = leaf(b, e, self.current, self.following, self.bound.as_slice())?;
        Ok(x)
    }
}
