// Sets that several names share.
ghost use Rattle.std.specs.Prelude.{◌≡◌, ◌++◌, max, OnOk};
ghost use Rattle.std.proofs.Math.ListN.{replicate};

use std::alloc::{AllocError, Global};
use tla_meaning::{Expr, copy_expr};

// The most nodes that may be copied for one text; past them memory counts as wanting.
const COPIED_NODES: u64 = 1_048_576;

/// How many nodes were copied.
#[derive(Drop)]
pub(crate) struct Copies {
    pub(crate) nodes: u64,
}

impl Copies {
    // Whether so many copies of the tree may be made.
    fn allow(&mut self, e: &Expr, copies: usize) -> Result<(), AllocError> {
        let more = node_count(e).saturating_mul(copies as u64);
        self.nodes = self.nodes.saturating_add(more);
        if self.nodes > COPIED_NODES {
            return Err(AllocError);
        }
        Ok(())
    }
}

// The number of nodes of a tree.
fn node_count(e: &Expr) -> u64 {
    let mut count: u64 = 1;
    for arg in e.args.as_slice() {
        count = count.saturating_add(node_count(arg));
    }
    count
}

/// Adds the tree so many times, and at least once.
pub(crate) fn repeated(
    alloc: Global,
    copies: &mut Copies,
    count: usize,
    e: Expr,
    args: &mut Vec<Expr>,
) -> Result<(), AllocError>
    ensures { OnOk result (args.new.items ≡ args.old.items ++ replicate (max count 1) e) }
{
    let more = if count > 1 { count - 1 } else { 0 };
    if more > 0 {
        copies.allow(&e, more)?;
    }
    for k in 0..more {
        let copy = copy_expr(alloc, &e)?;
        args.push(copy)?;
    }
    args.push(e)?;
    Ok(())
}
