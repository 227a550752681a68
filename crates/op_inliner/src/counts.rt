// What the expressions of a module count, in one pass.
ghost use Rattle.std.specs.Prelude.{◌≡◌, ◌++◌, ◌∷◌, [], IfOk, map};
ghost use Rattle.op_inliner.specs.inner.Sums.{add_sums, counted_by, kept_by, node_sums, one_more, operand_sum, plain_by, plain_number, scope_of, shape_of, total_kept, total_trees, tree_by};

use crate::sums::{Counted, Sum, add_sums, one_more, plain_number, twice};
use std::alloc::{AllocError, Global};
use tla_meaning::Op;

// What an operator is to a count.
#[derive(Clone, Copy)]
pub(crate) enum Shape {
    Prime,
    Unchanged,
    Boxed,
    Angled,
    Tuple,
    Noted,
    Other,
}

fn shape_of(op: &Op) -> Shape
    ensures { result ≡ shape_of op.now }
{
    match op {
        Op::Prime => Shape::Prime,
        Op::Unchanged => Shape::Unchanged,
        Op::Boxed => Shape::Boxed,
        Op::Angled => Shape::Angled,
        Op::Tuple => Shape::Tuple,
        Op::Noted(_) => Shape::Noted,
        _ => Shape::Other,
    }
}

// A node, by its operands.
pub(crate) fn node_sums(alloc: Global, op: &Op, operands: &[Counted]) -> Result<Counted, AllocError>
    ensures { IfOk result (λ c. c ≡ node_sums op.now operands.now) }
{
    let counted = counted_by(alloc, shape_of(op), operands)?;
    Ok(counted)
}

fn counted_by(alloc: Global, shape: Shape, operands: &[Counted]) -> Result<Counted, AllocError>
    ensures { IfOk result (λ c. c ≡ counted_by shape operands.now) }
{
    let tree = tree_by(alloc, shape, operands)?;
    let kept = kept_by(alloc, shape, operands, &tree)?;
    let plain = plain_by(alloc, shape, operands)?;
    Ok(Counted { tree, kept, plain })
}

fn tree_by(alloc: Global, shape: Shape, operands: &[Counted]) -> Result<Sum, AllocError>
    ensures { IfOk result (λ s. s ≡ tree_by shape operands.now) }
{
    match (shape, operands) {
        (Shape::Prime, [c]) => c.tree.copy(alloc),
        (Shape::Unchanged, [c]) => c.kept.copy(alloc),
        (Shape::Boxed, [a, c]) => {
            let both = add_sums(alloc, &a.tree, &c.kept)?;
            Ok(one_more(both))
        }
        (Shape::Angled, [a, c]) => {
            let negated = one_more(c.kept.copy(alloc)?);
            let both = add_sums(alloc, &a.tree, &negated)?;
            Ok(one_more(both))
        }
        _ => {
            let all = total_trees(alloc, operands)?;
            Ok(one_more(all))
        }
    }
}

fn kept_by(alloc: Global, shape: Shape, operands: &[Counted], tree: &Sum) -> Result<Sum, AllocError>
    ensures { IfOk result (λ s. s ≡ kept_by shape operands.now tree.now) }
{
    match (shape, operands) {
        (Shape::Tuple, _) => {
            let all = total_kept(alloc, operands)?;
            Ok(one_more(all))
        }
        (Shape::Noted, [c]) => {
            let notes = twice(alloc, &c.plain)?;
            let all = add_sums(alloc, &c.kept, &notes)?;
            Ok(all)
        }
        (Shape::Prime, [c]) => c.kept.copy(alloc),
        (Shape::Noted | Shape::Prime, _) => Ok(plain_number(alloc, 1)),
        _ => {
            let both = twice(alloc, tree)?;
            Ok(one_more(both))
        }
    }
}

fn plain_by(alloc: Global, shape: Shape, operands: &[Counted]) -> Result<Sum, AllocError>
    ensures { IfOk result (λ s. s ≡ plain_by shape operands.now) }
{
    match (shape, operands) {
        (Shape::Noted | Shape::Prime, [c]) => c.plain.copy(alloc),
        (Shape::Tuple | Shape::Noted | Shape::Prime, _) => Ok(plain_number(alloc, 0)),
        _ => Ok(plain_number(alloc, 1)),
    }
}

fn total_trees(alloc: Global, operands: &[Counted]) -> Result<Sum, AllocError>
    ensures { IfOk result (λ s. s ≡ total_trees operands.now) }
{
    let mut i = operands.len();
    let mut all = plain_number(alloc, 0);
    while i > 0 {
        i -= 1;
        all = add_sums(alloc, &operands[i].tree, &all)?;
    }
    Ok(all)
}

fn total_kept(alloc: Global, operands: &[Counted]) -> Result<Sum, AllocError>
    ensures { IfOk result (λ s. s ≡ total_kept operands.now) }
{
    let mut i = operands.len();
    let mut all = plain_number(alloc, 0);
    while i > 0 {
        i -= 1;
        all = add_sums(alloc, &operands[i].kept, &all)?;
    }
    Ok(all)
}
