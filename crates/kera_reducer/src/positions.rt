// In which position the children of a node stand, and what it binds in them.
ghost use Rattle.std.specs.Prelude.{◌≡◌, ◌<◌, IfOk};
ghost use Rattle.kernel_reduction.specs.Builds.{passes_on};
ghost use Rattle.kernel_reduction.specs.inner.Settings.{binds_behind, binds_some, is_odd, is_passed, names_at, numbers_at, passing, position_at};

use crate::mentions::any_mentions;
use std::alloc::AllocError;
use tla_meaning::{Assignable, Expr, Op};

// Whether some children of an operator stand in an action position where its node does.
fn passes_on(assignable: Assignable, op: &Op, es: &[Expr]) -> bool
    ensures { result ≡ passes_on assignable op.now es.now }
{
    match op {
        Op::And | Op::Or | Op::Exists | Op::Noted(_) => true,
        Op::If | Op::Case(_) => any_mentions(es, assignable),
        _ => false,
    }
}

/// The position that a node passes on, if it does.
pub(crate) fn passing(position: Option<Assignable>, op: &Op, es: &[Expr]) -> Option<Assignable>
    ensures { result ≡ passing position op.now es.now }
{
    match position {
        Some(assignable) if passes_on(assignable, op, es) => position,
        _ => None,
    }
}

fn is_odd(number: usize) -> bool
    ensures { result ≡ is_odd number }
{
    number % 2 == 1
}

// Whether the child at a number of so many gets the position.
fn is_passed(op: &Op, names: usize, count: usize, child: usize) -> bool
    requires inside { child < count }
    ensures { result ≡ is_passed op.now names count child }
{
    match op {
        Op::Exists => names <= child,
        Op::If => 0 < child,
        Op::Case(_) => is_odd(child) || child + 1 == count,
        _ => true,
    }
}

/// The position of the child at a number of so many.
pub(crate) fn position_at(
    passed: Option<Assignable>,
    op: &Op,
    names: usize,
    count: usize,
    child: usize,
) -> Option<Assignable>
    requires inside { child < count }
    ensures { result ≡ position_at passed op.now names count child }
{
    if is_passed(op, names, count, child) {
        passed
    } else {
        None
    }
}

/// Whether an operator binds names in the children behind a set for each.
pub(crate) fn binds_behind(op: &Op) -> bool
    ensures { result ≡ binds_behind op.now }
{
    matches!(
        op,
        Op::Exists | Op::Forall | Op::Filter | Op::MapTo | Op::Lambda
    )
}

/// Whether an operator binds names.
pub(crate) fn binds_some(op: &Op) -> bool
    ensures { result ≡ binds_some op.now }
{
    matches!(op, Op::Fold | Op::Except(_)) || binds_behind(op)
}

/// How many numbers what an EXCEPT binds has in the child at a number behind the function.
pub(crate) fn numbers_at(counts: &[usize], child: usize) -> Result<usize, AllocError>
    ensures { IfOk result (λ n. n ≡ numbers_at counts.now child) }
{
    let mut left = child;
    for count in counts {
        if left < *count {
            return Ok(0);
        }
        if left == *count {
            return count.checked_add(2).ok_or(AllocError);
        }
        left -= count + 1;
    }
    Ok(0)
}
