// Where the root of a tree stands. A use is followed to the definition's body or to the argument, LET to its body and a
// prime to its operand: in loops, since definitions may stand for one another in chains of any length.
ghost use Rattle.std.specs.Prelude.{◌≡◌, ◌≤◌, false, IfOk, length};
ghost use Rattle.tla_meaning.specs.declared.expr.Expr.{out-Expr};
ghost use Rattle.tla_meaning.specs.declared.op.Op.TheVariants.{Let as defined};
ghost use Rattle.op_inliner.specs.inner.Spots.{IsBelow, IsOperand, IsRoot, Leads, Steps, aside, is_use};

use crate::frames::{Frame, define_all, find_tree, pass};
use std::alloc::AllocError;
use tla_meaning::{Expr, Op};
use tla_values::Text;

// An expression with its scope, below so many binders and under so many primes.
#[derive(Clone, Copy)]
pub(crate) struct Spot<'a> {
    pub(crate) e: &'a Expr,
    pub(crate) scope: usize,
    pub(crate) level: u16,
    pub(crate) primes: usize,
}

// The node that the tree of this spot has at its root.
pub(crate) fn root<'a>(spot: Spot<'a>, frames: &mut Vec<Frame<'a>>) -> Result<Spot<'a>, AllocError>
    requires scope { spot.scope ≤ length frames.old.items }
    ensures { IfOk result (IsRoot frames.old.items frames.new.items spot.entry) }
{
    let mut spot = spot;
    for _ in 0..u64::MAX {
        match step(spot, frames)? {
            Some(next) => spot = next,
            None => return Ok(spot),
        }
    }
    Err(AllocError)
}

// One step there.
fn step<'a>(spot: Spot<'a>, frames: &mut Vec<Frame<'a>>) -> Result<Option<Spot<'a>>, AllocError>
    requires scope { spot.scope ≤ length frames.old.items }
    ensures { IfOk result (Steps frames.old.items frames.new.items spot.entry) }
{
    match (&spot.e.op, spot.e.args.as_slice()) {
        (Op::Use(name) | Op::Param(name), _) => {
            let next = used(spot, name, frames)?;
            Ok(Some(next))
        }
        (Op::Let(lets), _) => {
            let next = let_body(spot, lets.as_slice(), frames)?;
            Ok(Some(next))
        }
        (Op::Prime, [operand]) => {
            let next = under_prime(spot, operand)?;
            Ok(Some(next))
        }
        _ => Ok(None),
    }
}

// What a name is written out as where it is used. A name that stands for nothing, which no module has, is answered as
// want of memory.
fn used<'a>(
    spot: Spot<'a>,
    name: &Text,
    frames: &mut Vec<Frame<'a>>,
) -> Result<Spot<'a>, AllocError>
    requires scope { spot.scope ≤ length frames.old.items }
    requires named { is_use (out-Expr spot.e.now).op name.now }
    ensures { IfOk result (Leads frames.old.items frames.new.items spot.entry) }
{
    let Some(found) = find_tree(name, spot.scope, frames.as_slice()) else {
        return Err(AllocError);
    };
    let args = spot.e.args.as_slice();
    let scope = pass(found.params, args, spot.scope, found.scope, frames)?;
    Ok(Spot {
        e: found.body,
        scope,
        level: spot.level,
        primes: spot.primes,
    })
}

// The body of a LET; one without, which no module has, is answered as want of memory.
fn let_body<'a>(
    spot: Spot<'a>,
    lets: &'a [(Text, usize)],
    frames: &mut Vec<Frame<'a>>,
) -> Result<Spot<'a>, AllocError>
    requires scope { spot.scope ≤ length frames.old.items }
    requires definitions { (out-Expr spot.e.now).op ≡ defined lets.now }
    ensures { IfOk result (Leads frames.old.items frames.new.items spot.entry) }
{
    let args = spot.e.args.as_slice();
    if lets.len() >= args.len() {
        return Err(AllocError);
    }
    let scope = define_all(lets, spot.e.binds.as_slice(), args, spot.scope, frames)?;
    Ok(Spot {
        e: &args[lets.len()],
        scope,
        level: spot.level,
        primes: spot.primes,
    })
}

// The operand of a prime.
fn under_prime<'a>(spot: Spot<'a>, operand: &'a Expr) -> Result<Spot<'a>, AllocError>
    ensures { IfOk result (IsOperand spot.entry operand.now) }
{
    let Some(primes) = spot.primes.checked_add(1) else {
        return Err(AllocError);
    };
    Ok(Spot {
        e: operand,
        scope: spot.scope,
        level: spot.level,
        primes,
    })
}

// The node below the notes around a node.
pub(crate) fn below_notes<'a>(
    spot: Spot<'a>,
    frames: &mut Vec<Frame<'a>>,
) -> Result<Spot<'a>, AllocError>
    requires scope { spot.scope ≤ length frames.old.items }
    requires root { aside spot ≡ false }
    ensures { IfOk result (IsBelow frames.old.items frames.new.items spot.entry) }
{
    let mut spot = spot;
    for _ in 0..u64::MAX {
        match (&spot.e.op, spot.e.args.as_slice()) {
            (Op::Noted(_), [operand]) => {
                let inner = Spot {
                    e: operand,
                    scope: spot.scope,
                    level: spot.level,
                    primes: spot.primes,
                };
                spot = root(inner, frames)?;
            }
            _ => return Ok(spot),
        }
    }
    Err(AllocError)
}
