// Nodes in action positions, whose children stand there too.
ghost use Rattle.std.specs.Prelude.{◌≡◌, ◌∷◌, IfOk, Some, [], length};
ghost use Rattle.snowcat_rows.specs.declared.types.Ty.TheVariants.{Bool as bool_type};
ghost use Rattle.kernel_trees.specs.declared.kernel.KerOp.TheVariants.{Some as some_op};
ghost use Rattle.kernel_reduction.specs.Rows.{guard_of, tree};
ghost use Rattle.kera_reducer.specs.inner.Standing.{IsBranching, Makes};

use crate::cases::split_case;
use crate::making::Made;
use crate::nodes::{choice, node, only, tree, twice_negated, two, upward};
use kernel_trees::{Ker, KerOp, is_end};
use snowcat_rows::Ty;
use std::alloc::AllocError;
use tla_meaning::{Assignable, Op};

// The guard of an IF that is split into paths: no assignment, and no end of one.
fn guard_of(made: &Made, guard: Ker) -> Result<Ker, AllocError>
    ensures { IfOk result (λ k. k ≡ guard_of made.now.place bool_type guard) }
{
    if matches!(guard.op, KerOp::Equal | KerOp::Member) || is_end(&guard.op) {
        twice_negated(made.alloc, made.place, guard)
    } else {
        Ok(guard)
    }
}

fn branching(made: &Made, kids: Vec<Ker>) -> Result<Ker, AllocError>
    ensures { IfOk result (λ k. IsBranching made.now kids.items k) }
{
    let mut kids = kids;
    let Some(fails) = kids.pop() else {
        return Err(AllocError);
    };
    let (guard, holds) = two(kids)?;
    let guard = guard_of(made, guard)?;
    choice(made.alloc, made.place, Ty::Bool, guard, (holds, fails))
}

/// A node that passes an action position on.
pub(crate) fn action(
    made: &Made,
    op: &Op,
    assignable: Assignable,
    kids: Vec<Ker>,
) -> Result<Ker, AllocError>
    ensures { IfOk result (λ k. Makes made.now (Some assignable) op.now kids.items k) }
{
    let (alloc, place) = (made.alloc, made.place);
    match op {
        Op::And => Ok(node(alloc, place, Ty::Bool, KerOp::And, kids)),
        Op::Or => Ok(node(alloc, place, Ty::Bool, KerOp::Or, kids)),
        Op::Exists => {
            let numbers = upward(alloc, made.depth, made.bound)?;
            Ok(tree(place, Ty::Bool, KerOp::Some, kids, numbers))
        }
        Op::Noted(_) => only(kids),
        Op::If => branching(made, kids),
        Op::Case(_) => split_case(made, kids),
        _ => Err(AllocError),
    }
}
