// The nodes that a reduction makes, and the operands of those that it takes apart.
ghost use Rattle.std.specs.Prelude.{◌≡◌, ◌∷◌, IfOk, OnOk, [], map, pos};
ghost use Rattle.tla_values.specs.declared.value.Value.TheVariants.{Int as int_value};
ghost use Rattle.snowcat_rows.specs.declared.types.Ty.TheVariants.{Bool as bool_type};
ghost use Rattle.kernel_trees.specs.declared.kernel.KerOp.TheVariants.{Const as const_op, If as if_op};
ghost use Rattle.kernel_reduction.specs.Reduction.{upward};
ghost use Rattle.kernel_reduction.specs.Rows.{bound, negation, node, number, op_at, tree, truth, twice_negated};

use kernel_trees::{Ker, KerOp, copy_ker};
use snowcat_rows::Ty;
use std::alloc::{AllocError, Global};
use tla_meaning::Place;
use tla_values::{List, Value};

/// A node that binds these numbers.
pub(crate) fn tree(place: Place, ty: Ty, op: KerOp, kids: Vec<Ker>, numbers: Vec<u32>) -> Ker
    ensures { result ≡ tree place ty op kids.items numbers.items }
{
    Ker {
        place,
        ty,
        op,
        args: List::from_vec(kids),
        binds: List::from_vec(numbers),
    }
}

/// A node that binds nothing.
pub(crate) fn node(alloc: Global, place: Place, ty: Ty, op: KerOp, kids: Vec<Ker>) -> Ker
    ensures { result ≡ node place ty op kids.items }
{
    tree(place, ty, op, kids, Vec::new(alloc))
}

/// A node with one child.
pub(crate) fn unary(
    alloc: Global,
    place: Place,
    ty: Ty,
    op: KerOp,
    kid: Ker,
) -> Result<Ker, AllocError>
    ensures { IfOk result (λ k. k ≡ node place ty op (kid ∷ [])) }
{
    let kids = vec![in alloc; kid]?;
    Ok(node(alloc, place, ty, op, kids))
}

/// A node with the two children of a pair.
pub(crate) fn binary(
    alloc: Global,
    place: Place,
    ty: Ty,
    op: KerOp,
    operands: (Ker, Ker),
) -> Result<Ker, AllocError>
    ensures { IfOk result (λ k. k ≡ node place ty op (operands.0 ∷ operands.1 ∷ [])) }
{
    let (left, right) = operands;
    let kids = vec![in alloc; left, right]?;
    Ok(node(alloc, place, ty, op, kids))
}

/// An IF with its guard, and its two branches as a pair.
pub(crate) fn choice(
    alloc: Global,
    place: Place,
    ty: Ty,
    guard: Ker,
    branches: (Ker, Ker),
) -> Result<Ker, AllocError>
    ensures { IfOk result (λ k. k ≡ node place ty if_op (guard ∷ branches.0 ∷ branches.1 ∷ [])) }
{
    let (holds, fails) = branches;
    let kids = vec![in alloc; guard, holds, fails]?;
    Ok(node(alloc, place, ty, KerOp::If, kids))
}

pub(crate) fn truth(alloc: Global, place: Place, value: bool) -> Ker
    ensures { result ≡ truth place bool_type value }
{
    node(
        alloc,
        place,
        Ty::Bool,
        KerOp::Const(Value::Bool(value)),
        Vec::new(alloc),
    )
}

/// A number, as a node of this type.
pub(crate) fn number(alloc: Global, place: Place, ty: Ty, value: u32) -> Ker
    ensures { result ≡ number place ty value }
{
    let value = Value::Int(i128::from(value));
    node(alloc, place, ty, KerOp::Const(value), Vec::new(alloc))
}

pub(crate) fn bound(alloc: Global, place: Place, ty: Ty, value: u32) -> Ker
    ensures { result ≡ bound place ty value }
{
    node(alloc, place, ty, KerOp::Bound(value), Vec::new(alloc))
}

pub(crate) fn negation(alloc: Global, place: Place, kid: Ker) -> Result<Ker, AllocError>
    ensures { IfOk result (λ k. k ≡ negation place bool_type kid) }
{
    unary(alloc, place, Ty::Bool, KerOp::Not, kid)
}

/// Two negations, below which nothing is assigned and no path ends.
pub(crate) fn twice_negated(alloc: Global, place: Place, kid: Ker) -> Result<Ker, AllocError>
    ensures { IfOk result (λ k. k ≡ twice_negated place bool_type kid) }
{
    let inner = negation(alloc, place, kid)?;
    negation(alloc, place, inner)
}

/// The negations of copies.
pub(crate) fn negations(alloc: Global, place: Place, kids: &[Ker]) -> Result<Vec<Ker>, AllocError>
    ensures { IfOk result (λ ks. ks.items ≡ map (negation place bool_type) kids.now) }
{
    let mut negated = Vec::new(alloc);
    for kid in kids {
        let copied = copy_ker(alloc, kid)?;
        negated.push(negation(alloc, place, copied)?)?;
    }
    Ok(negated)
}

/// The natural number that is a node's literal.
pub(crate) fn natural_at(kid: &Ker) -> Result<usize, AllocError>
    ensures { IfOk result (λ n. op_at kid.now ≡ const_op (int_value (pos n))) }
{
    match &kid.op {
        KerOp::Const(Value::Int(number)) => match usize::try_from(*number) {
            Ok(number) => Ok(number),
            Err(_) => Err(AllocError),
        },
        _ => Err(AllocError),
    }
}

/// That there is no operand.
pub(crate) fn none(kids: &[Ker]) -> Result<(), AllocError>
    ensures { OnOk result (kids.now ≡ []) }
{
    match kids {
        [] => Ok(()),
        _ => Err(AllocError),
    }
}

/// The only operand.
pub(crate) fn only(kids: Vec<Ker>) -> Result<Ker, AllocError>
    ensures { IfOk result (λ k. kids.items ≡ k ∷ []) }
{
    let mut kids = kids;
    match kids.pop() {
        Some(kid) if kids.is_empty() => Ok(kid),
        _ => Err(AllocError),
    }
}

/// The two operands.
pub(crate) fn two(kids: Vec<Ker>) -> Result<(Ker, Ker), AllocError>
    ensures { IfOk result (λ p. kids.items ≡ p.0 ∷ p.1 ∷ []) }
{
    let mut kids = kids;
    match kids.pop() {
        Some(right) => {
            let left = only(kids)?;
            Ok((left, right))
        }
        None => Err(AllocError),
    }
}

/// So many numbers, from one on.
pub(crate) fn upward(alloc: Global, first: u32, count: usize) -> Result<Vec<u32>, AllocError>
    ensures { IfOk result (λ ns. ns.items ≡ upward first count) }
{
    let mut numbers = Vec::new(alloc);
    let mut next = first;
    for _ in 0..count {
        numbers.push(next)?;
        next = next.checked_add(1).ok_or(AllocError)?;
    }
    Ok(numbers)
}
