// Equal trees and steps of paths.
ghost use Rattle.std.specs.Prelude.{◌≡◌, IfOk};

use crate::kernel::{Ker, KerOp};
use crate::path::PathStep;
use snowcat_rows::copy_type;
use std::alloc::{AllocError, Global};
use tla_values::{List, copy_text, copy_texts, copy_value};

/// An equal operator.
pub fn copy_ker_op(alloc: Global, op: &KerOp) -> Result<KerOp, AllocError>
    ensures { IfOk result (λ o. o ≡ op.now) }
{
    match op {
        KerOp::Const(v) => Ok(KerOp::Const(copy_value(alloc, v)?)),
        KerOp::Name(i, primed) => Ok(KerOp::Name(*i, *primed)),
        KerOp::Bound(n) => Ok(KerOp::Bound(*n)),
        KerOp::And => Ok(KerOp::And),
        KerOp::Or => Ok(KerOp::Or),
        KerOp::Not => Ok(KerOp::Not),
        KerOp::If => Ok(KerOp::If),
        KerOp::Equal => Ok(KerOp::Equal),
        KerOp::Less => Ok(KerOp::Less),
        KerOp::Plus => Ok(KerOp::Plus),
        KerOp::Minus => Ok(KerOp::Minus),
        KerOp::Times => Ok(KerOp::Times),
        KerOp::Quotient => Ok(KerOp::Quotient),
        KerOp::Remainder => Ok(KerOp::Remainder),
        KerOp::SetOf => Ok(KerOp::SetOf),
        KerOp::Member => Ok(KerOp::Member),
        KerOp::Included => Ok(KerOp::Included),
        KerOp::Filter => Ok(KerOp::Filter),
        KerOp::MapOver => Ok(KerOp::MapOver),
        KerOp::Flatten => Ok(KerOp::Flatten),
        KerOp::Union => Ok(KerOp::Union),
        KerOp::Inter => Ok(KerOp::Inter),
        KerOp::Without => Ok(KerOp::Without),
        KerOp::Range => Ok(KerOp::Range),
        KerOp::Subsets => Ok(KerOp::Subsets),
        KerOp::Functions => Ok(KerOp::Functions),
        KerOp::Count => Ok(KerOp::Count),
        KerOp::FunOf => Ok(KerOp::FunOf),
        KerOp::At => Ok(KerOp::At),
        KerOp::Update => Ok(KerOp::Update),
        KerOp::Domain => Ok(KerOp::Domain),
        KerOp::Join => Ok(KerOp::Join),
        KerOp::TupOf => Ok(KerOp::TupOf),
        KerOp::Item(i) => Ok(KerOp::Item(*i)),
        KerOp::RecOf(names) => Ok(KerOp::RecOf(copy_texts(alloc, names)?)),
        KerOp::FieldOf(name) => Ok(KerOp::FieldOf(copy_text(alloc, name)?)),
        KerOp::SeqOf => Ok(KerOp::SeqOf),
        KerOp::Length => Ok(KerOp::Length),
        KerOp::Push => Ok(KerOp::Push),
        KerOp::First => Ok(KerOp::First),
        KerOp::Rest => Ok(KerOp::Rest),
        KerOp::Slice => Ok(KerOp::Slice),
        KerOp::Glue => Ok(KerOp::Glue),
        KerOp::FoldLeft => Ok(KerOp::FoldLeft),
        KerOp::Some => Ok(KerOp::Some),
        KerOp::Every => Ok(KerOp::Every),
        KerOp::NoCase => Ok(KerOp::NoCase),
        KerOp::IntForm => Ok(KerOp::IntForm),
        KerOp::NatForm => Ok(KerOp::NatForm),
        KerOp::TextForm => Ok(KerOp::TextForm),
        KerOp::SeqForm => Ok(KerOp::SeqForm),
        KerOp::RecForm(names) => Ok(KerOp::RecForm(copy_texts(alloc, names)?)),
        KerOp::TupForm => Ok(KerOp::TupForm),
    }
}

/// An equal tree.
#[cycle(copy)]
pub fn copy_ker(alloc: Global, k: &Ker) -> Result<Ker, AllocError>
    ensures { IfOk result (λ c. c ≡ k.now) }
{
    let ty = copy_type(alloc, &k.ty)?;
    let op = copy_ker_op(alloc, &k.op)?;
    let args = copy_kers(alloc, k.args.as_slice())?;
    let binds = Vec::from_slice(alloc, k.binds.as_slice())?;
    Ok(Ker {
        place: k.place,
        ty,
        op,
        args,
        binds: List::from_vec(binds),
    })
}

#[cycle(copy)]
fn copy_kers(alloc: Global, ks: &[Ker]) -> Result<List<Ker>, AllocError>
    ensures { IfOk result (λ l. l ≡ ks.now) }
{
    let mut items = Vec::new(alloc);
    for k in ks {
        let item = copy_ker(alloc, k)?;
        items.push(item)?;
    }
    Ok(List::from_vec(items))
}

/// Equal numbers with equal sets.
pub fn copy_sets(alloc: Global, sets: &List<(u32, Ker)>) -> Result<List<(u32, Ker)>, AllocError>
    ensures { IfOk result (λ l. l ≡ sets.now) }
{
    let mut items = Vec::new(alloc);
    for (number, set) in sets.as_slice() {
        items.push((*number, copy_ker(alloc, set)?))?;
    }
    Ok(List::from_vec(items))
}

/// An equal step of a path.
pub fn copy_step(alloc: Global, step: &PathStep) -> Result<PathStep, AllocError>
    ensures { IfOk result (λ r. r ≡ step.now) }
{
    match step {
        PathStep::Guard(k, wanted) => Ok(PathStep::Guard(copy_ker(alloc, k)?, *wanted)),
        PathStep::Pick(sets) => Ok(PathStep::Pick(copy_sets(alloc, sets)?)),
    }
}
