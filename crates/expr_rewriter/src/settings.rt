//! In which setting the children of a node are evaluated.

ghost use Rattle.expr_rewriter.specs.inner.Settings.{setting_of};
ghost use Rattle.expr_rewriter.specs.Operating.{operands};
ghost use Rattle.std.specs.Prelude.{◌<◌, ◌≡◌, ◌≤◌, length, slice_index_or, take, ℕ};
ghost use denote.Param.Weighed.{most};
ghost use Rattle.kernel_trees.specs.declared.kernel.Ker.{Ker as AnyKer, out-Ker};

use kernel_trees::{Ker, KerOp};

/// The families of operators whose children are evaluated in one way.
pub(crate) enum Setting {
    /// No child is evaluated.
    Leaf,
    /// Those that are evaluated stand where the node stands.
    Level,
    /// Sets, and a body in which names are bound to their members.
    Binder,
    /// A function, an index, and a body in which the old value is bound.
    Update,
    /// A body in which the value so far and an item are bound, the first value and a sequence.
    Fold,
    /// A form, or a right side in a form position.
    Form,
}

pub(crate) fn setting_for(op: &KerOp) -> Setting
    ensures { result ≡ setting_of op.now }
{
    match op {
        KerOp::Const(_) | KerOp::Name(_, _) | KerOp::Bound(_) | KerOp::NoCase => Setting::Leaf,
        KerOp::Some | KerOp::Every | KerOp::Filter | KerOp::MapOver | KerOp::FunOf => {
            Setting::Binder
        }
        KerOp::Update => Setting::Update,
        KerOp::FoldLeft => Setting::Fold,
        KerOp::Member
        | KerOp::Included
        | KerOp::IntForm
        | KerOp::NatForm
        | KerOp::TextForm
        | KerOp::SeqForm => Setting::Form,
        KerOp::And
        | KerOp::Or
        | KerOp::Not
        | KerOp::If
        | KerOp::Equal
        | KerOp::Less
        | KerOp::Plus
        | KerOp::Minus
        | KerOp::Times
        | KerOp::Quotient
        | KerOp::Remainder
        | KerOp::SetOf
        | KerOp::Flatten
        | KerOp::Union
        | KerOp::Inter
        | KerOp::Without
        | KerOp::Range
        | KerOp::Subsets
        | KerOp::Functions
        | KerOp::Count
        | KerOp::At
        | KerOp::Domain
        | KerOp::Join
        | KerOp::TupOf
        | KerOp::Item(_)
        | KerOp::RecOf(_)
        | KerOp::FieldOf(_)
        | KerOp::SeqOf
        | KerOp::Length
        | KerOp::Push
        | KerOp::First
        | KerOp::Rest
        | KerOp::Slice
        | KerOp::Glue
        | KerOp::RecForm(_)
        | KerOp::TupForm => Setting::Level,
    }
}

/// How many of the children are operands: the further two of a range are its bounds, which are not evaluated.
pub(crate) fn operand_count(e: &Ker) -> usize
    ensures within { result ≤ length (out-Ker e.now).args }
    ensures operands { take result (out-Ker e.now).args ≡ operands e.now }
{
    let count = e.args.len();
    match &e.op {
        KerOp::Range if 2 < count => 2,
        _ => count,
    }
}

/// The child at a place, from 0.
pub(crate) fn child(es: &[Ker], place: usize) -> &Ker
    requires { place < length es.now }
    ensures child { result.now ≡ slice_index_or es.now place result.now }
    ensures deep { (f : AnyKer → ℕ) → f result.now ≤ most f es.now }
{
    &es[place]
}
