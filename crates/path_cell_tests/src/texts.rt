//! Paths without texts.

ghost use Rattle.expr_rewriter.specs.Rewriting.{own_texts, texts_in, type_texts};
ghost use Rattle.kernel_trees.specs.TypeKinds.{kind_of};
ghost use Rattle.path_cell_tests.specs.Tested.{IsTextlessStep};
ghost use Rattle.std.specs.Prelude.{◌≡◌, All, IsTrue, []};

use kernel_trees::{AssignedStep, Ker, KerOp};
use snowcat_rows::Ty;
use tla_values::Value;

// Whether no record stands in the type, nor a tuple.
fn is_plain(ty: &Ty) -> bool
    ensures { IsTrue result → type_texts (kind_of ty.now) ≡ [] }
{
    match ty {
        Ty::Bool => true,
        Ty::Int => true,
        Ty::Set(a) => is_plain(a.get()),
        Ty::Seq(a) => is_plain(a.get()),
        Ty::Fun(a, b) => is_plain(a.get()) && is_plain(b.get()),
        _ => false,
    }
}

// Whether the operator is no constant, or a truth value or a number.
fn has_no_text(op: &KerOp) -> bool
    ensures { IsTrue result → own_texts op.now ≡ [] }
{
    match op {
        KerOp::Const(Value::Bool(_)) => true,
        KerOp::Const(Value::Int(_)) => true,
        KerOp::Const(_) => false,
        _ => true,
    }
}

// Whether neither a text nor a record or a tuple stands in the tree.
fn is_textless(k: &Ker) -> bool
    ensures { IsTrue result → texts_in k.now ≡ [] }
{
    if !has_no_text(&k.op) || !is_plain(&k.ty) {
        return false;
    }
    let args = k.args.as_slice();
    for i in 0..args.len() {
        if !is_textless(&args[i]) {
            return false;
        }
    }
    true
}

fn are_textless_sets(ps: &[(u32, Ker)]) -> bool
    ensures { IsTrue result → All (λ p. texts_in p.1 ≡ []) ps.now }
{
    ps.iter().all(|p| is_textless(&p.1))
}

fn is_textless_step(step: &AssignedStep) -> bool
    ensures { IsTrue result → IsTextlessStep step.now }
{
    match step {
        AssignedStep::Guard(k, _) => is_textless(k),
        AssignedStep::Pick(ps) => are_textless_sets(ps.as_slice()),
        AssignedStep::Equals(_, k) => is_textless(k),
        AssignedStep::Among(_, k) => is_textless(k),
    }
}

/// Whether neither a text nor a record or a tuple stands in the trees of the steps.
pub(crate) fn are_textless(steps: &[AssignedStep]) -> bool
    ensures { IsTrue result → All IsTextlessStep steps.now }
{
    steps.iter().all(|z| is_textless_step(z))
}
