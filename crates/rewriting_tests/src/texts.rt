//! Whether the texts of a tree are among given ones.

ghost use Rattle.expr_rewriter.specs.Rewriting.{own_texts, texts_in};
ghost use Rattle.rewriting_tests.specs.inner.Among.{AreAmong, AreFieldsAmong, AreTypesAmong, IsTypeAmong};
ghost use Rattle.std.specs.Prelude.{IsTrue, map};
ghost use Rattle.typed_cells.specs.Known.{IsTextAmong};

use function_rewriter::index_of;
use kernel_trees::{Ker, KerOp};
use snowcat_rows::Ty;
use tla_values::{Text, Value};

/// Whether the text is one of these.
pub fn is_text_among(text: &Text, texts: &[Text]) -> bool
    ensures { IsTrue result → IsTextAmong texts.now text.now }
{
    index_of(texts, text).is_some()
}

// Whether each field name in the type is one of these.
#[cycle(types)]
fn is_type_among(ty: &Ty, texts: &[Text]) -> bool
    ensures { IsTrue result → IsTypeAmong texts.now ty.now }
{
    match ty {
        Ty::Bool => true,
        Ty::Int => true,
        Ty::Str => true,
        Ty::Named(_) => true,
        Ty::Set(a) => is_type_among(a.get(), texts),
        Ty::Seq(a) => is_type_among(a.get(), texts),
        Ty::Fun(a, b) => is_type_among(a.get(), texts) && is_type_among(b.get(), texts),
        Ty::Tup(types) => are_types_among(types.as_slice(), texts),
        Ty::Rec(fields, rest) => match rest {
            Some(_) => false,
            None => {
                let list = fields.as_slice();
                are_fields_among(list, texts)
            }
        },
        _ => false,
    }
}

#[cycle(types)]
fn are_types_among(types: &[Ty], texts: &[Text]) -> bool
    ensures { IsTrue result → AreTypesAmong texts.now types.now }
{
    for i in 0..types.len() {
        if !is_type_among(&types[i], texts) {
            return false;
        }
    }
    true
}

#[cycle(types)]
fn are_fields_among(fields: &[(Text, Ty)], texts: &[Text]) -> bool
    ensures { IsTrue result → AreFieldsAmong texts.now fields.now }
{
    for i in 0..fields.len() {
        let field = &fields[i];
        if !is_text_among(&field.0, texts) || !is_type_among(&field.1, texts) {
            return false;
        }
    }
    true
}

// Whether the operator is no text constant but of one of these.
fn is_op_among(op: &KerOp, texts: &[Text]) -> bool
    ensures { IsTrue result → AreAmong texts.now (own_texts op.now) }
{
    match op {
        KerOp::Const(Value::Bool(_)) => true,
        KerOp::Const(Value::Int(_)) => true,
        KerOp::Const(Value::Text(text)) => is_text_among(text, texts),
        KerOp::Const(_) => false,
        _ => true,
    }
}

/// Whether each text constant of the tree, and each field name in its types, is one of these.
pub fn is_tree_among(k: &Ker, texts: &[Text]) -> bool
    ensures { IsTrue result → AreAmong texts.now (texts_in k.now) }
{
    if !is_op_among(&k.op, texts) || !is_type_among(&k.ty, texts) {
        return false;
    }
    let args = k.args.as_slice();
    for i in 0..args.len() {
        if !is_tree_among(&args[i], texts) {
            return false;
        }
    }
    true
}
