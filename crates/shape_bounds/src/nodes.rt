// What single nodes of the kernel are.
ghost use Rattle.std.specs.Prelude.{ℕ, [], ◌++◌, ◌∷◌, ◌≡◌, IfOk, length, map};
ghost use Rattle.std.specs.Bool.{IsTrue};
ghost use Rattle.tla_values.specs.declared.value.Value.{out-Value};
ghost use Rattle.kernel_shapes.specs.Codes.{mean};
ghost use Rattle.kernel_shapes.specs.Rows.{a_part, argument_of, insides, no_literal};
ghost use Rattle.kernel_shapes.specs.Shape.{Shape as Meaning, Tup, shapes};
ghost use Rattle.shape_bounds.specs.Kept.{IsWidth};
ghost use Rattle.shape_bounds.specs.inner.Nodes.{binder_row, constant_shape, is_literal};
ghost use Rattle.shape_bounds.specs.inner.Plain.{is_plain};
ghost use Rattle.shape_bounds.specs.inner.Table.{literal, row_kept};

use crate::intervals::interval;
use crate::making::{function, set};
use crate::parts::{Literal, copy_part, count, inside};
use crate::records::{insides, product_of};
use kernel_shapes::Shape;
use kernel_trees::{Ker, KerOp};
use std::alloc::{AllocError, Global};
use tla_values::{List, Value};

// Whether an operator walks all its children and has its row by itself.
pub(crate) fn is_plain(op: &KerOp) -> bool
    ensures { IsTrue result → IsTrue (is_plain op.now) }
{
    match op {
        KerOp::And | KerOp::Or | KerOp::Not | KerOp::Equal | KerOp::Less | KerOp::If => true,
        KerOp::Plus | KerOp::Minus | KerOp::Times | KerOp::Quotient | KerOp::Remainder => true,
        KerOp::Count | KerOp::Length | KerOp::SetOf | KerOp::Union | KerOp::Inter => true,
        KerOp::Without | KerOp::Flatten | KerOp::At | KerOp::FieldOf(_) | KerOp::First => true,
        KerOp::Join | KerOp::RecOf(_) | KerOp::Push | KerOp::Glue | KerOp::Rest => true,
        KerOp::Slice => true,
        _ => false,
    }
}

// The literal that a tree is.
pub(crate) fn literal_of(k: &Ker) -> Literal
    ensures { literal result ≡ is_literal k.now }
{
    match &k.op {
        KerOp::Const(Value::Int(n)) => Literal::Number(*n),
        KerOp::Const(Value::Text(x)) => Literal::Text(x),
        _ => Literal::None,
    }
}

// A truth value, a number or a text.
pub(crate) fn constant(value: &Value, width: u32) -> Shape
    requires sized { IsWidth width }
    ensures { mean result ≡ constant_shape width (out-Value value.now) }
{
    match value {
        Value::Bool(_) | Value::Text(_) => Shape::Atom,
        Value::Int(n) => interval(*n, *n, width),
        _ => Shape::Empty,
    }
}

// What a binder gives by its sets and its body.
pub(crate) fn binder_shape(
    alloc: Global,
    op: &KerOp,
    sets: &[Shape],
    body: Shape,
) -> Result<Shape, AllocError>
    ensures { IfOk result (λ r. (w : ℕ) → mean r ≡ row_kept w (binder_row op.now (length sets.now))
        no_literal (map mean sets.now ++ mean body ∷ [])) }
{
    match op {
        KerOp::Filter => filtered(alloc, sets),
        KerOp::MapOver => set(alloc, product_of(sets), body),
        KerOp::FunOf => {
            let argument = argument_of(alloc, sets)?;
            function(alloc, product_of(sets), argument, body)
        }
        KerOp::Some | KerOp::Every => Ok(Shape::Atom),
        _ => Err(AllocError),
    }
}

// A part of the first set.
fn filtered(alloc: Global, sets: &[Shape]) -> Result<Shape, AllocError>
    ensures { IfOk result (λ r. (w : ℕ) (b : Meaning) → mean r ≡ row_kept w a_part no_literal (map mean sets.now ++ b ∷ [])) }
{
    match sets {
        [] => Err(AllocError),
        [a, ..] => {
            let member = copy_part(alloc, inside(a))?;
            set(alloc, count(a), member)
        }
    }
}

// An argument, or the tuple of several.
fn argument_of(alloc: Global, sets: &[Shape]) -> Result<Shape, AllocError>
    ensures { IfOk result (λ r. mean r ≡ argument_of (map mean sets.now)) }
{
    match sets {
        [] => tuple_of(alloc, sets),
        [a] => copy_part(alloc, inside(a)),
        [_, _, ..] => tuple_of(alloc, sets),
    }
}

// The tuple of a member of each set.
fn tuple_of(alloc: Global, sets: &[Shape]) -> Result<Shape, AllocError>
    ensures { IfOk result (λ r. mean r ≡ Tup (shapes (insides (map mean sets.now)))) }
{
    let items = insides(alloc, sets)?;
    Ok(Shape::Tup(List::from_vec(items)))
}
