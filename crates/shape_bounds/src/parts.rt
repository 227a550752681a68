// Parts of shapes, and numbers of members, arguments and places.
ghost use Rattle.std.specs.Prelude.{[], ◌∷◌, ◌≡◌, IfOk, map};
ghost use Rattle.kernel_shapes.specs.Codes.{mean};
ghost use Rattle.kernel_shapes.specs.Rows.{applied_at, number};
ghost use Rattle.kernel_shapes.specs.Shape.{Tup, count, field, inside, shapes};
ghost use Rattle.shape_bounds.specs.Kept.{given, kept, part};
ghost use Rattle.shape_bounds.specs.inner.Table.{literal};

use kernel_shapes::{Shape, copy_shape};
use std::alloc::{AllocError, Global};
use tla_values::{Text, same_text};

/// An index that is written out.
#[derive(Clone, Copy, Drop)]
pub enum Literal<'a> {
    None,
    Number(i128),
    Text(&'a Text),
}

// How many members, arguments, places, items or fields.
pub(crate) fn count(a: &Shape) -> u64
    ensures { result ≡ kept (count (mean a.now)) }
{
    match a {
        Shape::Set(n, _) | Shape::Fun(n, _, _) | Shape::Seq(n, _) => *n,
        Shape::Tup(items) => items.len() as u64,
        Shape::Rec(fields) => fields.len() as u64,
        Shape::Atom | Shape::Num(..) | Shape::Empty => 0,
    }
}

/// The shape of members, arguments or places; none is Empty.
pub fn inside(a: &Shape) -> Option<&Shape>
    ensures { part result ≡ inside (mean a.now) }
{
    match a {
        Shape::Set(_, member) => Some(member.get()),
        Shape::Fun(_, argument, _) => Some(argument.get()),
        Shape::Seq(_, item) => Some(item.get()),
        Shape::Atom | Shape::Num(..) | Shape::Rec(_) | Shape::Tup(_) | Shape::Empty => None,
    }
}

// The shape of what a function or a sequence gives; none is Empty.
pub(crate) fn result_of(a: &Shape) -> Option<&Shape>
    ensures { part result ≡ given (mean a.now) }
{
    match a {
        Shape::Fun(_, _, value) => Some(value.get()),
        Shape::Seq(_, item) => Some(item.get()),
        Shape::Atom | Shape::Num(..) | Shape::Set(..) => None,
        Shape::Rec(_) | Shape::Tup(_) | Shape::Empty => None,
    }
}

/// A copy of a shape; none is Empty.
pub fn copy_part(alloc: Global, a: Option<&Shape>) -> Result<Shape, AllocError>
    ensures { IfOk result (λ r. mean r ≡ part a.entry) }
{
    match a {
        Some(a) => copy_shape(alloc, a),
        None => Ok(Shape::Empty),
    }
}

// A copy of a shape and one of another; none is Empty.
pub(crate) fn pair(alloc: Global, a: &Shape, b: Option<&Shape>) -> Result<Vec<Shape>, AllocError>
    ensures { IfOk result (λ r. map mean r.items ≡ mean a.now ∷ part b.entry ∷ []) }
{
    let first = copy_shape(alloc, a)?;
    let second = copy_part(alloc, b)?;
    let mut both = Vec::new(alloc);
    both.push(first)?;
    both.push(second)?;
    Ok(both)
}

// The shape of the value at an index; none is Empty.
pub(crate) fn applied<'a>(a: &'a Shape, index: Literal) -> Option<&'a Shape>
    ensures { part result ≡ applied_at (mean a.now) (literal index.entry) }
{
    match a {
        Shape::Tup(items) => match index {
            Literal::Number(n) => item_at(items.as_slice(), n),
            Literal::None | Literal::Text(_) => None,
        },
        Shape::Rec(fields) => match index {
            Literal::Text(x) => field_at(fields.as_slice(), x),
            Literal::None | Literal::Number(_) => None,
        },
        Shape::Atom | Shape::Num(..) | Shape::Set(..) => None,
        Shape::Fun(..) | Shape::Seq(..) | Shape::Empty => result_of(a),
    }
}

// The item of a tuple at a number from 1.
fn item_at(items: &[Shape], n: i128) -> Option<&Shape>
    ensures { part result ≡ applied_at (Tup (shapes (map mean items.now))) (number n) }
{
    if n < 1 || n > items.len() as i128 {
        return None;
    }
    Some(&items[n.unsigned_abs() as usize - 1])
}

// The field of a record by its name.
fn field_at<'a>(fields: &'a [(Text, Shape)], x: &Text) -> Option<&'a Shape>
    ensures { part result
        ≡ field x.now (map (λ f. f.0) fields.now) (shapes (map (λ f. mean f.1) fields.now)) }
{
    for field in fields {
        if same_text(x, &field.0) {
            return Some(&field.1);
        }
    }
    None
}
