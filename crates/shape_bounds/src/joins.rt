// Joins of shapes.
ghost use Rattle.std.specs.Prelude.{◌≡◌, IfOk, map};
ghost use Rattle.kernel_shapes.specs.Codes.{mean};
ghost use Rattle.kernel_shapes.specs.Shape.{Num, join, join_all};
ghost use Rattle.shape_bounds.specs.Kept.{part};
ghost use Rattle.shape_bounds.specs.inner.Joined.{IsJoined, joined_each};

use crate::intervals::ends;
use crate::making::{function, sequence, set};
use crate::parts::copy_part;
use kernel_shapes::{Shape, copy_shape};
use std::alloc::{AllocError, Global};
use tla_values::{List, Text, copy_text};

type Field = (Text, Shape);

// The shape of what is of either.
#[cycle(join)]
pub(crate) fn join(alloc: Global, a: &Shape, b: &Shape) -> Result<Shape, AllocError>
    ensures { IfOk result (λ r. mean r ≡ join (mean a.now) (mean b.now)) }
{
    match a {
        Shape::Empty => copy_shape(alloc, b),
        Shape::Atom => Ok(Shape::Atom),
        Shape::Num(low, high) => join_numbers(*low, *high, b),
        Shape::Set(n, x) => match b {
            Shape::Set(m, y) => set(alloc, (*n).max(*m), join(alloc, x.get(), y.get())?),
            Shape::Atom | Shape::Num(..) | Shape::Fun(..) | Shape::Seq(..) => copy_shape(alloc, a),
            Shape::Rec(_) | Shape::Tup(_) | Shape::Empty => copy_shape(alloc, a),
        },
        Shape::Fun(n, x, r) => match b {
            Shape::Fun(m, y, s) => {
                let argument = join(alloc, x.get(), y.get())?;
                let value = join(alloc, r.get(), s.get())?;
                function(alloc, (*n).max(*m), argument, value)
            }
            Shape::Atom | Shape::Num(..) | Shape::Set(..) | Shape::Seq(..) => copy_shape(alloc, a),
            Shape::Rec(_) | Shape::Tup(_) | Shape::Empty => copy_shape(alloc, a),
        },
        Shape::Seq(n, x) => match b {
            Shape::Seq(m, y) => sequence(alloc, (*n).max(*m), join(alloc, x.get(), y.get())?),
            Shape::Atom | Shape::Num(..) | Shape::Set(..) | Shape::Fun(..) => copy_shape(alloc, a),
            Shape::Rec(_) | Shape::Tup(_) | Shape::Empty => copy_shape(alloc, a),
        },
        Shape::Rec(xs) => match b {
            Shape::Rec(ys) => {
                let fields = join_fields(alloc, xs.as_slice(), ys.as_slice())?;
                Ok(Shape::Rec(fields))
            }
            Shape::Atom | Shape::Num(..) | Shape::Set(..) | Shape::Fun(..) => copy_shape(alloc, a),
            Shape::Seq(..) | Shape::Tup(_) | Shape::Empty => copy_shape(alloc, a),
        },
        Shape::Tup(xs) => match b {
            Shape::Tup(ys) => {
                let items = join_items(alloc, xs.as_slice(), ys.as_slice())?;
                Ok(Shape::Tup(items))
            }
            Shape::Atom | Shape::Num(..) | Shape::Set(..) | Shape::Fun(..) => copy_shape(alloc, a),
            Shape::Seq(..) | Shape::Rec(_) | Shape::Empty => copy_shape(alloc, a),
        },
    }
}

// The hull of an interval and of another, if the shape is one.
fn join_numbers(low: i128, high: i128, b: &Shape) -> Result<Shape, AllocError>
    ensures { IfOk result (λ r. mean r ≡ join (Num low high) (mean b.now)) }
{
    match ends(b) {
        Some((c, d)) => Ok(Shape::Num(low.min(c), high.max(d))),
        None => Ok(Shape::Num(low, high)),
    }
}

#[cycle(join)]
pub(crate) fn join_items(
    alloc: Global,
    xs: &[Shape],
    ys: &[Shape],
) -> Result<List<Shape>, AllocError>
    ensures { IfOk result (λ r. map mean r ≡ joined_each (map mean xs.now) (map mean ys.now)) }
{
    let mut items = Vec::new(alloc);
    for i in 0..xs.len() {
        if i < ys.len() {
            let item = join(alloc, &xs[i], &ys[i])?;
            items.push(item)?;
        } else {
            let item = copy_shape(alloc, &xs[i])?;
            items.push(item)?;
        }
    }
    Ok(List::from_vec(items))
}

// The fields of the first.
#[cycle(join)]
fn join_fields(alloc: Global, xs: &[Field], ys: &[Field]) -> Result<List<Field>, AllocError>
    ensures { IfOk result (λ r. IsJoined xs.now ys.now r) }
{
    let mut fields = Vec::new(alloc);
    for i in 0..xs.len() {
        let name = copy_text(alloc, &xs[i].0)?;
        if i < ys.len() {
            let item = join(alloc, &xs[i].1, &ys[i].1)?;
            fields.push((name, item))?;
        } else {
            let item = copy_shape(alloc, &xs[i].1)?;
            fields.push((name, item))?;
        }
    }
    Ok(List::from_vec(fields))
}

// The same of shapes that may be missing, as Empty is.
pub(crate) fn join_parts(
    alloc: Global,
    a: Option<&Shape>,
    b: Option<&Shape>,
) -> Result<Shape, AllocError>
    ensures { IfOk result (λ r. mean r ≡ join (part a.entry) (part b.entry)) }
{
    match (a, b) {
        (Some(a), Some(b)) => join(alloc, a, b),
        (Some(a), None) => copy_shape(alloc, a),
        (None, b) => copy_part(alloc, b),
    }
}

// Of all: the join of the first with that of the others.
pub(crate) fn join_all(alloc: Global, shapes: &[Shape]) -> Result<Shape, AllocError>
    ensures { IfOk result (λ r. mean r ≡ join_all (map mean shapes.now)) }
{
    let mut whole = Shape::Empty;
    for i in (0..shapes.len()).rev() {
        whole = join(alloc, &shapes[i], &whole)?;
    }
    Ok(whole)
}
