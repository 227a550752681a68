// Shapes, the shapes of levels, and bounds; copies of shapes.
ghost use Rattle.std.specs.Prelude.{◌≡◌, IfOk};

use std::alloc::{AllocError, Global};
use tla_values::{Boxed, List, Text, copy_text};

/// What bounds the sizes and the integers of values. A number of members, arguments or places stands first.
#[derive(Drop)]
pub enum Shape {
    /// Of truth values and texts.
    Atom,
    /// Of the integers from the first to the second.
    Num(i128, i128),
    /// Of sets of at most so many members.
    Set(u64, Boxed<Shape>),
    /// Of functions of at most so many arguments; their shape and that of the results.
    Fun(u64, Boxed<Shape>, Boxed<Shape>),
    /// Of records with just these fields, in the order of their bytes.
    Rec(List<(Text, Shape)>),
    /// Of tuples with just these items.
    Tup(List<Shape>),
    /// Of sequences of at most so many places.
    Seq(u64, Boxed<Shape>),
    /// Of no value.
    Empty,
}

/// For each level a shape for each name.
#[derive(Drop)]
pub struct Shapes {
    pub levels: List<List<Shape>>,
}

/// The integers from `low` to `high`, and sets, functions and sequences of at most `size` members, arguments or places.
#[derive(Clone, Copy, Debug, Drop, PartialEq, Eq)]
pub struct Bounds {
    pub low: i128,
    pub high: i128,
    pub size: u32,
}

/// An equal shape.
#[cycle(copy)]
pub fn copy_shape(alloc: Global, shape: &Shape) -> Result<Shape, AllocError>
    ensures { IfOk result (λ r. r ≡ shape.now) }
{
    match shape {
        Shape::Atom => Ok(Shape::Atom),
        Shape::Num(low, high) => Ok(Shape::Num(*low, *high)),
        Shape::Set(n, a) => {
            let member = copy_shape(alloc, a.get())?;
            Ok(Shape::Set(*n, Boxed::new(alloc, member)?))
        }
        Shape::Fun(n, a, b) => {
            let argument = copy_shape(alloc, a.get())?;
            let value = copy_shape(alloc, b.get())?;
            Ok(Shape::Fun(*n, Boxed::new(alloc, argument)?, Boxed::new(alloc, value)?))
        }
        Shape::Rec(fs) => {
            let fields = copy_fields(alloc, fs.as_slice())?;
            Ok(Shape::Rec(fields))
        }
        Shape::Tup(items) => {
            let items = copy_items(alloc, items.as_slice())?;
            Ok(Shape::Tup(items))
        }
        Shape::Seq(n, a) => {
            let item = copy_shape(alloc, a.get())?;
            Ok(Shape::Seq(*n, Boxed::new(alloc, item)?))
        }
        Shape::Empty => Ok(Shape::Empty),
    }
}

#[cycle(copy)]
fn copy_items(alloc: Global, shapes: &[Shape]) -> Result<List<Shape>, AllocError>
    ensures { IfOk result (λ r. r ≡ shapes.now) }
{
    let mut items = Vec::new(alloc);
    for shape in shapes {
        let item = copy_shape(alloc, shape)?;
        items.push(item)?;
    }
    Ok(List::from_vec(items))
}

#[cycle(copy)]
fn copy_fields(alloc: Global, fields: &[(Text, Shape)]) -> Result<List<(Text, Shape)>, AllocError>
    ensures { IfOk result (λ r. r ≡ fields.now) }
{
    let mut items = Vec::new(alloc);
    for field in fields {
        let name = copy_text(alloc, &field.0)?;
        let item = copy_shape(alloc, &field.1)?;
        items.push((name, item))?;
    }
    Ok(List::from_vec(items))
}
