// Shapes of types within bounds.
ghost use Rattle.std.specs.Prelude.{◌≡◌, IfOk, map};
ghost use Rattle.kernel_shapes.specs.Codes.{mean};
ghost use Rattle.shape_bounds.specs.inner.TypedStart.{AreOfTypes, IsOfType};

use crate::making::{function, sequence, set};
use crate::records::record;
use kernel_shapes::{Bounds, Shape};
use snowcat_rows::Ty;
use std::alloc::{AllocError, Global};
use tla_values::{List, Text, copy_text};

// The shape of a type, with the least and the greatest number and the size in each place. No name of a sound tree has a
// type with a variable, or that of an operator.
#[cycle(types)]
pub(crate) fn type_shape(alloc: Global, t: &Ty, bounds: Bounds) -> Result<Shape, AllocError>
    ensures { IfOk result (λ r. IsOfType bounds t.now (mean r)) }
{
    let size = u64::from(bounds.size);
    match t {
        Ty::Bool => Ok(Shape::Atom),
        Ty::Int => Ok(Shape::Num(bounds.low, bounds.high)),
        Ty::Str => Ok(Shape::Atom),
        Ty::Named(_) => Ok(Shape::Atom),
        Ty::Var(_) => Err(AllocError),
        Ty::Set(a) => {
            let member = type_shape(alloc, a.get(), bounds)?;
            let shape = set(alloc, size, member)?;
            Ok(shape)
        }
        Ty::Seq(a) => {
            let item = type_shape(alloc, a.get(), bounds)?;
            let shape = sequence(alloc, size, item)?;
            Ok(shape)
        }
        Ty::Fun(a, b) => {
            let argument = type_shape(alloc, a.get(), bounds)?;
            let value = type_shape(alloc, b.get(), bounds)?;
            let shape = function(alloc, size, argument, value)?;
            Ok(shape)
        }
        Ty::Tup(ts) => {
            let items = type_shapes(alloc, ts.as_slice(), bounds)?;
            Ok(Shape::Tup(List::from_vec(items)))
        }
        Ty::Rec(fields, rest) => match rest {
            Some(_) => Err(AllocError),
            None => {
                let values = field_shapes(alloc, fields.as_slice(), bounds)?;
                let names = field_names(alloc, fields.as_slice())?;
                let shape = record(alloc, names.as_slice(), values.as_slice())?;
                Ok(shape)
            }
        },
        Ty::Oper(_, _) => Err(AllocError),
    }
}

#[cycle(types)]
fn type_shapes(alloc: Global, ts: &[Ty], bounds: Bounds) -> Result<Vec<Shape>, AllocError>
    ensures { IfOk result (λ r. AreOfTypes bounds ts.now (map mean r.items)) }
{
    let mut shapes = Vec::new(alloc);
    for i in 0..ts.len() {
        let shape = type_shape(alloc, &ts[i], bounds)?;
        shapes.push(shape)?;
    }
    Ok(shapes)
}

#[cycle(types)]
fn field_shapes(
    alloc: Global,
    fields: &[(Text, Ty)],
    bounds: Bounds,
) -> Result<Vec<Shape>, AllocError>
    ensures { IfOk result (λ r. AreOfTypes bounds (map (λ f. f.1) fields.now) (map mean r.items)) }
{
    let mut shapes = Vec::new(alloc);
    for i in 0..fields.len() {
        let field = &fields[i];
        let shape = type_shape(alloc, &field.1, bounds)?;
        shapes.push(shape)?;
    }
    Ok(shapes)
}

fn field_names(alloc: Global, fields: &[(Text, Ty)]) -> Result<Vec<Text>, AllocError>
    ensures { IfOk result (λ r. r.items ≡ map (λ f. f.0) fields.now) }
{
    let mut names = Vec::new(alloc);
    for field in fields {
        let name = copy_text(alloc, &field.0)?;
        names.push(name)?;
    }
    Ok(names)
}
