// Shapes made of others.
ghost use Rattle.std.specs.Prelude.{◌≡◌, IfOk};
ghost use Rattle.kernel_shapes.specs.Codes.{mean};
ghost use Rattle.kernel_shapes.specs.Shape.{Fun, Seq, Set};

use kernel_shapes::Shape;
use std::alloc::{AllocError, Global};
use tla_values::Boxed;

pub(crate) fn set(alloc: Global, members: u64, member: Shape) -> Result<Shape, AllocError>
    ensures { IfOk result (λ r. mean r ≡ Set members (mean member)) }
{
    Ok(Shape::Set(members, Boxed::new(alloc, member)?))
}

pub(crate) fn function(
    alloc: Global,
    arguments: u64,
    argument: Shape,
    value: Shape,
) -> Result<Shape, AllocError>
    ensures { IfOk result (λ r. mean r ≡ Fun arguments (mean argument) (mean value)) }
{
    let argument = Boxed::new(alloc, argument)?;
    Ok(Shape::Fun(arguments, argument, Boxed::new(alloc, value)?))
}

pub(crate) fn sequence(alloc: Global, places: u64, item: Shape) -> Result<Shape, AllocError>
    ensures { IfOk result (λ r. mean r ≡ Seq places (mean item)) }
{
    Ok(Shape::Seq(places, Boxed::new(alloc, item)?))
}
