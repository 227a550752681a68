// The level of a typed state.
ghost use Rattle.std.specs.Prelude.{IfOk};
ghost use Rattle.kernel_shapes.specs.Systems.{system_parts};
ghost use Rattle.shape_bounds.specs.inner.TypedStart.{AreTypedNames, IsTypedName, StartsTyped};
ghost use Rattle.shape_bounds.specs.Kept.{IsWidth};

use crate::levels::Level;
use crate::starting::{before_start, constants_level};
use crate::type_shapes::type_shape;
use kernel_shapes::{Bounds, Shape, copy_shape};
use kernel_trees::{KerJob, System};
use snowcat_rows::Ty;
use std::alloc::{AllocError, Global};
use tla_values::List;

// The level of a state of which nothing is known but the types of its names and the bounds of their values.
pub(crate) fn typed_level(
    alloc: Global,
    system: &System,
    bounds: Bounds,
    width: u32,
) -> Result<Level, AllocError>
    requires sized { IsWidth width }
    ensures { IfOk result (λ r.
        StartsTyped bounds system.now.ker.names (system_parts width system.now) r) }
{
    let constants = constants_level(alloc, system, width)?;
    let names = before_start(alloc, system, &constants, width)?;
    let shapes = typed_names(alloc, &system.ker, constants.shapes.as_slice(), bounds)?;
    Ok(Level {
        shapes,
        first: names.first,
    })
}

// A constant has its shape, and a variable that of its type.
fn typed_names(
    alloc: Global,
    job: &KerJob,
    constants: &[Shape],
    bounds: Bounds,
) -> Result<List<Shape>, AllocError>
    ensures { IfOk result (λ r.
        AreTypedNames bounds job.now.fixed constants.now job.now.names r) }
{
    let fixed = job.fixed.as_slice();
    let types = job.names.as_slice();
    if fixed.len() != constants.len() || fixed.len() != types.len() {
        return Err(AllocError);
    }
    let mut shapes = Vec::new(alloc);
    for i in 0..fixed.len() {
        let shape = typed_name(alloc, fixed[i], &constants[i], &types[i], bounds)?;
        shapes.push(shape)?;
    }
    Ok(List::from_vec(shapes))
}

fn typed_name(
    alloc: Global,
    fixed: bool,
    constant: &Shape,
    t: &Ty,
    bounds: Bounds,
) -> Result<Shape, AllocError>
    ensures { IfOk result (λ r. IsTypedName bounds fixed constant.now t.now r) }
{
    if fixed {
        let copy = copy_shape(alloc, constant)?;
        Ok(copy)
    } else {
        let shape = type_shape(alloc, t, bounds)?;
        Ok(shape)
    }
}
