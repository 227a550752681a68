// Names as a level begins with them, and what a level gives.
ghost use Rattle.std.specs.Prelude.{None, Some, ◌≡◌, IfOk, if◌then◌else◌, map, option_map};
ghost use Rattle.kernel_shapes.specs.Codes.{mean};
ghost use Rattle.kernel_shapes.specs.Levels.{kept_constants};
ghost use Rattle.kernel_shapes.specs.Systems.{system_parts};
ghost use Rattle.shape_bounds.specs.Extents.{given_shape, given_shapes};
ghost use Rattle.shape_bounds.specs.inner.Stage.{ConstantsAre, IsBefore, IsFirstAt, IsNamed, StartsAt, StepsTo};
ghost use Rattle.shape_bounds.specs.inner.Walks.{some_shapes};
ghost use Rattle.shape_bounds.specs.Kept.{IsWidth};

use crate::levels::Level;
use crate::limits::Excess;
use crate::names::{Names, Site};
use crate::paths::Target;
use kernel_shapes::{Shape, copy_shape};
use kernel_trees::System;
use std::alloc::{AllocError, Global};

// The level before the first step of a system.
pub(crate) fn start_level(alloc: Global, system: &System, width: u32) -> Result<Level, AllocError>
    requires sized { IsWidth width }
    ensures { IfOk result (λ r. StartsAt (system_parts width system.now) r) }
{
    let constants = constants_level(alloc, system, width)?;
    let names = before_start(alloc, system, &constants, width)?;
    let start = names.over_paths(system.start.as_slice(), Target::State)?;
    Ok(start)
}

// The level of the constants, behind CInit.
pub(crate) fn constants_level(
    alloc: Global,
    system: &System,
    width: u32,
) -> Result<Level, AllocError>
    requires sized { IsWidth width }
    ensures { IfOk result (λ r. ConstantsAre (system_parts width system.now) r) }
{
    let names = no_names(alloc, system.ker.fixed.as_slice(), width)?;
    let constants = names.over_paths(system.constants.as_slice(), Target::State)?;
    Ok(constants)
}

// The names before Init, where the assumption was looked at behind CInit.
pub(crate) fn before_start(
    alloc: Global,
    system: &System,
    constants: &Level,
    width: u32,
) -> Result<Names, AllocError>
    requires sized { IsWidth width }
    ensures { IfOk result (λ r. IsBefore (system_parts width system.now) width constants.now r) }
{
    let fixed = system.ker.fixed.as_slice();
    let mut names = the_constants(alloc, fixed, constants.shapes.as_slice(), width)?;
    names.first = constants.first;
    names.size(&system.ker.assume, Site::Walked)?;
    Ok(names)
}

// The level behind one of these shapes.
pub(crate) fn next_level(
    alloc: Global,
    system: &System,
    shapes: &[Shape],
    width: u32,
) -> Result<Level, AllocError>
    requires sized { IsWidth width }
    ensures { IfOk result (λ r. StepsTo (system_parts width system.now) shapes.now r) }
{
    let names = from_state(alloc, system.ker.fixed.as_slice(), shapes, width)?;
    let level = names.over_paths(system.next.as_slice(), Target::Next)?;
    Ok(level)
}

// What comes first of a level's numbers, with those of the invariants at its shapes.
pub(crate) fn first_at(
    alloc: Global,
    system: &System,
    level: &Level,
    width: u32,
) -> Result<Option<Excess>, AllocError>
    requires sized { IsWidth width }
    ensures { IfOk result (λ r. IsFirstAt (system_parts width system.now) level.now r) }
{
    let mut names = at_state(alloc, level.shapes.as_slice(), width)?;
    names.first = level.first;
    let invariants = system.ker.invs.as_slice();
    names.sizes(invariants, invariants.len(), Site::Walked)?;
    Ok(names.first)
}

// Before CInit no name has a shape.
fn no_names(alloc: Global, fixed: &[bool], width: u32) -> Result<Names, AllocError>
    ensures { IfOk result (λ r. IsNamed r width (map (λ b. None) fixed.now)
        (map (λ b. None) fixed.now)) }
{
    let state = none_each(alloc, fixed)?;
    let next = none_each(alloc, fixed)?;
    Ok(Names::new(alloc, width, state, next))
}

// Before Init the constants have one.
fn the_constants(
    alloc: Global,
    fixed: &[bool],
    shapes: &[Shape],
    width: u32,
) -> Result<Names, AllocError>
    ensures { IfOk result (λ r. IsNamed r width (kept_constants fixed.now (map mean shapes.now))
        (kept_constants fixed.now (map mean shapes.now))) }
{
    let state = constants_each(alloc, fixed, shapes)?;
    let next = constants_each(alloc, fixed, shapes)?;
    Ok(Names::new(alloc, width, state, next))
}

// Before a step all have one in the state, and the constants in the next.
fn from_state(
    alloc: Global,
    fixed: &[bool],
    shapes: &[Shape],
    width: u32,
) -> Result<Names, AllocError>
    ensures { IfOk result (λ r. IsNamed r width (map (λ a. Some a) (map mean shapes.now))
        (kept_constants fixed.now (map mean shapes.now))) }
{
    let state = some_each(alloc, shapes)?;
    let next = constants_each(alloc, fixed, shapes)?;
    Ok(Names::new(alloc, width, state, next))
}

// Each name has a shape, in the state and in the next one.
fn at_state(alloc: Global, shapes: &[Shape], width: u32) -> Result<Names, AllocError>
    ensures { IfOk result (λ r. IsNamed r width (map (λ a. Some a) (map mean shapes.now))
        (map (λ a. Some a) (map mean shapes.now))) }
{
    let state = some_each(alloc, shapes)?;
    let after = some_each(alloc, shapes)?;
    Ok(Names::new(alloc, width, state, after))
}

// Names have these shapes in the state and in the next one; a name of Empty has none.
pub(crate) fn names_with(
    alloc: Global,
    now: &[Shape],
    next: &[Shape],
    width: u32,
) -> Result<Names, AllocError>
    ensures { IfOk result (λ r. IsNamed r width (given_shapes now.now) (given_shapes next.now)) }
{
    let state = given_each(alloc, now)?;
    let after = given_each(alloc, next)?;
    Ok(Names::new(alloc, width, state, after))
}

fn none_each(alloc: Global, fixed: &[bool]) -> Result<Vec<Option<Shape>>, AllocError>
    ensures { IfOk result (λ r. some_shapes r.items ≡ map (λ b. None) fixed.now) }
{
    let mut names = Vec::new(alloc);
    for _ in 0..fixed.len() {
        names.push(None)?;
    }
    Ok(names)
}

fn some_each(alloc: Global, shapes: &[Shape]) -> Result<Vec<Option<Shape>>, AllocError>
    ensures { IfOk result (λ r. some_shapes r.items ≡ map (λ a. Some a) (map mean shapes.now)) }
{
    let mut names = Vec::new(alloc);
    for i in 0..shapes.len() {
        let shape = copy_shape(alloc, &shapes[i])?;
        names.push(Some(shape))?;
    }
    Ok(names)
}

fn given_each(alloc: Global, shapes: &[Shape]) -> Result<Vec<Option<Shape>>, AllocError>
    ensures { IfOk result (λ r. some_shapes r.items ≡ given_shapes shapes.now) }
{
    let mut names = Vec::new(alloc);
    for i in 0..shapes.len() {
        let name = given(alloc, &shapes[i])?;
        names.push(name)?;
    }
    Ok(names)
}

// Empty stands for no shape.
fn given(alloc: Global, shape: &Shape) -> Result<Option<Shape>, AllocError>
    ensures { IfOk result (λ r. option_map mean r ≡ given_shape (mean shape.now)) }
{
    match shape {
        Shape::Empty => Ok(None),
        Shape::Atom | Shape::Num(..) | Shape::Set(..) | Shape::Fun(..) => some_copy(alloc, shape),
        Shape::Seq(..) | Shape::Rec(_) | Shape::Tup(_) => some_copy(alloc, shape),
    }
}

fn some_copy(alloc: Global, shape: &Shape) -> Result<Option<Shape>, AllocError>
    ensures { IfOk result (λ r. option_map mean r ≡ Some (mean shape.now)) }
{
    let copy = copy_shape(alloc, shape)?;
    Ok(Some(copy))
}

fn constants_each(
    alloc: Global,
    fixed: &[bool],
    shapes: &[Shape],
) -> Result<Vec<Option<Shape>>, AllocError>
    ensures { IfOk result (λ r. some_shapes r.items
        ≡ kept_constants fixed.now (map mean shapes.now)) }
{
    if fixed.len() != shapes.len() {
        return Err(AllocError);
    }
    let mut names = Vec::new(alloc);
    for i in 0..fixed.len() {
        let name = constant_name(alloc, fixed[i], &shapes[i])?;
        names.push(name)?;
    }
    Ok(names)
}

fn constant_name(alloc: Global, fixed: bool, shape: &Shape) -> Result<Option<Shape>, AllocError>
    ensures { IfOk result (λ r. option_map mean r
        ≡ (if fixed then Some (mean shape.now) else None)) }
{
    if fixed {
        let copy = copy_shape(alloc, shape)?;
        Ok(Some(copy))
    } else {
        Ok(None)
    }
}
