//! Shapes of what names stand for, and trees with the bounds of their ranges by them.

ghost use Rattle.kernel_shapes.specs.Codes.{mean};
ghost use Rattle.kernel_trees.specs.Systems.{sound_job};
ghost use Rattle.rewriting_tests.specs.Cases.{IsSoundIn};
ghost use Rattle.rewriting_tests.specs.inner.KeptShapes.{AreFieldsKept, AreKept, IsKept};
ghost use Rattle.std.specs.Prelude.{◌≤◌, IfOk, IfSome, IsTrue};

use crate::given::Freedom;
use crate::jobs::{operand, value_set};
use kernel_shapes::Shape;
use kernel_trees::{Ker, KerJob};
use shape_bounds::{shape_of, with_bounds};
use std::alloc::{AllocError, Global};
use tla_values::{Boxed, List, Text, copy_text};

// The greatest number of this width.
fn greatest(width: u32) -> i128 {
    let mut power: i128 = 1;
    for _i in 1..width {
        power = power.wrapping_mul(2);
    }
    power.wrapping_sub(1)
}

// The ends of what is free around known numbers.
fn around(low: i128, high: i128, free: Freedom, width: u32) -> (i128, i128) {
    let top = greatest(width);
    let bottom = top.wrapping_neg().wrapping_sub(1);
    match free {
        Freedom::Nothing => (low, high),
        Freedom::Lowest => {
            let below = low.wrapping_sub(1);
            let above = high.wrapping_add(1);
            (
                if below < bottom { bottom } else { below },
                if above > top { top } else { above },
            )
        }
        Freedom::Results => (bottom, top),
    }
}

// How many members a set has of both values.
fn many(n: u64, free: Freedom) -> u64 {
    match free {
        Freedom::Nothing => n,
        Freedom::Lowest => n.wrapping_mul(2),
        Freedom::Results => n,
    }
}

// Shapes by their forms.
fn atom() -> Shape
    ensures { IsKept result }
{
    Shape::Atom
}

fn of_no_value() -> Shape
    ensures { IsKept result }
{
    Shape::Empty
}

fn numbers(low: i128, high: i128) -> Shape
    ensures { IsKept result }
{
    Shape::Num(low, high)
}

fn sets(alloc: Global, count: u64, member: Shape) -> Result<Shape, AllocError>
    requires { IsKept member }
    ensures { IfOk result IsKept }
{
    let boxed = Boxed::new(alloc, member)?;
    Ok(Shape::Set(count, boxed))
}

fn sequences(alloc: Global, count: u64, item: Shape) -> Result<Shape, AllocError>
    requires { IsKept item }
    ensures { IfOk result IsKept }
{
    let boxed = Boxed::new(alloc, item)?;
    Ok(Shape::Seq(count, boxed))
}

fn functions(alloc: Global, count: u64, argument: Shape, value: Shape) -> Result<Shape, AllocError>
    requires argument { IsKept argument }
    requires value { IsKept value }
    ensures { IfOk result IsKept }
{
    let from = Boxed::new(alloc, argument)?;
    let to = Boxed::new(alloc, value)?;
    Ok(Shape::Fun(count, from, to))
}

fn records(fields: List<(Text, Shape)>) -> Shape
    requires { AreFieldsKept fields }
    ensures { IsKept result }
{
    Shape::Rec(fields)
}

fn tuples(items: List<Shape>) -> Shape
    requires { AreKept items }
    ensures { IsKept result }
{
    Shape::Tup(items)
}

// The shape of what is free around values of a shape.
#[cycle(widened)]
fn widened(alloc: Global, shape: &Shape, free: Freedom, width: u32) -> Result<Shape, AllocError>
    ensures { IfOk result IsKept }
{
    match shape {
        Shape::Atom => Ok(atom()),
        Shape::Num(low, high) => {
            let (bottom, top) = around(*low, *high, free, width);
            Ok(numbers(bottom, top))
        }
        Shape::Set(n, a) => {
            let member = widened(alloc, a.get(), free, width)?;
            let shape = sets(alloc, many(*n, free), member)?;
            Ok(shape)
        }
        Shape::Fun(n, a, b) => {
            let argument = widened(alloc, a.get(), free, width)?;
            let value = widened(alloc, b.get(), free, width)?;
            let shape = functions(alloc, many(*n, free), argument, value)?;
            Ok(shape)
        }
        Shape::Rec(list) => {
            let fields = widened_fields(alloc, list.as_slice(), free, width)?;
            Ok(records(fields))
        }
        Shape::Tup(list) => {
            let items = widened_items(alloc, list.as_slice(), free, width)?;
            Ok(tuples(items))
        }
        Shape::Seq(n, a) => {
            let item = widened(alloc, a.get(), free, width)?;
            let shape = sequences(alloc, *n, item)?;
            Ok(shape)
        }
        Shape::Empty => Ok(of_no_value()),
    }
}

#[cycle(widened)]
fn widened_items(
    alloc: Global,
    shapes: &[Shape],
    free: Freedom,
    width: u32,
) -> Result<List<Shape>, AllocError>
    ensures { IfOk result AreKept }
{
    let mut items = Vec::new(alloc);
    for i in 0..shapes.len() {
        let item = widened(alloc, &shapes[i], free, width)?;
        items.push(item)?;
    }
    Ok(List::from_vec(items))
}

#[cycle(widened)]
fn widened_fields(
    alloc: Global,
    fields: &[(Text, Shape)],
    free: Freedom,
    width: u32,
) -> Result<List<(Text, Shape)>, AllocError>
    ensures { IfOk result AreFieldsKept }
{
    let mut items = Vec::new(alloc);
    for i in 0..fields.len() {
        let field = &fields[i];
        let name = copy_text(alloc, &field.0)?;
        let item = widened(alloc, &field.1, free, width)?;
        items.push((name, item))?;
    }
    Ok(List::from_vec(items))
}

// The shape of what is free around the members of a set.
fn around_members(
    alloc: Global,
    set: &Shape,
    free: Freedom,
    width: u32,
) -> Result<Shape, AllocError>
    ensures { IfOk result IsKept }
{
    match set {
        Shape::Set(_, member) => widened(alloc, member.get(), free, width),
        _ => Err(AllocError),
    }
}

// The shape of what a name may stand for.
fn name_shape(
    alloc: Global,
    kernel: &KerJob,
    name: usize,
    free: Freedom,
    width: u32,
) -> Result<Shape, AllocError>
    requires from { 4 ≤ width }
    requires to { width ≤ 64 }
    ensures { IfOk result IsKept }
{
    let Some(values) = value_set(kernel, name) else {
        return Err(AllocError);
    };
    let names = List::new(alloc);
    let bound = List::new(alloc);
    let set = shape_of(alloc, values, &names, &names, &bound, width)?;
    around_members(alloc, &set, free, width)
}

fn name_shapes(
    alloc: Global,
    kernel: &KerJob,
    free: Freedom,
    width: u32,
) -> Result<List<Shape>, AllocError>
    requires from { 4 ≤ width }
    requires to { width ≤ 64 }
    ensures { IfOk result AreKept }
{
    let mut shapes = Vec::new(alloc);
    for name in 0..kernel.names.len() {
        let shape = name_shape(alloc, kernel, name, free, width)?;
        shapes.push(shape)?;
    }
    Ok(List::from_vec(shapes))
}

// A tree with the bounds of its ranges where the names have these shapes.
fn with_shapes(
    alloc: Global,
    kernel: &KerJob,
    k: &Ker,
    shapes: &List<Shape>,
    width: u32,
) -> Result<Ker, AllocError>
    requires from { 4 ≤ width }
    requires to { width ≤ 64 }
    requires sound { IsSoundIn kernel.now k.now }
    requires kept { AreKept shapes.now }
    ensures { IfOk result (IsSoundIn kernel.now) }
{
    let bound = List::new(alloc);
    let tree = with_bounds(alloc, k, shapes, shapes, &bound, width)?;
    Ok(tree)
}

/// The tree of a case, with the bounds of its ranges by what the names may stand for.
pub fn bounded_tree(
    alloc: Global,
    kernel: &KerJob,
    free: Freedom,
    width: u32,
) -> Result<Option<Ker>, AllocError>
    requires from { 4 ≤ width }
    requires to { width ≤ 64 }
    requires sound { IsTrue (sound_job kernel.now) }
    ensures { IfOk result (λ o. IfSome o (IsSoundIn kernel.now)) }
{
    let Some(k) = operand(kernel) else {
        return Ok(None);
    };
    let shapes = name_shapes(alloc, kernel, free, width)?;
    let tree = with_shapes(alloc, kernel, k, &shapes, width)?;
    Ok(Some(tree))
}
