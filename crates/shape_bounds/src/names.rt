// The shapes of names, and what was first past its limit.
ghost use Rattle.std.specs.Prelude.{◌≡◌, [], IfOk, None, OnOk, map, slice_get};
ghost use Rattle.tla_meaning.specs.Scopes.{find_last};
ghost use Rattle.kernel_trees.specs.Trees.{number_name};
ghost use Rattle.kernel_shapes.specs.Codes.{mean};
ghost use Rattle.kernel_shapes.specs.Counts.{count_at};
ghost use Rattle.kernel_shapes.specs.Sized.{found};
ghost use Rattle.shape_bounds.specs.inner.Nodes.{walked_count};
ghost use Rattle.shape_bounds.specs.Sizes.{IsBound, IsCounted, bound_name, named_at, read_at, stands};

use crate::limits::{Excess, first_of, own_excess};
use kernel_shapes::{Shape, copy_shape};
use std::alloc::{AllocError, Global};
use tla_meaning::Place;

/// Where a tree stands: in every other place it is walked.
#[derive(Clone, Copy, Drop)]
pub enum Site {
    Walked,
    /// As the right side of a membership or an inclusion, or as an operand there in turn.
    Form,
    /// As the set of which an assignment takes a member.
    Assigned,
    /// As the domain of an `\E` on a path.
    Picked,
}

/// The shapes of names in a state, in the next one and of bound numbers, and what was first past its limit.
#[derive(Drop)]
pub struct Names {
    pub(crate) alloc: Global,
    pub width: u32,
    pub state: Vec<Option<Shape>>,
    pub next: Vec<Option<Shape>>,
    pub bound: Vec<(u32, Shape)>,
    pub first: Option<Excess>,
}

impl Names {
    /// The declared names have these shapes in a state of this width and in the next one; no number has one.
    pub fn new(
        alloc: Global,
        width: u32,
        state: Vec<Option<Shape>>,
        next: Vec<Option<Shape>>,
    ) -> Names
        ensures width { result.width ≡ width }
        ensures state { result.state ≡ state }
        ensures next { result.next ≡ next }
        ensures bound { result.bound.items ≡ [] }
        ensures first { result.first ≡ None }
    {
        Names {
            alloc,
            width,
            state,
            next,
            bound: Vec::new(alloc),
            first: None,
        }
    }

    // A node with this shape was looked at.
    pub(crate) fn count(&mut self, place: Place, shape: &Shape)
        ensures { IsCounted self.old self.new (count_at place (mean shape.now)) }
    {
        self.first = first_of(self.first, own_excess(place, shape));
    }

    // A set that is not walked has no number.
    pub(crate) fn count_walked(&mut self, place: Place, shape: &Shape, at: Site)
        ensures { IsCounted self.old self.new (walked_count (stands at) place (mean shape.now)) }
    {
        match at {
            Site::Walked => self.count(place, shape),
            Site::Form | Site::Assigned | Site::Picked => {}
        }
    }

    // Further numbers have these shapes.
    pub(crate) fn bind(&mut self, numbers: &[u32], shapes: &[Shape]) -> Result<(), AllocError>
        ensures { OnOk result (IsBound self.old self.new numbers.now (map mean shapes.now)) }
    {
        if numbers.len() != shapes.len() {
            return Err(AllocError);
        }
        for i in 0..numbers.len() {
            let shape = copy_shape(self.alloc, &shapes[i])?;
            self.bound.push((numbers[i], shape))?;
        }
        Ok(())
    }

    // Of a declared name; of one that has no shape it is Empty.
    pub(crate) fn declared(&self, i: usize, primed: bool) -> Result<Shape, AllocError>
        ensures { IfOk result (λ r. mean r ≡ found (named_at self.now i primed)) }
    {
        if primed {
            shape_in(self.alloc, self.next.as_slice(), i)
        } else {
            shape_in(self.alloc, self.state.as_slice(), i)
        }
    }

    // Of what is bound under a number: the last of that number.
    pub(crate) fn bound_to(&self, number: u32) -> Result<Shape, AllocError>
        ensures { IfOk result (λ r. mean r
            ≡ found (find_last (number_name number) (map bound_name self.now.bound.items))) }
    {
        last_bound(self.alloc, self.bound.as_slice(), number)
    }
}

pub(crate) fn shape_in(
    alloc: Global,
    shapes: &[Option<Shape>],
    i: usize,
) -> Result<Shape, AllocError>
    ensures { IfOk result (λ r. mean r ≡ found (read_at (slice_get shapes.now i))) }
{
    if i >= shapes.len() {
        return Ok(Shape::Empty);
    }
    match &shapes[i] {
        Some(shape) => copy_shape(alloc, shape),
        None => Ok(Shape::Empty),
    }
}

fn last_bound(alloc: Global, bound: &[(u32, Shape)], number: u32) -> Result<Shape, AllocError>
    ensures { IfOk result (λ r. mean r
        ≡ found (find_last (number_name number) (map bound_name bound.now))) }
{
    for i in (0..bound.len()).rev() {
        let entry = &bound[i];
        if entry.0 == number {
            return copy_shape(alloc, &entry.1);
        }
    }
    Ok(Shape::Empty)
}
