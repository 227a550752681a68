//! Shapes: what bounds the sizes and the integers of the values that expressions have.
//!
//! A shape is computed of a typed tree by the shapes of the names that it reads, so along the paths of a system from
//! level to level. Each value that an expression has under a width fits its shape. Sets of functions, of subsets, of
//! records and of tuples that are not walked have no number; what has one is held against a limit.
#![tactic(auto)]

mod bounds;
mod theorems;

pub use bounds::{Bounds, Shape, Shapes, copy_shape};
pub use theorems::{
    refusals_depend_on_the_numbers_alone, sound_trees_have_shapes_of_their_types,
    states_fit_the_shapes_of_their_levels, typed_values_fit_the_shapes_of_their_types,
    values_fit_their_shapes,
};
