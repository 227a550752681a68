//! Shapes computed: of kernel trees and of the levels of a system, and which number is the first past its limit.
#![tactic(auto, using(crate::proofs::Means::means))]

mod bounding;
mod equality;
mod intervals;
mod joins;
mod kinds;
mod level_shapes;
mod levels;
mod limits;
mod making;
mod names;
mod nodes;
mod numbers;
mod parts;
mod paths;
mod records;
mod rows;
mod shape_fault;
mod sizing;
mod stacks;
mod stages;
mod starting;
mod trees;
mod type_shapes;
mod typed;
mod typed_start;
mod under;
mod updates;

pub use level_shapes::{constant_shapes, next_shapes, start_shapes};
pub use limits::Excess;
pub use names::{Names, Site};
pub use parts::{copy_part, inside};
pub use paths::Target;
pub use shape_fault::ShapeFault;
pub use stages::{shapes, shapes_from, typed_shapes};
pub use trees::{shape_of, with_bounds};
