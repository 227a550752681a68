// The shapes of a system, within their limits.
ghost use Rattle.std.specs.Prelude.{MatchResult, Ok};
ghost use Rattle.front_end.specs.Accepted.{IsLevelsAnswer, KeepsTypedLimits};
ghost use Rattle.front_end.specs.Refused.{IsExcess, IsTypedExcess};
ghost use Rattle.front_end.specs.Requests.{IsRequest};
ghost use Rattle.front_end.specs.inner.Stages.{IsBounded};

use crate::request::Request;
use kernel_shapes::Shapes;
use kernel_trees::System;
use shape_bounds::{ShapeFault, shapes, typed_shapes};
use std::alloc::Global;

// A system with its shapes.
#[derive(Drop)]
pub(crate) struct Bounded {
    pub(crate) system: System,
    pub(crate) shapes: Shapes,
}

// Where there are bounds, a typed state and one step from it keep the limits.
fn keep_typed_limits(alloc: Global, request: &Request, system: &System) -> Result<(), ShapeFault>
    requires { IsRequest request.now }
    ensures { MatchResult result (λ _. KeepsTypedLimits system.now request.now.width request.now.bounds)
        (IsTypedExcess system.now request.now.width request.now.bounds) }
{
    match &request.bounds {
        None => Ok(()),
        Some(bounds) => {
            match typed_shapes(alloc, system, bounds, request.width) {
                Ok(_) => Ok(()),
                Err(fault) => Err(fault),
            }
        }
    }
}

// The shapes from the start, where a typed state keeps the limits too.
fn within(
    alloc: Global,
    request: &Request,
    system: &System,
    shapes: Shapes,
) -> Result<Shapes, ShapeFault>
    requires request { IsRequest request.now }
    requires shapes { IsLevelsAnswer system.now request.now.width request.now.length (Ok shapes) }
    ensures { MatchResult result (IsBounded request.now system.now) (IsExcess request.now system.now) }
{
    match keep_typed_limits(alloc, request, system) {
        Ok(()) => Ok(shapes),
        Err(fault) => Err(fault),
    }
}

// The shapes of a system: first those from the start.
pub(crate) fn shapes_of(
    alloc: Global,
    request: &Request,
    system: &System,
) -> Result<Shapes, ShapeFault>
    requires { IsRequest request.now }
    ensures { MatchResult result (IsBounded request.now system.now) (IsExcess request.now system.now) }
{
    match shapes(alloc, system, request.length, request.width) {
        Ok(shapes) => within(alloc, request, system, shapes),
        Err(fault) => Err(fault),
    }
}
