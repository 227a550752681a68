// From where the paths of CInit, Init and Next are taken.

ghost use Rattle.std.specs.Prelude.{[], ◌≡◌, IfOk, None, map, take};
ghost use Rattle.step_branches.specs.Ways.{IsConstantsWay, IsStartWay, IsStepWay, of_constants};
ghost use Rattle.step_encoder.specs.inner.Asked.{count};

use crate::names::{
    constant_cells, constant_count, constant_shapes, copy_shapes, no_cells, no_shapes,
};
use branch_cells::Way;
use cell_arena::CellId;
use expr_rewriter::CellEnv;
use kernel_shapes::Shape;
use kernel_trees::System;
use shape_bounds::Target;
use std::alloc::{AllocError, Global};
use tla_values::List;

// In CInit no name has a cell.
pub(crate) fn constants_way(
    alloc: Global,
    system: &System,
    width: u32,
    others: &[CellId],
) -> Result<Way, AllocError>
    ensures { IfOk result (λ r. IsConstantsWay system.now width others.now r) }
{
    let fixed = system.ker.fixed.as_slice();
    let env = env_before(alloc, fixed)?;
    let copies = Vec::from_slice(alloc, others)?;
    let now = no_shapes(alloc, fixed)?;
    let next = no_shapes(alloc, fixed)?;
    Ok(Way {
        env,
        now: List::from_vec(now),
        next: List::from_vec(next),
        target: Target::State,
        width,
        others: List::from_vec(copies),
    })
}

// In Init the constants have the cells that CInit gives them.
pub(crate) fn start_way(
    alloc: Global,
    system: &System,
    width: u32,
    cells: &[CellId],
    shapes: &[Shape],
) -> Result<Way, AllocError>
    ensures { IfOk result (λ r. IsStartWay system.now width cells.now shapes.now r) }
{
    let fixed = system.ker.fixed.as_slice();
    let env = start_env(alloc, fixed, cells)?;
    let copies = Vec::from_slice(alloc, cells)?;
    let now = constant_shapes(alloc, fixed, shapes)?;
    let next = constant_shapes(alloc, fixed, shapes)?;
    Ok(Way {
        env,
        now: List::from_vec(now),
        next: List::from_vec(next),
        target: Target::State,
        width,
        others: List::from_vec(copies),
    })
}

// In Next each name has its cell in the state, and a constant in the next one too.
pub(crate) fn step_way(
    alloc: Global,
    system: &System,
    width: u32,
    cells: &[CellId],
    shapes: &[Shape],
) -> Result<Way, AllocError>
    ensures { IfOk result (λ r. IsStepWay system.now width cells.now shapes.now r) }
{
    let fixed = system.ker.fixed.as_slice();
    let env = env_behind(alloc, cells, fixed, cells)?;
    let copies = Vec::from_slice(alloc, cells)?;
    let now = copy_shapes(alloc, shapes)?;
    let next = constant_shapes(alloc, fixed, shapes)?;
    Ok(Way {
        env,
        now: List::from_vec(now),
        next: List::from_vec(next),
        target: Target::Next,
        width,
        others: List::from_vec(copies),
    })
}

fn env_before(alloc: Global, fixed: &[bool]) -> Result<CellEnv, AllocError>
    ensures { IfOk result (λ r.
        r ≡ record { now = []; next = map (λ _. None) fixed.now; bound = [] }) }
{
    let next = no_cells(alloc, fixed)?;
    Ok(CellEnv {
        now: List::new(alloc),
        next: List::from_vec(next),
        bound: List::new(alloc),
    })
}

fn start_env(alloc: Global, fixed: &[bool], cells: &[CellId]) -> Result<CellEnv, AllocError>
    ensures { IfOk result (λ r. r ≡ record {
      now = take (count fixed.now) cells.now;
      next = of_constants fixed.now cells.now;
      bound = [];
    }) }
{
    let first = first_cells(alloc, cells, constant_count(fixed))?;
    let env = env_behind(alloc, first.as_slice(), fixed, cells)?;
    Ok(env)
}

// These cells in the state, and those of the constants in the next one.
fn env_behind(
    alloc: Global,
    now: &[CellId],
    fixed: &[bool],
    cells: &[CellId],
) -> Result<CellEnv, AllocError>
    ensures { IfOk result (λ r.
        r ≡ record { now = now.now; next = of_constants fixed.now cells.now; bound = [] }) }
{
    let current = Vec::from_slice(alloc, now)?;
    let next = constant_cells(alloc, fixed, cells)?;
    Ok(CellEnv {
        now: List::from_vec(current),
        next: List::from_vec(next),
        bound: List::new(alloc),
    })
}

// The first cells, as many as there are up to a number.
fn first_cells(alloc: Global, cells: &[CellId], count: usize) -> Result<Vec<CellId>, AllocError>
    ensures { IfOk result (λ r. r.items ≡ take count cells.now) }
{
    cells.iter().take(count).copied().collect(alloc)
}
