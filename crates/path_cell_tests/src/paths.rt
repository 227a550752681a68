//! The cells of a state in which an execution starts, and of a path from there.

ghost use Rattle.cell_arena.specs.Growth.{Grows};
ghost use Rattle.kernel_shapes.specs.declared.bounds.Shape.TheVariants as shape;
ghost use Rattle.path_cell_tests.specs.Tested.{AreKept, AreStateCells, HasItemSorts, IsReady, IsTested};
ghost use Rattle.path_walks.specs.Paths.{HasNextSorts};
ghost use Rattle.std.specs.Prelude.{◌<◌, ◌≡◌, All, IfOk, IfSome, IsTrue, None, Some, [], length, map, option_map, replicate};
ghost use Rattle.tla_meaning.specs.declared.actions.Assignable.TheVariants as assignable;
ghost use Rattle.typed_cells.specs.Known.{IsTextAmong};

use crate::texts::are_textless;
use cell_arena::{Build, CellId, all_differ};
use expr_rewriter::CellEnv;
use kernel_shapes::Shape;
use kernel_trees::Assigned;
use path_bounds::bounded_path;
use path_cells::{PathCells, rewrite_path};
use sat_formula::Lit;
use shape_bounds::Target;
use snowcat_rows::Ty;
use std::alloc::{AllocError, Global};
use tla_values::{List, Text};

/// The width of numbers.
pub(crate) const WIDTH: u32 = 5;

/// The cells of a state in which an execution starts where the literal is true, and of a path from there.
#[derive(Drop)]
pub(crate) struct Written {
    pub(crate) b: Build,
    pub(crate) starts: Lit,
    pub(crate) state: Vec<CellId>,
    pub(crate) path: PathCells,
}

// A build of which the empty text is the only one.
fn begun(alloc: Global) -> Result<Build, AllocError>
    ensures { IfOk result (λ b. IsTextAmong b.arena.texts []) }
{
    let mut texts = List::new(alloc);
    texts.push(Text::from_vec(Vec::new(alloc)))?;
    if !all_differ(texts.as_slice()) {
        return Err(AllocError);
    }
    let b = Build::new(alloc, &texts, WIDTH)?;
    Ok(b)
}

// No shape for each of so many names.
fn empties(alloc: Global, count: usize) -> Result<Vec<Shape>, AllocError>
    ensures { IfOk result (λ r. r.items ≡ replicate count shape.Empty) }
{
    let mut shapes = Vec::new(alloc);
    for _i in 0..count {
        shapes.push(Shape::Empty)?;
    }
    Ok(shapes)
}

// No cell for each of so many names.
fn blanks(alloc: Global, count: usize) -> Result<Vec<Option<CellId>>, AllocError>
    ensures { IfOk result (λ r. r.items ≡ replicate count None) }
{
    let mut ids = Vec::new(alloc);
    for _i in 0..count {
        ids.push(None)?;
    }
    Ok(ids)
}

// The path over cells, if no text stands in it.
#[tactic(auto, using(cell_arena::proofs::Growing::growing))]
fn rewritten(b: &mut Build, path: &Assigned, env: &CellEnv) -> Result<Option<PathCells>, AllocError>
    requires text { IsTextAmong b.old.arena.texts [] }
    requires ready { IsReady b.old.arena.kinds env.now path.now.steps }
    ensures sorts { IfOk result (λ o. IfSome o (HasNextSorts b.new env.entry.now path.now.steps)) }
    ensures grows { Grows b.old b.new }
{
    if !are_textless(path.steps.as_slice()) {
        return Ok(None);
    }
    let x = rewrite_path(b, path, env)?;
    Ok(Some(x))
}

// A path from which an execution starts.
#[tactic(auto, using(cell_arena::proofs::Growing::growing))]
fn start(b: &mut Build, path: &Assigned, types: &[Ty]) -> Result<Option<PathCells>, AllocError>
    requires text { IsTextAmong b.old.arena.texts [] }
    requires tested { IsTested types.now (assignable.Variables 0) path.now }
    ensures sorts { IfOk result (λ o. IfSome o (λ x.
        HasItemSorts b.new.arena.kinds types.now x.next)) }
    ensures grows { Grows b.old b.new }
{
    let alloc = b.arena.alloc();
    let empty = empties(alloc, types.len())?;
    let none = List::from_vec(empty);
    let bounded = bounded_path(alloc, path, &none, &none, Target::State, WIDTH)?;
    let now = List::new(alloc);
    let blank = blanks(alloc, types.len())?;
    let next = List::from_vec(blank);
    let bound = List::new(alloc);
    let env = CellEnv { now, next, bound };
    let x = rewritten(b, &bounded, &env)?;
    Ok(x)
}

// The cells that a path gives the names, if it gives each one.
fn given(alloc: Global, items: &[Option<(CellId, Lit)>]) -> Result<Option<Vec<CellId>>, AllocError>
    ensures { IfOk result (λ o. IfSome o (λ r.
        map Some r.items ≡ map (option_map (λ y. y.0)) items.now)) }
{
    let mut ids = Vec::new(alloc);
    for i in 0..items.len() {
        let Some(item) = items[i] else {
            return Ok(None);
        };
        ids.push(item.0)?;
    }
    Ok(Some(ids))
}

fn are_there(b: &Build, ids: &[CellId]) -> bool
    ensures { IsTrue result → All (λ id. id.index < length b.now.arena.kinds) ids.now }
{
    let count = b.arena.len();
    ids.iter().all(|id| id.index < count)
}

// A path from a state of these cells.
#[tactic(auto, using(cell_arena::proofs::Growing::growing))]
fn step(
    b: &mut Build,
    path: &Assigned,
    shapes: &List<Shape>,
    types: &[Ty],
    state: &[CellId],
) -> Result<Option<PathCells>, AllocError>
    requires text { IsTextAmong b.old.arena.texts [] }
    requires path { IsTested types.now (assignable.PrimedVariables 0) path.now
        × AreKept shapes.now }
    requires state { AreStateCells b.old.arena.kinds types.now state.now }
{
    let alloc = b.arena.alloc();
    let empty = empties(alloc, types.len())?;
    let none = List::from_vec(empty);
    let bounded = bounded_path(alloc, path, shapes, &none, Target::Next, WIDTH)?;
    let current = Vec::from_slice(alloc, state)?;
    let now = List::from_vec(current);
    let blank = blanks(alloc, types.len())?;
    let next = List::from_vec(blank);
    let bound = List::new(alloc);
    let env = CellEnv { now, next, bound };
    let x = rewritten(b, &bounded, &env)?;
    Ok(x)
}

/// The cells of the first start, and of a path from there.
#[tactic(auto, using(cell_arena::proofs::Growing::growing))]
pub(crate) fn write_path(
    alloc: Global,
    types: &[Ty],
    first: &Assigned,
    shapes: &List<Shape>,
    path: &Assigned,
) -> Result<Option<Written>, AllocError>
    requires first { IsTested types.now (assignable.Variables 0) first.now }
    requires path { IsTested types.now (assignable.PrimedVariables 0) path.now
        × AreKept shapes.now }
{
    let mut b = begun(alloc)?;
    let Some(begin) = start(&mut b, first, types)? else {
        return Ok(None);
    };
    let Some(state) = given(alloc, begin.next.as_slice())? else {
        return Ok(None);
    };
    let ids = state.as_slice();
    if !are_there(&b, ids) {
        return Ok(None);
    }
    let Some(cells) = step(&mut b, path, shapes, types, ids)? else {
        return Ok(None);
    };
    Ok(Some(Written {
        b,
        starts: begin.holds,
        state,
        path: cells,
    }))
}
