//! The walk over a path.

ghost use Rattle.cell_arena.specs.Growth.{Grows};
ghost use Rattle.path_cells.specs.inner.Steps.{is_never};
ghost use Rattle.path_cells.specs.inner.Walking.{Adds, CanAdd, CanGoOn, Turn};
ghost use Rattle.path_walks.specs.Paths.{CanRewritePath, HasNextSorts, IsPathCells};
ghost use Rattle.path_walks.specs.inner.Walks.{OneEach};
ghost use Rattle.std.specs.List.{list_any};
ghost use Rattle.std.specs.Prelude.{◌≡◌, IfOk, false};

use crate::literals::{add_literals, has_bottom, is_bottom};
use crate::stepping::step_cells;
use crate::walk::{Walk, start};
use cell_arena::Build;
use expr_rewriter::CellEnv;
use kernel_trees::{Assigned, AssignedStep};
use path_walks::{PathCells, StepCells};
use sat_formula::Lit;
use std::alloc::AllocError;

// The path behind a step with these cells. Where one of its literals is never true the walk is over: nothing is known
// behind it, and nothing more is to be encoded.
#[tactic(auto, using(cell_arena::proofs::Growing::growing))]
fn take(
    b: &mut Build,
    walk: Walk,
    step: &AssignedStep,
    made: &StepCells,
) -> Result<Walk, AllocError>
    requires below { CanAdd b.old.formula.vars walk made.now }
    requires gives { list_any is_never made.now.choices ≡ false → OneEach step.now made.now.cells }
    ensures takes { IfOk result (Adds b.new.formula step.now made.now walk) }
    ensures arena { b.new.arena ≡ b.old.arena }
    ensures grows { Grows b.old b.new }
{
    // Read for its promise: it is true under each satisfying assignment.
    let _ = b.formula.top();
    let choices = made.choices.as_slice();
    let ids = made.cells.as_slice();
    let Walk { env, cells } = walk;
    let cells = add_literals(b.arena.alloc(), &mut b.formula, cells, made)?;
    if has_bottom(choices) {
        return Ok(Walk {
            env,
            cells: PathCells {
                holds: Lit { var: 0, neg: true },
                wrong: cells.wrong,
                big: cells.big,
                next: cells.next,
            },
        });
    }
    let whole = Walk { env, cells };
    let behind = whole.past(step, ids)?;
    Ok(behind)
}

// One step more. Behind a step that never holds nothing is encoded.
#[tactic(auto, using(cell_arena::proofs::Growing::growing))]
fn advance(b: &mut Build, walk: Walk, step: &AssignedStep) -> Result<Walk, AllocError>
    requires { CanGoOn b.old walk step.now }
    ensures turn { IfOk result (Turn b.old b.new step.now walk) }
    ensures grows { Grows b.old b.new }
{
    if is_bottom(walk.cells.holds) {
        return Ok(walk);
    }
    let made = step_cells(b, &walk.env, step)?;
    let behind = take(b, walk, step, &made)?;
    Ok(behind)
}

/// What a path is as literals and cells, where the names have these cells: those of the state in `now`, and in `next`
/// those of the next state that are known before the path assigns any. For a path of CInit `now` is empty and `next`
/// has no cell, for one of Init both have those of the constants alone, for one of Next `now` has each name's and
/// `next` those of the constants. A name without a cell in `now` reads the cell that the path has assigned.
///
/// Where `holds` is true all steps hold, for the picks that the assignment takes, and each name that the path assigns has
/// its value; where `wrong` or `big` is, a step meets such a fault behind steps that hold; where the literal of a name is,
/// the steps up to its assignment hold. In turn, whichever picks these are so for, some assignment makes the literal true,
/// with these picks and the values of the next state (for a fault, with any picks). Of an assignment that makes a literal
/// false nothing is said: no execution is lost, but a literal may be false where it could be true.
/// (Konnov, Kukovec and Tran, "TLA+ Model Checking Made Symbolic", OOPSLA 2019, on symbolic transitions.)
#[tactic(auto, using(cell_arena::proofs::Growing::growing))]
pub fn rewrite_path(b: &mut Build, path: &Assigned, env: &CellEnv) -> Result<PathCells, AllocError>
    requires { CanRewritePath b.old env.now path.now.steps }
    ensures cells { IfOk result (IsPathCells b.old b.new env.entry.now path.now.steps) }
    ensures sorts { IfOk result (HasNextSorts b.new env.entry.now path.now.steps) }
    ensures grows { Grows b.old b.new }
{
    let steps = path.steps.as_slice();
    let top = b.formula.top();
    let mut walk = start(b.arena.alloc(), top, env)?;
    for i in 0..steps.len() {
        walk = advance(b, walk, &steps[i])?;
    }
    let Walk { env: _, cells } = walk;
    Ok(cells)
}
