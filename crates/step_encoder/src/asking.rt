// Trees that are taken as a whole: the assumption, and the invariants of a level.

ghost use Rattle.cell_arena.specs.Growth.{Grows};
ghost use Rattle.std.specs.Prelude.{◌≡◌, ◌<◌, All, IfOk};
ghost use Rattle.step_encoder.specs.inner.Asked.{AreAsked, AreConditionsOf, CanAsk, CanJudge};
ghost use Rattle.step_encoder.specs.inner.Asked.{IsConditionOf, IsJudgedLevel, state_env};

use crate::joining::judged_in;
use crate::names::all_cells;
use branch_cells::{BranchCells, Ends, condition};
use cell_arena::{Build, CellId};
use encoder_laws::LevelCells;
use expr_rewriter::{CellEnv, rewrite};
use kernel_shapes::Shape;
use kernel_trees::{Ker, System};
use sat_formula::Lit;
use shape_bounds::with_bounds;
use std::alloc::{AllocError, Global};
use tla_values::List;

// The ends of a tree where the names have these cells and shapes.
#[tactic(auto, using(cell_arena::proofs::Growing::growing))]
pub(crate) fn condition_of(
    b: &mut Build,
    tree: &Ker,
    env: &CellEnv,
    now: &List<Shape>,
    next: &List<Shape>,
) -> Result<Ends, AllocError>
    requires { CanAsk b.old env.now now.now next.now tree.now }
    ensures condition { IfOk result (IsConditionOf b.new env.entry.now now.now next.now tree.now) }
    ensures grows { Grows b.old b.new }
{
    let alloc = b.arena.alloc();
    let bound = List::new(alloc);
    let width = b.width();
    let bounded = with_bounds(alloc, tree, now, next, &bound, width)?;
    let cells = rewrite(b, &bounded, env)?;
    let ends = condition(b, cells)?;
    Ok(ends)
}

// The ends of each of several trees.
#[tactic(auto, using(cell_arena::proofs::Growing::growing))]
fn conditions_of(
    b: &mut Build,
    trees: &[Ker],
    env: &CellEnv,
    shapes: &List<Shape>,
) -> Result<Vec<Ends>, AllocError>
    requires { All (CanAsk b.old env.now shapes.now shapes.now) trees.now }
    ensures conditions { IfOk result (λ xs.
        AreConditionsOf b.new env.entry.now shapes.now trees.now xs.items) }
    ensures grows { Grows b.old b.new }
{
    let mut conditions = Vec::new(b.arena.alloc());
    for i in 0..trees.len() {
        let part = condition_of(b, &trees[i], env, shapes, shapes)?;
        conditions.push(part)?;
    }
    Ok(conditions)
}

// The names of a state with these cells, whose next state is the same.
fn env_of_state(alloc: Global, cells: &[CellId]) -> Result<CellEnv, AllocError>
    ensures { IfOk result (λ r. r ≡ state_env cells.now) }
{
    let now = Vec::from_slice(alloc, cells)?;
    let next = all_cells(alloc, cells)?;
    Ok(CellEnv {
        now: List::from_vec(now),
        next: List::from_vec(next),
        bound: List::new(alloc),
    })
}

// Where the run literal is true: that the invariants are not TRUE, and that they meet an integer
// outside the width.
#[tactic(auto, using(cell_arena::proofs::Growing::growing))]
fn judge(
    b: &mut Build,
    system: &System,
    shapes: &List<Shape>,
    cells: &List<CellId>,
    run: Lit,
) -> Result<(Lit, Lit), AllocError>
    requires can { CanJudge b.old system.now shapes.now cells.now }
    requires run { run.var < b.old.formula.vars }
    ensures asked { IfOk result (AreAsked b.new system.now shapes.now cells.now run) }
    ensures grows { Grows b.old b.new }
{
    let env = env_of_state(b.arena.alloc(), cells.as_slice())?;
    let conditions = conditions_of(b, system.ker.invs.as_slice(), &env, shapes)?;
    let literals = judged_in(b, conditions.as_slice(), run)?;
    Ok(literals)
}

// The level of these ends and cells.
#[tactic(auto, using(cell_arena::proofs::Growing::growing))]
pub(crate) fn level_of(
    b: &mut Build,
    system: &System,
    shapes: &List<Shape>,
    whole: BranchCells,
) -> Result<LevelCells, AllocError>
    requires can { CanJudge b.old system.now shapes.now whole.next }
    requires run { whole.ends.holds.var < b.old.formula.vars }
    ensures level { IfOk result (IsJudgedLevel b.new system.now shapes.now whole) }
    ensures grows { Grows b.old b.new }
{
    let (not_true, inv_big) = judge(b, system, shapes, &whole.next, whole.ends.holds)?;
    Ok(LevelCells {
        cells: whole.next,
        run: whole.ends.holds,
        step_wrong: whole.ends.wrong,
        step_big: whole.ends.big,
        not_true,
        inv_big,
    })
}
