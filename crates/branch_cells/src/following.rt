//! The paths of an action as one branch.

ghost use Rattle.branch_cells.specs.Along.{ArePartsBetween, CanFollow, CanGoAlong, IsAlong, IsPart, IsReady};
ghost use Rattle.branch_cells.specs.Branches.{IsWhole};
ghost use Rattle.cell_arena.specs.Growth.{Grows};
ghost use Rattle.kernel_trees.specs.TypeKinds.{Kind};
ghost use Rattle.std.specs.Prelude.{All, IfOk, List as Items};

use crate::branch::BranchCells;
use crate::filling::fill;
use crate::merging::choose;
use crate::way::Way;
use cell_arena::Build;
use kernel_trees::Assigned;
use path_bounds::bounded_path;
use path_cells::rewrite_path;
use std::alloc::AllocError;

// One path: with the bounds of its ranges, over cells, and filled.
#[tactic(auto, using(cell_arena::proofs::Growing::growing))]
fn follow(b: &mut Build, way: &Way, path: &Assigned) -> Result<BranchCells, AllocError>
    ghost names: { Items Kind }
    requires ready { IsReady b.old names way.now }
    requires path { CanFollow b.old names way.now path.now }
    ensures part { IfOk result (IsPart b.old b.new way.entry.now path.entry.now) }
    ensures whole { IfOk result (IsWhole b.new names) }
    ensures grows { Grows b.old b.new }
{
    let alloc = b.arena.alloc();
    let bounded = bounded_path(alloc, path, &way.now, &way.next, way.target, way.width)?;
    let cells = rewrite_path(b, &bounded, &way.env)?;
    let others = way.others.as_slice();
    let part = fill(b, &cells, others)?;
    Ok(part)
}

// Each of the paths.
#[tactic(auto, using(cell_arena::proofs::Growing::growing))]
fn follow_each(b: &mut Build, way: &Way, paths: &[Assigned]) -> Result<Vec<BranchCells>, AllocError>
    ghost names: { Items Kind }
    requires { CanGoAlong b.old names way.now paths.now }
    ensures parts { IfOk result (λ r.
        ArePartsBetween b.old b.new way.entry.now paths.entry.now r.items) }
    ensures whole { IfOk result (λ r. All (IsWhole b.new names) r.items) }
    ensures grows { Grows b.old b.new }
{
    let mut parts = Vec::new(b.arena.alloc());
    for i in 0..paths.len() {
        let path = &paths[i];
        let part = follow(b, way, path)?;
        parts.push(part)?;
    }
    Ok(parts)
}

/// The paths of an action from there: each with the bounds of its ranges, over cells and filled, and one of them chosen
/// freely.
#[tactic(auto, using(cell_arena::proofs::Growing::growing))]
pub fn along(b: &mut Build, way: &Way, paths: &[Assigned]) -> Result<BranchCells, AllocError>
    ghost names: { Items Kind }
    requires { CanGoAlong b.old names way.now paths.now }
    ensures along { IfOk result (IsAlong b.old b.new way.entry.now paths.entry.now) }
    ensures whole { IfOk result (IsWhole b.new names) }
    ensures grows { Grows b.old b.new }
{
    let parts = follow_each(b, way, paths)?;
    let list = parts.as_slice();
    let others = way.others.as_slice();
    let branch = choose(b, list, others)?;
    Ok(branch)
}
