//! Names that a path leaves out.

ghost use Rattle.branch_cells.specs.Branches.{AreOfKinds, HasWhole, IsFilled, IsWhole, ItemsOfKinds};
ghost use Rattle.branch_cells.specs.inner.Filling.{AreNamesFilled, IsNameFilled, ItemOfOneSort};
ghost use Rattle.branch_cells.specs.inner.Layers.{can_be};
ghost use Rattle.cell_arena.specs.Growth.{Grows};
ghost use Rattle.cell_arena.specs.declared.kinds.CellId.{CellId as AnyCell};
ghost use Rattle.kernel_trees.specs.TypeKinds.{Kind};
ghost use Rattle.path_walks.specs.Paths.{AreBelow, item_at};
ghost use Rattle.std.specs.Prelude.{◌&&◌, ◌<◌, ◌≡◌, ℕ, IfOk, List as Items, length, not, slice_index_or};

use crate::branch::{BranchCells, Ends};
use crate::ends::can_be;
use cell_arena::{Build, CellId};
use cell_merge::choose_cell;
use path_walks::PathCells;
use sat_formula::Lit;
use std::alloc::AllocError;
use tla_values::List;

// Whether the path meets no fault.
fn is_calm(x: &PathCells) -> bool
    ensures { result ≡ (not (can_be x.now.wrong) && not (can_be x.now.big)) }
{
    !can_be(x.wrong) && !can_be(x.big)
}

// The cell of one name.
#[tactic(auto, using(cell_arena::proofs::Growing::growing))]
fn fill_name(
    b: &mut Build,
    sure: bool,
    item: Option<(CellId, Lit)>,
    other: CellId,
) -> Result<CellId, AllocError>
    requires { ItemOfOneSort b.old item other }
    ensures filled { IfOk result (IsNameFilled b.old b.new sure item other) }
    ensures grows { Grows b.old b.new }
{
    let Some((cell, given)) = item else {
        return Ok(other);
    };
    if sure {
        return Ok(cell);
    }
    let id = choose_cell(b, given, cell, other)?;
    Ok(id)
}

// The cells of all names.
#[tactic(auto, using(cell_arena::proofs::Growing::growing))]
fn fill_each(
    b: &mut Build,
    sure: bool,
    items: &[Option<(CellId, Lit)>],
    others: &[CellId],
) -> Result<Vec<CellId>, AllocError>
    requires count { length items.now ≡ length others.now }
    requires sorts { (i : ℕ) (d : AnyCell) → i < length others.now →
        ItemOfOneSort b.old (item_at items.now i) (slice_index_or others.now i d) }
    ensures filled { IfOk result (λ r.
        AreNamesFilled b.old b.new sure items.now others.now (length others.now) r.items) }
    ensures grows { Grows b.old b.new }
{
    let mut ids = Vec::new(b.arena.alloc());
    for i in 0..others.len() {
        let id = fill_name(b, sure, items[i], others[i])?;
        ids.push(id)?;
    }
    Ok(ids)
}

/// The path's ends with a cell for each name: where its item's literal is true the item's, and else the other one. Where
/// the path meets no fault each item is taken as it is, since the literals of all are true where it holds.
#[tactic(auto, using(cell_arena::proofs::Growing::growing))]
pub fn fill(b: &mut Build, x: &PathCells, others: &[CellId]) -> Result<BranchCells, AllocError>
    ghost names: { Items Kind }
    requires below { AreBelow b.old x.now }
    requires items { ItemsOfKinds b.old.arena.kinds names x.now.next }
    requires others { AreOfKinds b.old.arena.kinds names others.now }
    requires given { HasWhole b.old.formula x.now }
    ensures filled { IfOk result (IsFilled b.old b.new others.entry.now x.entry.now) }
    ensures whole { IfOk result (IsWhole b.new names) }
    ensures grows { Grows b.old b.new }
{
    // Read for its promise: it is true under each satisfying assignment.
    let _ = b.formula.top();
    let sure = is_calm(x);
    let items = x.next.as_slice();
    let next = fill_each(b, sure, items, others)?;
    Ok(BranchCells {
        ends: Ends {
            holds: x.holds,
            wrong: x.wrong,
            big: x.big,
        },
        next: List::from_vec(next),
    })
}
