//! The members of sets, each once where they are alike.

ghost use Rattle.cell_arena.specs.Cells.{kind_at};
ghost use Rattle.cell_arena.specs.Growth.{Grows as BuildGrows};
ghost use Rattle.cell_merge.specs.Edges.{JoinsAll, edges_of};
ghost use Rattle.cell_merge.specs.Picks.{IsSetCell};
ghost use Rattle.cell_merge.specs.Sorts.{IsOver};
ghost use Rattle.function_rewriter.specs.inner.Arrows.{IsSetIn};
ghost use Rattle.function_rewriter.specs.inner.Choices.{IsSameSet};
ghost use Rattle.sat_formula.specs.Formula.{Grows};
ghost use Rattle.std.specs.Prelude.{IfOk};

use cell_arena::{Arena, Build, CellId, CellKind};
use cell_merge::join_alike;
use sat_formula::{Formula, Lit};
use std::alloc::AllocError;
use tla_values::List;

// The edges of the set, with one for members that are alike.
#[tactic(auto, using(sat_formula::proofs::Extension::gates))]
pub(crate) fn joined_members(
    arena: &Arena,
    formula: &mut Formula,
    set: CellId,
) -> Result<Vec<(Lit, CellId)>, AllocError>
    requires over { IsOver arena.now formula.old }
    requires set { IsSetIn arena.now.kinds set }
    ensures joins { IfOk result (λ out. let es = edges_of (kind_at arena.now.kinds set) in JoinsAll arena.now formula.new es es out.items) }
    ensures grows { Grows formula.old formula.new }
{
    let CellKind::Set(es) = arena.kind(set) else {
        return Ok(Vec::new(arena.alloc()));
    };
    let edges = join_alike(arena, formula, es.as_slice())?;
    Ok(edges)
}

// The set with one edge for members that are alike.
#[tactic(auto, using(cell_arena::proofs::Growing::growing))]
pub(crate) fn joined_set(b: &mut Build, set: CellId) -> Result<CellId, AllocError>
    requires { IsSetCell b.old set }
    ensures same { IfOk result (IsSameSet b.old b.new set) }
    ensures grows { BuildGrows b.old b.new }
{
    let edges = joined_members(&b.arena, &mut b.formula, set)?;
    let id = b.set(List::from_vec(edges))?;
    Ok(id)
}
