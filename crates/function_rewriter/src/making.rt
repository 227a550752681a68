//! Functions on the members of a set.

ghost use Rattle.cell_arena.specs.Cells.{kind_at};
ghost use Rattle.cell_arena.specs.Decode.{decode, present_pairs};
ghost use Rattle.cell_arena.specs.Growth.{Grows};
ghost use Rattle.cell_merge.specs.Edges.{AreImages, edges_of};
ghost use Rattle.cell_merge.specs.Picks.{IsSetCell};
ghost use Rattle.cell_merge.specs.Sorts.{OfSort, set_of as set_sort};
ghost use Rattle.function_rewriter.specs.Arrows.{MakesFunction, with_results};
ghost use Rattle.std.specs.Prelude.{◌≡◌, All, IfOk, length};
ghost use Rattle.tla_values.specs.Sets.{function_of};

use cell_arena::{Build, CellId, CellKind};
use sat_formula::Lit;
use std::alloc::{AllocError, Global};
use tla_values::List;

// The edges as arrows to the results.
fn to_results(
    alloc: Global,
    edges: &[(Lit, CellId)],
    results: &[CellId],
) -> Result<Vec<(Lit, CellId, CellId)>, AllocError>
    requires { length results.now ≡ length edges.now }
    ensures { IfOk result (λ out. out.items ≡ with_results edges.now results.now) }
{
    let mut out = Vec::new(alloc);
    for i in 0..edges.len() {
        let (l, e) = edges[i];
        out.push((l, e, results[i]))?;
    }
    Ok(out)
}

/// The function on the members of the set that has at each the result of its edge, one result for
/// each edge. Where several edges lead to one member, the first that is there gives the result. It
/// makes one cell, and adds nothing to the formula.
#[tactic(auto, using(cell_arena::proofs::Growing::growing))]
pub fn make(b: &mut Build, set: CellId, results: &[CellId]) -> Result<CellId, AllocError>
    requires set { IsSetCell b.old set }
    requires results { AreImages b.old.arena.kinds (edges_of (kind_at b.old.arena.kinds set)) results.now }
    ensures made { IfOk result (λ id. MakesFunction b.new id
        (λ a. function_of (present_pairs a (decode b.old.arena a) (with_results (edges_of (kind_at b.old.arena.kinds set)) results.now)))
        (λ s t. OfSort b.old.arena.kinds (set_sort s) set × All (OfSort b.old.arena.kinds t) results.now)) }
    ensures grows { Grows b.old b.new }
{
    let CellKind::Set(es) = b.arena.kind(set) else {
        return Ok(set);
    };
    let arrows = to_results(b.arena.alloc(), es.as_slice(), results)?;
    let id = b.fun(List::from_vec(arrows))?;
    Ok(id)
}
