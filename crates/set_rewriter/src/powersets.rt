//! Subsets of a set.

ghost use Rattle.cell_arena.specs.Growth.{Grows as BuildGrows};
ghost use Rattle.cell_merge.specs.Picks.{IsSetCell};
ghost use Rattle.sat_formula.specs.Formula.{Grows};
ghost use Rattle.set_rewriter.specs.Subsets.{IsPowerset, PicksSubset};
ghost use Rattle.set_rewriter.specs.inner.Steps.{EdgesOfSort, FreeBits, PowersetOf, SetsAndEdge, SubsetCells, WithEach, WithEdge};
ghost use Rattle.std.specs.Prelude.{◌≡◌, ◌∷◌, IfOk, [], length, map};

use crate::filters::filter;
use cell_arena::{Build, CellId, CellKind};
use cell_merge::join_alike;
use sat_formula::{Formula, Lit};
use std::alloc::{AllocError, Global};
use tla_values::List;

// As many new variables, which no clause names.
#[tactic(auto, using(sat_formula::proofs::Extension::gates))]
fn free_bits(alloc: Global, formula: &mut Formula, count: usize) -> Result<Vec<Lit>, AllocError>
    ensures bits { IfOk result (λ bits. FreeBits formula.old formula.new count bits.items) }
    ensures grows { Grows formula.old formula.new }
{
    let mut bits = Vec::new(alloc);
    for _i in 0..count {
        let bit = formula.fresh()?;
        bits.push(bit)?;
    }
    Ok(bits)
}

/// A subset of the set, any by a free choice: under each satisfying assignment its members are
/// members of the set, and each subset is its value under some extension of an older assignment.
#[tactic(auto, using(cell_arena::proofs::Growing::growing))]
pub fn pick_subset(b: &mut Build, set: CellId) -> Result<CellId, AllocError>
    requires { IsSetCell b.old set }
    ensures picks { IfOk result (PicksSubset b.old b.new set) }
    ensures grows { BuildGrows b.old b.new }
{
    let CellKind::Set(es) = b.arena.kind(set) else {
        return Ok(set);
    };
    let keep = free_bits(b.arena.alloc(), &mut b.formula, es.len())?;
    let id = filter(b, set, keep.as_slice())?;
    Ok(id)
}

// The set with one more edge.
#[tactic(auto, using(cell_arena::proofs::Growing::growing))]
fn with_edge(b: &mut Build, cell: CellId, edge: (Lit, CellId)) -> Result<CellId, AllocError>
    requires { SetsAndEdge b.old (cell ∷ []) edge }
    ensures with { IfOk result (WithEdge b.old b.new edge cell) }
    ensures grows { BuildGrows b.old b.new }
{
    let CellKind::Set(es) = b.arena.kind(cell) else {
        return Ok(cell);
    };
    let mut edges = Vec::from_slice(b.arena.alloc(), es.as_slice())?;
    edges.push(edge)?;
    let id = b.set(List::from_vec(edges))?;
    Ok(id)
}

// Each of the sets with one more edge.
#[tactic(auto, using(cell_arena::proofs::Growing::growing))]
fn with_each(
    b: &mut Build,
    cells: &[CellId],
    edge: (Lit, CellId),
) -> Result<Vec<CellId>, AllocError>
    requires { SetsAndEdge b.old cells.now edge }
    ensures with { IfOk result (λ out. WithEach b.old b.new edge cells.now (length cells.now) out.items) }
    ensures grows { BuildGrows b.old b.new }
{
    let mut out = Vec::new(b.arena.alloc());
    for cell in cells {
        let id = with_edge(b, *cell, edge)?;
        out.push(id)?;
    }
    Ok(out)
}

// All subsets of the edges, each once: the empty one, and for each edge those so far once more with
// it.
#[tactic(auto, using(cell_arena::proofs::Growing::growing))]
fn subset_cells(b: &mut Build, edges: &[(Lit, CellId)]) -> Result<Vec<CellId>, AllocError>
    requires { EdgesOfSort b.old edges.now }
    ensures subsets { IfOk result (λ cells. SubsetCells b.old b.new edges.now (length edges.now) cells.items) }
    ensures grows { BuildGrows b.old b.new }
{
    let alloc = b.arena.alloc();
    let empty = b.set(List::new(alloc))?;
    let mut cells = Vec::new(alloc);
    cells.push(empty)?;
    for edge in edges {
        let more = with_each(b, cells.as_slice(), *edge)?;
        cells.extend_from_slice(more.as_slice())?;
    }
    Ok(cells)
}

// The cells as edges that are always there.
fn always(alloc: Global, top: Lit, cells: &[CellId]) -> Result<Vec<(Lit, CellId)>, AllocError>
    ensures { IfOk result (λ v. v.items ≡ map (λ c. (top, c)) cells.now) }
{
    cells.iter().map(|c| (top, *c)).collect(alloc)
}

// The set of all subsets of the edges.
#[tactic(auto, using(cell_arena::proofs::Growing::growing))]
fn subset_set(b: &mut Build, edges: &[(Lit, CellId)]) -> Result<CellId, AllocError>
    requires { EdgesOfSort b.old edges.now }
    ensures powerset { IfOk result (PowersetOf b.old b.new edges.now) }
    ensures grows { BuildGrows b.old b.new }
{
    let cells = subset_cells(b, edges)?;
    let top = b.formula.top();
    let all = always(b.arena.alloc(), top, cells.as_slice())?;
    let id = b.set(List::from_vec(all))?;
    Ok(id)
}

/// All subsets of the set. Of n edges, of which no two are alike, it makes 2^n + 1 cells, and adds
/// nothing to the formula.
#[tactic(auto, using(cell_arena::proofs::Growing::growing))]
pub fn subsets(b: &mut Build, set: CellId) -> Result<CellId, AllocError>
    requires { IsSetCell b.old set }
    ensures powerset { IfOk result (IsPowerset b.old b.new set) }
    ensures grows { BuildGrows b.old b.new }
{
    let CellKind::Set(es) = b.arena.kind(set) else {
        return Ok(set);
    };
    let edges = join_alike(&b.arena, &mut b.formula, es.as_slice())?;
    let id = subset_set(b, edges.as_slice())?;
    Ok(id)
}
