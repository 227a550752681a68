//! Members by free choice.

ghost use Rattle.cell_arena.specs.Cells.{kind_at};
ghost use Rattle.cell_arena.specs.Growth.{Grows};
ghost use Rattle.cell_merge.specs.Edges.{JoinsAll, OneSort};
ghost use Rattle.cell_merge.specs.Picks.{IsSetCell, PicksFrom};
ghost use Rattle.cell_merge.specs.Sorts.{OneType};
ghost use Rattle.cell_merge.specs.inner.Layers.{AreEdges, ChoosesEach, ChoosesEdge, Narrows};
ghost use Rattle.sat_formula.specs.Formula.{Grows as FormulaGrows};
ghost use Rattle.sat_formula.specs.declared.lit.Lit.{Lit as AnyLit};
ghost use Rattle.cell_arena.specs.declared.kinds.CellId.{CellId as AnyCell};
ghost use Rattle.std.specs.Prelude.{◌*◌, ◌+◌, ◌<◌, ◌≡◌, ◌≤◌, ◌↔◌, ◌∷◌, IfOk, IfSome, [], length, slice_index_or};

use crate::choice::choose_cell;
use crate::merging::join_alike;
use cell_arena::{Arena, Build, CellId, CellKind};
use sat_formula::{Formula, Lit};
use std::alloc::AllocError;

// What is picked from: the edges with one for alike members, or where none is ever there, one edge
// that is not.
#[tactic(auto, using(sat_formula::proofs::Extension::gates))]
fn candidates(
    arena: &Arena,
    formula: &mut Formula,
    edges: &[(Lit, CellId)],
) -> Result<Vec<(Lit, CellId)>, AllocError>
    requires edges { OneSort arena.now.kinds formula.old.vars edges.now }
    requires some { 0 < length edges.now }
    ensures joins { IfOk result (λ out. JoinsAll arena.now formula.new edges.now edges.now out.items) }
    ensures some { IfOk result (λ out. 0 < length out.items) }
    ensures grows { FormulaGrows formula.old formula.new }
{
    let joined = join_alike(arena, formula, edges)?;
    if joined.len() > 0 {
        return Ok(joined);
    }
    let mut one = Vec::new(arena.alloc());
    one.push((formula.top().negated(), edges[0].1))?;
    Ok(one)
}

// The first edge where the literal is true, and else the second.
#[tactic(auto, using(cell_arena::proofs::Growing::growing))]
fn choose_edge(
    b: &mut Build,
    l: Lit,
    x: (Lit, CellId),
    y: (Lit, CellId),
) -> Result<(Lit, CellId), AllocError>
    requires below { l.var < b.old.formula.vars }
    requires x_below { x.0.var < b.old.formula.vars }
    requires y_below { y.0.var < b.old.formula.vars }
    requires types { OneType b.old.arena.kinds x.1 y.1 }
    ensures chosen { IfOk result (ChoosesEdge b.old b.new l x y) }
    ensures grows { Grows b.old b.new }
{
    let cell = choose_cell(b, l, x.1, y.1)?;
    let there = b.formula.mux(l, x.0, y.0)?;
    Ok((there, cell))
}

// The edge that stands so many places behind, or the one that stands here.
fn partner(edges: &[(Lit, CellId)], i: usize, half: usize) -> (Lit, CellId)
    requires { i < length edges.now }
    ensures { (d : AnyLit × AnyCell) → result ≡ slice_index_or edges.now (i + half) (slice_index_or edges.now i d) }
{
    if half < edges.len() - i {
        return edges[i + half];
    }
    edges[i]
}

// The first half of the edges, each of them or its partner.
#[tactic(auto, using(cell_arena::proofs::Growing::growing))]
fn choose_each(
    b: &mut Build,
    l: Lit,
    edges: &[(Lit, CellId)],
    half: usize,
) -> Result<Vec<(Lit, CellId)>, AllocError>
    requires below { l.var < b.old.formula.vars }
    requires edges { AreEdges b.old edges.now }
    requires half { half ≤ length edges.now }
    ensures each { IfOk result (λ out. ChoosesEach b.old b.new l edges.now half half out.items) }
    ensures grows { Grows b.old b.new }
{
    let mut out = Vec::new(b.arena.alloc());
    for i in 0..half {
        let x = edges[i];
        let y = partner(edges, i, half);
        let edge = choose_edge(b, l, x, y)?;
        out.push(edge)?;
    }
    Ok(out)
}

// As many edges, by one free bit.
#[tactic(auto, using(cell_arena::proofs::Growing::growing))]
fn layer(
    b: &mut Build,
    edges: &[(Lit, CellId)],
    half: usize,
) -> Result<Vec<(Lit, CellId)>, AllocError>
    requires edges { AreEdges b.old edges.now }
    requires half { half ≤ length edges.now }
    requires enough { length edges.now ≤ 2 * half }
    ensures narrows { IfOk result (λ out. Narrows b.old b.new edges.now out.items) }
    ensures count { IfOk result (λ out. length out.items ≡ half) }
    ensures grows { Grows b.old b.new }
{
    let bit = b.formula.fresh()?;
    let out = choose_each(b, bit, edges, half)?;
    Ok(out)
}

// How many of several edges one layer leaves: all but one where a chain is asked for, and else half
// of them.
fn half_of(count: usize, chain: bool) -> usize
    requires { 1 < count }
    ensures some { 0 < result }
    ensures fewer { result < count }
    ensures enough { count ≤ 2 * result }
{
    if chain { count - 1 } else { count - count / 2 }
}

// One edge, by free bits: a chain of them up to 8 edges, and above that one for each layer.
#[tactic(auto, using(cell_arena::proofs::Growing::growing))]
fn narrow(b: &mut Build, edges: Vec<(Lit, CellId)>) -> Result<(Lit, CellId), AllocError>
    requires edges { AreEdges b.old edges.items }
    requires some { 0 < length edges.items }
    ensures narrows { IfOk result (λ e. Narrows b.old b.new edges.items (e ∷ [])) }
    ensures grows { Grows b.old b.new }
{
    let chain = edges.len() <= 8;
    let mut rest = edges;
    while rest.len() > 1 {
        let half = half_of(rest.len(), chain);
        rest = layer(b, rest.as_slice(), half)?;
    }
    Ok(rest[0])
}

/// A cell and a literal: where the literal is true, the value of the cell is a member of the set,
/// and each member is its value under some extension of an older assignment. So the literal is
/// false where the set is empty. `None` exactly where the set cell has no edge.
#[tactic(auto, using(cell_arena::proofs::Growing::growing))]
pub fn pick(b: &mut Build, set: CellId) -> Result<Option<(CellId, Lit)>, AllocError>
    requires { IsSetCell b.old set }
    ensures none { IfOk result (λ r. (r ≡ None) ↔ (kind_at b.old.arena.kinds set ≡ CellKind.Set [])) }
    ensures picks { IfOk result (λ r. IfSome r (PicksFrom b.old b.new set)) }
    ensures grows { Grows b.old b.new }
{
    let CellKind::Set(es) = b.arena.kind(set) else {
        return Ok(None);
    };
    if es.len() == 0 {
        return Ok(None);
    }
    let edges = candidates(&b.arena, &mut b.formula, es.as_slice())?;
    let (l, cell) = narrow(b, edges)?;
    Ok(Some((cell, l)))
}
