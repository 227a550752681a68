//! Parts of a set.

ghost use Rattle.cell_arena.specs.Cells.{kind_at};
ghost use Rattle.cell_arena.specs.Decode.{decode};
ghost use Rattle.cell_arena.specs.Growth.{Grows as BuildGrows};
ghost use Rattle.cell_merge.specs.Edges.{AreNamed, TestsEach, edges_of};
ghost use Rattle.cell_merge.specs.Picks.{IsSetCell};
ghost use Rattle.tla_values.specs.Sets.{elements, inter_of, member, minus, set_of};
ghost use Rattle.cell_merge.specs.Sorts.{IsOver, SetsOfOneType};
ghost use Rattle.sat_formula.specs.Formula.{Grows};
ghost use Rattle.sat_formula.specs.Lit.{IsBelow};
ghost use Rattle.set_rewriter.specs.Edges.{MakesSet, kept};
ghost use Rattle.set_rewriter.specs.inner.Steps.{KeepsEdges};
ghost use Rattle.std.specs.Prelude.{◌≡◌, All, IfOk, length, map, not};

use cell_arena::{Arena, Build, CellId, CellKind};
use cell_merge::{known, members_in};
use sat_formula::{Formula, Lit};
use std::alloc::{AllocError, Global};
use tla_values::List;

// The edges, each there only where its other literal is true too. One whose literal is then the
// negation of `top` is left out.
#[tactic(auto, using(sat_formula::proofs::Extension::gates))]
fn keep_edges(
    alloc: Global,
    formula: &mut Formula,
    edges: &[(Lit, CellId)],
    keep: &[Lit],
) -> Result<Vec<(Lit, CellId)>, AllocError>
    requires one_each { length keep.now ≡ length edges.now }
    requires edges_named { AreNamed formula.old.vars edges.now }
    requires keep_named { All (IsBelow formula.old.vars) keep.now }
    ensures keeps { IfOk result (λ out. KeepsEdges formula.new edges.now edges.now keep.now out.items) }
    ensures grows { Grows formula.old formula.new }
{
    let mut out = Vec::new(alloc);
    for i in 0..edges.len() {
        let (l, e) = edges[i];
        let both = formula.and(l, keep[i])?;
        if let Some(false) = known(formula, both) {
            continue;
        }
        out.push((both, e))?;
    }
    Ok(out)
}

/// The members of the edges whose literal is true, one literal for each edge. Where the literals
/// are a test of the values, it is the set of the members that pass.
#[tactic(auto, using(cell_arena::proofs::Growing::growing))]
pub fn filter(b: &mut Build, set: CellId, keep: &[Lit]) -> Result<CellId, AllocError>
    requires set { IsSetCell b.old set }
    requires named { All (IsBelow b.old.formula.vars) keep.now }
    requires one_each { length keep.now ≡ length (edges_of (kind_at b.old.arena.kinds set)) }
    ensures made { IfOk result (λ id. MakesSet b.old b.new set set id (λ a. set_of (kept a (decode b.old.arena a) (edges_of (kind_at b.old.arena.kinds set)) keep.now))) }
    ensures grows { BuildGrows b.old b.new }
{
    let CellKind::Set(es) = b.arena.kind(set) else {
        return Ok(set);
    };
    let out = keep_edges(b.arena.alloc(), &mut b.formula, es.as_slice(), keep)?;
    let id = b.set(List::from_vec(out))?;
    Ok(id)
}

// For each edge of the first set a literal: where the edge is there, whether its value is no member
// of the second.
#[tactic(auto, using(sat_formula::proofs::Extension::gates))]
fn others_in(
    arena: &Arena,
    formula: &mut Formula,
    x: CellId,
    y: CellId,
) -> Result<Vec<Lit>, AllocError>
    requires over { IsOver arena.now formula.old }
    requires types { SetsOfOneType arena.now.kinds x y }
    ensures tests { IfOk result (λ ls. let es = edges_of (kind_at arena.now.kinds x) in
        TestsEach arena.now formula.new es (length es) (λ a v. not (member v (elements (decode arena.now a y)))) ls.items) }
    ensures grows { Grows formula.old formula.new }
{
    let found = members_in(arena, formula, x, y)?;
    let others = negations(arena.alloc(), found.as_slice())?;
    Ok(others)
}

// The negation of each literal.
fn negations(alloc: Global, lits: &[Lit]) -> Result<Vec<Lit>, AllocError>
    ensures { IfOk result (λ r. r.items ≡ map (λ l. record { var = l.var; neg = not l.neg }) lits.now) }
{
    lits.iter().map(|l| l.negated()).collect(alloc)
}

/// The members of both sets.
#[tactic(auto, using(cell_arena::proofs::Growing::growing))]
pub fn inter(b: &mut Build, x: CellId, y: CellId) -> Result<CellId, AllocError>
    requires { SetsOfOneType b.old.arena.kinds x y }
    ensures made { IfOk result (λ id. MakesSet b.old b.new x x id (λ a. inter_of (elements (decode b.old.arena a x)) (elements (decode b.old.arena a y)))) }
    ensures grows { BuildGrows b.old b.new }
{
    let keep = members_in(&b.arena, &mut b.formula, x, y)?;
    let id = filter(b, x, keep.as_slice())?;
    Ok(id)
}

/// The members of the first set that are not members of the second.
#[tactic(auto, using(cell_arena::proofs::Growing::growing))]
pub fn minus(b: &mut Build, x: CellId, y: CellId) -> Result<CellId, AllocError>
    requires { SetsOfOneType b.old.arena.kinds x y }
    ensures made { IfOk result (λ id. MakesSet b.old b.new x x id (λ a. minus (elements (decode b.old.arena a x)) (elements (decode b.old.arena a y)))) }
    ensures grows { BuildGrows b.old b.new }
{
    let keep = others_in(&b.arena, &mut b.formula, x, y)?;
    let id = filter(b, x, keep.as_slice())?;
    Ok(id)
}
