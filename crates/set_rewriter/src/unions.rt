//! Sets put together.

ghost use Rattle.cell_arena.specs.Cells.{kind_at};
ghost use Rattle.cell_arena.specs.Decode.{decode, present};
ghost use Rattle.cell_arena.specs.Growth.{Grows as BuildGrows};
ghost use Rattle.cell_merge.specs.Edges.{AreImages, AreNamed, edges_of};
ghost use Rattle.cell_merge.specs.Picks.{IsSetCell};
ghost use Rattle.cell_merge.specs.Sorts.{SetsOfOneType, set_of as set_sort};
ghost use Rattle.sat_formula.specs.Formula.{Grows};
ghost use Rattle.set_rewriter.specs.Edges.{IsSetOfSets, MakesOf, MakesSet, MapsSet, image_edges};
ghost use Rattle.set_rewriter.specs.inner.Steps.{AreSets, Guards, GuardsSet, Inside, IsSetIn};
ghost use Rattle.std.specs.List.{flat_map};
ghost use Rattle.std.specs.Prelude.{◌<◌, ◌≤◌, ◌≡◌, IfOk, OnOk, length};
ghost use Rattle.tla_values.specs.Sets.{elements, set_of, union_of};

use cell_arena::{Arena, Build, CellId, CellKind};
use cell_merge::{Join, join_alike, known, merge_edges};
use sat_formula::{Formula, Lit};
use std::alloc::{AllocError, Global};
use tla_values::List;

/// The members of either set.
#[tactic(auto, using(cell_arena::proofs::Growing::growing))]
pub fn union(b: &mut Build, x: CellId, y: CellId) -> Result<CellId, AllocError>
    requires { SetsOfOneType b.old.arena.kinds x y }
    ensures made { IfOk result (λ id. MakesSet b.old b.new x y id (λ a. union_of (elements (decode b.old.arena a x)) (elements (decode b.old.arena a y)))) }
    ensures grows { BuildGrows b.old b.new }
{
    let CellKind::Set(es) = b.arena.kind(x) else {
        return Ok(x);
    };
    let CellKind::Set(fs) = b.arena.kind(y) else {
        return Ok(y);
    };
    let edges = merge_edges(
        &b.arena,
        &mut b.formula,
        Join::Either,
        es.as_slice(),
        fs.as_slice(),
    )?;
    let id = b.set(List::from_vec(edges))?;
    Ok(id)
}

// The edges with other cells.
fn with_images(
    alloc: Global,
    edges: &[(Lit, CellId)],
    images: &[CellId],
) -> Result<Vec<(Lit, CellId)>, AllocError>
    requires { length images.now ≡ length edges.now }
    ensures { IfOk result (λ out. out.items ≡ image_edges edges.now images.now) }
{
    let mut out = Vec::new(alloc);
    for i in 0..edges.len() {
        out.push((edges[i].0, images[i]))?;
    }
    Ok(out)
}

/// The images of the members, one cell for each edge.
#[tactic(auto, using(cell_arena::proofs::Growing::growing))]
pub fn map(b: &mut Build, set: CellId, images: &[CellId]) -> Result<CellId, AllocError>
    requires set { IsSetCell b.old set }
    requires images { AreImages b.old.arena.kinds (edges_of (kind_at b.old.arena.kinds set)) images.now }
    ensures made { IfOk result (λ id. MapsSet b.old b.new images.now id (λ a. set_of (present a (decode b.old.arena a) (image_edges (edges_of (kind_at b.old.arena.kinds set)) images.now)))) }
    ensures grows { BuildGrows b.old b.new }
{
    let CellKind::Set(es) = b.arena.kind(set) else {
        return Ok(set);
    };
    let imaged = with_images(b.arena.alloc(), es.as_slice(), images)?;
    let edges = join_alike(&b.arena, &mut b.formula, imaged.as_slice())?;
    let id = b.set(List::from_vec(edges))?;
    Ok(id)
}

// More edges, each there only where the literal is true. One whose literal is then the negation of
// `top` is left out.
#[tactic(auto, using(sat_formula::proofs::Extension::gates))]
fn guard_edges(
    formula: &mut Formula,
    l: Lit,
    edges: &[(Lit, CellId)],
    out: &mut Vec<(Lit, CellId)>,
) -> Result<(), AllocError>
    requires below { l.var < formula.old.vars }
    requires named { AreNamed formula.old.vars edges.now }
    requires out_named { AreNamed formula.old.vars out.old.items }
    ensures guards { OnOk result (Guards formula.new l edges.now edges.now out.old.items out.new.items) }
    ensures grows { Grows formula.old formula.new }
{
    for (m, e) in edges {
        let both = formula.and(l, *m)?;
        if let Some(false) = known(formula, both) {
            continue;
        }
        out.push((both, *e))?;
    }
    Ok(())
}

// More edges, for the members of the set where the literal is true.
#[tactic(auto, using(sat_formula::proofs::Extension::gates))]
fn guard_set(
    arena: &Arena,
    formula: &mut Formula,
    l: Lit,
    set: CellId,
    out: &mut Vec<(Lit, CellId)>,
) -> Result<(), AllocError>
    requires over { arena.now.vars ≤ formula.old.vars }
    requires set { IsSetIn arena.now.kinds set }
    requires below { l.var < formula.old.vars }
    requires out_named { AreNamed formula.old.vars out.old.items }
    ensures guards { OnOk result (GuardsSet arena.now formula.new l set out.old.items out.new.items) }
    ensures grows { Grows formula.old formula.new }
{
    let CellKind::Set(edges) = arena.kind(set) else {
        return Ok(());
    };
    guard_edges(formula, l, edges.as_slice(), out)?;
    Ok(())
}

// The edges of the sets, each there only where its set is.
#[tactic(auto, using(sat_formula::proofs::Extension::gates))]
fn inside(
    arena: &Arena,
    formula: &mut Formula,
    sets: &[(Lit, CellId)],
) -> Result<Vec<(Lit, CellId)>, AllocError>
    requires over { arena.now.vars ≤ formula.old.vars }
    requires sets { AreSets arena.now.kinds formula.old.vars sets.now }
    ensures inside { IfOk result (λ out. Inside arena.now formula.new sets.now sets.now out.items) }
    ensures grows { Grows formula.old formula.new }
{
    let mut out = Vec::new(arena.alloc());
    for (l, set) in sets {
        guard_set(arena, formula, *l, *set, &mut out)?;
    }
    Ok(out)
}

// The edges of the sets, with one for the members that are alike.
#[tactic(auto, using(sat_formula::proofs::Extension::gates))]
fn joined_inside(
    arena: &Arena,
    formula: &mut Formula,
    sets: &[(Lit, CellId)],
) -> Result<Vec<(Lit, CellId)>, AllocError>
    requires over { arena.now.vars ≤ formula.old.vars }
    requires sets { AreSets arena.now.kinds formula.old.vars sets.now }
    ensures inside { IfOk result (λ out. Inside arena.now formula.new sets.now sets.now out.items) }
    ensures grows { Grows formula.old formula.new }
{
    let all = inside(arena, formula, sets)?;
    let edges = join_alike(arena, formula, all.as_slice())?;
    Ok(edges)
}

/// The members of the members of a set of sets.
#[tactic(auto, using(cell_arena::proofs::Growing::growing))]
pub fn big_union(b: &mut Build, set: CellId) -> Result<CellId, AllocError>
    requires { IsSetOfSets b.old set }
    ensures made { IfOk result (λ id. MakesOf b.old b.new set id (λ s. set_sort (set_sort s)) set_sort (λ a. set_of (flat_map elements (elements (decode b.old.arena a set))))) }
    ensures grows { BuildGrows b.old b.new }
{
    let CellKind::Set(es) = b.arena.kind(set) else {
        return Ok(set);
    };
    let edges = joined_inside(&b.arena, &mut b.formula, es.as_slice())?;
    let id = b.set(List::from_vec(edges))?;
    Ok(id)
}
