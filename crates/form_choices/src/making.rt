//! What is made of members that were picked, and the edges from which arguments are taken.

ghost use Rattle.cell_arena.specs.Cells.{kind_at};
ghost use Rattle.cell_arena.specs.Growth.{Grows as BuildGrows};
ghost use Rattle.cell_merge.specs.Edges.{AreNamed, JoinsAll, edges_of};
ghost use Rattle.cell_merge.specs.Picks.{IsSetCell};
ghost use Rattle.cell_merge.specs.Sorts.{IsOver};
ghost use Rattle.form_choices.specs.inner.Parts.{AllHold, HaveArrows, HaveParts, ListsArguments};
ghost use Rattle.form_choices.specs.inner.Parts.{TellWhereThere, MakesFunction, MakesRecord, MakesTuple};
ghost use Rattle.form_choices.specs.inner.Parts.{arrows as arrows_between, hold_where_there};
ghost use Rattle.function_rewriter.specs.inner.Arrows.{IsSetIn};
ghost use Rattle.sat_formula.specs.Formula.{Grows, HasValue};
ghost use Rattle.sat_formula.specs.Lit.{IsBelow};
ghost use Rattle.std.specs.Prelude.{◌≡◌, [], All, IfOk, length};
ghost use Rattle.typed_cells.specs.Known.{IsSetOfEdges};

use cell_arena::{Arena, Build, CellId, CellKind, all_differ};
use cell_merge::join_alike;
use sat_formula::{Formula, Lit};
use std::alloc::{AllocError, Global};
use tla_values::{List, Text};
use typed_cells::{record_of_fields, set_of_edges, tuple_of_cells};

// The edges of the set, with one for members that are alike.
#[tactic(auto, using(sat_formula::proofs::Extension::gates))]
fn joined_members(
    arena: &Arena,
    formula: &mut Formula,
    set: CellId,
) -> Result<Vec<(Lit, CellId)>, AllocError>
    requires over { IsOver arena.now formula.old }
    requires set { IsSetIn arena.now.kinds set }
    ensures joins { IfOk result (λ out. let es = edges_of (kind_at arena.now.kinds set) in
        JoinsAll arena.now formula.new es es out.items) }
    ensures grows { Grows formula.old formula.new }
{
    let CellKind::Set(edges) = arena.kind(set) else {
        return Ok(Vec::new(arena.alloc()));
    };
    let joined = join_alike(arena, formula, edges.as_slice())?;
    Ok(joined)
}

/// The edges to the members of the set, with one for members that are alike.
#[tactic(auto, using(cell_arena::proofs::Growing::growing))]
pub(crate) fn arguments_of(b: &mut Build, s: CellId) -> Result<Vec<(Lit, CellId)>, AllocError>
    requires { IsSetCell b.old s }
    ensures lists { IfOk result (λ es. ListsArguments b.new s es.items) }
    ensures grows { BuildGrows b.old b.new }
{
    let edges = joined_members(&b.arena, &mut b.formula, s)?;
    Ok(edges)
}

/// The set without members.
#[tactic(auto, using(cell_arena::proofs::Growing::growing))]
pub(crate) fn empty_set(b: &mut Build) -> Result<CellId, AllocError>
    ensures set { IfOk result (IsSetOfEdges b.old b.new []) }
    ensures grows { BuildGrows b.old b.new }
{
    let alloc = b.arena.alloc();
    let id = set_of_edges(b, Vec::new(alloc))?;
    Ok(id)
}

// A literal that is true exactly where all are.
#[tactic(auto, using(cell_arena::proofs::Growing::growing))]
fn all_of(b: &mut Build, lits: &[Lit]) -> Result<Lit, AllocError>
    requires { All (IsBelow b.old.formula.vars) lits.now }
    ensures value { IfOk result (AllHold b.new.formula lits.now) }
    ensures arena { b.new.arena ≡ b.old.arena }
    ensures grows { BuildGrows b.old b.new }
{
    let all = b.formula.and_all(b.arena.alloc(), lits)?;
    Ok(all)
}

/// The record of the cells, and a literal that is true exactly where all are. Want of memory is answered where two
/// names are the same.
#[tactic(auto, using(cell_arena::proofs::Growing::growing))]
pub(crate) fn record_from(
    b: &mut Build,
    names: &[Text],
    cells: &[CellId],
    lits: &[Lit],
) -> Result<(CellId, Lit), AllocError>
    requires parts { HaveParts b.old cells.now lits.now }
    requires one_each { length cells.now ≡ length names.now }
    ensures makes { IfOk result (MakesRecord b.old b.new names.now cells.now lits.now) }
    ensures grows { BuildGrows b.old b.new }
{
    if !all_differ(names) {
        return Err(AllocError);
    }
    let all = all_of(b, lits)?;
    let id = record_of_fields(b, names, cells)?;
    Ok((id, all))
}

/// The tuple of the cells, and a literal that is true exactly where all are.
#[tactic(auto, using(cell_arena::proofs::Growing::growing))]
pub(crate) fn tuple_from(
    b: &mut Build,
    cells: Vec<CellId>,
    lits: &[Lit],
) -> Result<(CellId, Lit), AllocError>
    requires { HaveParts b.old cells.items lits.now }
    ensures makes { IfOk result (MakesTuple b.old b.new cells.items lits.now) }
    ensures grows { BuildGrows b.old b.new }
{
    let all = all_of(b, lits)?;
    let id = tuple_of_cells(b, cells)?;
    Ok((id, all))
}

// An arrow from each edge to the cell at its place.
fn arrows(
    alloc: Global,
    edges: &[(Lit, CellId)],
    cells: &[CellId],
) -> Result<Vec<(Lit, CellId, CellId)>, AllocError>
    requires { length cells.now ≡ length edges.now }
    ensures { IfOk result (λ out. out.items ≡ arrows_between edges.now cells.now) }
{
    let mut out = Vec::new(alloc);
    for i in 0..edges.len() {
        let edge = edges[i];
        out.push((edge.0, edge.1, cells[i]))?;
    }
    Ok(out)
}

// At each edge a literal that is true where the edge is absent or its own literal is true.
#[tactic(auto, using(sat_formula::proofs::Extension::gates))]
fn implied(
    alloc: Global,
    formula: &mut Formula,
    edges: &[(Lit, CellId)],
    lits: &[Lit],
) -> Result<Vec<Lit>, AllocError>
    requires edges { AreNamed formula.old.vars edges.now }
    requires below { All (IsBelow formula.old.vars) lits.now }
    requires one_each { length lits.now ≡ length edges.now }
    ensures tell { IfOk result (λ out. TellWhereThere formula.new edges.now lits.now out.items) }
    ensures grows { Grows formula.old formula.new }
{
    let mut out = Vec::new(alloc);
    for i in 0..edges.len() {
        let edge = edges[i];
        let l = formula.or(edge.0.negated(), lits[i])?;
        out.push(l)?;
    }
    Ok(out)
}

// A literal that is true exactly where the literal at each edge that is there is.
#[tactic(auto, using(sat_formula::proofs::Extension::gates))]
fn all_where_there(
    alloc: Global,
    formula: &mut Formula,
    edges: &[(Lit, CellId)],
    lits: &[Lit],
) -> Result<Lit, AllocError>
    requires edges { AreNamed formula.old.vars edges.now }
    requires below { All (IsBelow formula.old.vars) lits.now }
    requires one_each { length lits.now ≡ length edges.now }
    ensures holds { IfOk result (λ l. HasValue formula.new l (λ a. hold_where_there a edges.now lits.now)) }
    ensures grows { Grows formula.old formula.new }
{
    let tests = implied(alloc, formula, edges, lits)?;
    let all = formula.and_all(alloc, tests.as_slice())?;
    Ok(all)
}

/// The function from the edges' members to the cells at their places, and a literal that is true exactly where the
/// literal at each edge that is there is. Of equal members the first counts.
#[tactic(auto, using(cell_arena::proofs::Growing::growing))]
pub(crate) fn function_from(
    b: &mut Build,
    edges: &[(Lit, CellId)],
    cells: &[CellId],
    lits: &[Lit],
) -> Result<(CellId, Lit), AllocError>
    requires { HaveArrows b.old edges.now cells.now lits.now }
    ensures makes { IfOk result (MakesFunction b.old b.new edges.now cells.now lits.now) }
    ensures grows { BuildGrows b.old b.new }
{
    let alloc = b.arena.alloc();
    let all = all_where_there(alloc, &mut b.formula, edges, lits)?;
    let list = arrows(alloc, edges, cells)?;
    let id = b.fun(List::from_vec(list))?;
    Ok((id, all))
}
