//! Sets of functions.

ghost use Rattle.cell_arena.specs.Growth.{Grows as BuildGrows};
ghost use Rattle.cell_merge.specs.Arrows.{ArrowsNamed};
ghost use Rattle.cell_merge.specs.Edges.{AreNamed};
ghost use Rattle.cell_merge.specs.Sorts.{IsOver};
ghost use Rattle.function_rewriter.specs.FunctionSets.{AreSetCells, IsFunctionSet};
ghost use Rattle.function_rewriter.specs.inner.Arrows.{IsSetIn};
ghost use Rattle.function_rewriter.specs.inner.Listings.{AddsEach, AddsFront, AddsMember, AreChoices, ChoicesFit, Extends, FunctionEdges, IsListing, ListsFunctions};
ghost use Rattle.sat_formula.specs.Formula.{Grows};
ghost use Rattle.std.specs.Prelude.{◌++◌, ◌<◌, ◌≡◌, ◌∷◌, IfOk, OnOk, [], length};

use crate::members::joined_members;
use cell_arena::{Arena, Build, CellId};
use cell_merge::known;
use sat_formula::{Formula, Lit};
use std::alloc::{AllocError, Global};
use tla_values::List;

// More choices: each of the choices with the arrows in front, and there where the literal is true. One
// that is then never there is left out.
#[tactic(auto, using(sat_formula::proofs::Extension::gates))]
fn add_front(
    alloc: Global,
    formula: &mut Formula,
    there: Lit,
    front: &[(Lit, CellId, CellId)],
    choices: &[(Lit, List<(Lit, CellId, CellId)>)],
    out: &mut Vec<(Lit, List<(Lit, CellId, CellId)>)>,
) -> Result<(), AllocError>
    requires below { there.var < formula.old.vars }
    requires front_named { ArrowsNamed formula.old.vars front.now }
    requires named { AreChoices formula.old.vars choices.now }
    requires out_named { AreChoices formula.old.vars out.old.items }
    ensures adds { OnOk result (AddsFront formula.new there front.now choices.now choices.now out.old.items out.new.items) }
    ensures grows { Grows formula.old formula.new }
{
    for choice in choices {
        let both = formula.and(choice.0, there)?;
        if let Some(false) = known(formula, both) {
            continue;
        }
        let arrows = put_in_front(alloc, front, choice.1.as_slice())?;
        out.push((both, arrows))?;
    }
    Ok(())
}

// The arrows with others in front.
fn put_in_front(
    alloc: Global,
    front: &[(Lit, CellId, CellId)],
    arrows: &[(Lit, CellId, CellId)],
) -> Result<List<(Lit, CellId, CellId)>, AllocError>
    ensures { IfOk result (λ all. all ≡ front.now ++ arrows.now) }
{
    let mut all = Vec::from_slice(alloc, front)?;
    all.extend_from_slice(arrows)?;
    Ok(List::from_vec(all))
}

// One arrow as a list.
fn one_arrow(
    alloc: Global,
    arrow: (Lit, CellId, CellId),
) -> Result<Vec<(Lit, CellId, CellId)>, AllocError>
    ensures { IfOk result (λ v. v.items ≡ arrow ∷ []) }
{
    let mut arrows = Vec::new(alloc);
    arrows.push(arrow)?;
    Ok(arrows)
}

// More choices: each of the choices with an arrow from the edge to the member.
#[tactic(auto, using(sat_formula::proofs::Extension::gates))]
fn add_member(
    alloc: Global,
    formula: &mut Formula,
    edge: (Lit, CellId),
    member: (Lit, CellId),
    choices: &[(Lit, List<(Lit, CellId, CellId)>)],
    out: &mut Vec<(Lit, List<(Lit, CellId, CellId)>)>,
) -> Result<(), AllocError>
    requires edge_below { edge.0.var < formula.old.vars }
    requires below { member.0.var < formula.old.vars }
    requires named { AreChoices formula.old.vars choices.now }
    requires out_named { AreChoices formula.old.vars out.old.items }
    ensures adds { OnOk result (AddsMember formula.new edge member choices.now out.old.items out.new.items) }
    ensures grows { Grows formula.old formula.new }
{
    let there = formula.or(edge.0.negated(), member.0)?;
    let front = one_arrow(alloc, (edge.0, edge.1, member.1))?;
    add_front(alloc, formula, there, front.as_slice(), choices, out)?;
    Ok(())
}

// Each of the choices with an arrow from the edge to each member.
#[tactic(auto, using(sat_formula::proofs::Extension::gates))]
fn add_each(
    alloc: Global,
    formula: &mut Formula,
    edge: (Lit, CellId),
    members: &[(Lit, CellId)],
    choices: &[(Lit, List<(Lit, CellId, CellId)>)],
) -> Result<Vec<(Lit, List<(Lit, CellId, CellId)>)>, AllocError>
    requires edge_below { edge.0.var < formula.old.vars }
    requires members_named { AreNamed formula.old.vars members.now }
    requires named { AreChoices formula.old.vars choices.now }
    ensures adds { IfOk result (λ out. AddsEach formula.new edge members.now members.now choices.now out.items) }
    ensures grows { Grows formula.old formula.new }
{
    let mut out = Vec::new(alloc);
    for member in members {
        add_member(alloc, formula, edge, *member, choices, &mut out)?;
    }
    Ok(out)
}

// The choices where the edge is not there.
#[tactic(auto, using(sat_formula::proofs::Extension::gates))]
fn keep_absent(
    alloc: Global,
    formula: &mut Formula,
    edge: (Lit, CellId),
    choices: &[(Lit, List<(Lit, CellId, CellId)>)],
) -> Result<Vec<(Lit, List<(Lit, CellId, CellId)>)>, AllocError>
    requires below { edge.0.var < formula.old.vars }
    requires named { AreChoices formula.old.vars choices.now }
    ensures extends { IfOk result (λ out. Extends formula.new edge [] choices.now out.items) }
    ensures grows { Grows formula.old formula.new }
{
    let mut out = Vec::new(alloc);
    let front = Vec::new(alloc);
    let absent = edge.0.negated();
    add_front(alloc, formula, absent, front.as_slice(), choices, &mut out)?;
    Ok(out)
}

// The choices where the edge is there with an arrow from it to each member. Where there is no member,
// those stay where it is not there.
#[tactic(auto, using(sat_formula::proofs::Extension::gates))]
fn extend(
    alloc: Global,
    formula: &mut Formula,
    edge: (Lit, CellId),
    members: &[(Lit, CellId)],
    choices: &[(Lit, List<(Lit, CellId, CellId)>)],
) -> Result<Vec<(Lit, List<(Lit, CellId, CellId)>)>, AllocError>
    requires edge_below { edge.0.var < formula.old.vars }
    requires members_named { AreNamed formula.old.vars members.now }
    requires named { AreChoices formula.old.vars choices.now }
    ensures extends { IfOk result (λ out. Extends formula.new edge members.now choices.now out.items) }
    ensures grows { Grows formula.old formula.new }
{
    if members.len() == 0 {
        let kept = keep_absent(alloc, formula, edge, choices)?;
        return Ok(kept);
    }
    let each = add_each(alloc, formula, edge, members, choices)?;
    Ok(each)
}

// All ways to give each member of the edges one of the members.
#[tactic(auto, using(sat_formula::proofs::Extension::gates))]
fn list_choices(
    alloc: Global,
    formula: &mut Formula,
    edges: &[(Lit, CellId)],
    members: &[(Lit, CellId)],
) -> Result<Vec<(Lit, List<(Lit, CellId, CellId)>)>, AllocError>
    requires edges_named { AreNamed formula.old.vars edges.now }
    requires members_named { AreNamed formula.old.vars members.now }
    ensures listing { IfOk result (λ out. IsListing formula.new edges.now edges.now members.now out.items) }
    ensures grows { Grows formula.old formula.new }
{
    let count = edges.len();
    let mut choices = Vec::new(alloc);
    choices.push((formula.top(), List::new(alloc)))?;
    for i in 0..count {
        let edge = edges[count - 1 - i];
        choices = extend(alloc, formula, edge, members, choices.as_slice())?;
    }
    Ok(choices)
}

// The functions from the one set to the other, as lists of arrows.
#[tactic(auto, using(sat_formula::proofs::Extension::gates, cell_merge::proofs::Names::over))]
fn function_choices(
    arena: &Arena,
    formula: &mut Formula,
    from: CellId,
    to: CellId,
) -> Result<Vec<(Lit, List<(Lit, CellId, CellId)>)>, AllocError>
    requires over { IsOver arena.now formula.old }
    requires from_set { IsSetIn arena.now.kinds from }
    requires to_set { IsSetIn arena.now.kinds to }
    ensures lists { IfOk result (λ out. ListsFunctions arena.now formula.new from to out.items) }
    ensures grows { Grows formula.old formula.new }
{
    let edges = joined_members(arena, formula, from)?;
    let members = joined_members(arena, formula, to)?;
    let front = edges.as_slice();
    let rest = members.as_slice();
    let choices = list_choices(arena.alloc(), formula, front, rest)?;
    Ok(choices)
}

// Edges to the functions of the choices.
#[tactic(auto, using(cell_arena::proofs::Growing::growing))]
fn function_edges(
    b: &mut Build,
    choices: &[(Lit, List<(Lit, CellId, CellId)>)],
) -> Result<Vec<(Lit, CellId)>, AllocError>
    requires { ChoicesFit b.old choices.now }
    ensures edges { IfOk result (λ out. FunctionEdges b.old b.new choices.now (length choices.now) out.items) }
    ensures grows { BuildGrows b.old b.new }
{
    let alloc = b.arena.alloc();
    let mut edges = Vec::new(alloc);
    for choice in choices {
        let arrows = Vec::from_slice(alloc, choice.1.as_slice())?;
        let id = b.fun(List::from_vec(arrows))?;
        edges.push((choice.0, id))?;
    }
    Ok(edges)
}

/// All functions from the one set to the other. Of n members of the first and p of the second, of which
/// no two are alike, it makes p^n + 1 cells at most. Where the first set is empty, its one member is the
/// empty function, whatever edges the two cells have.
#[tactic(auto, using(cell_arena::proofs::Growing::growing))]
pub fn functions(b: &mut Build, from: CellId, to: CellId) -> Result<CellId, AllocError>
    requires { AreSetCells b.old from to }
    ensures set { IfOk result (IsFunctionSet b.old b.new from to) }
    ensures grows { BuildGrows b.old b.new }
{
    let choices = function_choices(&b.arena, &mut b.formula, from, to)?;
    let edges = function_edges(b, choices.as_slice())?;
    let id = b.set(List::from_vec(edges))?;
    Ok(id)
}
