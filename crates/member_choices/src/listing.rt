//! One member from each of several sets, in every way.

ghost use Rattle.cell_arena.specs.Cells.{Cells as AnyArena};
ghost use Rattle.cell_arena.specs.Growth.{Grows as BuildGrows};
ghost use Rattle.cell_merge.specs.Edges.{AreNamed};
ghost use Rattle.cell_merge.specs.Picks.{IsSetCell};
ghost use Rattle.cell_merge.specs.Sorts.{IsOver};
ghost use Rattle.member_choices.specs.Choices.{ChoicesBelow, ListsChoices};
ghost use Rattle.member_choices.specs.inner.Listings.{AddsEdges, AddsFront, AddsSet, IsSetIn};
ghost use Rattle.sat_formula.specs.Formula.{Grows};
ghost use Rattle.std.specs.Prelude.{[], ◌∷◌, ◌<◌, ◌≡◌, All, IfOk, OnOk};

use crate::choice::Choice;
use cell_arena::{Arena, Build, CellId, CellKind};
use cell_merge::known;
use sat_formula::{Formula, Lit};
use std::alloc::{AllocError, Global};
use tla_values::List;

// The cells with another one in front.
fn put_in_front(alloc: Global, cell: CellId, cells: &[CellId]) -> Result<List<CellId>, AllocError>
    ensures { IfOk result (λ all. all ≡ cell ∷ cells.now) }
{
    let mut all = Vec::new(alloc);
    all.push(cell)?;
    all.extend_from_slice(cells)?;
    Ok(List::from_vec(all))
}

// More choices: each of the choices with the edge's cell in front. One that is then never there is left out.
#[tactic(auto, using(sat_formula::proofs::Extension::gates))]
fn add_front(
    alloc: Global,
    formula: &mut Formula,
    edge: (Lit, CellId),
    choices: &[Choice],
    out: &mut Vec<Choice>,
) -> Result<(), AllocError>
    requires edge_below { edge.0.var < formula.old.vars }
    requires below { ChoicesBelow formula.old.vars choices.now }
    requires out_below { ChoicesBelow formula.old.vars out.old.items }
    ensures adds { OnOk result (AddsFront formula.new edge choices.now choices.now out.old.items out.new.items) }
    ensures grows { Grows formula.old formula.new }
{
    for choice in choices {
        let there = formula.and(choice.there, edge.0)?;
        if let Some(false) = known(formula, there) {
            continue;
        }
        let cells = put_in_front(alloc, edge.1, choice.cells.as_slice())?;
        out.push(Choice { there, cells })?;
    }
    Ok(())
}

// Each of the choices with the cell of each edge in front.
#[tactic(auto, using(sat_formula::proofs::Extension::gates))]
fn add_edges(
    alloc: Global,
    formula: &mut Formula,
    edges: &[(Lit, CellId)],
    choices: &[Choice],
) -> Result<Vec<Choice>, AllocError>
    requires named { AreNamed formula.old.vars edges.now }
    requires below { ChoicesBelow formula.old.vars choices.now }
    ensures adds { IfOk result (λ out. AddsEdges formula.new edges.now edges.now choices.now out.items) }
    ensures grows { Grows formula.old formula.new }
{
    let mut out = Vec::new(alloc);
    for edge in edges {
        add_front(alloc, formula, *edge, choices, &mut out)?;
    }
    Ok(out)
}

// Each of the choices with each member of the set in front.
#[tactic(auto, using(sat_formula::proofs::Extension::gates))]
fn add_set(
    arena: &Arena,
    formula: &mut Formula,
    set: CellId,
    choices: &[Choice],
) -> Result<Vec<Choice>, AllocError>
    requires over { IsOver arena.now formula.old }
    requires set { IsSetIn arena.now.kinds set }
    requires below { ChoicesBelow formula.old.vars choices.now }
    ensures adds { IfOk result (λ out. AddsSet arena.now formula.new set choices.now out.items) }
    ensures grows { Grows formula.old formula.new }
{
    let CellKind::Set(edges) = arena.kind(set) else {
        return Err(AllocError);
    };
    let out = add_edges(arena.alloc(), formula, edges.as_slice(), choices)?;
    Ok(out)
}

// The choice from no set.
fn no_choice(alloc: Global, formula: &Formula) -> Result<Vec<Choice>, AllocError>
    ensures { IfOk result (λ out. (c : AnyArena) → ListsChoices c formula.now [] out.items) }
{
    let mut out = Vec::new(alloc);
    out.push(Choice {
        there: formula.top(),
        cells: List::new(alloc),
    })?;
    Ok(out)
}

// The choices of members of the sets.
#[tactic(auto, using(sat_formula::proofs::Extension::gates, cell_merge::proofs::Names::over))]
fn list_choices(
    arena: &Arena,
    formula: &mut Formula,
    sets: &[CellId],
) -> Result<Vec<Choice>, AllocError>
    requires over { IsOver arena.now formula.old }
    requires sets { All (IsSetIn arena.now.kinds) sets.now }
    ensures lists { IfOk result (λ out. ListsChoices arena.now formula.new sets.now out.items) }
    ensures grows { Grows formula.old formula.new }
{
    let alloc = arena.alloc();
    let count = sets.len();
    let mut choices = no_choice(alloc, formula)?;
    for i in 0..count {
        let more = add_set(arena, formula, sets[count - 1 - i], choices.as_slice())?;
        choices = more;
    }
    Ok(choices)
}

/// One member from each of the sets, in every way: of no set the one choice of no members. An edge that is never
/// there is passed over; members that are alike make a choice each. It makes no cell.
#[tactic(auto, using(cell_arena::proofs::Growing::growing))]
pub fn choices(b: &mut Build, sets: &[CellId]) -> Result<Vec<Choice>, AllocError>
    requires { All (IsSetCell b.old) sets.now }
    ensures lists { IfOk result (λ out. ListsChoices b.new.arena b.new.formula sets.now out.items) }
    ensures grows { BuildGrows b.old b.new }
{
    let out = list_choices(&b.arena, &mut b.formula, sets)?;
    Ok(out)
}
