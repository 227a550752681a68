//! Edges and arrows for choices.

ghost use Rattle.cell_arena.specs.Growth.{Grows};
ghost use Rattle.member_choices.specs.inner.Tests.{AreImagesOf, CollectsCells, cells_of, choice_arrows, choice_edges};
ghost use Rattle.std.specs.Prelude.{◌≡◌, IfOk, length};

use crate::choice::Choice;
use cell_arena::{Build, CellId};
use outcome_cells::Cells;
use sat_formula::Lit;
use std::alloc::{AllocError, Global};
use typed_cells::set_of_joined_edges;

/// The cells of bodies alone.
pub(crate) fn cells_of(alloc: Global, bodies: &[Cells]) -> Result<Vec<CellId>, AllocError>
    ensures { IfOk result (λ ids. ids.items ≡ cells_of bodies.now) }
{
    bodies.iter().map(|x| x.cell).collect(alloc)
}

// An edge to each cell.
fn edges_to(alloc: Global, cs: &[Choice], ids: &[CellId]) -> Result<Vec<(Lit, CellId)>, AllocError>
    requires { length ids.now ≡ length cs.now }
    ensures { IfOk result (λ out. out.items ≡ choice_edges cs.now ids.now) }
{
    let mut out = Vec::new(alloc);
    for i in 0..cs.len() {
        out.push((cs[i].there, ids[i]))?;
    }
    Ok(out)
}

/// The set of the cells, each there where its choice is, with one edge for those that are alike.
#[tactic(auto, using(cell_arena::proofs::Growing::growing))]
pub(crate) fn set_of_cells(
    b: &mut Build,
    cs: &[Choice],
    ids: &[CellId],
) -> Result<CellId, AllocError>
    requires { AreImagesOf b.old.arena.kinds b.old.formula.vars cs.now ids.now }
    ensures collects { IfOk result (CollectsCells b.old b.new cs.now ids.now) }
    ensures grows { Grows b.old b.new }
{
    let edges = edges_to(b.arena.alloc(), cs, ids)?;
    let id = set_of_joined_edges(b, edges.as_slice())?;
    Ok(id)
}

/// An arrow for each choice, from the one cell to the other.
pub(crate) fn arrows_to(
    alloc: Global,
    cs: &[Choice],
    arguments: &[CellId],
    results: &[CellId],
) -> Result<Vec<(Lit, CellId, CellId)>, AllocError>
    requires arguments { length arguments.now ≡ length cs.now }
    requires results { length results.now ≡ length cs.now }
    ensures { IfOk result (λ out. out.items ≡ choice_arrows cs.now arguments.now results.now) }
{
    let mut out = Vec::new(alloc);
    for i in 0..cs.len() {
        out.push((cs[i].there, arguments[i], results[i]))?;
    }
    Ok(out)
}
