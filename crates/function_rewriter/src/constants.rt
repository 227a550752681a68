//! Cells of known values.

ghost use Rattle.cell_arena.specs.Growth.{Grows};
ghost use Rattle.cell_merge.specs.Sorts.{name, number};
ghost use Rattle.function_rewriter.specs.inner.Constants.{ConstantEdges, IsConstant, numbers_from};
ghost use Rattle.std.specs.Prelude.{◌+◌, ◌<◌, ◌≤◌, ℕ, All, IfOk, IsTrue, [], length, map, pos, slice_index_or};
ghost use Rattle.tla_values.specs.Integers.{fits_width};

use cell_arena::{Build, CellId};
use sat_formula::Lit;
use std::alloc::AllocError;
use tla_values::Value;
use word_blaster::literal;

// The text at the index.
#[tactic(auto, using(cell_arena::proofs::Growing::growing))]
fn text_cell(b: &mut Build, index: usize) -> Result<CellId, AllocError>
    requires { index < length b.old.arena.texts }
    ensures text { IfOk result (IsConstant b.new name (Value.Text (slice_index_or b.old.arena.texts index []))) }
    ensures grows { Grows b.old b.new }
{
    let (code, _) = literal(b.arena.alloc(), &mut b.formula, index as i128, 32)?;
    let id = b.text(code)?;
    Ok(id)
}

// The number.
#[tactic(auto, using(cell_arena::proofs::Growing::growing))]
fn number_cell(b: &mut Build, n: usize) -> Result<CellId, AllocError>
    requires { IsTrue (fits_width b.old.arena.width (pos n)) }
    ensures number { IfOk result (IsConstant b.new number (Value.Int (pos n))) }
    ensures grows { Grows b.old b.new }
{
    let width = b.width();
    let (word, _) = literal(b.arena.alloc(), &mut b.formula, n as i128, width)?;
    let id = b.word(word)?;
    Ok(id)
}

// Edges to the texts at the indexes.
#[tactic(auto, using(cell_arena::proofs::Growing::growing))]
pub(crate) fn text_edges(b: &mut Build, indexes: &[usize]) -> Result<Vec<(Lit, CellId)>, AllocError>
    requires { All (λ i. i < length b.old.arena.texts) indexes.now }
    ensures edges { IfOk result (λ es. ConstantEdges b.new name (map (λ i. Value.Text (slice_index_or b.old.arena.texts i [])) indexes.now) es.items) }
    ensures grows { Grows b.old b.new }
{
    let top = b.formula.top();
    let mut edges = Vec::new(b.arena.alloc());
    for index in indexes {
        let id = text_cell(b, *index)?;
        edges.push((top, id))?;
    }
    Ok(edges)
}

// Edges to the numbers from 1 on, so many.
#[tactic(auto, using(cell_arena::proofs::Growing::growing))]
pub(crate) fn number_edges(b: &mut Build, count: usize) -> Result<Vec<(Lit, CellId)>, AllocError>
    requires { IsTrue (fits_width b.old.arena.width (pos count)) }
    ensures edges { IfOk result (λ es. ConstantEdges b.new number (numbers_from 1 count) es.items) }
    ensures grows { Grows b.old b.new }
{
    let top = b.formula.top();
    let mut edges = Vec::new(b.arena.alloc());
    for i in 0..count {
        let id = number_cell(b, i + 1)?;
        edges.push((top, id))?;
    }
    Ok(edges)
}
