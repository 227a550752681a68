//! How many members a set has.

ghost use Rattle.cell_arena.specs.Decode.{decode, present};
ghost use Rattle.cell_arena.specs.Growth.{Grows as BuildGrows};
ghost use Rattle.cell_merge.specs.Edges.{OneSort, any_edge};
ghost use Rattle.cell_merge.specs.Picks.{IsSetCell};
ghost use Rattle.cell_merge.specs.Sorts.{IsOver};
ghost use Rattle.sat_formula.specs.Formula.{Grows, HasValue};
ghost use Rattle.set_rewriter.specs.Counts.{Counts};
ghost use Rattle.set_rewriter.specs.inner.Steps.{CellAndEdges, CountsEdges};
ghost use Rattle.std.specs.Prelude.{◌<◌, IfOk, length, pos};
ghost use Rattle.tla_values.specs.Order.{same_value};
ghost use Rattle.tla_values.specs.Sets.{set_of};
ghost use Rattle.word_blaster.specs.Word.{IsExact};

use cell_arena::{Arena, Build, CellId, CellKind};
use cell_merge::{join_alike, same_in};
use sat_formula::{Formula, Lit, Word};
use std::alloc::AllocError;
use word_blaster::{add_bit, natural};

// Whether the cell has the value of an edge that is there.
#[tactic(auto, using(sat_formula::proofs::Extension::gates, cell_merge::proofs::Names::over))]
fn stands_among(
    arena: &Arena,
    formula: &mut Formula,
    cell: CellId,
    edges: &[(Lit, CellId)],
) -> Result<Lit, AllocError>
    requires over { IsOver arena.now formula.old }
    requires edges { CellAndEdges arena.now.kinds formula.old.vars cell edges.now }
    ensures value { IfOk result (λ l. HasValue formula.new l (λ a. any_edge a (decode arena.now a) (same_value (decode arena.now a cell)) edges.now)) }
    ensures grows { Grows formula.old formula.new }
{
    let mut any = formula.top().negated();
    for (l, e) in edges {
        let one = same_in(arena, formula, cell, *e)?;
        let holds = formula.and(*l, one)?;
        any = formula.or(any, holds)?;
    }
    Ok(any)
}

// The number of members, in bits. An edge counts where it is there, and no earlier edge is that has
// its value.
#[tactic(auto, using(sat_formula::proofs::Extension::gates, cell_merge::proofs::Names::over))]
fn count_edges(
    arena: &Arena,
    formula: &mut Formula,
    edges: &[(Lit, CellId)],
) -> Result<Vec<Lit>, AllocError>
    requires over { IsOver arena.now formula.old }
    requires edges { OneSort arena.now.kinds formula.old.vars edges.now }
    ensures counts { IfOk result (λ bits. CountsEdges arena.now formula.new edges.now bits.items) }
    ensures grows { Grows formula.old formula.new }
{
    let alloc = arena.alloc();
    let mut bits = Vec::new(alloc);
    for i in 0..edges.len() {
        let (l, e) = edges[i];
        let before = stands_among(arena, formula, e, &edges[..i])?;
        let first = formula.and(l, before.negated())?;
        bits = add_bit(alloc, formula, bits.as_slice(), first, i + 1)?;
    }
    Ok(bits)
}

// The number of members as a word, and whether it is outside of the width.
#[tactic(auto, using(sat_formula::proofs::Extension::gates))]
fn count_word(
    arena: &Arena,
    formula: &mut Formula,
    edges: &[(Lit, CellId)],
    width: u32,
) -> Result<(Word, Lit), AllocError>
    requires over { IsOver arena.now formula.old }
    requires edges { OneSort arena.now.kinds formula.old.vars edges.now }
    requires some { 0 < width }
    ensures exact { IfOk result (λ r. IsExact formula.new width r.0 r.1 (λ a. pos (length (set_of (present a (decode arena.now a) edges.now))))) }
    ensures grows { Grows formula.old formula.new }
{
    let distinct = join_alike(arena, formula, edges)?;
    let bits = count_edges(arena, formula, distinct.as_slice())?;
    let (word, outside) = natural(arena.alloc(), formula, bits.as_slice(), width)?;
    Ok((word, outside))
}

/// The number of members, each counted once, and a literal that is true where it is outside of the
/// width.
#[tactic(auto, using(cell_arena::proofs::Growing::growing))]
pub fn cardinality(b: &mut Build, set: CellId) -> Result<(CellId, Lit), AllocError>
    requires { IsSetCell b.old set }
    ensures counts { IfOk result (Counts b.old b.new set) }
    ensures grows { BuildGrows b.old b.new }
{
    let width = b.width();
    let CellKind::Set(es) = b.arena.kind(set) else {
        return Ok((set, b.formula.top()));
    };
    let (word, outside) = count_word(&b.arena, &mut b.formula, es.as_slice(), width)?;
    let id = b.word(word)?;
    Ok((id, outside))
}
