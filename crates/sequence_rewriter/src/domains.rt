//! The domains of sequences.

ghost use Rattle.cell_arena.specs.Growth.{Grows as BuildGrows};
ghost use Rattle.sequence_rewriter.specs.Sequences.{IsDomainCell, IsSequenceCell};
ghost use Rattle.sequence_rewriter.specs.inner.Domains.{CountsTo, IsCountedEdge, IsNumberCell};
ghost use Rattle.std.specs.Prelude.{◌+◌, ◌^◌, ◌<◌, IfOk};
ghost use Rattle.word_blaster.specs.Word.{WordBelow};

use crate::lengths::length_bits;
use cell_arena::{Build, CellId};
use cell_merge::part_count;
use sat_formula::Lit;
use std::alloc::AllocError;
use tla_values::List;
use word_blaster::{is_above, literal, natural};

// The number, where it fits the width.
#[tactic(auto, using(cell_arena::proofs::Growing::growing))]
fn number_cell(b: &mut Build, n: usize) -> Result<CellId, AllocError>
    ensures number { IfOk result (IsNumberCell b.new n) }
    ensures grows { BuildGrows b.old b.new }
{
    let width = b.width();
    let (word, _) = literal(b.arena.alloc(), &mut b.formula, n as i128, width)?;
    let id = b.word(word)?;
    Ok(id)
}

// An edge to the number of the place, which is there where the number of the bits is above the place.
#[tactic(auto, using(cell_arena::proofs::Growing::growing))]
fn counted_edge(b: &mut Build, bits: &[Lit], place: usize) -> Result<(Lit, CellId), AllocError>
    requires below { WordBelow b.old.formula.vars bits.now }
    requires small { place + 1 < 2 ^ 64 }
    ensures edge { IfOk result (IsCountedEdge b.new bits.now place) }
    ensures grows { BuildGrows b.old b.new }
{
    let above = is_above(&mut b.formula, bits, place)?;
    let id = number_cell(b, place + 1)?;
    Ok((above, id))
}

// Edges to the numbers from 1 on, so many, of which the first ones are there, as many as the bits say.
#[tactic(auto, using(cell_arena::proofs::Growing::growing))]
fn counted_edges(
    b: &mut Build,
    bits: &[Lit],
    count: usize,
) -> Result<Vec<(Lit, CellId)>, AllocError>
    requires { WordBelow b.old.formula.vars bits.now }
    ensures edges { IfOk result (λ es. CountsTo b.new bits.now count es.items) }
    ensures grows { BuildGrows b.old b.new }
{
    let mut edges = Vec::new(b.arena.alloc());
    for p in 0..count {
        let edge = counted_edge(b, bits, p)?;
        edges.push(edge)?;
    }
    Ok(edges)
}

/// The set of the numbers from 1 to the length, and a literal that is true where the length is outside
/// of the width.
#[tactic(auto, using(cell_arena::proofs::Growing::growing))]
pub fn seq_domain(b: &mut Build, s: CellId) -> Result<(CellId, Lit), AllocError>
    requires { IsSequenceCell b.old.arena.kinds s }
    ensures domain { IfOk result (IsDomainCell b.old b.new s) }
    ensures grows { BuildGrows b.old b.new }
{
    let width = b.width();
    let bits = length_bits(b, s)?;
    let (_, outside) = natural(b.arena.alloc(), &mut b.formula, bits.as_slice(), width)?;
    let count = part_count(&b.arena, s);
    let edges = counted_edges(b, bits.as_slice(), count)?;
    let id = b.set(List::from_vec(edges))?;
    Ok((id, outside))
}
