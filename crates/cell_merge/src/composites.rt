//! Records, tuples and sequences by their parts.

ghost use Rattle.cell_arena.specs.Cells.{kind_at};
ghost use Rattle.cell_arena.specs.Growth.{Grows};
ghost use Rattle.cell_arena.specs.declared.kinds.CellId.{CellId as AnyCell};
ghost use Rattle.cell_merge.specs.Composites.{FitsParts, IsWithParts, parts_of};
ghost use Rattle.cell_merge.specs.inner.Composites.{IsCommon};
ghost use Rattle.std.specs.List.{zip};
ghost use Rattle.std.specs.Prelude.{◌<◌, ◌≡◌, IfOk, length, map, slice_index_or};

use cell_arena::{Arena, Build, CellId, CellKind};
use std::alloc::{AllocError, Global};
use tla_values::{List, Text, copy_text};

/// How many parts the record or tuple has, or how many places the sequence. It takes no memory.
pub fn part_count(arena: &Arena, id: CellId) -> usize
    requires { id.index < length arena.now.kinds }
    ensures { result ≡ length (parts_of (kind_at arena.now.kinds id)) }
{
    match arena.kind(id) {
        CellKind::Rec(fields) => fields.as_slice().len(),
        CellKind::Tup(parts) => parts.as_slice().len(),
        CellKind::Seq(_, places) => places.as_slice().len(),
        _ => 0,
    }
}

/// The part of the record, tuple or sequence at a place, from 0. It takes no memory.
pub fn part_at(arena: &Arena, id: CellId, place: usize) -> CellId
    requires there { id.index < length arena.now.kinds }
    requires within { place < length (parts_of (kind_at arena.now.kinds id)) }
    ensures part { (d : AnyCell) → result ≡ slice_index_or (parts_of (kind_at arena.now.kinds id)) place d }
    ensures older { result.index < id.index }
{
    match arena.kind(id) {
        CellKind::Rec(fields) => fields.as_slice()[place].1,
        CellKind::Tup(parts) => parts.as_slice()[place],
        CellKind::Seq(_, places) => places.as_slice()[place],
        _ => id,
    }
}

/// How many places both cells have.
pub(crate) fn common_count(arena: &Arena, x: CellId, y: CellId) -> usize
    requires x_there { x.index < length arena.now.kinds }
    requires y_there { y.index < length arena.now.kinds }
    ensures { IsCommon arena.now.kinds x y result }
{
    let left = part_count(arena, x);
    let right = part_count(arena, y);
    if left < right {
        return left;
    }
    right
}

// The names of the fields, each with its part.
fn with_names(
    alloc: Global,
    fields: &[(Text, CellId)],
    parts: &[CellId],
) -> Result<Vec<(Text, CellId)>, AllocError>
    requires { length parts.now ≡ length fields.now }
    ensures { IfOk result (λ out. out.items ≡ zip (map (λ f. f.0) fields.now) parts.now) }
{
    let mut out = Vec::new(alloc);
    for i in 0..fields.len() {
        let name = copy_text(alloc, &fields[i].0)?;
        out.push((name, parts[i]))?;
    }
    Ok(out)
}

/// The record, with its names in their order, or the tuple with other parts.
#[tactic(auto, using(cell_arena::proofs::Growing::growing))]
pub fn with_parts(b: &mut Build, id: CellId, parts: Vec<CellId>) -> Result<CellId, AllocError>
    requires { FitsParts b.old.arena.kinds id parts.items }
    ensures made { IfOk result (IsWithParts b.old b.new id parts.items) }
    ensures grows { Grows b.old b.new }
{
    if let CellKind::Rec(fields) = b.arena.kind(id) {
        let named = with_names(b.arena.alloc(), fields.as_slice(), parts.as_slice())?;
        let made = b.rec(List::from_vec(named))?;
        return Ok(made);
    }
    let tuple = b.tup(List::from_vec(parts))?;
    Ok(tuple)
}
