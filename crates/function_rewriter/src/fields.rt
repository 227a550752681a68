//! The fields of records.

ghost use Rattle.cell_arena.specs.Growth.{Grows};
ghost use Rattle.function_rewriter.specs.Functions.{HasField, IsField, SetsField};
ghost use Rattle.function_rewriter.specs.inner.Places.{Finds, StandsAt};
ghost use Rattle.std.specs.Prelude.{◌<◌, IfOk, length};

use crate::replacing::replace_part;
use cell_arena::{Arena, Build, CellId, CellKind};
use cell_merge::part_at;
use std::alloc::AllocError;
use tla_values::{Text, same_text};

// The first place of the name.
fn find(fields: &[(Text, CellId)], name: &Text) -> usize
    ensures { Finds fields.now name.now result }
{
    for i in 0..fields.len() {
        if same_text(&fields[i].0, name) {
            return i;
        }
    }
    0
}

// The place of the record's field of the name.
fn place_of(arena: &Arena, r: CellId, name: &Text) -> usize
    requires { HasField arena.now.kinds r name.now }
    ensures { StandsAt arena.now.kinds r name.now result }
{
    if let CellKind::Rec(fields) = arena.kind(r) {
        return find(fields.as_slice(), name);
    }
    0
}

/// What the record has at the name. It takes no memory.
pub fn field(b: &Build, r: CellId, name: &Text) -> CellId
    requires { HasField b.now.arena.kinds r name.now }
    ensures { IsField b.now r name.now result }
{
    let place = place_of(&b.arena, r, name);
    part_at(&b.arena, r, place)
}

/// The record with another cell at the name.
#[tactic(auto, using(cell_arena::proofs::Growing::growing))]
pub fn with_field(b: &mut Build, r: CellId, name: &Text, v: CellId) -> Result<CellId, AllocError>
    requires field { HasField b.old.arena.kinds r name.now }
    requires there { v.index < length b.old.arena.kinds }
    ensures made { IfOk result (SetsField b.old b.new r name.now v) }
    ensures grows { Grows b.old b.new }
{
    let place = place_of(&b.arena, r, name);
    let made = replace_part(b, r, place, v)?;
    Ok(made)
}
