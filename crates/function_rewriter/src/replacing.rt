//! A composite with another part.

ghost use Rattle.cell_arena.specs.Cells.{kind_at};
ghost use Rattle.cell_arena.specs.Growth.{Grows};
ghost use Rattle.cell_merge.specs.Composites.{parts_of};
ghost use Rattle.function_rewriter.specs.inner.Places.{HasPlace, Replaces};
ghost use Rattle.std.specs.Prelude.{◌<◌, ◌≡◌, IfOk, length};

use cell_arena::{Arena, Build, CellId};
use cell_merge::{part_at, part_count, with_parts};
use std::alloc::AllocError;

// The parts of the record or tuple.
fn copy_parts(arena: &Arena, id: CellId) -> Result<Vec<CellId>, AllocError>
    requires { id.index < length arena.now.kinds }
    ensures { IfOk result (λ parts. parts.items ≡ parts_of (kind_at arena.now.kinds id)) }
{
    let count = part_count(arena, id);
    let mut parts = Vec::new(arena.alloc());
    for place in 0..count {
        let part = part_at(arena, id, place);
        parts.push(part)?;
    }
    Ok(parts)
}

// The record or tuple with another part at the place.
#[tactic(auto, using(cell_arena::proofs::Growing::growing))]
pub(crate) fn replace_part(
    b: &mut Build,
    id: CellId,
    place: usize,
    part: CellId,
) -> Result<CellId, AllocError>
    requires place { HasPlace b.old.arena.kinds id place }
    requires there { part.index < length b.old.arena.kinds }
    ensures made { IfOk result (Replaces b.old b.new id place part) }
    ensures grows { Grows b.old b.new }
{
    let mut parts = copy_parts(&b.arena, id)?;
    parts[place] = part;
    let made = with_parts(b, id, parts)?;
    Ok(made)
}
