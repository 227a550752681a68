//! The items of tuples.

ghost use Rattle.cell_arena.specs.Growth.{Grows};
ghost use Rattle.function_rewriter.specs.Functions.{HasItem, IsItem, SetsItem};
ghost use Rattle.std.specs.Prelude.{◌<◌, IfOk, length};

use crate::replacing::replace_part;
use cell_arena::{Build, CellId};
use cell_merge::part_at;
use std::alloc::AllocError;

/// The tuple's item of the number, from 1. It takes no memory.
pub fn item(b: &Build, t: CellId, i: usize) -> CellId
    requires { HasItem b.now.arena.kinds t i }
    ensures { IsItem b.now t i result }
{
    part_at(&b.arena, t, i - 1)
}

/// The tuple with another cell as its item of the number, from 1.
#[tactic(auto, using(cell_arena::proofs::Growing::growing))]
pub fn with_item(b: &mut Build, t: CellId, i: usize, v: CellId) -> Result<CellId, AllocError>
    requires item { HasItem b.old.arena.kinds t i }
    requires there { v.index < length b.old.arena.kinds }
    ensures made { IfOk result (SetsItem b.old b.new t i v) }
    ensures grows { Grows b.old b.new }
{
    let made = replace_part(b, t, i - 1, v)?;
    Ok(made)
}
