//! Cells of constants.

ghost use Rattle.std.specs.Prelude.{◌<◌, ◌≤◌, ◌^◌, All, IfOk, length};
ghost use Rattle.cell_arena.specs.Growth.{Grows};

use cell_arena::{Build, CellId};
use std::alloc::{AllocError, Global};
use tla_values::List;
use word_blaster::literal;

/// The number.
#[tactic(auto, using(cell_arena::proofs::Growing::growing))]
pub fn int(alloc: Global, b: &mut Build, n: i128) -> Result<CellId, AllocError>
    ensures there { IfOk result (λ id. id.index < length b.new.arena.kinds) }
    ensures grows { Grows b.old b.new }
{
    let width = b.width();
    let (word, _) = literal(alloc, &mut b.formula, n, width)?;
    let id = b.word(word)?;
    Ok(id)
}

/// The text with the index.
#[tactic(auto, using(cell_arena::proofs::Growing::growing))]
pub fn text(alloc: Global, b: &mut Build, index: usize) -> Result<CellId, AllocError>
    requires { index < length b.old.arena.texts }
    ensures there { IfOk result (λ id. id.index < length b.new.arena.kinds) }
    ensures grows { Grows b.old b.new }
{
    let (code, _) = literal(alloc, &mut b.formula, index as i128, 32)?;
    let id = b.text(code)?;
    Ok(id)
}

/// The sequence of the first places.
#[tactic(auto, using(cell_arena::proofs::Growing::growing))]
pub fn seq(
    alloc: Global,
    b: &mut Build,
    count: usize,
    places: List<CellId>,
) -> Result<CellId, AllocError>
    requires all { count ≤ length places }
    requires few { length places < 2 ^ 31 }
    requires older { All (λ p. p.index < length b.old.arena.kinds) places }
    ensures there { IfOk result (λ id. id.index < length b.new.arena.kinds) }
    ensures grows { Grows b.old b.new }
{
    let (word, _) = literal(alloc, &mut b.formula, count as i128, 32)?;
    let id = b.seq(word, places)?;
    Ok(id)
}
