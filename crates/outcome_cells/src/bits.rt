//! The literals of truth values.

ghost use Rattle.cell_arena.specs.Decode.{decode};
ghost use Rattle.cell_merge.specs.Sorts.{OfSort, truth};
ghost use Rattle.outcome_cells.specs.Bits.{AreBits};
ghost use Rattle.sat_formula.specs.Lit.{lit_value};
ghost use Rattle.std.specs.Prelude.{◌<◌, ◌≡◌, All, Bool, IfOk, List};
ghost use Rattle.tla_values.specs.declared.value.Value.TheVariants as value;

use crate::cells::Cells;
use cell_arena::{Arena, CellId, CellKind};
use sat_formula::Lit;
use std::alloc::{AllocError, Global};

/// The literal of a truth value. It takes no memory.
pub fn bit_of(arena: &Arena, id: CellId) -> Lit
    requires { OfSort arena.now.kinds truth id }
    ensures below { result.var < arena.now.vars }
    ensures value { (a : List Bool) → decode arena.now a id ≡ value.Bool (lit_value result a) }
{
    match arena.kind(id) {
        CellKind::Bit(l) => *l,
        _ => Lit { var: 0, neg: false },
    }
}

/// The literal of each of the truth values, whether there is a fault in its place or not.
pub fn bits_of(alloc: Global, arena: &Arena, xs: &[Cells]) -> Result<Vec<Lit>, AllocError>
    requires { All (λ x. OfSort arena.now.kinds truth x.cell) xs.now }
    ensures { IfOk result (λ r. AreBits arena.now xs.now r.items) }
{
    let mut bits = Vec::new(alloc);
    for x in xs {
        bits.push(bit_of(arena, x.cell))?;
    }
    Ok(bits)
}
