//! The arrows of functions.

ghost use Rattle.cell_arena.specs.Cells.{kind_at};
ghost use Rattle.cell_arena.specs.declared.kinds.CellId.{CellId as AnyCell};
ghost use Rattle.cell_merge.specs.Arrows.{argument_edges, arrows_of};
ghost use Rattle.sat_formula.specs.declared.lit.Lit.{Lit as AnyLit};
ghost use Rattle.std.specs.Prelude.{◌<◌, ◌≡◌, IfOk, length, slice_index_or};

use cell_arena::{Arena, CellId, CellKind};
use sat_formula::Lit;
use std::alloc::{AllocError, Global};

// The arrow of the function at a place, from 0.
pub(crate) fn arrow_at(arena: &Arena, f: CellId, place: usize) -> (Lit, CellId, CellId)
    requires there { f.index < length arena.now.kinds }
    requires within { place < length (arrows_of (kind_at arena.now.kinds f)) }
    ensures { (d : AnyLit × AnyCell × AnyCell) → result ≡ slice_index_or (arrows_of (kind_at arena.now.kinds f)) place d }
{
    match arena.kind(f) {
        CellKind::Fun(arrows) => arrows.as_slice()[place],
        _ => unreachable!(),
    }
}

// The edges to the arguments.
pub(crate) fn to_arguments(
    alloc: Global,
    arrows: &[(Lit, CellId, CellId)],
) -> Result<Vec<(Lit, CellId)>, AllocError>
    ensures { IfOk result (λ out. out.items ≡ argument_edges arrows.now) }
{
    arrows.iter().map(|e| (e.0, e.1)).collect(alloc)
}
