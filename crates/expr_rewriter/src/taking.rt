//! The operands of a node, by their number.

ghost use Rattle.std.specs.Prelude.{◌∷◌, ◌≡◌, [], IfOk, IfSome, map};

use cell_arena::CellId;
use outcome_cells::Cells;
use std::alloc::{AllocError, Global};

// The only one.
pub(crate) fn one(parts: &[Cells]) -> Option<Cells>
    ensures { IfSome result (λ x. parts.now ≡ x ∷ []) }
{
    match parts {
        [x] => Some(*x),
        _ => None,
    }
}

// Both of two.
pub(crate) fn two(parts: &[Cells]) -> Option<(Cells, Cells)>
    ensures { IfSome result (λ r. parts.now ≡ r.0 ∷ r.1 ∷ []) }
{
    match parts {
        [x, y] => Some((*x, *y)),
        _ => None,
    }
}

// All of three.
pub(crate) fn three(parts: &[Cells]) -> Option<(Cells, Cells, Cells)>
    ensures { IfSome result (λ r. parts.now ≡ r.0 ∷ r.1 ∷ r.2 ∷ []) }
{
    match parts {
        [x, y, z] => Some((*x, *y, *z)),
        _ => None,
    }
}

// The cells alone, without their literals.
pub(crate) fn ids_of(alloc: Global, parts: &[Cells]) -> Result<Vec<CellId>, AllocError>
    ensures { IfOk result (λ r. r.items ≡ map (λ x. x.cell) parts.now) }
{
    parts.iter().map(|x| x.cell).collect(alloc)
}
