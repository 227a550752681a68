//! Functions and sequences at an argument, and functions joined.

ghost use Rattle.cell_arena.specs.Growth.{Grows};
ghost use Rattle.cell_merge.specs.Sorts.{FunctionsOfOneType, OfSort, Sort, function_of};
ghost use Rattle.function_operators.specs.Operands.{HasRow};
ghost use Rattle.function_operators.specs.Parts.{HasPart, Indexed};
ghost use Rattle.kernel_trees.specs.TypeKinds.{Kind, kind_of};
ghost use Rattle.outcome_cells.specs.Shows.{AreCells};
ghost use Rattle.std.specs.Prelude.{◌≡◌, IfOk, [], ◌∷◌};
ghost use Rattle.tla_meaning.specs.declared.op.Op.TheVariants as op;
ghost use Rattle.typed_cells.specs.KindSorts.{sort_of};
ghost use Rattle.typed_cells.specs.Known.{IsTextAmong};

use crate::index::Index;
use crate::parts::{find, or_default};
use cell_arena::{Build, CellId};
use function_rewriter::join as join_functions;
use outcome_cells::{Cells, sure};
use snowcat_rows::Ty;
use std::alloc::AllocError;

/// What a function gives at an argument, or a sequence at a number, and Wrong where this is outside
/// of its domain. The type is that of the results; the empty text is one of the build's.
/// (Specifying Systems, section 16.1.7.)
#[tactic(auto, using(cell_arena::proofs::Growing::growing))]
pub fn at(b: &mut Build, f: CellId, x: CellId, ty: &Ty) -> Result<Cells, AllocError>
    requires index { Indexed b.old.arena.kinds f (Index.Cell x) }
    requires text { IsTextAmong b.old.arena.texts [] }
    ensures row { IfOk result (HasRow b.old b.new op.Apply (f ∷ x ∷ [])) }
    ensures cells { IfOk result (λ r. (whole : Sort) (k : Kind) → OfSort b.old.arena.kinds whole f →
        HasPart b.old.arena.kinds (Index.Cell x) whole (sort_of k) → kind_of ty.now ≡ Some k →
        AreCells b.new (sort_of k) r) }
    ensures grows { Grows b.old b.new }
{
    let found = find(b, f, Index::Cell(x))?;
    let cells = or_default(b, found, ty)?;
    Ok(cells)
}

/// The function of both: where both have an argument, the first gives the result. (Specifying
/// Systems, section 14.4, for `@@`.)
#[tactic(auto, using(cell_arena::proofs::Growing::growing))]
pub fn join(b: &mut Build, f: CellId, g: CellId) -> Result<Cells, AllocError>
    requires { FunctionsOfOneType b.old.arena.kinds f g }
    ensures row { IfOk result (HasRow b.old b.new op.Merge (f ∷ g ∷ [])) }
    ensures cells { IfOk result (λ r. (s t : Sort) → OfSort b.old.arena.kinds (function_of s t) f →
        OfSort b.old.arena.kinds (function_of s t) g → AreCells b.new (function_of s t) r) }
    ensures grows { Grows b.old b.new }
{
    let id = join_functions(b, f, g)?;
    Ok(sure(b, id))
}
