//! The operators on sequences.

ghost use Rattle.cell_arena.specs.Growth.{Grows};
ghost use Rattle.cell_merge.specs.Sorts.{OfSort, SequencesOfOneType, Sort, number, sequence_of};
ghost use Rattle.function_operators.specs.Operands.{HasRow};
ghost use Rattle.kernel_trees.specs.TypeKinds.{Kind, kind_of};
ghost use Rattle.outcome_cells.specs.Shows.{AreCells};
ghost use Rattle.sequence_rewriter.specs.Sequences.{IsSequenceCell, SequenceAndItem, SequenceAndNumbers};
ghost use Rattle.std.specs.Prelude.{◌≡◌, IfOk, [], ◌∷◌};
ghost use Rattle.tla_meaning.specs.declared.op.Op.TheVariants as op;
ghost use Rattle.typed_cells.specs.KindSorts.{sort_of};
ghost use Rattle.typed_cells.specs.Known.{IsTextAmong};

use crate::parts::or_default;
use cell_arena::{Build, CellId};
use outcome_cells::{Cells, big_where, sure, wrong_where};
use sequence_rewriter::{
    at_place, glue as glue_sequences, length as sequence_length, push as push_item,
    rest as sequence_rest, slice as sequence_slice,
};
use snowcat_rows::Ty;
use std::alloc::AllocError;
use typed_cells::known_number;

/// The number of items, Big where it is outside of the width. (Specifying Systems, section 18.1, for
/// `Len`.)
#[tactic(auto, using(cell_arena::proofs::Growing::growing))]
pub fn length(b: &mut Build, s: CellId) -> Result<Cells, AllocError>
    requires { IsSequenceCell b.old.arena.kinds s }
    ensures row { IfOk result (HasRow b.old b.new op.Len (s ∷ [])) }
    ensures cells { IfOk result (AreCells b.new number) }
    ensures grows { Grows b.old b.new }
{
    let (id, outside) = sequence_length(b, s)?;
    Ok(big_where(b, id, outside))
}

/// The items and one more at their end. (Specifying Systems, section 18.1, for `Append`.)
#[tactic(auto, using(cell_arena::proofs::Growing::growing))]
pub fn push(b: &mut Build, s: CellId, x: CellId) -> Result<Cells, AllocError>
    requires { SequenceAndItem b.old.arena.kinds s x }
    ensures row { IfOk result (HasRow b.old b.new op.Append (s ∷ x ∷ [])) }
    ensures cells { IfOk result (λ r. (t : Sort) → OfSort b.old.arena.kinds (sequence_of t) s →
        OfSort b.old.arena.kinds t x → AreCells b.new (sequence_of t) r) }
    ensures grows { Grows b.old b.new }
{
    let id = push_item(b, s, x)?;
    Ok(sure(b, id))
}

/// The first item, and Wrong where there is none. The type is that of the items; the empty text is
/// one of the build's. (Specifying Systems, section 18.1, for `Head`.)
#[tactic(auto, using(cell_arena::proofs::Growing::growing))]
pub fn first(b: &mut Build, s: CellId, ty: &Ty) -> Result<Cells, AllocError>
    requires sequence { IsSequenceCell b.old.arena.kinds s }
    requires text { IsTextAmong b.old.arena.texts [] }
    ensures row { IfOk result (HasRow b.old b.new op.Head (s ∷ [])) }
    ensures cells { IfOk result (λ r. (k : Kind) → OfSort b.old.arena.kinds (sequence_of (sort_of k)) s →
        kind_of ty.now ≡ Some k → AreCells b.new (sort_of k) r) }
    ensures grows { Grows b.old b.new }
{
    let (one, _) = known_number(b, 1)?;
    let found = at_place(b, s, one)?;
    let cells = or_default(b, found, ty)?;
    Ok(cells)
}

/// The items behind the first one, and Wrong where there is no first one. (Specifying Systems,
/// section 18.1, for `Tail`.)
#[tactic(auto, using(cell_arena::proofs::Growing::growing))]
pub fn rest(b: &mut Build, s: CellId) -> Result<Cells, AllocError>
    requires { IsSequenceCell b.old.arena.kinds s }
    ensures row { IfOk result (HasRow b.old b.new op.Tail (s ∷ [])) }
    ensures cells { IfOk result (λ r. (t : Sort) → OfSort b.old.arena.kinds (sequence_of t) s →
        AreCells b.new (sequence_of t) r) }
    ensures grows { Grows b.old b.new }
{
    let (id, none) = sequence_rest(b, s)?;
    Ok(wrong_where(b, id, none))
}

/// The items from the number m to the number n, which are none where n is below m, and Wrong where
/// one of them is missing. (Specifying Systems, section 18.1, for `SubSeq`.)
#[tactic(auto, using(cell_arena::proofs::Growing::growing))]
pub fn slice(b: &mut Build, s: CellId, m: CellId, n: CellId) -> Result<Cells, AllocError>
    requires { SequenceAndNumbers b.old.arena.kinds s m n }
    ensures row { IfOk result (HasRow b.old b.new op.SubSeq (s ∷ m ∷ n ∷ [])) }
    ensures cells { IfOk result (λ r. (t : Sort) → OfSort b.old.arena.kinds (sequence_of t) s →
        AreCells b.new (sequence_of t) r) }
    ensures grows { Grows b.old b.new }
{
    let (id, none) = sequence_slice(b, s, m, n)?;
    Ok(wrong_where(b, id, none))
}

/// The items of the first sequence and then those of the second. (Specifying Systems, section 18.1,
/// for `\o`.)
#[tactic(auto, using(cell_arena::proofs::Growing::growing))]
pub fn glue(b: &mut Build, s: CellId, t: CellId) -> Result<Cells, AllocError>
    requires { SequencesOfOneType b.old.arena.kinds s t }
    ensures row { IfOk result (HasRow b.old b.new op.Concat (s ∷ t ∷ [])) }
    ensures cells { IfOk result (λ r. (u : Sort) → OfSort b.old.arena.kinds (sequence_of u) s →
        OfSort b.old.arena.kinds (sequence_of u) t → AreCells b.new (sequence_of u) r) }
    ensures grows { Grows b.old b.new }
{
    let id = glue_sequences(b, s, t)?;
    Ok(sure(b, id))
}
