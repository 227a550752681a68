//! Records, tuples and sequences of given cells, and the parts of records and tuples.

ghost use Rattle.cell_arena.specs.Cells.{AllDiffer};
ghost use Rattle.cell_arena.specs.Growth.{Grows};
ghost use Rattle.cell_merge.specs.Sorts.{OfSort, Sort, record_of, sequence_of, tuple_of};
ghost use Rattle.function_operators.specs.Operands.{HasItemRow, HasRow};
ghost use Rattle.function_rewriter.specs.Functions.{HasField, HasItem};
ghost use Rattle.outcome_cells.specs.Shows.{AreCells};
ghost use Rattle.std.specs.Prelude.{◌-◌, ◌<◌, ◌≡◌, All, IfOk, List as AnyList, [], ◌∷◌, length, slice_index_or, ℕ};
ghost use Rattle.tla_meaning.specs.declared.op.Op.TheVariants as op;
ghost use Rattle.typed_cells.specs.FieldOrder.{in_order};
ghost use Rattle.typed_cells.specs.KindSorts.{OfSorts, record_sort, tuple_sort};

use crate::widths::fits;
use cell_arena::{Build, CellId};
use function_rewriter::{field as record_field, item as tuple_item};
use outcome_cells::{Cells, big_where, sure};
use std::alloc::AllocError;
use tla_values::Text;
use typed_cells::{record_of_fields, sequence_of_cells, tuple_of_cells};

/// The tuple of the values of the cells. (Specifying Systems, section 16.1.8.)
#[tactic(auto, using(cell_arena::proofs::Growing::growing))]
pub fn tuple(b: &mut Build, items: Vec<CellId>) -> Result<Cells, AllocError>
    requires { All (λ x. x.index < length b.old.arena.kinds) items.items }
    ensures row { IfOk result (HasRow b.old b.new op.Tuple items.items) }
    ensures cells { IfOk result (λ r. (ss : AnyList Sort) → OfSorts b.old.arena.kinds ss items.items →
        AreCells b.new (tuple_sort ss) r) }
    ensures grows { Grows b.old b.new }
{
    let id = tuple_of_cells(b, items)?;
    Ok(sure(b, id))
}

/// The item of a tuple at a number from 1, which is Big where the number is outside of the width. It
/// takes no memory. (Specifying Systems, section 16.1.8.)
pub fn item(b: &Build, t: CellId, i: usize) -> Cells
    requires { HasItem b.now.arena.kinds t i }
    ensures row { HasItemRow b.now t i result }
    ensures cells { (n : ℕ) (s : ℕ → Sort) → OfSort b.now.arena.kinds (tuple_of n s) t →
        AreCells b.now (s (i - 1)) result }
{
    let id = tuple_item(b, t, i);
    if fits(b.width(), i) {
        return sure(b, id);
    }
    big_where(b, id, b.formula.top())
}

/// The record that has at each name the value of its cell. Its fields stand in the order of their
/// names' bytes. (Specifying Systems, section 16.1.9.)
#[tactic(auto, using(cell_arena::proofs::Growing::growing))]
pub fn record(b: &mut Build, names: &[Text], fields: &[CellId]) -> Result<Cells, AllocError>
    requires differ { AllDiffer names.now }
    requires one_each { length fields.now ≡ length names.now }
    requires there { All (λ x. x.index < length b.old.arena.kinds) fields.now }
    ensures row { IfOk result (HasRow b.old b.new (op.Record names.now) fields.now) }
    ensures cells { IfOk result (λ r. (ss : AnyList Sort) → OfSorts b.old.arena.kinds ss fields.now →
        AreCells b.new (record_sort (in_order names.now ss)) r) }
    ensures grows { Grows b.old b.new }
{
    let id = record_of_fields(b, names, fields)?;
    Ok(sure(b, id))
}

/// What a record has at a name. It takes no memory. (Specifying Systems, section 16.1.9.)
pub fn field(b: &Build, r: CellId, name: &Text) -> Cells
    requires { HasField b.now.arena.kinds r name.now }
    ensures row { HasRow b.now b.now (op.Field name.now) (r ∷ []) result }
    ensures cells { (names : AnyList (AnyList ℕ)) (s : ℕ → Sort) (i : ℕ) →
        OfSort b.now.arena.kinds (record_of names s) r → i < length names →
        slice_index_or names i [] ≡ name.now → AreCells b.now (s i) result }
{
    let id = record_field(b, r, name);
    sure(b, id)
}

/// The sequence of the values of the cells. Want of memory is answered for 2^31 or more. (Specifying
/// Systems, section 18.1.)
#[tactic(auto, using(cell_arena::proofs::Growing::growing))]
pub fn sequence(b: &mut Build, items: Vec<CellId>) -> Result<Cells, AllocError>
    requires { All (λ x. x.index < length b.old.arena.kinds) items.items }
    ensures row { IfOk result (HasRow b.old b.new op.Tuple items.items) }
    ensures cells { IfOk result (λ r. (s : Sort) → All (OfSort b.old.arena.kinds s) items.items →
        AreCells b.new (sequence_of s) r) }
    ensures grows { Grows b.old b.new }
{
    let id = sequence_of_cells(b, items)?;
    Ok(sure(b, id))
}
