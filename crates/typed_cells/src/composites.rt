//! Records, tuples and sequences of given cells.

ghost use Rattle.cell_arena.specs.Cells.{AllDiffer};
ghost use Rattle.cell_arena.specs.Decode.{decode};
ghost use Rattle.cell_arena.specs.Growth.{Decodes, Grows};
ghost use Rattle.cell_merge.specs.Sorts.{OfSort, Sort, sequence_of};
ghost use Rattle.std.specs.Ordering.{is_lt};
ghost use Rattle.std.specs.Prelude.{◌<◌, ◌≡◌, All, IfOk, List as AnyList, OnOk, length, map};
ghost use Rattle.tla_meaning.specs.Shapes.{record_of};
ghost use Rattle.tla_values.specs.Order.{text_cmp};
ghost use Rattle.tla_values.specs.Sequences.{sequence};
ghost use Rattle.typed_cells.specs.FieldOrder.{in_order, put_field};
ghost use Rattle.typed_cells.specs.KindSorts.{OfSorts, record_sort, tuple_sort};
ghost use Rattle.typed_cells.specs.inner.Places.{IsFieldPlace};

use cell_arena::{Build, CellId};
use std::alloc::{AllocError, Global};
use std::cmp::Ordering;
use tla_values::{List, Text, copy_text};
use word_blaster::literal;

// Whether a name comes before another in the order of bytes.
fn is_before(x: &Text, y: &Text) -> bool
    ensures { result ≡ is_lt (text_cmp x.now y.now) }
{
    x.bytes().cmp(y.bytes()) == Ordering::Less
}

// Where a field of this name is put: before the first whose name is greater.
fn place_of(fields: &[(Text, CellId)], name: &Text) -> usize
    ensures { IsFieldPlace name.now fields.now result }
{
    for i in 0..fields.len() {
        if is_before(name, &fields[i].0) {
            return i;
        }
    }
    fields.len()
}

// One more field, at its place in the order of names.
fn put_field(fields: &mut Vec<(Text, CellId)>, name: Text, cell: CellId) -> Result<(), AllocError>
    ensures { OnOk result (fields.new.items ≡ put_field name cell fields.old.items) }
{
    let at = place_of(fields.as_slice(), &name);
    fields.insert(at, (name, cell))?;
    Ok(())
}

// The names with their cells, in the order of the names' bytes.
fn sorted_fields(
    alloc: Global,
    names: &[Text],
    cells: &[CellId],
) -> Result<Vec<(Text, CellId)>, AllocError>
    requires { length cells.now ≡ length names.now }
    ensures { IfOk result (λ fs. fs.items ≡ in_order names.now cells.now) }
{
    let mut fields = Vec::new(alloc);
    for i in (0..names.len()).rev() {
        let cell = cells[i];
        let name = copy_text(alloc, &names[i])?;
        put_field(&mut fields, name, cell)?;
    }
    Ok(fields)
}

/// The record that has at each name the value of its cell; its fields stand in the order of their
/// names' bytes. It adds nothing to the formula.
#[tactic(auto, using(cell_arena::proofs::Growing::growing))]
pub fn record_of_fields(
    b: &mut Build,
    names: &[Text],
    cells: &[CellId],
) -> Result<CellId, AllocError>
    requires differ { AllDiffer names.now }
    requires one_each { length cells.now ≡ length names.now }
    requires there { All (λ c. c.index < length b.old.arena.kinds) cells.now }
    ensures value { IfOk result (λ id. Decodes b.new id
        (λ a. record_of names.now (map (decode b.old.arena a) cells.now))) }
    ensures sort { IfOk result (λ id. (ss : AnyList Sort) → OfSorts b.old.arena.kinds ss cells.now →
        OfSort b.new.arena.kinds (record_sort (in_order names.now ss)) id) }
    ensures grows { Grows b.old b.new }
{
    let fields = sorted_fields(b.arena.alloc(), names, cells)?;
    let id = b.rec(List::from_vec(fields))?;
    Ok(id)
}

/// The tuple of the values of the cells. It adds nothing to the formula.
#[tactic(auto, using(cell_arena::proofs::Growing::growing))]
pub fn tuple_of_cells(b: &mut Build, cells: Vec<CellId>) -> Result<CellId, AllocError>
    requires { All (λ c. c.index < length b.old.arena.kinds) cells.items }
    ensures value { IfOk result (λ id. Decodes b.new id
        (λ a. sequence (map (decode b.old.arena a) cells.items))) }
    ensures sort { IfOk result (λ id. (ss : AnyList Sort) → OfSorts b.old.arena.kinds ss cells.items →
        OfSort b.new.arena.kinds (tuple_sort ss) id) }
    ensures grows { Grows b.old b.new }
{
    let id = b.tup(List::from_vec(cells))?;
    Ok(id)
}

/// The sequence of the values of the cells. Want of memory is answered for 2^31 or more cells. It
/// adds nothing to the formula.
#[tactic(auto, using(cell_arena::proofs::Growing::growing))]
pub fn sequence_of_cells(b: &mut Build, cells: Vec<CellId>) -> Result<CellId, AllocError>
    requires { All (λ c. c.index < length b.old.arena.kinds) cells.items }
    ensures value { IfOk result (λ id. Decodes b.new id
        (λ a. sequence (map (decode b.old.arena a) cells.items))) }
    ensures sort { IfOk result (λ id. (s : Sort) → All (OfSort b.old.arena.kinds s) cells.items →
        OfSort b.new.arena.kinds (sequence_of s) id) }
    ensures grows { Grows b.old b.new }
{
    let count = cells.as_slice().len();
    if count >= 1 << 31 {
        return Err(AllocError);
    }
    let (word, _) = literal(b.arena.alloc(), &mut b.formula, count as i128, 32)?;
    let id = b.seq(word, List::from_vec(cells))?;
    Ok(id)
}
