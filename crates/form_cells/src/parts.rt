//! What is asked of the cell of a value, so that the value belongs to a form.

ghost use Rattle.cell_arena.specs.Cells.{kind_at};
ghost use Rattle.cell_arena.specs.Decode.{decode};
ghost use Rattle.cell_arena.specs.Growth.{Grows as BuildGrows};
ghost use Rattle.cell_merge.specs.Arrows.{length_word};
ghost use Rattle.cell_merge.specs.Composites.{parts_of};
ghost use Rattle.cell_merge.specs.Sorts.{IsOver, OfSort, number};
ghost use Rattle.cell_merge.specs.inner.Places.{reaches};
ghost use Rattle.form_cells.specs.inner.Listed.{AreFields, IsRecordCell, IsSetCell, IsTupleCell};
ghost use Rattle.form_cells.specs.inner.Listed.{ListsItems, ListsMembers, TellsPlaces};
ghost use Rattle.sat_formula.specs.Formula.{Grows, HasValue};
ghost use Rattle.sequence_rewriter.specs.Sequences.{IsSequenceCell};
ghost use Rattle.std.specs.Prelude.{◌≡◌, IfOk, length};
ghost use Rattle.tla_meaning.specs.Forms.{is_natural};
ghost use Rattle.tla_values.specs.declared.value.Value.{out-Value};
ghost use Rattle.word_blaster.specs.Word.{word_value};

use cell_arena::{Arena, Build, CellId, CellKind};
use cell_merge::{part_at, part_count};
use function_rewriter::field;
use sat_formula::{Formula, Lit};
use std::alloc::AllocError;
use tla_values::Text;
use word_blaster::{is_above, low_bits};

/// A literal that is true exactly where the number is none below 0: no sign is set.
pub(crate) fn is_not_negative(b: &Build, x: CellId) -> Lit
    requires { OfSort b.now.arena.kinds number x }
    ensures { HasValue b.now.formula result (λ a. is_natural (out-Value (decode b.now.arena a x))) }
{
    let CellKind::Word(word) = b.arena.kind(x) else {
        return b.formula.top();
    };
    let bits = word.lits();
    let sign = bits[bits.len() - 1];
    sign.negated()
}

/// The edges of a set.
pub(crate) fn members_of(b: &Build, s: CellId) -> Result<Vec<(Lit, CellId)>, AllocError>
    requires { IsSetCell b.now.arena.kinds s }
    ensures { IfOk result (λ es. ListsMembers b.now s es.items) }
{
    let alloc = b.arena.alloc();
    let CellKind::Set(edges) = b.arena.kind(s) else {
        return Ok(Vec::new(alloc));
    };
    let copied = Vec::from_slice(alloc, edges.as_slice())?;
    Ok(copied)
}

// A literal that is true exactly where the sequence has the place.
#[tactic(auto, using(sat_formula::proofs::Extension::gates))]
fn has_place(
    arena: &Arena,
    formula: &mut Formula,
    s: CellId,
    place: usize,
) -> Result<Lit, AllocError>
    requires over { IsOver arena.now formula.old }
    requires sequence { IsSequenceCell arena.now.kinds s }
    ensures value { IfOk result (λ l. HasValue formula.new l
        (λ a. reaches (word_value (length_word (kind_at arena.now.kinds s)) a) place)) }
    ensures grows { Grows formula.old formula.new }
{
    let CellKind::Seq(word, places) = arena.kind(s) else {
        return Ok(formula.top());
    };
    let bits = low_bits(arena.alloc(), word, places.as_slice().len())?;
    let above = is_above(formula, bits.as_slice(), place)?;
    Ok(above)
}

// The places of a sequence, each with whether it is within the length.
#[tactic(auto, using(sat_formula::proofs::Extension::gates))]
fn places_in(
    arena: &Arena,
    formula: &mut Formula,
    s: CellId,
) -> Result<Vec<(Lit, CellId)>, AllocError>
    requires over { IsOver arena.now formula.old }
    requires sequence { IsSequenceCell arena.now.kinds s }
    ensures places { IfOk result (λ es. let n = length (parts_of (kind_at arena.now.kinds s)) in
        TellsPlaces arena.now formula.new s n es.items) }
    ensures grows { Grows formula.old formula.new }
{
    let mut places = Vec::new(arena.alloc());
    for i in 0..part_count(arena, s) {
        let here = has_place(arena, formula, s, i)?;
        places.push((here, part_at(arena, s, i)))?;
    }
    Ok(places)
}

/// The places of a sequence, which are there up to its length.
#[tactic(auto, using(cell_arena::proofs::Growing::growing))]
pub(crate) fn places_of(b: &mut Build, s: CellId) -> Result<Vec<(Lit, CellId)>, AllocError>
    requires { IsSequenceCell b.old.arena.kinds s }
    ensures items { IfOk result (λ es. ListsItems b.old b.new s es.items) }
    ensures grows { BuildGrows b.old b.new }
{
    let places = places_in(&b.arena, &mut b.formula, s)?;
    Ok(places)
}

/// The parts of a record that stand at the names, in the order of these.
pub(crate) fn fields_of(b: &Build, r: CellId, names: &[Text]) -> Result<Vec<CellId>, AllocError>
    requires { IsRecordCell b.now.arena.kinds r names.now }
    ensures { IfOk result (λ cs. AreFields b.now r names.now cs.items) }
{
    let mut cells = Vec::new(b.arena.alloc());
    for i in 0..names.len() {
        let cell = field(b, r, &names[i]);
        cells.push(cell)?;
    }
    Ok(cells)
}

/// The parts of a tuple.
pub(crate) fn items_of(b: &Build, t: CellId) -> Result<Vec<CellId>, AllocError>
    requires { IsTupleCell b.now.arena.kinds t }
    ensures { IfOk result (λ cs. cs.items ≡ parts_of (kind_at b.now.arena.kinds t)) }
{
    let alloc = b.arena.alloc();
    let CellKind::Tup(parts) = b.arena.kind(t) else {
        return Ok(Vec::new(alloc));
    };
    let copied = Vec::from_slice(alloc, parts.as_slice())?;
    Ok(copied)
}
