//! What stands at a place of a sequence, and sequences with another item there.

ghost use Rattle.cell_arena.specs.Cells.{kind_at};
ghost use Rattle.cell_arena.specs.Growth.{Grows as BuildGrows};
ghost use Rattle.cell_merge.specs.Composites.{parts_of};
ghost use Rattle.cell_merge.specs.Sorts.{IsOver};
ghost use Rattle.sat_formula.specs.Formula.{Grows};
ghost use Rattle.sequence_rewriter.specs.Sequences.{HasPlace, IsSequenceCell, SequenceAndItem, SequenceAndNumber, SequenceNumberAndItem, SetsPlace};
ghost use Rattle.sequence_rewriter.specs.inner.Lengths.{FindsPlace, IsIndexOf, IsOutside, PicksPlace, ReplacesPlace, is_meant, places_of};
ghost use Rattle.std.specs.Prelude.{◌+◌, ◌^◌, ◌<◌, ◌≤◌, ◌≡◌, ◌↔◌, IfOk, IfSome, None, [], length, not};
ghost use Rattle.word_blaster.specs.Word.{WordBelow};

use crate::lengths::{length_bits, make_sequence};
use crate::replacing::{Index, meant, replace_places};
use cell_arena::{Arena, Build, CellId, CellKind};
use cell_merge::{choose_cell, part_at, part_count};
use sat_formula::{Formula, Lit};
use std::alloc::{AllocError, Global};
use word_blaster::{count_less, equals_number, index_bits, low_bits};

/// The place of the sequence that a number means, the first one by 1. Only the bits that numbers of
/// places need are compared, and whether there are others.
#[tactic(auto, using(sat_formula::proofs::Extension::gates))]
pub(crate) fn index_of(
    arena: &Arena,
    formula: &mut Formula,
    s: CellId,
    i: CellId,
) -> Result<Index, AllocError>
    requires over { IsOver arena.now formula.old }
    requires types { SequenceAndNumber arena.now.kinds s i }
    ensures index { IfOk result (IsIndexOf arena.now formula.new s i) }
    ensures grows { Grows formula.old formula.new }
{
    let alloc = arena.alloc();
    let CellKind::Word(word) = arena.kind(i) else {
        return Err(AllocError);
    };
    let low = low_bits(alloc, word, part_count(arena, s))?;
    let (bits, beyond) = index_bits(alloc, formula, word, low.as_slice().len())?;
    Ok(Index {
        bits,
        first: 1,
        valid: beyond.negated(),
    })
}

// Whether the index means none of the first places, as many as the bits say.
#[tactic(auto, using(sat_formula::proofs::Extension::gates))]
fn outside(
    alloc: Global,
    formula: &mut Formula,
    index: &Index,
    bits: &[Lit],
) -> Result<Lit, AllocError>
    requires index { WordBelow formula.old.vars index.now.bits.items }
    requires valid { index.now.valid.var < formula.old.vars }
    requires bits { WordBelow formula.old.vars bits.now }
    ensures value { IfOk result (IsOutside formula.new index.now bits.now) }
    ensures grows { Grows formula.old formula.new }
{
    let zero = equals_number(alloc, formula, index.bits.as_slice(), 0)?;
    let past = count_less(alloc, formula, bits, index.bits.as_slice())?;
    let within = formula.and(zero.negated(), past.negated())?;
    let inside = formula.and(index.valid, within)?;
    Ok(inside.negated())
}

// The place that a number means, and whether it is none of the first ones, as many as the bits say.
#[tactic(auto, using(sat_formula::proofs::Extension::gates))]
fn find_place(
    arena: &Arena,
    formula: &mut Formula,
    s: CellId,
    i: CellId,
    bits: &[Lit],
) -> Result<(Index, Lit), AllocError>
    requires over { IsOver arena.now formula.old }
    requires types { SequenceAndNumber arena.now.kinds s i }
    requires bits { WordBelow formula.old.vars bits.now }
    ensures found { IfOk result (λ r. FindsPlace arena.now formula.new s i bits.now (r.0, r.1)) }
    ensures grows { Grows formula.old formula.new }
{
    let index = index_of(arena, formula, s, i)?;
    let out = outside(arena.alloc(), formula, &index, bits)?;
    Ok((index, out))
}

// A place where it is meant, and else the cell that was picked so far.
#[tactic(auto, using(cell_arena::proofs::Growing::growing))]
fn pick_more(
    b: &mut Build,
    index: &Index,
    s: CellId,
    so_far: CellId,
    place: usize,
) -> Result<CellId, AllocError>
    requires bits { WordBelow b.old.formula.vars index.now.bits.items }
    requires valid { index.now.valid.var < b.old.formula.vars }
    requires small { place + index.now.first < 2 ^ 64 }
    requires types { SequenceAndItem b.old.arena.kinds s so_far }
    requires within { place < length (places_of b.old.arena s) }
    ensures picks { IfOk result (ReplacesPlace b.old b.new s so_far place (λ a. not (is_meant index.now a (place + index.now.first)))) }
    ensures grows { BuildGrows b.old b.new }
{
    let hit = meant(b.arena.alloc(), &mut b.formula, index, place)?;
    let part = part_at(&b.arena, s, place);
    let cell = choose_cell(b, hit, part, so_far)?;
    Ok(cell)
}

// The place of the sequence that is meant, if one is.
#[tactic(auto, using(cell_arena::proofs::Growing::growing))]
fn pick_place(b: &mut Build, index: &Index, s: CellId) -> Result<CellId, AllocError>
    requires bits { WordBelow b.old.formula.vars index.now.bits.items }
    requires valid { index.now.valid.var < b.old.formula.vars }
    requires small { index.now.first < 2 }
    requires sequence { IsSequenceCell b.old.arena.kinds s }
    requires some { 0 < length (places_of b.old.arena s) }
    ensures picks { IfOk result (PicksPlace b.old b.new index.now s (length (places_of b.old.arena s))) }
    ensures grows { BuildGrows b.old b.new }
{
    let mut picked = part_at(&b.arena, s, 0);
    for p in 1..part_count(&b.arena, s) {
        let more = pick_more(b, index, s, picked, p)?;
        picked = more;
    }
    Ok(picked)
}

/// The item with a number, the first one by 1, and a literal that is true where there is none; `None`
/// exactly where the sequence has no place.
#[tactic(auto, using(cell_arena::proofs::Growing::growing))]
pub fn at_place(b: &mut Build, s: CellId, i: CellId) -> Result<Option<(CellId, Lit)>, AllocError>
    requires { SequenceAndNumber b.old.arena.kinds s i }
    ensures none { IfOk result (λ r. (r ≡ None) ↔ (parts_of (kind_at b.old.arena.kinds s) ≡ [])) }
    ensures applies { IfOk result (λ r. IfSome r (HasPlace b.old b.new s i)) }
    ensures grows { BuildGrows b.old b.new }
{
    if part_count(&b.arena, s) == 0 {
        return Ok(None);
    }
    let bits = length_bits(b, s)?;
    let (index, out) = find_place(&b.arena, &mut b.formula, s, i, bits.as_slice())?;
    let cell = pick_place(b, &index, s)?;
    Ok(Some((cell, out)))
}

/// The sequence with another item at a number, the first one by 1. Where it has none there it stays.
#[tactic(auto, using(cell_arena::proofs::Growing::growing))]
pub fn update_place(b: &mut Build, s: CellId, i: CellId, v: CellId) -> Result<CellId, AllocError>
    requires { SequenceNumberAndItem b.old.arena.kinds s i v }
    ensures sets { IfOk result (SetsPlace b.old b.new s i v) }
    ensures grows { BuildGrows b.old b.new }
{
    let bits = length_bits(b, s)?;
    let index = index_of(&b.arena, &mut b.formula, s, i)?;
    let places = replace_places(b, &index, s, v)?;
    let id = make_sequence(b, bits.as_slice(), places)?;
    Ok(id)
}
