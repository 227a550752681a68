//! Sequences with another item at some of their places.

ghost use Rattle.cell_arena.specs.Growth.{Grows as BuildGrows};
ghost use Rattle.sat_formula.specs.Formula.{Grows, HasValue};
ghost use Rattle.sequence_rewriter.specs.Sequences.{SequenceAndItem};
ghost use Rattle.sequence_rewriter.specs.inner.Lengths.{ReplacesPlace, ReplacesPlaces, is_meant, places_of};
ghost use Rattle.std.specs.Prelude.{◌+◌, ◌^◌, ◌<◌, IfOk, length};
ghost use Rattle.word_blaster.specs.Word.{WordBelow};

use cell_arena::{Build, CellId};
use cell_merge::{choose_cell, part_at, part_count};
use sat_formula::{Formula, Lit};
use std::alloc::{AllocError, Global};
use word_blaster::equals_number;

/// Which place of a sequence is meant: the one with the number of these bits, where the first place
/// has the number `first`; and where the literal is false, none.
#[derive(Drop)]
pub(crate) struct Index {
    pub bits: Vec<Lit>,
    pub first: usize,
    pub valid: Lit,
}

/// Whether the place, counted from 0, is meant.
#[tactic(auto, using(sat_formula::proofs::Extension::gates))]
pub(crate) fn meant(
    alloc: Global,
    formula: &mut Formula,
    index: &Index,
    place: usize,
) -> Result<Lit, AllocError>
    requires bits { WordBelow formula.old.vars index.now.bits.items }
    requires valid { index.now.valid.var < formula.old.vars }
    requires small { place + index.now.first < 2 ^ 64 }
    ensures value { IfOk result (λ l. HasValue formula.new l (λ a. is_meant index.now a (place + index.now.first))) }
    ensures grows { Grows formula.old formula.new }
{
    let same = equals_number(alloc, formula, index.bits.as_slice(), place + index.first)?;
    let both = formula.and(index.valid, same)?;
    Ok(both)
}

// A place of the sequence, or the other cell where it is meant.
#[tactic(auto, using(cell_arena::proofs::Growing::growing))]
fn replace_place(
    b: &mut Build,
    index: &Index,
    s: CellId,
    v: CellId,
    place: usize,
) -> Result<CellId, AllocError>
    requires bits { WordBelow b.old.formula.vars index.now.bits.items }
    requires valid { index.now.valid.var < b.old.formula.vars }
    requires small { place + index.now.first < 2 ^ 64 }
    requires types { SequenceAndItem b.old.arena.kinds s v }
    requires within { place < length (places_of b.old.arena s) }
    ensures replaces { IfOk result (ReplacesPlace b.old b.new s v place (λ a. is_meant index.now a (place + index.now.first))) }
    ensures grows { BuildGrows b.old b.new }
{
    let hit = meant(b.arena.alloc(), &mut b.formula, index, place)?;
    let part = part_at(&b.arena, s, place);
    let cell = choose_cell(b, hit, v, part)?;
    Ok(cell)
}

/// The places of the sequence, and the other cell in the place that is meant.
#[tactic(auto, using(cell_arena::proofs::Growing::growing))]
pub(crate) fn replace_places(
    b: &mut Build,
    index: &Index,
    s: CellId,
    v: CellId,
) -> Result<Vec<CellId>, AllocError>
    requires bits { WordBelow b.old.formula.vars index.now.bits.items }
    requires valid { index.now.valid.var < b.old.formula.vars }
    requires small { index.now.first < 2 }
    requires types { SequenceAndItem b.old.arena.kinds s v }
    ensures replaces { IfOk result (λ out. ReplacesPlaces b.old b.new index.now s v (length (places_of b.old.arena s)) out.items) }
    ensures grows { BuildGrows b.old b.new }
{
    let mut out = Vec::new(b.arena.alloc());
    for p in 0..part_count(&b.arena, s) {
        let place = replace_place(b, index, s, v, p)?;
        out.push(place)?;
    }
    Ok(out)
}
