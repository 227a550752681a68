//! One sequence behind another.

ghost use Rattle.cell_arena.specs.Decode.{decode};
ghost use Rattle.cell_arena.specs.Growth.{Grows as BuildGrows};
ghost use Rattle.cell_merge.specs.Sorts.{OfSort, SequencesOfOneType, sequence_of};
ghost use Rattle.sequence_rewriter.specs.Sequences.{MakesSequence, items};
ghost use Rattle.sequence_rewriter.specs.inner.Glued.{ChoosesFront, IsFrontCell, ListAndCell};
ghost use Rattle.sequence_rewriter.specs.inner.Shifts.{AreLists};
ghost use Rattle.std.specs.Prelude.{◌++◌, IfOk, length};
ghost use Rattle.word_blaster.specs.Word.{WordBelow};

use crate::ends::places_from;
use crate::lengths::{length_bits, make_sequence};
use crate::shifts::shift_right;
use cell_arena::{Build, CellId};
use cell_merge::{choose_cell, part_count};
use sat_formula::Lit;
use std::alloc::AllocError;
use word_blaster::{add_counts, is_above};

// The cell of the list at a place where the number is above that of the place, and else the other one.
#[tactic(auto, using(cell_arena::proofs::Growing::growing))]
fn front_cell(
    b: &mut Build,
    bits: &[Lit],
    xs: &[CellId],
    y: CellId,
    place: usize,
) -> Result<CellId, AllocError>
    requires below { WordBelow b.old.formula.vars bits.now }
    requires types { ListAndCell b.old.arena.kinds xs.now y }
    ensures front { IfOk result (IsFrontCell b.old b.new bits.now xs.now y place) }
    ensures grows { BuildGrows b.old b.new }
{
    if place >= xs.len() {
        return Ok(y);
    }
    let above = is_above(&mut b.formula, bits, place)?;
    let cell = choose_cell(b, above, xs[place], y)?;
    Ok(cell)
}

// The first cells of the one list, as many as the bits say, and then those of the other one.
#[tactic(auto, using(cell_arena::proofs::Growing::growing))]
fn choose_front(
    b: &mut Build,
    bits: &[Lit],
    xs: &[CellId],
    ys: &[CellId],
) -> Result<Vec<CellId>, AllocError>
    requires below { WordBelow b.old.formula.vars bits.now }
    requires types { AreLists b.old.arena.kinds xs.now ys.now }
    ensures front { IfOk result (λ out. ChoosesFront b.old b.new bits.now xs.now ys.now (length ys.now) out.items) }
    ensures grows { BuildGrows b.old b.new }
{
    let mut out = Vec::new(b.arena.alloc());
    for p in 0..ys.len() {
        let cell = front_cell(b, bits, xs, ys[p], p)?;
        out.push(cell)?;
    }
    Ok(out)
}

/// The items of the first sequence and then those of the second.
#[tactic(auto, using(cell_arena::proofs::Growing::growing))]
pub fn glue(b: &mut Build, s: CellId, t: CellId) -> Result<CellId, AllocError>
    requires { SequencesOfOneType b.old.arena.kinds s t }
    ensures made { IfOk result (MakesSequence b.old b.new (λ u. OfSort b.old.arena.kinds (sequence_of u) s × OfSort b.old.arena.kinds (sequence_of u) t)
        (λ a. items (decode b.old.arena a s) ++ items (decode b.old.arena a t))) }
    ensures grows { BuildGrows b.old b.new }
{
    let front = length_bits(b, s)?;
    let back = length_bits(b, t)?;
    if part_count(&b.arena, t) == 0 {
        return Ok(s);
    }
    let mine = places_from(&b.arena, s, 0)?;
    let theirs = places_from(&b.arena, t, 0)?;
    let moved = shift_right(b, front.as_slice(), theirs)?;
    let places = choose_front(b, front.as_slice(), mine.as_slice(), moved.as_slice())?;
    let bits = add_counts(
        b.arena.alloc(),
        &mut b.formula,
        front.as_slice(),
        back.as_slice(),
    )?;
    let id = make_sequence(b, bits.as_slice(), places)?;
    Ok(id)
}
