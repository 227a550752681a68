//! The lengths of sequences, and sequences of a given length.

ghost use Rattle.cell_arena.specs.Growth.{Grows as BuildGrows};
ghost use Rattle.sat_formula.specs.Formula.{Grows, Satisfies};
ghost use Rattle.sequence_rewriter.specs.Sequences.{IsLengthCell, IsSequenceCell};
ghost use Rattle.sequence_rewriter.specs.inner.Lengths.{IsCount, IsLength, MakesFirst};
ghost use Rattle.std.specs.Prelude.{◌^◌, ◌<◌, ◌≤◌, All, Bool, IfOk, List as AnyList, length as list_length};
ghost use Rattle.word_blaster.specs.Word.{WordBelow, number, values};

use cell_arena::{Build, CellId, CellKind};
use sat_formula::{Formula, Lit, Word};
use std::alloc::{AllocError, Global};
use tla_values::List;
use word_blaster::{low_bits, natural};

/// The bits of a sequence's length, as many as its number of places needs. It adds nothing.
pub(crate) fn length_bits(b: &Build, s: CellId) -> Result<Vec<Lit>, AllocError>
    requires { IsSequenceCell b.now.arena.kinds s }
    ensures { IfOk result (λ bits. IsLength b.now.arena b.now.formula s bits.items) }
{
    let alloc = b.arena.alloc();
    let CellKind::Seq(word, places) = b.arena.kind(s) else {
        return Ok(Vec::new(alloc));
    };
    let bits = low_bits(alloc, word, places.as_slice().len())?;
    Ok(bits)
}

// A word of 32 bits for a number that has fewer.
#[tactic(auto, using(sat_formula::proofs::Extension::gates))]
fn count_word(alloc: Global, formula: &mut Formula, bits: &[Lit]) -> Result<Word, AllocError>
    requires below { WordBelow formula.old.vars bits.now }
    requires few { (a : AnyList Bool) → Satisfies a formula.old → number (values bits.now a) < 2 ^ 31 }
    ensures count { IfOk result (IsCount formula.new bits.now) }
    ensures grows { Grows formula.old formula.new }
{
    let (word, _) = natural(alloc, formula, bits, 32)?;
    Ok(word)
}

/// The sequence of the first places, as many as the bits say. Want of memory is answered for 2^31 or
/// more places.
#[tactic(auto, using(cell_arena::proofs::Growing::growing))]
pub(crate) fn make_sequence(
    b: &mut Build,
    bits: &[Lit],
    places: Vec<CellId>,
) -> Result<CellId, AllocError>
    requires below { WordBelow b.old.formula.vars bits.now }
    requires within { (a : AnyList Bool) → Satisfies a b.old.formula → number (values bits.now a) ≤ list_length places.items }
    requires older { All (λ p. p.index < list_length b.old.arena.kinds) places.items }
    ensures made { IfOk result (MakesFirst b.old b.new bits.now places.items) }
    ensures grows { BuildGrows b.old b.new }
{
    if places.as_slice().len() >= 1 << 31 {
        return Err(AllocError);
    }
    let count = count_word(b.arena.alloc(), &mut b.formula, bits)?;
    let id = b.seq(count, List::from_vec(places))?;
    Ok(id)
}

/// The number of items, and a literal that is true where it is outside of the width.
#[tactic(auto, using(cell_arena::proofs::Growing::growing))]
pub fn length(b: &mut Build, s: CellId) -> Result<(CellId, Lit), AllocError>
    requires { IsSequenceCell b.old.arena.kinds s }
    ensures length { IfOk result (IsLengthCell b.old b.new s) }
    ensures grows { BuildGrows b.old b.new }
{
    let width = b.width();
    let bits = length_bits(b, s)?;
    let (word, outside) = natural(b.arena.alloc(), &mut b.formula, bits.as_slice(), width)?;
    let id = b.word(word)?;
    Ok((id, outside))
}
