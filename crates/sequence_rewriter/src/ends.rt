//! Sequences with an item more at their end, and without their first one.

ghost use Rattle.cell_arena.specs.Growth.{Grows as BuildGrows};
ghost use Rattle.cell_arena.specs.Decode.{decode};
ghost use Rattle.cell_merge.specs.Sorts.{OfSort, sequence_of};
ghost use Rattle.sat_formula.specs.Formula.{Grows, Satisfies};
ghost use Rattle.sequence_rewriter.specs.Sequences.{IsPart, IsSequenceCell, MakesSequence, SequenceAndItem, items, tail_of};
ghost use Rattle.sequence_rewriter.specs.inner.Lengths.{IsLess, MakesOneMore, places_of};
ghost use Rattle.std.specs.Prelude.{◌++◌, ◌<◌, ◌∷◌, ◌≡◌, All, Bool, IfOk, List as AnyList, [], drop, length};
ghost use Rattle.word_blaster.specs.Word.{WordBelow, number, values};

use crate::lengths::{length_bits, make_sequence};
use crate::replacing::{Index, replace_places};
use cell_arena::{Arena, Build, CellId};
use cell_merge::{part_at, part_count};
use sat_formula::{Formula, Lit};
use std::alloc::{AllocError, Global};
use word_blaster::{add_bit, equals_number, subtract_bit};

/// Whether the number is 0, and the one before it.
#[tactic(auto, using(sat_formula::proofs::Extension::gates))]
pub(crate) fn one_less(
    alloc: Global,
    formula: &mut Formula,
    bits: &[Lit],
) -> Result<(Lit, Vec<Lit>), AllocError>
    requires { WordBelow formula.old.vars bits.now }
    ensures less { IfOk result (λ r. IsLess formula.new bits.now (r.0, r.1.items)) }
    ensures grows { Grows formula.old formula.new }
{
    let empty = equals_number(alloc, formula, bits, 0)?;
    let less = subtract_bit(alloc, formula, bits, empty.negated())?;
    Ok((empty, less))
}

/// The places of the sequence from this one on.
pub(crate) fn places_from(arena: &Arena, s: CellId, from: usize) -> Result<Vec<CellId>, AllocError>
    requires { s.index < length arena.now.kinds }
    ensures { IfOk result (λ out. out.items ≡ drop from (places_of arena.now s)) }
{
    let mut out = Vec::new(arena.alloc());
    for p in from..part_count(arena, s) {
        let place = part_at(arena, s, p);
        out.push(place)?;
    }
    Ok(out)
}

// The sequence of the first places, one more than the bits say.
#[tactic(auto, using(cell_arena::proofs::Growing::growing))]
fn make_longer(b: &mut Build, bits: &[Lit], places: Vec<CellId>) -> Result<CellId, AllocError>
    requires below { WordBelow b.old.formula.vars bits.now }
    requires within { (a : AnyList Bool) → Satisfies a b.old.formula → number (values bits.now a) < length places.items }
    requires older { All (λ p. p.index < length b.old.arena.kinds) places.items }
    ensures made { IfOk result (MakesOneMore b.old b.new bits.now places.items) }
    ensures grows { BuildGrows b.old b.new }
{
    let one = b.formula.top();
    let most = places.as_slice().len();
    let more = add_bit(b.arena.alloc(), &mut b.formula, bits, one, most)?;
    let id = make_sequence(b, more.as_slice(), places)?;
    Ok(id)
}

/// The items behind the first one, and a literal that is true where there is no first one.
#[tactic(auto, using(cell_arena::proofs::Growing::growing))]
pub fn rest(b: &mut Build, s: CellId) -> Result<(CellId, Lit), AllocError>
    requires { IsSequenceCell b.old.arena.kinds s }
    ensures part { IfOk result (IsPart b.old b.new s (λ a. tail_of (items (decode b.old.arena a s)))) }
    ensures grows { BuildGrows b.old b.new }
{
    let bits = length_bits(b, s)?;
    let places = places_from(&b.arena, s, 1)?;
    let (empty, less) = one_less(b.arena.alloc(), &mut b.formula, bits.as_slice())?;
    let id = make_sequence(b, less.as_slice(), places)?;
    Ok((id, empty))
}

/// The items and one more at their end.
#[tactic(auto, using(cell_arena::proofs::Growing::growing))]
pub fn push(b: &mut Build, s: CellId, x: CellId) -> Result<CellId, AllocError>
    requires { SequenceAndItem b.old.arena.kinds s x }
    ensures made { IfOk result (MakesSequence b.old b.new (λ t. OfSort b.old.arena.kinds (sequence_of t) s × OfSort b.old.arena.kinds t x)
        (λ a. items (decode b.old.arena a s) ++ decode b.old.arena a x ∷ [])) }
    ensures grows { BuildGrows b.old b.new }
{
    let bits = length_bits(b, s)?;
    let index = Index {
        bits,
        first: 0,
        valid: b.formula.top(),
    };
    let mut places = replace_places(b, &index, s, x)?;
    places.push(x)?;
    let id = make_longer(b, index.bits.as_slice(), places)?;
    Ok(id)
}
