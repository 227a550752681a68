//! The items of a sequence from one number to another.

ghost use Rattle.cell_arena.specs.Decode.{decode};
ghost use Rattle.cell_arena.specs.Growth.{Grows as BuildGrows};
ghost use Rattle.cell_merge.specs.Sorts.{IsOver, OfSort, number as number_sort};
ghost use Rattle.sat_formula.specs.Formula.{Grows, HasValue};
ghost use Rattle.sequence_rewriter.specs.Sequences.{IsPart, SequenceAndNumbers, int_of, items, part_of};
ghost use Rattle.sequence_rewriter.specs.inner.Cuts.{AreBelow, AreEnds, CutsAt, IsLonger, IsMasked, IsSpan, IsStart};
ghost use Rattle.std.specs.Prelude.{◌≤◌, ◌<◌, IfOk, int_lt, length};
ghost use Rattle.word_blaster.specs.Word.{WordBelow};

use crate::ends::{one_less, places_from};
use crate::lengths::{length_bits, make_sequence};
use crate::places::index_of;
use crate::replacing::Index;
use crate::shifts::shift_left;
use cell_arena::{Arena, Build, CellId, CellKind};
use sat_formula::{Formula, Lit};
use std::alloc::{AllocError, Global};
use word_blaster::{count_less, less, subtract_counts};

/// The places of a part's first and last item, and a literal that is true where the second number is
/// below the first.
#[derive(Drop)]
pub(crate) struct Ends {
    pub first: Index,
    pub last: Index,
    pub empty: Lit,
}

/// A part of a sequence: how many items stand before it, how many it has, and a literal that is true
/// where there is no such part.
#[derive(Drop)]
pub(crate) struct Cut {
    pub shift: Vec<Lit>,
    pub count: Vec<Lit>,
    pub wrong: Lit,
}

// The number where the literal is true, and else 0.
#[tactic(auto, using(sat_formula::proofs::Extension::gates))]
fn masked(
    alloc: Global,
    formula: &mut Formula,
    l: Lit,
    bits: &[Lit],
) -> Result<Vec<Lit>, AllocError>
    requires below { l.var < formula.old.vars }
    requires bits { WordBelow formula.old.vars bits.now }
    ensures masked { IfOk result (λ out. IsMasked formula.new l bits.now out.items) }
    ensures grows { Grows formula.old formula.new }
{
    let mut out = Vec::new(alloc);
    for bit in bits {
        let both = formula.and(l, *bit)?;
        out.push(both)?;
    }
    Ok(out)
}

// The number in so many bits; it has no more of them.
fn longer(alloc: Global, formula: &Formula, bits: &[Lit], n: usize) -> Result<Vec<Lit>, AllocError>
    requires bits { WordBelow formula.now.vars bits.now }
    requires within { length bits.now ≤ n }
    ensures { IfOk result (λ out. IsLonger formula.now bits.now n out.items) }
{
    let none = formula.top().negated();
    let mut out = Vec::from_slice(alloc, bits)?;
    for _i in bits.len()..n {
        out.push(none)?;
    }
    Ok(out)
}

// Whether the one number is below the other.
#[tactic(auto, using(sat_formula::proofs::Extension::gates))]
fn number_less(
    arena: &Arena,
    formula: &mut Formula,
    m: CellId,
    n: CellId,
) -> Result<Lit, AllocError>
    requires over { IsOver arena.now formula.old }
    requires left { OfSort arena.now.kinds number_sort m }
    requires right { OfSort arena.now.kinds number_sort n }
    ensures value { IfOk result (λ l. HasValue formula.new l (λ a. int_lt (int_of (decode arena.now a m)) (int_of (decode arena.now a n)))) }
    ensures grows { Grows formula.old formula.new }
{
    let CellKind::Word(left) = arena.kind(m) else {
        return Err(AllocError);
    };
    let CellKind::Word(right) = arena.kind(n) else {
        return Err(AllocError);
    };
    let below = less(arena.alloc(), formula, left, right)?;
    Ok(below)
}

// The ends of a part.
#[tactic(auto, using(sat_formula::proofs::Extension::gates))]
fn find_ends(
    arena: &Arena,
    formula: &mut Formula,
    s: CellId,
    m: CellId,
    n: CellId,
) -> Result<Ends, AllocError>
    requires over { IsOver arena.now formula.old }
    requires types { SequenceAndNumbers arena.now.kinds s m n }
    ensures ends { IfOk result (AreEnds arena.now formula.new s m n) }
    ensures grows { Grows formula.old formula.new }
{
    let first = index_of(arena, formula, s, m)?;
    let last = index_of(arena, formula, s, n)?;
    let empty = number_less(arena, formula, n, m)?;
    Ok(Ends { first, last, empty })
}

// How many places stand before the part, and whether its ends are among the first places, as many as
// the bits say.
#[tactic(auto, using(sat_formula::proofs::Extension::gates))]
fn start_of(
    alloc: Global,
    formula: &mut Formula,
    ends: &Ends,
    bits: &[Lit],
) -> Result<(Vec<Lit>, Lit), AllocError>
    requires ends { AreBelow formula.old.vars ends.now }
    requires bits { WordBelow formula.old.vars bits.now }
    ensures start { IfOk result (λ r. IsStart formula.new ends.now bits.now (r.0.items, r.1)) }
    ensures grows { Grows formula.old formula.new }
{
    let (zero, shift) = one_less(alloc, formula, ends.first.bits.as_slice())?;
    let past = count_less(alloc, formula, bits, ends.last.bits.as_slice())?;
    let reaches = formula.and(ends.last.valid, past.negated())?;
    let some = formula.and(zero.negated(), reaches)?;
    let starts = formula.and(ends.first.valid, some)?;
    let fine = formula.and(ends.empty.negated(), starts)?;
    Ok((shift, fine))
}

// How many items a part has that ends there and begins behind so many, where the literal is true.
#[tactic(auto, using(sat_formula::proofs::Extension::gates))]
fn span_of(
    alloc: Global,
    formula: &mut Formula,
    fine: Lit,
    last: &[Lit],
    shift: &[Lit],
) -> Result<Vec<Lit>, AllocError>
    requires fine { fine.var < formula.old.vars }
    requires last { WordBelow formula.old.vars last.now }
    requires shift { WordBelow formula.old.vars shift.now }
    ensures span { IfOk result (λ out. IsSpan formula.new fine last.now shift.now out.items) }
    ensures grows { Grows formula.old formula.new }
{
    let width = last.len().max(shift.len());
    let to = longer(alloc, formula, last, width)?;
    let from = longer(alloc, formula, shift, width)?;
    let between = subtract_counts(alloc, formula, to.as_slice(), from.as_slice())?;
    let out = masked(alloc, formula, fine, between.as_slice())?;
    Ok(out)
}

// The cut at the ends, in a sequence as long as the bits say.
#[tactic(auto, using(sat_formula::proofs::Extension::gates))]
fn cut_at(
    alloc: Global,
    formula: &mut Formula,
    ends: &Ends,
    bits: &[Lit],
) -> Result<Cut, AllocError>
    requires ends { AreBelow formula.old.vars ends.now }
    requires bits { WordBelow formula.old.vars bits.now }
    ensures cut { IfOk result (CutsAt formula.new ends.now bits.now) }
    ensures grows { Grows formula.old formula.new }
{
    let (shift, fine) = start_of(alloc, formula, ends, bits)?;
    let count = span_of(
        alloc,
        formula,
        fine,
        ends.last.bits.as_slice(),
        shift.as_slice(),
    )?;
    let wrong = formula.and(ends.empty.negated(), fine.negated())?;
    Ok(Cut {
        shift,
        count,
        wrong,
    })
}

/// The items from the number m to the number n, which are none where n is below m, and a literal that
/// is true where one of them is missing. The items move to the front by a chain of choices for each
/// bit of m.
#[tactic(auto, using(cell_arena::proofs::Growing::growing))]
pub fn slice(b: &mut Build, s: CellId, m: CellId, n: CellId) -> Result<(CellId, Lit), AllocError>
    requires { SequenceAndNumbers b.old.arena.kinds s m n }
    ensures part { IfOk result (IsPart b.old b.new s (λ a. part_of (items (decode b.old.arena a s)) (int_of (decode b.old.arena a m)) (int_of (decode b.old.arena a n)))) }
    ensures grows { BuildGrows b.old b.new }
{
    let bits = length_bits(b, s)?;
    let ends = find_ends(&b.arena, &mut b.formula, s, m, n)?;
    let cut = cut_at(b.arena.alloc(), &mut b.formula, &ends, bits.as_slice())?;
    let places = places_from(&b.arena, s, 0)?;
    let moved = shift_left(b, cut.shift.as_slice(), places)?;
    let id = make_sequence(b, cut.count.as_slice(), moved)?;
    Ok((id, cut.wrong))
}
