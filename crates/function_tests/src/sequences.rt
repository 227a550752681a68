//! Sequences by letters.

ghost use Rattle.cell_arena.specs.Growth.{Grows};
ghost use Rattle.cell_merge.specs.Sorts.{OfSort, Sort, number as number_sort, sequence_of, truth as truth_sort};
ghost use Rattle.sat_formula.specs.Formula.{Grows as FormulaGrows};
ghost use Rattle.sat_formula.specs.Lit.{IsBelow};
ghost use Rattle.sequence_rewriter.specs.inner.Lengths.{IsCount};
ghost use Rattle.std.specs.Prelude.{◌^◌, ◌<◌, ◌≤◌, ◌≡◌, All, IfOk, length};
ghost use Rattle.word_blaster.specs.Word.{WordBelow};

use crate::building::{literal_of, number, truth};
use cell_arena::{Build, CellId};
use sat_formula::{Formula, Lit, Word};
use std::alloc::{AllocError, Global};
use tla_values::List;
use word_blaster::natural;

/// The number of assignments of a few bits.
pub fn power(count: usize) -> usize
    requires { count ≤ 4 }
    ensures { result ≡ 2 ^ count }
{
    match count {
        0 => 1,
        1 => 2,
        2 => 4,
        3 => 8,
        _ => 16,
    }
}

// The word of a length by its lowest bits.
#[tactic(auto, using(sat_formula::proofs::Extension::gates))]
fn count_word(alloc: Global, formula: &mut Formula, bits: &[Lit]) -> Result<Word, AllocError>
    requires below { WordBelow formula.old.vars bits.now }
    requires few { length bits.now ≤ 4 }
    ensures count { IfOk result (IsCount formula.new bits.now) }
    ensures grows { FormulaGrows formula.old formula.new }
{
    let (word, _) = natural(alloc, formula, bits, 32)?;
    Ok(word)
}

// The sequence of the first places, as many as the bits say; none where they may say more.
#[tactic(auto, using(cell_arena::proofs::Growing::growing))]
fn counted(
    alloc: Global,
    b: &mut Build,
    bits: &[Lit],
    places: Vec<CellId>,
) -> Result<CellId, AllocError>
    requires below { WordBelow b.old.formula.vars bits.now }
    requires older { All (λ p. p.index < length b.old.arena.kinds) places.items }
    ensures sort { IfOk result (λ id. (t : Sort) → All (OfSort b.old.arena.kinds t) places.items → OfSort b.new.arena.kinds (sequence_of t) id) }
    ensures grows { Grows b.old b.new }
{
    if bits.len() > 4 {
        return Err(AllocError);
    }
    let most = power(bits.len()) - 1;
    let room = places.as_slice().len();
    if room < most {
        return Err(AllocError);
    }
    let count = count_word(alloc, &mut b.formula, bits)?;
    let id = b.seq(count, List::from_vec(places))?;
    Ok(id)
}

/// The literals with these letters.
pub fn literals(
    alloc: Global,
    b: &Build,
    bits: &[Lit],
    letters: &[u8],
) -> Result<Vec<Lit>, AllocError>
    requires { All (IsBelow b.now.formula.vars) bits.now }
    ensures { IfOk result (λ v. All (IsBelow b.now.formula.vars) v.items) }
{
    let mut list = Vec::new(alloc);
    for i in 0..letters.len() {
        let l = literal_of(b, bits, letters[i]);
        list.push(l)?;
    }
    Ok(list)
}

// The numbers with these letters.
#[tactic(auto, using(cell_arena::proofs::Growing::growing))]
fn numbers(
    alloc: Global,
    b: &mut Build,
    bits: &[Lit],
    letters: &[u8],
) -> Result<Vec<CellId>, AllocError>
    requires { All (IsBelow b.old.formula.vars) bits.now }
    ensures sorts { IfOk result (λ v. All (OfSort b.new.arena.kinds number_sort) v.items) }
    ensures grows { Grows b.old b.new }
{
    let mut places = Vec::new(alloc);
    for i in 0..letters.len() {
        let place = number(alloc, b, bits, letters[i])?;
        places.push(place)?;
    }
    Ok(places)
}

/// A sequence of numbers by its places and the bits of its length.
#[tactic(auto, using(cell_arena::proofs::Growing::growing))]
pub fn sequence(
    alloc: Global,
    b: &mut Build,
    bits: &[Lit],
    letters: &str,
) -> Result<CellId, AllocError>
    requires { All (IsBelow b.old.formula.vars) bits.now }
    ensures sort { IfOk result (OfSort b.new.arena.kinds (sequence_of number_sort)) }
    ensures grows { Grows b.old b.new }
{
    let (items, count) = letters.split_once(":").unwrap_or((letters, ""));
    let places = numbers(alloc, b, bits, items.as_bytes())?;
    let lits = literals(alloc, b, bits, count.as_bytes())?;
    let id = counted(alloc, b, lits.as_slice(), places)?;
    Ok(id)
}

// The truth values with these letters.
#[tactic(auto, using(cell_arena::proofs::Growing::growing))]
fn truths(
    alloc: Global,
    b: &mut Build,
    bits: &[Lit],
    letters: &[u8],
) -> Result<Vec<CellId>, AllocError>
    requires { All (IsBelow b.old.formula.vars) bits.now }
    ensures sorts { IfOk result (λ v. All (OfSort b.new.arena.kinds truth_sort) v.items) }
    ensures grows { Grows b.old b.new }
{
    let mut places = Vec::new(alloc);
    for i in 0..letters.len() {
        let place = truth(b, bits, letters[i])?;
        places.push(place)?;
    }
    Ok(places)
}

/// A sequence of truth values by its places and the bits of its length.
#[tactic(auto, using(cell_arena::proofs::Growing::growing))]
pub fn truth_sequence(
    alloc: Global,
    b: &mut Build,
    bits: &[Lit],
    items: &str,
    count: &str,
) -> Result<CellId, AllocError>
    requires { All (IsBelow b.old.formula.vars) bits.now }
    ensures sort { IfOk result (OfSort b.new.arena.kinds (sequence_of truth_sort)) }
    ensures grows { Grows b.old b.new }
{
    let places = truths(alloc, b, bits, items.as_bytes())?;
    let lits = literals(alloc, b, bits, count.as_bytes())?;
    let id = counted(alloc, b, lits.as_slice(), places)?;
    Ok(id)
}

/// The number whose bits have these letters, the lowest first; as many as the width.
#[tactic(auto, using(cell_arena::proofs::Growing::growing, cell_merge::proofs::SortLaws::sorts))]
pub fn any_number(
    alloc: Global,
    b: &mut Build,
    bits: &[Lit],
    letters: &str,
) -> Result<CellId, AllocError>
    requires { All (IsBelow b.old.formula.vars) bits.now }
    ensures sort { IfOk result (OfSort b.new.arena.kinds number_sort) }
    ensures grows { Grows b.old b.new }
{
    let width = b.width();
    let lits = literals(alloc, b, bits, letters.as_bytes())?;
    let count = lits.as_slice().len();
    if count != width as usize {
        return Err(AllocError);
    }
    let id = b.word(Word::from_vec(lits))?;
    Ok(id)
}
