//! Whole numbers in a row.

ghost use Rattle.cell_arena.specs.Decode.{decode};
ghost use Rattle.cell_arena.specs.Growth.{Decodes, Grows as BuildGrows};
ghost use Rattle.cell_merge.specs.Sorts.{IsOver, OfSort, number, set_of as set_sort};
ghost use Rattle.sat_formula.specs.Formula.{Grows, HasValue};
ghost use Rattle.set_rewriter.specs.Ranges.{AreNumbers, count_of, lies, range};
ghost use Rattle.set_rewriter.specs.inner.Steps.{IsCandidate, IsSmall};
ghost use Rattle.std.specs.Prelude.{◌+ℤ◌, ◌<◌, ◌≡◌, ◌≤ℤ◌, IfOk, IsTrue, filter, pos};
ghost use Rattle.tla_values.specs.Integers.{fits_width};
ghost use Rattle.word_blaster.specs.Word.{IsWord, word_value};

use cell_arena::{Arena, Build, CellId, CellKind};
use cell_merge::known;
use sat_formula::{Formula, Lit, Word};
use std::alloc::AllocError;
use tla_values::{List, Value};
use word_blaster::{less, literal};

// Whether the number of the word lies from x to y.
#[tactic(auto, using(sat_formula::proofs::Extension::gates))]
fn between(
    arena: &Arena,
    formula: &mut Formula,
    x: CellId,
    y: CellId,
    word: &Word,
) -> Result<Lit, AllocError>
    requires over { IsOver arena.now formula.old }
    requires types { AreNumbers arena.now.kinds x y }
    requires word { IsWord formula.old.vars arena.now.width word.now }
    ensures value { IfOk result (λ l. HasValue formula.new l (λ a. lies (decode arena.now a x) (decode arena.now a y) (Value.Int (word_value word.now a)))) }
    ensures grows { Grows formula.old formula.new }
{
    let alloc = arena.alloc();
    let CellKind::Word(v) = arena.kind(x) else {
        return Ok(formula.top());
    };
    let CellKind::Word(w) = arena.kind(y) else {
        return Ok(formula.top());
    };
    let under = less(alloc, formula, word, v)?;
    let over = less(alloc, formula, w, word)?;
    let inside = formula.and(under.negated(), over.negated())?;
    Ok(inside)
}

// A number as a cell, and whether it lies from x to y.
#[tactic(auto, using(cell_arena::proofs::Growing::growing, cell_merge::proofs::SortLaws::sorts))]
fn candidate(b: &mut Build, x: CellId, y: CellId, n: i128) -> Result<(Lit, CellId), AllocError>
    requires types { AreNumbers b.old.arena.kinds x y }
    requires fits { IsTrue (fits_width b.old.arena.width n) }
    ensures candidate { IfOk result (IsCandidate b.old b.new x y n) }
    ensures grows { BuildGrows b.old b.new }
{
    let alloc = b.arena.alloc();
    let width = b.width();
    let (word, _) = literal(alloc, &mut b.formula, n, width)?;
    let inside = between(&b.arena, &mut b.formula, x, y, &word)?;
    let id = b.word(word)?;
    Ok((inside, id))
}

// How many numbers there are from the one to the other. Want of memory is answered for 2^62 or more.
fn count_between(low: i128, high: i128) -> Result<usize, AllocError>
    requires low { IsSmall low }
    requires high { IsSmall high }
    ensures { IfOk result (λ n. n ≡ count_of low high) }
{
    if high < low {
        return Ok(0);
    }
    let more = high - low;
    if more >= 1 << 62 {
        return Err(AllocError);
    }
    Ok(more as usize + 1)
}

// The number that stands so many places behind.
fn number_at(low: i128, i: usize) -> i128
    requires { IsSmall low }
    ensures { result ≡ low +ℤ pos i }
{
    low + i as i128
}

/// The numbers that lie both from x to y and from `low` to `high`, which fit the width. Each is a
/// constant with a literal, and one that is never there is left out. Want of memory is answered for
/// 2^62 or more numbers from `low` to `high`.
#[tactic(auto, using(cell_arena::proofs::Growing::growing))]
pub fn range(
    b: &mut Build,
    x: CellId,
    y: CellId,
    low: i128,
    high: i128,
) -> Result<CellId, AllocError>
    requires numbers { AreNumbers b.old.arena.kinds x y }
    requires low_fits { IsTrue (fits_width b.old.arena.width low) }
    requires high_fits { IsTrue (fits_width b.old.arena.width high) }
    ensures value { IfOk result (λ id. Decodes b.new id (λ a. Value.Set (filter (lies (decode b.old.arena a x) (decode b.old.arena a y)) (range low high)))) }
    ensures sort { IfOk result (OfSort b.new.arena.kinds (set_sort number)) }
    ensures grows { BuildGrows b.old b.new }
{
    // Read for its promise: the width is at most 64.
    let _ = b.width();
    let count = count_between(low, high)?;
    let mut edges = Vec::new(b.arena.alloc());
    for i in 0..count {
        let n = number_at(low, i);
        let edge = candidate(b, x, y, n)?;
        if let Some(false) = known(&b.formula, edge.0) {
            continue;
        }
        edges.push(edge)?;
    }
    let id = b.set(List::from_vec(edges))?;
    Ok(id)
}
