//! Cells by letters.

ghost use Rattle.cell_arena.specs.Cells.{AllDiffer};
ghost use Rattle.cell_arena.specs.Growth.{Grows};
ghost use Rattle.cell_merge.specs.Sorts.{OfSort, OneType, Sort, number, record_of, set_of as set_sort, truth};
ghost use Rattle.function_tests.specs.Shapes.{either_sort, entry_sort, names, pair_sort, two_sort};
ghost use Rattle.sat_formula.specs.Lit.{IsBelow};
ghost use Rattle.std.specs.Prelude.{◌<◌, ◌≤◌, ◌≡◌, ◌∷◌, All, IfOk, [], length};

use cell_arena::{Build, CellId};
use cell_merge::choose_cell;
use sat_formula::Lit;
use std::alloc::{AllocError, Global};
use tla_values::{List, Text};
use word_blaster::literal;

// A free bit.
#[tactic(auto, using(cell_arena::proofs::Growing::growing))]
fn free(b: &mut Build) -> Result<Lit, AllocError>
    ensures arena { b.new.arena ≡ b.old.arena }
    ensures more { b.old.formula.vars ≤ b.new.formula.vars }
    ensures grows { Grows b.old b.new }
    ensures below { IfOk result (λ l. l.var < b.new.formula.vars) }
{
    let l = b.formula.fresh()?;
    Ok(l)
}

/// `top` and so many free bits.
#[tactic(auto, using(cell_arena::proofs::Growing::growing))]
pub fn some_bits(alloc: Global, b: &mut Build, count: usize) -> Result<Vec<Lit>, AllocError>
    ensures bits { IfOk result (λ v. All (IsBelow b.new.formula.vars) v.items) }
    ensures grows { Grows b.old b.new }
{
    let mut bits = Vec::new(alloc);
    bits.push(b.formula.top())?;
    for _i in 0..count {
        let bit = free(b)?;
        bits.push(bit)?;
    }
    Ok(bits)
}

/// `top` and 4 free bits.
#[tactic(auto, using(cell_arena::proofs::Growing::growing))]
pub fn free_bits(alloc: Global, b: &mut Build) -> Result<Vec<Lit>, AllocError>
    ensures bits { IfOk result (λ v. All (IsBelow b.new.formula.vars) v.items) }
    ensures grows { Grows b.old b.new }
{
    some_bits(alloc, b, 4)
}

/// The literal with this letter.
pub fn literal_of(b: &Build, bits: &[Lit], code: u8) -> Lit
    requires { All (IsBelow b.now.formula.vars) bits.now }
    ensures { result.var < b.now.formula.vars }
{
    let top = b.formula.top();
    match code {
        b'F' => top.negated(),
        b'a'..=b'z' => match bits.get((code - b'a') as usize + 1) {
            Some(l) => *l,
            None => top,
        },
        b'A'..=b'D' => match bits.get((code - b'A') as usize + 1) {
            Some(l) => l.negated(),
            None => top,
        },
        _ => top,
    }
}

#[tactic(auto, using(cell_arena::proofs::Growing::growing, cell_merge::proofs::SortLaws::sorts))]
fn int(alloc: Global, b: &mut Build, n: i128) -> Result<CellId, AllocError>
    ensures sort { IfOk result (OfSort b.new.arena.kinds number) }
    ensures grows { Grows b.old b.new }
{
    let width = b.width();
    let (word, _) = literal(alloc, &mut b.formula, n, width)?;
    let id = b.word(word)?;
    Ok(id)
}

// One number or another.
#[tactic(auto, using(cell_arena::proofs::Growing::growing, cell_merge::proofs::SortLaws::sorts))]
fn one_of(alloc: Global, b: &mut Build, l: Lit, m: i128, n: i128) -> Result<CellId, AllocError>
    requires { l.var < b.old.formula.vars }
    ensures sort { IfOk result (OfSort b.new.arena.kinds number) }
    ensures grows { Grows b.old b.new }
{
    let x = int(alloc, b, m)?;
    let y = int(alloc, b, n)?;
    let cell = choose_cell(b, l, x, y)?;
    Ok(cell)
}

/// The number with this letter.
#[tactic(auto, using(cell_arena::proofs::Growing::growing))]
pub fn number(alloc: Global, b: &mut Build, bits: &[Lit], code: u8) -> Result<CellId, AllocError>
    requires { All (IsBelow b.old.formula.vars) bits.now }
    ensures sort { IfOk result (OfSort b.new.arena.kinds number) }
    ensures grows { Grows b.old b.new }
{
    let d = literal_of(b, bits, b'd');
    let cell = match code {
        b'm' => one_of(alloc, b, d, 1, 0)?,
        b'k' => one_of(alloc, b, d, 2, 1)?,
        _ => int(alloc, b, code as i128 - 48)?,
    };
    Ok(cell)
}

/// The truth value of the literal with this letter.
#[tactic(auto, using(cell_arena::proofs::Growing::growing, cell_merge::proofs::SortLaws::sorts))]
pub fn truth(b: &mut Build, bits: &[Lit], code: u8) -> Result<CellId, AllocError>
    requires { All (IsBelow b.old.formula.vars) bits.now }
    ensures sort { IfOk result (OfSort b.new.arena.kinds truth) }
    ensures grows { Grows b.old b.new }
{
    let l = literal_of(b, bits, code);
    let id = b.bit(l)?;
    Ok(id)
}

// The tuple of two cells.
#[tactic(auto, using(cell_arena::proofs::Growing::growing))]
fn two(alloc: Global, b: &mut Build, x: CellId, y: CellId) -> Result<CellId, AllocError>
    requires x_there { x.index < length b.old.arena.kinds }
    requires y_there { y.index < length b.old.arena.kinds }
    ensures sort { IfOk result (λ id. (s t : Sort) → OfSort b.old.arena.kinds s x → OfSort b.old.arena.kinds t y → OfSort b.new.arena.kinds (two_sort s t) id) }
    ensures grows { Grows b.old b.new }
{
    let parts = Vec::from_slice(alloc, &[x, y])?;
    let id = b.tup(List::from_vec(parts))?;
    Ok(id)
}

/// The name of one byte.
pub fn name(alloc: Global, code: u8) -> Result<Text, AllocError>
    ensures { IfOk result (λ t. t ≡ code ∷ []) }
{
    let bytes = Vec::from_slice(alloc, &[code])?;
    Ok(Text::from_vec(bytes))
}

// The names n and p for two cells.
fn named(alloc: Global, x: CellId, y: CellId) -> Result<List<(Text, CellId)>, AllocError>
    ensures { IfOk result (λ fields. fields ≡ (110 ∷ [], x) ∷ (112 ∷ [], y) ∷ []) }
{
    let mut fields = Vec::new(alloc);
    fields.push((name(alloc, b'n')?, x))?;
    fields.push((name(alloc, b'p')?, y))?;
    Ok(List::from_vec(fields))
}

// The record of two cells, n and p.
#[tactic(auto, using(cell_arena::proofs::Growing::growing))]
fn entry_of(alloc: Global, b: &mut Build, x: CellId, y: CellId) -> Result<CellId, AllocError>
    requires x_there { x.index < length b.old.arena.kinds }
    requires y_there { y.index < length b.old.arena.kinds }
    ensures sort { IfOk result (λ id. (s t : Sort) → OfSort b.old.arena.kinds s x → OfSort b.old.arena.kinds t y → OfSort b.new.arena.kinds (record_of names (either_sort s t)) id) }
    ensures grows { Grows b.old b.new }
{
    let fields = named(alloc, x, y)?;
    let id = b.rec(fields)?;
    Ok(id)
}

/// A number and a truth value, by two letters.
#[tactic(auto, using(cell_arena::proofs::Growing::growing))]
pub fn pair(
    alloc: Global,
    b: &mut Build,
    bits: &[Lit],
    letters: &[u8],
) -> Result<CellId, AllocError>
    requires { All (IsBelow b.old.formula.vars) bits.now }
    ensures sort { IfOk result (OfSort b.new.arena.kinds pair_sort) }
    ensures grows { Grows b.old b.new }
{
    let [first, second, ..] = letters else {
        return Err(AllocError);
    };
    let x = number(alloc, b, bits, *first)?;
    let y = truth(b, bits, *second)?;
    let id = two(alloc, b, x, y)?;
    Ok(id)
}

/// A record of a number and a pair, by three letters.
#[tactic(auto, using(cell_arena::proofs::Growing::growing))]
pub fn entry(
    alloc: Global,
    b: &mut Build,
    bits: &[Lit],
    letters: &[u8],
) -> Result<CellId, AllocError>
    requires { All (IsBelow b.old.formula.vars) bits.now }
    ensures sort { IfOk result (OfSort b.new.arena.kinds entry_sort) }
    ensures grows { Grows b.old b.new }
{
    let [first, rest @ ..] = letters else {
        return Err(AllocError);
    };
    let x = number(alloc, b, bits, *first)?;
    let y = pair(alloc, b, bits, rest)?;
    let id = entry_of(alloc, b, x, y)?;
    Ok(id)
}

// The set of the two cells, each where its literal is true.
#[tactic(auto, using(cell_arena::proofs::Growing::growing))]
fn two_edges(
    alloc: Global,
    b: &mut Build,
    x: (Lit, CellId),
    y: (Lit, CellId),
) -> Result<CellId, AllocError>
    requires x_below { x.0.var < b.old.formula.vars }
    requires y_below { y.0.var < b.old.formula.vars }
    requires x_sort { OfSort b.old.arena.kinds entry_sort x.1 }
    requires y_sort { OfSort b.old.arena.kinds entry_sort y.1 }
    ensures sort { IfOk result (OfSort b.new.arena.kinds (set_sort entry_sort)) }
    ensures grows { Grows b.old b.new }
{
    let edges = Vec::from_slice(alloc, &[x, y])?;
    let id = b.set(List::from_vec(edges))?;
    Ok(id)
}

// A set of two records, by three letters and a literal each.
#[tactic(auto, using(cell_arena::proofs::Growing::growing))]
fn entries(alloc: Global, b: &mut Build, bits: &[Lit], letters: &[u8]) -> Result<CellId, AllocError>
    requires { All (IsBelow b.old.formula.vars) bits.now }
    ensures sort { IfOk result (OfSort b.new.arena.kinds (set_sort entry_sort)) }
    ensures grows { Grows b.old b.new }
{
    let [_, _, _, first, rest @ ..] = letters else {
        return Err(AllocError);
    };
    let [_, _, _, second, ..] = rest else {
        return Err(AllocError);
    };
    let l = literal_of(b, bits, *first);
    let m = literal_of(b, bits, *second);
    let x = entry(alloc, b, bits, letters)?;
    let y = entry(alloc, b, bits, rest)?;
    let id = two_edges(alloc, b, (l, x), (m, y))?;
    Ok(id)
}

/// A pair of a truth value and a set of two records, by a letter and four for each.
#[tactic(auto, using(cell_arena::proofs::Growing::growing))]
pub fn boxed(
    alloc: Global,
    b: &mut Build,
    bits: &[Lit],
    letters: &[u8],
) -> Result<CellId, AllocError>
    requires { All (IsBelow b.old.formula.vars) bits.now }
    ensures sort { IfOk result (OfSort b.new.arena.kinds (two_sort truth (set_sort entry_sort))) }
    ensures grows { Grows b.old b.new }
{
    let [first, rest @ ..] = letters else {
        return Err(AllocError);
    };
    let x = truth(b, bits, *first)?;
    let y = entries(alloc, b, bits, rest)?;
    let id = two(alloc, b, x, y)?;
    Ok(id)
}
