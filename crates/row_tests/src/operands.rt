//! The operands of a case. A number is a digit, / (-1), m (1 or 0 by d), k (2 or 1 by d) or w (the four
//! bits a to d). A literal is a bit, in capitals its negation, or T or F. The first letter of a word
//! says what it is: n a number, b the truth value of a literal, f a function by three letters for an
//! arrow (an argument, the literal by which it is there, a result), g one to truth values, s a set by
//! two for a member, t a tuple of numbers, r a record of two, and q a sequence of numbers by its places
//! and, behind a colon, the bits of its length, the lowest first.

ghost use Rattle.row_tests.specs.Shapes.{names};
ghost use Rattle.std.specs.Prelude.{◌<◌, ◌≡◌, ◌∷◌, IfOk, []};

use crate::sequences::counted;
use crate::sorts::is_there;
use cell_arena::{Build, CellId, all_differ};
use sat_formula::{Lit, Word};
use std::alloc::{AllocError, Global};
use tla_values::{List, Text};

/// The names n and p.
pub fn names(alloc: Global) -> Result<List<Text>, AllocError>
    ensures { IfOk result (λ l. l ≡ names) }
{
    let mut list = List::new(alloc);
    list.push(name(alloc, b'n')?)?;
    list.push(name(alloc, b'p')?)?;
    Ok(list)
}

/// The name of one byte.
pub fn name(alloc: Global, code: u8) -> Result<Text, AllocError>
    ensures { IfOk result (λ t. t ≡ code ∷ []) }
{
    let bytes = Vec::from_slice(alloc, &[code])?;
    Ok(Text::from_vec(bytes))
}

// A build over the two names.
#[tactic(auto, using(cell_arena::proofs::Growing::growing))]
fn named_build(alloc: Global, width: u32) -> Result<Build, AllocError> {
    let texts = names(alloc)?;
    if !all_differ(texts.as_slice()) || width < 4 || width > 64 {
        return Err(AllocError);
    }
    Build::new(alloc, &texts, width)
}

#[tactic(auto, using(cell_arena::proofs::Growing::growing))]
fn free(b: &mut Build) -> Result<(), AllocError> {
    let _ = b.formula.fresh()?;
    Ok(())
}

fn put_bits(b: &mut Build, count: usize) -> Result<(), AllocError> {
    for _i in 0..count {
        free(b)?;
    }
    Ok(())
}

/// A build over the two names with so many free bits, whose variables are 1 and so on.
pub fn with_bits(alloc: Global, width: u32, count: usize) -> Result<Build, AllocError> {
    let mut b = named_build(alloc, width)?;
    put_bits(&mut b, count)?;
    Ok(b)
}

// The literal of a variable, or of the first one where there is no such.
fn of_variable(b: &Build, var: usize, neg: bool) -> Lit
    ensures { result.var < b.now.formula.vars }
{
    if var < b.formula.vars() {
        return Lit { var, neg };
    }
    b.formula.top()
}

/// The literal with this letter; 0 and so on are the bits behind z.
pub fn literal_of(b: &Build, code: u8) -> Lit
    ensures { result.var < b.now.formula.vars }
{
    match code {
        b'F' => b.formula.top().negated(),
        b'a'..=b'z' => of_variable(b, (code - b'a') as usize + 1, false),
        b'0'..=b'9' => of_variable(b, (code - b'0') as usize + 27, false),
        b'A'..=b'D' => of_variable(b, (code - b'A') as usize + 1, true),
        _ => b.formula.top(),
    }
}

// The bit at a place of a number of a byte.
fn has_bit(number: u8, place: u32) -> bool {
    place < 8 && (number >> place) % 2 == 1
}

// The literal of a known bit.
fn known(b: &Build, value: bool) -> Lit
    ensures { result.var < b.now.formula.vars }
{
    if value {
        return b.formula.top();
    }
    b.formula.top().negated()
}

// The literal at a place of the number with this letter, from the lowest on.
fn bit_of(b: &Build, code: u8, place: u32) -> Lit
    ensures { result.var < b.now.formula.vars }
{
    match code {
        b'm' if place == 0 => literal_of(b, b'd'),
        b'k' if place == 0 => literal_of(b, b'D'),
        b'k' if place == 1 => literal_of(b, b'd'),
        b'm' | b'k' => known(b, false),
        b'w' if place < 4 => of_variable(b, place as usize + 1, false),
        b'w' => literal_of(b, b'd'),
        b'/' => known(b, true),
        _ => known(b, has_bit(code.wrapping_sub(b'0'), place)),
    }
}

/// The number with this letter.
#[tactic(auto, using(cell_arena::proofs::Growing::growing), unfolding(word_blaster::specs::Word::WordBelow))]
pub fn number(alloc: Global, b: &mut Build, code: u8) -> Result<CellId, AllocError> {
    let width = b.width();
    let mut lits = Vec::new(alloc);
    for place in 0..width {
        let l = bit_of(b, code, place);
        lits.push(l)?;
    }
    word_of(b, lits)
}

// The number of these bits, as many as the width.
#[tactic(auto, using(cell_arena::proofs::Growing::growing), unfolding(word_blaster::specs::Word::WordBelow))]
fn word_of(b: &mut Build, lits: Vec<Lit>) -> Result<CellId, AllocError> {
    let vars = b.formula.vars();
    let count = lits.as_slice().len();
    if count != b.width() as usize || !lits.as_slice().iter().all(|l| l.var < vars) {
        return Err(AllocError);
    }
    b.word(Word::from_vec(lits))
}

/// The truth value of the literal with this letter.
#[tactic(auto, using(cell_arena::proofs::Growing::growing))]
pub fn truth(b: &mut Build, code: u8) -> Result<CellId, AllocError> {
    let l = literal_of(b, code);
    b.bit(l)
}

/// The numbers with these letters.
pub fn numbers(alloc: Global, b: &mut Build, letters: &[u8]) -> Result<Vec<CellId>, AllocError> {
    let mut cells = Vec::new(alloc);
    for code in letters {
        cells.push(number(alloc, b, *code)?)?;
    }
    Ok(cells)
}

// The arrows by three letters each, to truth values or to numbers.
fn arrows(
    alloc: Global,
    b: &mut Build,
    truths: bool,
    letters: &[u8],
) -> Result<Vec<(Lit, CellId, CellId)>, AllocError> {
    let mut list = Vec::new(alloc);
    for i in 0..letters.len() / 3 {
        let from = number(alloc, b, letters[3 * i])?;
        let code = letters[3 * i + 2];
        let to = if truths {
            truth(b, code)?
        } else {
            number(alloc, b, code)?
        };
        list.push((literal_of(b, letters[3 * i + 1]), from, to))?;
    }
    Ok(list)
}

#[tactic(auto, using(cell_arena::proofs::Growing::growing))]
fn function(b: &mut Build, arrows: Vec<(Lit, CellId, CellId)>) -> Result<CellId, AllocError> {
    let vars = b.formula.vars();
    let count = b.arena.len();
    let list = arrows.as_slice();
    let named = list.iter().all(|e| e.0.var < vars);
    let older = list.iter().all(|e| e.1.index < count && e.2.index < count);
    if !named || !older {
        return Err(AllocError);
    }
    b.fun(List::from_vec(arrows))
}

// The members by two letters each.
fn edges(alloc: Global, b: &mut Build, letters: &[u8]) -> Result<Vec<(Lit, CellId)>, AllocError> {
    let mut list = Vec::new(alloc);
    for i in 0..letters.len() / 2 {
        let cell = number(alloc, b, letters[2 * i])?;
        list.push((literal_of(b, letters[2 * i + 1]), cell))?;
    }
    Ok(list)
}

/// The set of these edges.
#[tactic(auto, using(cell_arena::proofs::Growing::growing))]
pub fn set(b: &mut Build, edges: Vec<(Lit, CellId)>) -> Result<CellId, AllocError> {
    let vars = b.formula.vars();
    let count = b.arena.len();
    let list = edges.as_slice();
    let named = list.iter().all(|e| e.0.var < vars);
    let older = list.iter().all(|e| e.1.index < count);
    if !named || !older {
        return Err(AllocError);
    }
    b.set(List::from_vec(edges))
}

#[tactic(auto, using(cell_arena::proofs::Growing::growing))]
fn tuple(b: &mut Build, parts: Vec<CellId>) -> Result<CellId, AllocError> {
    let count = b.arena.len();
    if !parts.as_slice().iter().all(|p| p.index < count) {
        return Err(AllocError);
    }
    b.tup(List::from_vec(parts))
}

// The names n and p for two cells.
fn named(alloc: Global, x: CellId, y: CellId) -> Result<List<(Text, CellId)>, AllocError>
    ensures { IfOk result (λ fields. fields ≡ (110 ∷ [], x) ∷ (112 ∷ [], y) ∷ []) }
{
    let mut fields = Vec::new(alloc);
    fields.push((name(alloc, b'n')?, x))?;
    fields.push((name(alloc, b'p')?, y))?;
    Ok(List::from_vec(fields))
}

#[tactic(auto, using(cell_arena::proofs::Growing::growing))]
fn record(alloc: Global, b: &mut Build, parts: &[CellId]) -> Result<CellId, AllocError> {
    let [x, y] = parts else {
        return Err(AllocError);
    };
    let texts = names(alloc)?;
    if !all_differ(texts.as_slice()) || !is_there(b, *x) || !is_there(b, *y) {
        return Err(AllocError);
    }
    let fields = named(alloc, *x, *y)?;
    b.rec(fields)
}

// A sequence by its places and the bits of its length.
fn sequence(alloc: Global, b: &mut Build, letters: &str) -> Result<CellId, AllocError> {
    let (items, count) = letters.split_once(":").unwrap_or((letters, ""));
    let places = numbers(alloc, b, items.as_bytes())?;
    let mut bits = Vec::new(alloc);
    for code in count.as_bytes() {
        bits.push(literal_of(b, *code))?;
    }
    counted(alloc, b, bits.as_slice(), places)
}

// The cell of a word.
fn operand(alloc: Global, b: &mut Build, word: &str) -> Result<CellId, AllocError> {
    let [kind, letters @ ..] = word.as_bytes() else {
        return Err(AllocError);
    };
    match kind {
        b'n' => number(alloc, b, first(letters)),
        b'b' => truth(b, first(letters)),
        b'f' => function_of(alloc, b, false, letters),
        b'g' => function_of(alloc, b, true, letters),
        b's' => set_of(alloc, b, letters),
        b't' => tuple_of(alloc, b, letters),
        b'r' => record_of(alloc, b, letters),
        _ => sequence(alloc, b, word.strip_prefix("q").unwrap_or(word)),
    }
}

fn first(letters: &[u8]) -> u8 {
    match letters {
        [code, ..] => *code,
        [] => b'F',
    }
}

fn function_of(
    alloc: Global,
    b: &mut Build,
    truths: bool,
    letters: &[u8],
) -> Result<CellId, AllocError> {
    let list = arrows(alloc, b, truths, letters)?;
    function(b, list)
}

fn set_of(alloc: Global, b: &mut Build, letters: &[u8]) -> Result<CellId, AllocError> {
    let list = edges(alloc, b, letters)?;
    set(b, list)
}

fn tuple_of(alloc: Global, b: &mut Build, letters: &[u8]) -> Result<CellId, AllocError> {
    let parts = numbers(alloc, b, letters)?;
    tuple(b, parts)
}

fn record_of(alloc: Global, b: &mut Build, letters: &[u8]) -> Result<CellId, AllocError> {
    let parts = numbers(alloc, b, letters)?;
    record(alloc, b, parts.as_slice())
}

/// The cells of the words of a line.
pub fn operands(alloc: Global, b: &mut Build, words: &str) -> Result<Vec<CellId>, AllocError> {
    let mut cells = Vec::new(alloc);
    for word in words.split(" ") {
        cells.push(operand(alloc, b, word)?)?;
    }
    Ok(cells)
}
