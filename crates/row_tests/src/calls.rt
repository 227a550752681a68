//! The calls on functions, records and tuples.

ghost use Rattle.row_tests.specs.Shapes.{AreTexts, names};
ghost use Rattle.std.specs.Prelude.{IfOk, IsTrue};

use crate::operands::{name, set};
use crate::sequence_calls::{of_sequence, of_sequence_and, of_sequence_and_two};
use crate::sorts::{
    edge_count, has_field, has_item, have_one_type, is_function, is_number, is_record, is_set,
    is_short, is_there, literal_in,
};
use cell_arena::{Build, CellId};
use cell_merge::{choose_cell, same};
use function_rewriter::{
    at, domain, field, functions, index_of, item, join, make, pick_function, update, with_field,
    with_item,
};
use sat_formula::Lit;
use std::alloc::{AllocError, Global};

/// A cell, and the literal that says where there is no value; nothing where there is never one.
pub type Given = Option<(CellId, Lit)>;

/// A cell that always has a value.
pub fn always(b: &Build, id: CellId) -> Result<Given, AllocError> {
    Ok(Some((id, b.formula.top().negated())))
}

// A function at an argument.
fn applied(b: &mut Build, f: CellId, x: CellId) -> Result<Given, AllocError> {
    if is_function(b, f) && is_number(b, x) {
        return at(b, f, x);
    }
    of_sequence_and(b, "at", f, x)
}

// A function with another result at an argument.
fn updated(b: &mut Build, f: CellId, x: CellId, v: CellId) -> Result<Given, AllocError> {
    if is_function(b, f) && is_number(b, x) && is_number(b, v) {
        let id = update(b, f, x, v)?;
        return always(b, id);
    }
    of_sequence_and_two(b, "update", f, x, v)
}

// Whether n and p are texts of the build.
fn knows_names(alloc: Global, b: &Build) -> Result<bool, AllocError>
    ensures { IfOk result (λ r. IsTrue r → AreTexts b.now.arena.texts names) }
{
    let n = name(alloc, b'n')?;
    let p = name(alloc, b'p')?;
    let texts = b.texts().as_slice();
    Ok(index_of(texts, &n).is_some() && index_of(texts, &p).is_some())
}

// The names of a record.
fn record_domain(alloc: Global, b: &mut Build, r: CellId) -> Result<Given, AllocError> {
    if !is_record(b, r) || !knows_names(alloc, b)? {
        return Err(AllocError);
    }
    let id = domain(b, r)?;
    always(b, id)
}

// The arguments of a function, the names of a record or the numbers of a tuple or sequence.
fn domain_of(alloc: Global, b: &mut Build, f: CellId) -> Result<Given, AllocError> {
    if is_function(b, f) {
        let arguments = domain(b, f)?;
        return always(b, arguments);
    }
    if is_short(b, f) {
        let places = domain(b, f)?;
        return always(b, places);
    }
    if is_record(b, f) {
        return record_domain(alloc, b, f);
    }
    of_sequence(b, "domain", f)
}

// One function behind another.
fn joined(b: &mut Build, f: CellId, g: CellId) -> Result<Given, AllocError> {
    if !is_function(b, f) || !is_function(b, g) {
        return Err(AllocError);
    }
    let id = join(b, f, g)?;
    always(b, id)
}

// Whether two cells are equal.
fn compared(b: &mut Build, x: CellId, y: CellId) -> Result<Given, AllocError> {
    if !have_one_type(b, x, y) {
        return Err(AllocError);
    }
    let l = same(b, x, y)?;
    let id = b.bit(l)?;
    always(b, id)
}

// One cell where the truth value is TRUE, and else the other.
fn chosen(b: &mut Build, c: CellId, x: CellId, y: CellId) -> Result<Given, AllocError> {
    let Some(l) = literal_in(b, c) else {
        return Err(AllocError);
    };
    if !have_one_type(b, x, y) {
        return Err(AllocError);
    }
    let id = choose_cell(b, l, x, y)?;
    always(b, id)
}

// The function of arrows: in threes whether one is there, its argument and its result.
fn made(alloc: Global, b: &mut Build, ids: &[CellId]) -> Result<Given, AllocError> {
    let mut edges = Vec::new(alloc);
    let mut results = Vec::new(alloc);
    for i in 0..ids.len() / 3 {
        let Some(l) = literal_in(b, ids[3 * i]) else {
            return Err(AllocError);
        };
        edges.push((l, ids[3 * i + 1]))?;
        results.push(ids[3 * i + 2])?;
    }
    let from = set(b, edges)?;
    made_over(b, from, results.as_slice())
}

fn made_over(b: &mut Build, from: CellId, results: &[CellId]) -> Result<Given, AllocError> {
    if !is_set(b, from) || edge_count(b, from) != results.len() {
        return Err(AllocError);
    }
    if !results.iter().all(|r| is_number(b, *r)) {
        return Err(AllocError);
    }
    let id = make(b, from, results)?;
    always(b, id)
}

// All functions from one set to another.
fn between(b: &mut Build, from: CellId, to: CellId) -> Result<Given, AllocError> {
    if !is_set(b, from) || !is_set(b, to) {
        return Err(AllocError);
    }
    let id = functions(b, from, to)?;
    always(b, id)
}

// One of these functions.
fn picked(b: &mut Build, from: CellId, to: CellId) -> Result<Given, AllocError> {
    if !is_set(b, from) || !is_set(b, to) {
        return Err(AllocError);
    }
    let (id, l) = pick_function(b, from, to)?;
    Ok(Some((id, l.negated())))
}

// A field of a record.
fn field_of(alloc: Global, b: &Build, key: u8, r: CellId) -> Result<Given, AllocError> {
    let text = name(alloc, key)?;
    if !has_field(b, r, &text) {
        return Err(AllocError);
    }
    let id = field(b, r, &text);
    always(b, id)
}

// A record with another field.
fn with_field_of(
    alloc: Global,
    b: &mut Build,
    key: u8,
    r: CellId,
    v: CellId,
) -> Result<Given, AllocError> {
    let text = name(alloc, key)?;
    if !has_field(b, r, &text) || !is_there(b, v) {
        return Err(AllocError);
    }
    let id = with_field(b, r, &text, v)?;
    always(b, id)
}

// An item of a tuple, from 1.
fn item_of(b: &Build, key: u8, t: CellId) -> Result<Given, AllocError> {
    let i = key.wrapping_sub(b'0') as usize;
    if !has_item(b, t, i) {
        return Err(AllocError);
    }
    let id = item(b, t, i);
    always(b, id)
}

// A tuple with another item.
fn with_item_of(b: &mut Build, key: u8, t: CellId, v: CellId) -> Result<Given, AllocError> {
    let i = key.wrapping_sub(b'0') as usize;
    if !has_item(b, t, i) || !is_there(b, v) {
        return Err(AllocError);
    }
    let id = with_item(b, t, i, v)?;
    always(b, id)
}

fn of_one(alloc: Global, b: &mut Build, op: &str, key: u8, x: CellId) -> Result<Given, AllocError> {
    match op {
        "domain" => domain_of(alloc, b, x),
        "field" => field_of(alloc, b, key, x),
        "item" => item_of(b, key, x),
        _ => of_sequence(b, op, x),
    }
}

fn of_two(
    alloc: Global,
    b: &mut Build,
    op: (&str, u8),
    x: CellId,
    y: CellId,
) -> Result<Given, AllocError> {
    let (word, key) = op;
    match word {
        "at" => applied(b, x, y),
        "join" => joined(b, x, y),
        "same" => compared(b, x, y),
        "functions" => between(b, x, y),
        "pick" => picked(b, x, y),
        "with_field" => with_field_of(alloc, b, key, x, y),
        "with_item" => with_item_of(b, key, x, y),
        _ => of_sequence_and(b, word, x, y),
    }
}

/// What the call gives of the cells.
pub fn called(
    alloc: Global,
    b: &mut Build,
    op: &str,
    key: u8,
    ids: &[CellId],
) -> Result<Given, AllocError> {
    if op == "make" {
        return made(alloc, b, ids);
    }
    match ids {
        [x] => of_one(alloc, b, op, key, *x),
        [x, y] => of_two(alloc, b, (op, key), *x, *y),
        [x, y, z] if op == "choose" => chosen(b, *x, *y, *z),
        [x, y, z] if op == "update" => updated(b, *x, *y, *z),
        [x, y, z] => of_sequence_and_two(b, op, *x, *y, *z),
        _ => Err(AllocError),
    }
}
