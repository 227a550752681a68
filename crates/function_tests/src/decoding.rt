//! A plain decoder of cells.

use cell_arena::{Build, CellId, CellKind};
use sat_formula::{Formula, Lit, Word};
use std::alloc::{AllocError, Global};
use tla_values::{List, Text, Value, copy_text, copy_value, fun_of, same_value, set_of, show};

// The value of a literal, which is false past the end.
fn is_true(l: Lit, a: &[bool]) -> bool {
    match a.get(l.var) {
        Some(b) => *b != l.neg,
        None => l.neg,
    }
}

/// Whether the clause has a true literal, or one of a later variable.
pub fn is_met(lits: &[Lit], a: &[bool]) -> bool {
    for l in lits {
        if l.var >= a.len() || is_true(*l, a) {
            return true;
        }
    }
    false
}

fn are_met(f: &Formula, a: &[bool]) -> bool {
    for c in f.clauses().clauses() {
        if !is_met(c.lits(), a) {
            return false;
        }
    }
    true
}

/// The assignment with values of the further variables that the gates fix.
pub fn extended(alloc: Global, f: &Formula, a: &[bool]) -> Result<Vec<bool>, AllocError> {
    let mut values = Vec::from_slice(alloc, a)?;
    for _i in a.len()..f.vars() {
        values.push(true)?;
        if !are_met(f, values.as_slice()) {
            let _ = values.pop();
            values.push(false)?;
        }
    }
    Ok(values)
}

// Whether no clause is false with one value more.
fn is_free_for(f: &Formula, values: &mut Vec<bool>, value: bool) -> Result<bool, AllocError> {
    values.push(value)?;
    let met = are_met(f, values.as_slice());
    let _ = values.pop();
    Ok(met)
}

/// The assignment with values of the further variables. Those that the clauses leave free are the
/// bits of the mask, the lowest first.
pub fn preferring(
    alloc: Global,
    f: &Formula,
    a: &[bool],
    mask: u8,
) -> Result<Vec<bool>, AllocError> {
    let mut values = Vec::from_slice(alloc, a)?;
    let mut rest = mask;
    for _i in a.len()..f.vars() {
        let on = is_free_for(f, &mut values, true)?;
        let off = is_free_for(f, &mut values, false)?;
        if on && off {
            values.push(rest % 2 == 1)?;
            rest /= 2;
        } else {
            values.push(on)?;
        }
    }
    Ok(values)
}

// The number of a word in two's complement.
fn number(w: &Word, a: &[bool]) -> i128 {
    let mut n: i128 = 0;
    let mut bit: i128 = 1;
    let mut negative = false;
    for l in w.lits() {
        negative = is_true(*l, a);
        if negative {
            n = n.saturating_add(bit);
        }
        bit = bit.saturating_mul(2);
    }
    if negative { n.saturating_sub(bit) } else { n }
}

fn value_at(alloc: Global, values: &[Value], id: CellId) -> Result<Value, AllocError> {
    match values.get(id.index) {
        Some(v) => copy_value(alloc, v),
        None => Ok(Value::Bool(false)),
    }
}

fn function(alloc: Global, pairs: Vec<(Value, Value)>) -> Result<Value, AllocError> {
    match fun_of(alloc, List::from_vec(pairs))? {
        Some(f) => Ok(f),
        None => Ok(Value::Bool(false)),
    }
}

fn members(
    alloc: Global,
    edges: &[(Lit, CellId)],
    values: &[Value],
    a: &[bool],
) -> Result<Value, AllocError> {
    let mut items = Vec::new(alloc);
    for (l, e) in edges {
        if is_true(*l, a) {
            items.push(value_at(alloc, values, *e)?)?;
        }
    }
    let set = set_of(alloc, List::from_vec(items))?;
    Ok(set)
}

// Whether the value is an argument of the pairs.
fn has_argument(pairs: &[(Value, Value)], argument: &Value) -> bool {
    for (a, _) in pairs {
        if same_value(a, argument) {
            return true;
        }
    }
    false
}

// The function of the arrows that are there; of two with one argument the first counts.
fn results(
    alloc: Global,
    arrows: &[(Lit, CellId, CellId)],
    values: &[Value],
    a: &[bool],
) -> Result<Value, AllocError> {
    let mut pairs = Vec::new(alloc);
    for (l, from, to) in arrows {
        let argument = value_at(alloc, values, *from)?;
        if is_true(*l, a) && !has_argument(pairs.as_slice(), &argument) {
            pairs.push((argument, value_at(alloc, values, *to)?))?;
        }
    }
    function(alloc, pairs)
}

fn fields(alloc: Global, fields: &[(Text, CellId)], values: &[Value]) -> Result<Value, AllocError> {
    let mut pairs = Vec::new(alloc);
    for (name, part) in fields {
        let pair = (
            Value::Text(copy_text(alloc, name)?),
            value_at(alloc, values, *part)?,
        );
        pairs.push(pair)?;
    }
    function(alloc, pairs)
}

fn items(alloc: Global, parts: &[CellId], values: &[Value]) -> Result<Value, AllocError> {
    let mut pairs = Vec::new(alloc);
    for i in 0..parts.len() {
        let pair = (
            Value::Int(i as i128 + 1),
            value_at(alloc, values, parts[i])?,
        );
        pairs.push(pair)?;
    }
    function(alloc, pairs)
}

// As many of the places as the length says.
fn first_items(
    alloc: Global,
    length: i128,
    places: &[CellId],
    values: &[Value],
) -> Result<Value, AllocError> {
    let mut first = Vec::new(alloc);
    for i in 0..places.len() {
        if (i as i128) < length {
            first.push(places[i])?;
        }
    }
    items(alloc, first.as_slice(), values)
}

// The value of a kind, by the values of the older cells.
fn kind_value(
    alloc: Global,
    kind: &CellKind,
    values: &[Value],
    a: &[bool],
) -> Result<Value, AllocError> {
    match kind {
        CellKind::Bit(l) => Ok(Value::Bool(is_true(*l, a))),
        CellKind::Word(w) => Ok(Value::Int(number(w, a))),
        CellKind::Set(edges) => members(alloc, edges.as_slice(), values, a),
        CellKind::Fun(arrows) => results(alloc, arrows.as_slice(), values, a),
        CellKind::Rec(parts) => fields(alloc, parts.as_slice(), values),
        CellKind::Tup(parts) => items(alloc, parts.as_slice(), values),
        CellKind::Seq(w, places) => first_items(alloc, number(w, a), places.as_slice(), values),
        _ => Ok(Value::Bool(false)),
    }
}

/// The text of the value of a cell.
pub fn shown_at(alloc: Global, b: &Build, a: &[bool], id: CellId) -> Result<Vec<u8>, AllocError> {
    let mut values = Vec::new(alloc);
    for index in 0..b.arena.len() {
        let kind = b.arena.kind(CellId { index });
        let value = kind_value(alloc, kind, values.as_slice(), a)?;
        values.push(value)?;
    }
    let mut out = Vec::new(alloc);
    if let Some(value) = values.as_slice().get(id.index) {
        show(alloc, value, &mut out)?;
    }
    Ok(out)
}
