//! A plain decoder of cells.

use cell_arena::{Build, CellId, CellKind};
use sat_formula::{Lit, Word};
use std::alloc::{AllocError, Global};
use tla_values::{List, Text, Value, copy_text, copy_value, fun_of, same_value, set_of, show};

// The value of a literal, which is false past the end.
fn is_true(l: Lit, a: &[bool]) -> bool {
    let set = match a.get(l.var) {
        Some(b) => *b,
        None => false,
    };
    set != l.neg
}

// The number of a word in two's complement.
fn number(w: &Word, a: &[bool]) -> i128 {
    let mut n: i128 = 0;
    let mut bit: i128 = 1;
    let mut negative = false;
    for l in w.lits() {
        negative = is_true(*l, a);
        if negative {
            n = n.saturating_add(bit);
        }
        bit = bit.saturating_mul(2);
    }
    if negative { n.saturating_sub(bit) } else { n }
}

fn value_at(alloc: Global, values: &[Value], id: CellId) -> Result<Value, AllocError> {
    match values.get(id.index) {
        Some(v) => copy_value(alloc, v),
        None => Ok(Value::Bool(false)),
    }
}

fn stands_in(argument: &Value, pairs: &[(Value, Value)]) -> bool {
    for (other, _) in pairs {
        if same_value(other, argument) {
            return true;
        }
    }
    false
}

// The function of the pairs, the first of those with one argument.
fn function(alloc: Global, pairs: Vec<(Value, Value)>) -> Result<Value, AllocError> {
    let mut first = Vec::new(alloc);
    for (argument, result) in pairs {
        if !stands_in(&argument, first.as_slice()) {
            first.push((argument, result))?;
        }
    }
    match fun_of(alloc, List::from_vec(first))? {
        Some(f) => Ok(f),
        None => Ok(Value::Bool(false)),
    }
}

fn members(
    alloc: Global,
    edges: &[(Lit, CellId)],
    values: &[Value],
    a: &[bool],
) -> Result<Value, AllocError> {
    let mut items = Vec::new(alloc);
    for (l, e) in edges {
        if is_true(*l, a) {
            items.push(value_at(alloc, values, *e)?)?;
        }
    }
    let set = set_of(alloc, List::from_vec(items))?;
    Ok(set)
}

fn results(
    alloc: Global,
    edges: &[(Lit, CellId, CellId)],
    values: &[Value],
    a: &[bool],
) -> Result<Value, AllocError> {
    let mut pairs = Vec::new(alloc);
    for (l, argument, result) in edges {
        if is_true(*l, a) {
            let pair = (
                value_at(alloc, values, *argument)?,
                value_at(alloc, values, *result)?,
            );
            pairs.push(pair)?;
        }
    }
    function(alloc, pairs)
}

fn fields(alloc: Global, fields: &[(Text, CellId)], values: &[Value]) -> Result<Value, AllocError> {
    let mut pairs = Vec::new(alloc);
    for (name, part) in fields {
        let pair = (
            Value::Text(copy_text(alloc, name)?),
            value_at(alloc, values, *part)?,
        );
        pairs.push(pair)?;
    }
    function(alloc, pairs)
}

// The first parts, as many as `count` says, at the numbers from 1 on.
fn sequence(
    alloc: Global,
    parts: &[CellId],
    count: i128,
    values: &[Value],
) -> Result<Value, AllocError> {
    let mut pairs = Vec::new(alloc);
    for i in 0..parts.len() {
        if (i as i128) < count {
            let pair = (
                Value::Int(i as i128 + 1),
                value_at(alloc, values, parts[i])?,
            );
            pairs.push(pair)?;
        }
    }
    function(alloc, pairs)
}

fn text(alloc: Global, texts: &[Text], code: i128) -> Result<Value, AllocError> {
    for i in 0..texts.len() {
        if i as i128 == code {
            return Ok(Value::Text(copy_text(alloc, &texts[i])?));
        }
    }
    Ok(Value::Bool(false))
}

// The value of a kind, by the values of the older cells.
fn kind_value(
    alloc: Global,
    texts: &[Text],
    kind: &CellKind,
    values: &[Value],
    a: &[bool],
) -> Result<Value, AllocError> {
    match kind {
        CellKind::Bit(l) => Ok(Value::Bool(is_true(*l, a))),
        CellKind::Word(w) => Ok(Value::Int(number(w, a))),
        CellKind::Text(w) => text(alloc, texts, number(w, a)),
        CellKind::Set(edges) => members(alloc, edges.as_slice(), values, a),
        CellKind::Fun(edges) => results(alloc, edges.as_slice(), values, a),
        CellKind::Rec(parts) => fields(alloc, parts.as_slice(), values),
        CellKind::Tup(parts) => sequence(alloc, parts.as_slice(), i128::MAX, values),
        CellKind::Seq(count, parts) => {
            sequence(alloc, parts.as_slice(), number(count, a), values)
        }
    }
}

/// The text of the value of a cell.
pub fn shown_at(alloc: Global, b: &Build, a: &[bool], id: CellId) -> Result<Vec<u8>, AllocError> {
    let mut values = Vec::new(alloc);
    for index in 0..b.arena.len() {
        let kind = b.arena.kind(CellId { index });
        let value = kind_value(alloc, b.texts().as_slice(), kind, values.as_slice(), a)?;
        values.push(value)?;
    }
    let mut out = Vec::new(alloc);
    if let Some(value) = values.as_slice().get(id.index) {
        show(alloc, value, &mut out)?;
    }
    Ok(out)
}

/// The text of the value of the newest cell.
pub fn shown(alloc: Global, b: &Build, a: &[bool]) -> Result<Vec<u8>, AllocError> {
    let count = b.arena.len();
    let index = if count > 0 { count - 1 } else { 0 };
    shown_at(alloc, b, a, CellId { index })
}
