//! Assignments, and the values of cells under them.

use cell_arena::{Build, CellId, CellKind};
use sat_formula::{Formula, Lit, Word};
use std::alloc::{AllocError, Global};
use tla_values::{List, Text, Value, copy_text, copy_value, fun_of, same_value, set_of};

/// The value of a literal, which is false past the end.
pub fn is_true(l: Lit, a: &[bool]) -> bool {
    match a.get(l.var) {
        Some(b) => *b != l.neg,
        None => false,
    }
}

// The greatest variable of a clause.
fn greatest(lits: &[Lit]) -> usize {
    let mut var = 0;
    for l in lits {
        if l.var > var {
            var = l.var;
        }
    }
    var
}

// What the next variable must be for the clause, where no earlier one makes it true.
fn forced(lits: &[Lit], a: &[bool]) -> Option<bool> {
    let mut value = None;
    for l in lits {
        if is_true(*l, a) {
            return None;
        }
        if l.var == a.len() {
            value = Some(!l.neg);
        }
    }
    value
}

// The bits of the mask, the lowest first, as values of the next variables up to a count; and the bits
// that are left.
fn fill(values: &mut Vec<bool>, count: usize, mask: u64) -> Result<u64, AllocError> {
    let mut rest = mask;
    for _i in values.len()..count {
        values.push(rest % 2 == 1)?;
        rest /= 2;
    }
    Ok(rest)
}

/// The assignment with values of the further variables: what the clauses ask, and of those that they
/// leave free the bits of the mask. A gate's clauses stand behind those of its operands.
pub fn extended(
    alloc: Global,
    f: &Formula,
    a: &[bool],
    mask: u64,
) -> Result<Vec<bool>, AllocError> {
    let mut values = Vec::from_slice(alloc, a)?;
    let mut rest = mask;
    for c in f.clauses().clauses() {
        rest = fill(&mut values, greatest(c.lits()), rest)?;
        if let Some(value) = forced(c.lits(), values.as_slice()) {
            values.push(value)?;
        }
    }
    let _ = fill(&mut values, f.vars(), rest)?;
    Ok(values)
}

fn is_met(lits: &[Lit], a: &[bool]) -> bool {
    lits.iter().any(|l| is_true(*l, a))
}

/// Whether each clause has a true literal.
pub fn are_met(f: &Formula, a: &[bool]) -> bool {
    f.clauses().clauses().iter().all(|c| is_met(c.lits(), a))
}

// The number of a word in two's complement.
fn number(w: &Word, a: &[bool]) -> i128 {
    let mut n: i128 = 0;
    let mut bit: i128 = 1;
    let mut negative = false;
    for l in w.lits() {
        negative = is_true(*l, a);
        if negative {
            n = n.saturating_add(bit);
        }
        bit = bit.saturating_mul(2);
    }
    if negative { n.saturating_sub(bit) } else { n }
}

/// The value of a cell; FALSE where there is none.
pub fn value_at(alloc: Global, values: &[Value], id: CellId) -> Result<Value, AllocError> {
    match values.get(id.index) {
        Some(v) => copy_value(alloc, v),
        None => Ok(Value::Bool(false)),
    }
}

fn text(alloc: Global, texts: &[Text], code: i128) -> Result<Value, AllocError> {
    for i in 0..texts.len() {
        if i as i128 == code {
            return Ok(Value::Text(copy_text(alloc, &texts[i])?));
        }
    }
    Ok(Value::Bool(false))
}

fn function(alloc: Global, pairs: Vec<(Value, Value)>) -> Result<Value, AllocError> {
    match fun_of(alloc, List::from_vec(pairs))? {
        Some(f) => Ok(f),
        None => Ok(Value::Bool(false)),
    }
}

fn members(
    alloc: Global,
    edges: &[(Lit, CellId)],
    values: &[Value],
    a: &[bool],
) -> Result<Value, AllocError> {
    let mut items = Vec::new(alloc);
    for (l, e) in edges {
        if is_true(*l, a) {
            items.push(value_at(alloc, values, *e)?)?;
        }
    }
    let set = set_of(alloc, List::from_vec(items))?;
    Ok(set)
}

// Whether the value is an argument of the pairs.
fn has_argument(pairs: &[(Value, Value)], argument: &Value) -> bool {
    pairs.iter().any(|p| same_value(&p.0, argument))
}

// The argument with the value of the cell, unless a pair has that argument already.
fn put_pair(
    alloc: Global,
    pairs: &mut Vec<(Value, Value)>,
    argument: Value,
    values: &[Value],
    answer: CellId,
) -> Result<(), AllocError> {
    if has_argument(pairs.as_slice(), &argument) {
        return Ok(());
    }
    let value = value_at(alloc, values, answer)?;
    pairs.push((argument, value))?;
    Ok(())
}

// The function of the arrows that are there; of two with one argument the first counts.
fn results(
    alloc: Global,
    arrows: &[(Lit, CellId, CellId)],
    values: &[Value],
    a: &[bool],
) -> Result<Value, AllocError> {
    let mut pairs = Vec::new(alloc);
    for (l, from, to) in arrows {
        if is_true(*l, a) {
            let argument = value_at(alloc, values, *from)?;
            put_pair(alloc, &mut pairs, argument, values, *to)?;
        }
    }
    function(alloc, pairs)
}

fn fields(alloc: Global, fields: &[(Text, CellId)], values: &[Value]) -> Result<Value, AllocError> {
    let mut pairs = Vec::new(alloc);
    for (name, part) in fields {
        let name = Value::Text(copy_text(alloc, name)?);
        put_pair(alloc, &mut pairs, name, values, *part)?;
    }
    function(alloc, pairs)
}

// The first parts, as many as `count` says, at the numbers from 1 on.
fn items(
    alloc: Global,
    parts: &[CellId],
    count: i128,
    values: &[Value],
) -> Result<Value, AllocError> {
    let mut pairs = Vec::new(alloc);
    for i in 0..parts.len() {
        if (i as i128) < count {
            let place = Value::Int(i as i128 + 1);
            put_pair(alloc, &mut pairs, place, values, parts[i])?;
        }
    }
    function(alloc, pairs)
}

// The value of a kind, by the values of the older cells.
fn kind_value(
    alloc: Global,
    texts: &[Text],
    kind: &CellKind,
    values: &[Value],
    a: &[bool],
) -> Result<Value, AllocError> {
    match kind {
        CellKind::Bit(l) => Ok(Value::Bool(is_true(*l, a))),
        CellKind::Word(w) => Ok(Value::Int(number(w, a))),
        CellKind::Text(w) => text(alloc, texts, number(w, a)),
        CellKind::Set(edges) => members(alloc, edges.as_slice(), values, a),
        CellKind::Fun(arrows) => results(alloc, arrows.as_slice(), values, a),
        CellKind::Rec(parts) => fields(alloc, parts.as_slice(), values),
        CellKind::Tup(parts) => items(alloc, parts.as_slice(), i128::MAX, values),
        CellKind::Seq(count, parts) => items(alloc, parts.as_slice(), number(count, a), values),
    }
}

/// The values of all cells.
pub fn decoded(alloc: Global, b: &Build, a: &[bool]) -> Result<Vec<Value>, AllocError> {
    let mut values = Vec::new(alloc);
    for index in 0..b.arena.len() {
        let kind = b.arena.kind(CellId { index });
        let value = kind_value(alloc, b.texts().as_slice(), kind, values.as_slice(), a)?;
        values.push(value)?;
    }
    Ok(values)
}
