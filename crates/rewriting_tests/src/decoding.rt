//! Assignments, and the values of cells under them.

use cell_arena::{Build, CellId};
use sat_formula::{Assignment, Formula, Lit};
use std::alloc::{AllocError, Global};
use tla_values::Value;
use trace_decoder::decode;

/// The value of a literal, which is false past the end.
pub fn is_true(l: Lit, a: &[bool]) -> bool {
    match a.get(l.var) {
        Some(b) => *b != l.neg,
        None => false,
    }
}

// The greatest variable of a clause.
fn greatest(lits: &[Lit]) -> usize {
    let mut var = 0;
    for l in lits {
        if l.var > var {
            var = l.var;
        }
    }
    var
}

// What the next variable must be for the clause, where no earlier one makes it true.
fn forced(lits: &[Lit], a: &[bool]) -> Option<bool> {
    let mut value = None;
    for l in lits {
        if is_true(*l, a) {
            return None;
        }
        if l.var == a.len() {
            value = Some(!l.neg);
        }
    }
    value
}

// The bits of the mask, the lowest first, as values of the next variables up to a count; and the bits
// that are left.
fn fill(values: &mut Vec<bool>, count: usize, mask: u64) -> Result<u64, AllocError> {
    let mut rest = mask;
    for _i in values.len()..count {
        values.push(rest % 2 == 1)?;
        rest /= 2;
    }
    Ok(rest)
}

/// The assignment under which `top` is true, with values of the further variables: what the clauses ask, and of those that
/// they leave free the bits of the mask. A gate's clauses stand behind those of its operands.
pub fn extended(alloc: Global, f: &Formula, mask: u64) -> Result<Assignment, AllocError> {
    let mut values = Vec::from_slice(alloc, &[true])?;
    let mut rest = mask;
    for c in f.clauses().clauses() {
        rest = fill(&mut values, greatest(c.lits()), rest)?;
        if let Some(value) = forced(c.lits(), values.as_slice()) {
            values.push(value)?;
        }
    }
    let _ = fill(&mut values, f.vars(), rest)?;
    Ok(Assignment::from_vec(values))
}

fn is_met(lits: &[Lit], a: &[bool]) -> bool {
    lits.iter().any(|l| is_true(*l, a))
}

/// Whether each clause has a true literal.
pub fn are_met(f: &Formula, a: &[bool]) -> bool {
    f.clauses().clauses().iter().all(|c| is_met(c.lits(), a))
}

/// The value of a cell; FALSE where there is none.
pub fn value_at(alloc: Global, b: &Build, id: CellId, a: &Assignment) -> Result<Value, AllocError> {
    if id.index < b.arena.len() {
        let v = decode(alloc, b, id, a)?;
        return Ok(v);
    }
    Ok(Value::Bool(false))
}
