//! The calls on sequences.

use crate::calls::{Given, always};
use crate::sorts::{is_number, is_sequence};
use cell_arena::{Build, CellId};
use sequence_rewriter::{at_place, glue, length, push, rest, seq_domain, slice, update_place};
use std::alloc::AllocError;

/// The length of a sequence, its domain, or all its items but the first.
pub fn of_sequence(b: &mut Build, op: &str, s: CellId) -> Result<Given, AllocError> {
    if !is_sequence(b, s) {
        return Err(AllocError);
    }
    let given = match op {
        "length" => length(b, s)?,
        "domain" => seq_domain(b, s)?,
        "rest" => rest(b, s)?,
        _ => return Err(AllocError),
    };
    Ok(Some(given))
}

/// One sequence behind another, a sequence at a number, or one with an item more.
pub fn of_sequence_and(b: &mut Build, op: &str, s: CellId, x: CellId) -> Result<Given, AllocError> {
    if op == "glue" {
        return glued(b, s, x);
    }
    if !is_sequence(b, s) || !is_number(b, x) {
        return Err(AllocError);
    }
    match op {
        "at" => at_place(b, s, x),
        "push" => pushed(b, s, x),
        _ => Err(AllocError),
    }
}

fn glued(b: &mut Build, s: CellId, t: CellId) -> Result<Given, AllocError> {
    if !is_sequence(b, s) || !is_sequence(b, t) {
        return Err(AllocError);
    }
    let id = glue(b, s, t)?;
    always(b, id)
}

fn pushed(b: &mut Build, s: CellId, x: CellId) -> Result<Given, AllocError> {
    if !is_sequence(b, s) || !is_number(b, x) {
        return Err(AllocError);
    }
    let id = push(b, s, x)?;
    always(b, id)
}

/// A sequence with another item at a number, or its items between two numbers.
pub fn of_sequence_and_two(
    b: &mut Build,
    op: &str,
    s: CellId,
    x: CellId,
    y: CellId,
) -> Result<Given, AllocError> {
    if !is_sequence(b, s) || !is_number(b, x) || !is_number(b, y) {
        return Err(AllocError);
    }
    if op == "update" {
        let id = update_place(b, s, x, y)?;
        return always(b, id);
    }
    if op != "slice" {
        return Err(AllocError);
    }
    let (part, missing) = slice(b, s, x, y)?;
    Ok(Some((part, missing)))
}
