//! What is decoded.

use crate::cases::{STATES, VALUES};
use crate::cells::{begun, cell, set_of};
use cell_arena::{Build, CellId};
use sat_formula::Assignment;
use std::alloc::{AllocError, Global};
use std::test::Fail;
use tla_meaning::State;
use tla_values::{List, show};
use trace_decoder::{decode, decode_state};

fn add_cells(alloc: Global, b: &mut Build, words: &str) -> Result<(), AllocError> {
    for word in words.split_whitespace() {
        cell(alloc, b, word)?;
    }
    Ok(())
}

// Variable 0 is true.
fn assignment(alloc: Global, bits: &str) -> Result<Assignment, AllocError> {
    let mut values = vec![in alloc; true]?;
    for bit in bits.as_bytes() {
        values.push(*bit == b'1')?;
    }
    Ok(Assignment::from_vec(values))
}

// The text of the newest cell's value.
fn value_text(alloc: Global, b: &Build, a: &Assignment) -> Result<Vec<u8>, AllocError> {
    let mut out = Vec::new(alloc);
    let count = b.arena.len();
    if count > 0 {
        let value = decode(alloc, b, CellId { index: count - 1 }, a)?;
        show(alloc, &value, &mut out)?;
    }
    Ok(out)
}

fn show_state(alloc: Global, state: &State) -> Result<Vec<u8>, AllocError> {
    let mut out = Vec::from_slice(alloc, b"(")?;
    for i in 0..state.vals.len() {
        if i > 0 {
            out.extend_from_slice(b", ")?;
        }
        show(alloc, &state.vals.as_slice()[i], &mut out)?;
    }
    out.push(b')')?;
    Ok(out)
}

// The text of the state of all cells.
fn state_text(alloc: Global, b: &Build, a: &Assignment) -> Result<Vec<u8>, AllocError> {
    let mut cells = List::new(alloc);
    for index in 0..b.arena.len() {
        cells.push(CellId { index })?;
    }
    let count = b.arena.len();
    if !cells.as_slice().iter().all(|id| id.index < count) {
        return Err(AllocError);
    }
    let state = decode_state(alloc, b, &cells, a)?;
    show_state(alloc, &state)
}

// Whether what is decoded of a line's cells has the line's text.
fn is_right(alloc: Global, line: &str, states: bool) -> Result<bool, AllocError> {
    let (words, rest) = line.split_once(" | ").unwrap_or(("", line));
    let (bits, want) = rest.split_once(" => ").unwrap_or((rest, ""));
    let mut b = begun(alloc)?;
    add_cells(alloc, &mut b, words)?;
    let a = assignment(alloc, bits)?;
    let found = if states {
        state_text(alloc, &b, &a)?
    } else {
        value_text(alloc, &b, &a)?
    };
    Ok(found.as_slice() == want.as_bytes())
}

#[test]
fn cells_have_their_values(rt: HostRuntime) -> Result<(), Fail> {
    for line in VALUES.lines() {
        assert!(rt; is_right(rt.alloc(), line, false)?, "{line}");
    }
    assert_eq!(rt; VALUES.lines().count(), 62);
    Ok(())
}

#[test]
fn states_have_the_values_of_their_cells(rt: HostRuntime) -> Result<(), Fail> {
    for line in STATES.lines() {
        assert!(rt; is_right(rt.alloc(), line, true)?, "{line}");
    }
    assert_eq!(rt; STATES.lines().count(), 6);
    Ok(())
}

// The length of the text of a set in a set, so deep, where each has its member twice.
fn deep_length(alloc: Global, depth: usize) -> Result<usize, AllocError> {
    let mut b = begun(alloc)?;
    let top = b.formula.top();
    let mut id = set_of(&mut b, Vec::new(alloc))?;
    for _i in 0..depth {
        let edges = Vec::from_slice(alloc, &[(top, id), (top, id)])?;
        id = set_of(&mut b, edges)?;
    }
    let a = assignment(alloc, "")?;
    let text = value_text(alloc, &b, &a)?;
    Ok(text.as_slice().len())
}

#[test]
fn a_shared_cell_is_read_once(rt: HostRuntime) -> Result<(), Fail> {
    assert_eq!(rt; deep_length(rt.alloc(), 200)?, 402);
    Ok(())
}
