//! What the operators on functions give on cells by letters.

ghost use Rattle.cell_arena.specs.Growth.{Grows};
ghost use Rattle.sat_formula.specs.Lit.{IsBelow};
ghost use Rattle.std.specs.Prelude.{All};

use crate::arrows::{function, images, set};
use crate::building::{free_bits, literal_of, number};
use crate::decoding::{is_met, preferring, shown_at};
use crate::solving::{counts, differences};
use cell_arena::{Build, CellId};
use cell_merge::choose_cell;
use function_rewriter::{at, domain, functions, join, make, pick_function, update};
use sat_formula::Lit;
use std::alloc::{AllocError, Global};
use tla_values::List;

/// A cell and the literal by which it counts.
pub type Given = Option<(CellId, Lit)>;

// Two functions as one, or a choice between them.
#[tactic(auto, using(cell_arena::proofs::Growing::growing))]
fn of_two(
    alloc: Global,
    b: &mut Build,
    op: &str,
    bits: &[Lit],
    letters: (&[u8], &[u8]),
) -> Result<(Given, [usize; 3]), AllocError>
    requires { All (IsBelow b.old.formula.vars) bits.now }
{
    let f = function(alloc, b, bits, letters.0)?;
    let g = function(alloc, b, bits, letters.1)?;
    let l = literal_of(b, bits, b'c');
    let before = counts(b);
    let id = if op == "join" {
        join(b, f, g)?
    } else {
        choose_cell(b, l, f, g)?
    };
    Ok((Some((id, b.formula.top())), differences(counts(b), before)))
}

// A function at an argument.
#[tactic(auto, using(cell_arena::proofs::Growing::growing))]
fn applied(
    alloc: Global,
    b: &mut Build,
    bits: &[Lit],
    letters: (&[u8], &[u8]),
) -> Result<(Given, [usize; 3]), AllocError>
    requires { All (IsBelow b.old.formula.vars) bits.now }
{
    let [code, ..] = letters.1 else {
        return Err(AllocError);
    };
    let f = function(alloc, b, bits, letters.0)?;
    let x = number(alloc, b, bits, *code)?;
    let before = counts(b);
    let given = match at(b, f, x)? {
        Some((cell, outside)) => Some((cell, outside.negated())),
        None => None,
    };
    Ok((given, differences(counts(b), before)))
}

// A function with another result at an argument.
#[tactic(auto, using(cell_arena::proofs::Growing::growing))]
fn updated(
    alloc: Global,
    b: &mut Build,
    bits: &[Lit],
    letters: (&[u8], &[u8]),
) -> Result<(Given, [usize; 3]), AllocError>
    requires { All (IsBelow b.old.formula.vars) bits.now }
{
    let [code, last, ..] = letters.1 else {
        return Err(AllocError);
    };
    let f = function(alloc, b, bits, letters.0)?;
    let x = number(alloc, b, bits, *code)?;
    let v = number(alloc, b, bits, *last)?;
    let before = counts(b);
    let id = update(b, f, x, v)?;
    Ok((Some((id, b.formula.top())), differences(counts(b), before)))
}

// The set of the arguments.
#[tactic(auto, using(cell_arena::proofs::Growing::growing))]
fn arguments(
    alloc: Global,
    b: &mut Build,
    bits: &[Lit],
    letters: &[u8],
) -> Result<(Given, [usize; 3]), AllocError>
    requires { All (IsBelow b.old.formula.vars) bits.now }
{
    let f = function(alloc, b, bits, letters)?;
    let before = counts(b);
    let id = domain(b, f)?;
    Ok((Some((id, b.formula.top())), differences(counts(b), before)))
}

// The function that takes each member of a set to its result.
#[tactic(auto, using(cell_arena::proofs::Growing::growing))]
fn made(
    alloc: Global,
    b: &mut Build,
    bits: &[Lit],
    letters: &[u8],
) -> Result<(Given, [usize; 3]), AllocError>
    requires { All (IsBelow b.old.formula.vars) bits.now }
{
    let (from, results) = images(alloc, b, bits, letters)?;
    let before = counts(b);
    let id = make(b, from, results.as_slice())?;
    Ok((Some((id, b.formula.top())), differences(counts(b), before)))
}

// The functions from one set to another, or one of them.
#[tactic(auto, using(cell_arena::proofs::Growing::growing))]
fn between(
    alloc: Global,
    b: &mut Build,
    op: &str,
    bits: &[Lit],
    letters: (&[u8], &[u8]),
) -> Result<(Given, [usize; 3]), AllocError>
    requires { All (IsBelow b.old.formula.vars) bits.now }
{
    let from = set(alloc, b, bits, letters.0)?;
    let to = set(alloc, b, bits, letters.1)?;
    let before = counts(b);
    if op == "pick" {
        let picked = pick_function(b, from, to)?;
        return Ok((Some(picked), differences(counts(b), before)));
    }
    let id = functions(b, from, to)?;
    Ok((Some((id, b.formula.top())), differences(counts(b), before)))
}

// What the call gives, and the numbers of variables, clauses and cells that it adds.
#[tactic(auto, using(cell_arena::proofs::Growing::growing))]
fn called(
    alloc: Global,
    b: &mut Build,
    op: &str,
    bits: &[Lit],
    letters: (&[u8], &[u8]),
) -> Result<(Given, [usize; 3]), AllocError>
    requires { All (IsBelow b.old.formula.vars) bits.now }
{
    match op {
        "at" => applied(alloc, b, bits, letters),
        "update" => updated(alloc, b, bits, letters),
        "domain" => arguments(alloc, b, bits, letters.0),
        "make" => made(alloc, b, bits, letters.0),
        "functions" => between(alloc, b, op, bits, letters),
        "pick" => between(alloc, b, op, bits, letters),
        _ => of_two(alloc, b, op, bits, letters),
    }
}

/// The text of what the call gives where the bits have these values, and those that are free the bits
/// of the mask: `none` where there is no cell, and `no` where its literal is false.
#[tactic(auto, using(cell_arena::proofs::Growing::growing))]
pub fn call_text(
    alloc: Global,
    call: (&str, &str, &str),
    given: &str,
    mask: u8,
) -> Result<Vec<u8>, AllocError> {
    let (op, left, right) = call;
    let mut b = Build::new(alloc, &List::new(alloc), 4)?;
    let bits = free_bits(alloc, &mut b)?;
    let letters = (left.as_bytes(), right.as_bytes());
    let (found, _) = called(alloc, &mut b, op, bits.as_slice(), letters)?;
    let Some((id, l)) = found else {
        return Vec::from_slice(alloc, b"none");
    };
    let mut a = Vec::new(alloc);
    a.push(true)?;
    for c in given.as_bytes() {
        a.push(*c == b'1')?;
    }
    let values = preferring(alloc, &b.formula, a.as_slice(), mask)?;
    if is_met(&[l.negated()], values.as_slice()) {
        return Vec::from_slice(alloc, b"no");
    }
    shown_at(alloc, &b, values.as_slice(), id)
}

/// The numbers of variables, clauses and cells that the call adds.
#[tactic(auto, using(cell_arena::proofs::Growing::growing))]
pub fn call_size(
    alloc: Global,
    op: &str,
    left: &str,
    right: &str,
) -> Result<[usize; 3], AllocError> {
    let mut b = Build::new(alloc, &List::new(alloc), 4)?;
    let bits = free_bits(alloc, &mut b)?;
    let letters = (left.as_bytes(), right.as_bytes());
    let (_, size) = called(alloc, &mut b, op, bits.as_slice(), letters)?;
    Ok(size)
}
