//! What the operators on sequences give on cells by letters.

ghost use Rattle.cell_arena.specs.Growth.{Grows};
ghost use Rattle.sat_formula.specs.Lit.{IsBelow};
ghost use Rattle.std.specs.Prelude.{All};

use crate::building::{free_bits, number, some_bits};
use crate::calls::Given;
use crate::decoding::{extended, is_met, shown_at};
use crate::sequences::{any_number, power, sequence, truth_sequence};
use crate::solving::{counts, differences};
use cell_arena::Build;
use sat_formula::Lit;
use sequence_rewriter::{at_place, glue, length, push, rest, slice, update_place};
use std::alloc::{AllocError, Global};
use tla_values::List;

// The length of a sequence, or all its items but the first.
#[tactic(auto, using(cell_arena::proofs::Growing::growing))]
fn of_one(
    alloc: Global,
    b: &mut Build,
    op: &str,
    bits: &[Lit],
    letters: &str,
) -> Result<Given, AllocError>
    requires { All (IsBelow b.old.formula.vars) bits.now }
{
    let s = sequence(alloc, b, bits, letters)?;
    let (id, missing) = if op == "length" {
        length(b, s)?
    } else {
        rest(b, s)?
    };
    Ok(Some((id, missing.negated())))
}

// One sequence behind another.
#[tactic(auto, using(cell_arena::proofs::Growing::growing))]
fn glued(
    alloc: Global,
    b: &mut Build,
    bits: &[Lit],
    letters: (&str, &str),
) -> Result<Given, AllocError>
    requires { All (IsBelow b.old.formula.vars) bits.now }
{
    let s = sequence(alloc, b, bits, letters.0)?;
    let t = sequence(alloc, b, bits, letters.1)?;
    let id = glue(b, s, t)?;
    Ok(Some((id, b.formula.top())))
}

// A sequence at a number, or one with an item more.
#[tactic(auto, using(cell_arena::proofs::Growing::growing))]
fn of_number(
    alloc: Global,
    b: &mut Build,
    op: &str,
    bits: &[Lit],
    letters: (&str, &str),
) -> Result<Given, AllocError>
    requires { All (IsBelow b.old.formula.vars) bits.now }
{
    let [code, ..] = letters.1.as_bytes() else {
        return Err(AllocError);
    };
    let s = sequence(alloc, b, bits, letters.0)?;
    let x = number(alloc, b, bits, *code)?;
    if op == "push" {
        let id = push(b, s, x)?;
        return Ok(Some((id, b.formula.top())));
    }
    match at_place(b, s, x)? {
        Some((cell, outside)) => Ok(Some((cell, outside.negated()))),
        None => Ok(None),
    }
}

// A sequence with another item at a number, or its items between two numbers.
#[tactic(auto, using(cell_arena::proofs::Growing::growing))]
fn of_numbers(
    alloc: Global,
    b: &mut Build,
    op: &str,
    bits: &[Lit],
    letters: (&str, &str),
) -> Result<Given, AllocError>
    requires { All (IsBelow b.old.formula.vars) bits.now }
{
    let [code, last, ..] = letters.1.as_bytes() else {
        return Err(AllocError);
    };
    let s = sequence(alloc, b, bits, letters.0)?;
    let x = number(alloc, b, bits, *code)?;
    let y = number(alloc, b, bits, *last)?;
    if op == "update" {
        let id = update_place(b, s, x, y)?;
        return Ok(Some((id, b.formula.top())));
    }
    let (id, missing) = slice(b, s, x, y)?;
    Ok(Some((id, missing.negated())))
}

// What the call gives.
#[tactic(auto, using(cell_arena::proofs::Growing::growing))]
fn called(
    alloc: Global,
    b: &mut Build,
    op: &str,
    bits: &[Lit],
    letters: (&str, &str),
) -> Result<Given, AllocError>
    requires { All (IsBelow b.old.formula.vars) bits.now }
{
    match op {
        "length" | "rest" => of_one(alloc, b, op, bits, letters.0),
        "glue" => glued(alloc, b, bits, letters),
        "push" | "at" => of_number(alloc, b, op, bits, letters),
        _ => of_numbers(alloc, b, op, bits, letters),
    }
}

// Whether the letter is one of these.
fn is_among(letters: &[u8], code: u8) -> bool {
    for letter in letters {
        if *letter == code {
            return true;
        }
    }
    false
}

// The values of `top` and of the four bits, of which those with these letters are the bits of a
// number, the lowest first.
fn assignment(alloc: Global, letters: &[u8], n: usize) -> Result<Vec<bool>, AllocError> {
    let mut a = Vec::new(alloc);
    a.push(true)?;
    let mut left = n;
    for code in b"abcd" {
        if is_among(letters, *code) {
            a.push(left % 2 == 1)?;
            left /= 2;
        } else {
            a.push(false)?;
        }
    }
    Ok(a)
}

// The text of what a call gave, and `none` where it gives nothing.
fn told(alloc: Global, b: &Build, given: &Given, a: &[bool]) -> Result<Vec<u8>, AllocError> {
    let Some((id, l)) = given else {
        return Vec::from_slice(alloc, b"none");
    };
    let values = extended(alloc, &b.formula, a)?;
    if is_met(&[l.negated()], values.as_slice()) {
        return Vec::from_slice(alloc, b"none");
    }
    shown_at(alloc, b, values.as_slice(), *id)
}

/// The texts of what the call gives under each of the values of these bits.
#[tactic(auto, using(cell_arena::proofs::Growing::growing))]
pub fn call_texts(
    alloc: Global,
    op: &str,
    letters: (&str, &str),
    varying: &[u8],
) -> Result<Vec<u8>, AllocError> {
    let mut b = Build::new(alloc, &List::new(alloc), 4)?;
    let bits = free_bits(alloc, &mut b)?;
    let given = called(alloc, &mut b, op, bits.as_slice(), letters)?;
    if varying.len() > 4 {
        return Err(AllocError);
    }
    let mut out = Vec::new(alloc);
    for n in 0..power(varying.len()) {
        if n > 0 {
            out.extend_from_slice(b"; ")?;
        }
        let a = assignment(alloc, varying, n)?;
        let text = told(alloc, &b, &given, a.as_slice())?;
        out.extend_from_slice(text.as_slice())?;
    }
    Ok(out)
}

/// The numbers of variables, clauses and cells that the call adds on sequences of 8 free truth values,
/// with lengths up to 7 and numbers of 4 bits that are free as well.
#[tactic(auto, using(cell_arena::proofs::Growing::growing))]
pub fn call_size(alloc: Global, op: &str) -> Result<[usize; 3], AllocError> {
    let mut b = Build::new(alloc, &List::new(alloc), 4)?;
    let bits = some_bits(alloc, &mut b, 26)?;
    let s = truth_sequence(alloc, &mut b, bits.as_slice(), "abcdefgh", "ijk")?;
    if op == "glue" {
        let t = truth_sequence(alloc, &mut b, bits.as_slice(), "lmnopqrs", "tuv")?;
        let before = counts(&b);
        let _ = glue(&mut b, s, t)?;
        return Ok(differences(counts(&b), before));
    }
    let x = any_number(alloc, &mut b, bits.as_slice(), "lmno")?;
    let y = any_number(alloc, &mut b, bits.as_slice(), "pqrs")?;
    let before = counts(&b);
    if op == "at" {
        let _ = at_place(&mut b, s, x)?;
    } else {
        let _ = slice(&mut b, s, x, y)?;
    }
    Ok(differences(counts(&b), before))
}
