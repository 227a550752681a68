//! What calls give of cells, against what the evaluator gives of the values of these cells.

ghost use Rattle.std.specs.List.{All};
ghost use Rattle.std.specs.Prelude.{IfOk};
ghost use Rattle.tla_values.specs.Sets.{Normal};

use crate::calls::{Given, called};
use crate::cases::{CASES, PICKS};
use crate::decoding::{are_met, decoded, extended, is_true, value_at};
use crate::operands::{operands, with_bits};
use crate::passing::{count_lines, passes};
use crate::sequences::power;
use crate::trees::tree;
use cell_arena::{Build, CellId};
use std::alloc::{AllocError, Global};
use std::test::Fail;
use tla_evaluator::{eval, is_expanded};
use tla_meaning::{Env, Expr, Outcome, State};
use tla_values::{List, Value, is_normal, set_of, show};

const WIDTH: u32 = 4;

// A call: the cells of its operands, what it gave, its expression, and whether there is no value just
// where that is outside of the width.
#[derive(Drop)]
struct Case {
    ids: Vec<CellId>,
    given: Given,
    e: Expr,
    is_wide: bool,
}

/// The words of a line: the operator with its key, and the operands.
pub fn parts(line: &str) -> (&str, u8, &str) {
    let (head, words) = line.split_once(" ").unwrap_or((line, ""));
    let (op, key) = head.split_once(".").unwrap_or((head, ""));
    match key.as_bytes() {
        [byte, ..] => (op, *byte, words),
        [] => (op, b'0', words),
    }
}

fn begun(alloc: Global, b: &mut Build, line: &str) -> Result<Case, AllocError> {
    let (op, key, words) = parts(line);
    let ids = operands(alloc, b, words)?;
    let given = called(alloc, b, op, key, ids.as_slice())?;
    let e = tree(alloc, op, key, ids.as_slice().len())?;
    Ok(Case {
        ids,
        given,
        e,
        is_wide: op == "length" || op == "domain",
    })
}

// A build with the four bits.
fn build(alloc: Global) -> Result<Build, AllocError> {
    with_bits(alloc, WIDTH, 4)
}

// The values of `top` and of the four bits of a number.
fn bits(alloc: Global, n: usize) -> Result<Vec<bool>, AllocError> {
    let mut a = Vec::new(alloc);
    a.push(true)?;
    let mut rest = n;
    for _i in 0..4 {
        a.push(rest % 2 == 1)?;
        rest /= 2;
    }
    Ok(a)
}

// The state of the values of these cells.
fn state(alloc: Global, values: &[Value], ids: &[CellId]) -> Result<State, AllocError>
    ensures { IfOk result (λ s. All Normal s.vals) }
{
    let mut vals = List::new(alloc);
    for id in ids {
        let v = value_at(alloc, values, *id)?;
        if is_normal(&v) {
            vals.push(v)?;
        }
    }
    Ok(State { vals })
}

fn text_of(alloc: Global, v: &Value) -> Result<Vec<u8>, AllocError> {
    let mut out = Vec::new(alloc);
    show(alloc, v, &mut out)?;
    Ok(out)
}

// The text of a value, or the word of a fault.
fn told(alloc: Global, outcome: Outcome) -> Result<Vec<u8>, AllocError> {
    match outcome {
        Outcome::Val(v) => text_of(alloc, &v),
        Outcome::Wrong(_) => Vec::from_slice(alloc, b"wrong"),
        Outcome::Big(_) => Vec::from_slice(alloc, b"big"),
    }
}

// The text of what the expression gives in the state.
fn meant(alloc: Global, e: &Expr, s: &State) -> Result<Vec<u8>, AllocError>
    requires { All Normal s.now.vals }
{
    if !is_expanded(e) {
        return Vec::from_slice(alloc, b"not expanded");
    }
    let env = Env {
        vals: List::new(alloc),
    };
    let outcome = eval(alloc, e, &env, s, None, WIDTH)?;
    told(alloc, outcome)
}

// The text of what the call gave, and the word of the fault where its literal says that there is none.
fn shown(alloc: Global, case: &Case, values: &[Value], a: &[bool]) -> Result<Vec<u8>, AllocError> {
    match case.given {
        Some((id, missing)) if !is_true(missing, a) => {
            let v = value_at(alloc, values, id)?;
            text_of(alloc, &v)
        }
        _ if case.is_wide => Vec::from_slice(alloc, b"big"),
        _ => Vec::from_slice(alloc, b"wrong"),
    }
}

// The text of what the expression gives of these values.
fn wanted(alloc: Global, case: &Case, values: &[Value]) -> Result<Vec<u8>, AllocError> {
    let s = state(alloc, values, case.ids.as_slice())?;
    meant(alloc, &case.e, &s)
}

// The assignment that goes on from these values of the bits, with the bits of the mask for what is free.
fn assigned(alloc: Global, b: &Build, first: &[bool], mask: u64) -> Result<Vec<bool>, AllocError> {
    let a = extended(alloc, &b.formula, first, mask)?;
    if !are_met(&b.formula, a.as_slice()) {
        return Err(AllocError);
    }
    Ok(a)
}

fn told_both(
    alloc: Global,
    case: &Case,
    values: &[Value],
    a: &[bool],
) -> Result<(Vec<u8>, Vec<u8>), AllocError> {
    let found = shown(alloc, case, values, a)?;
    let want = wanted(alloc, case, values)?;
    Ok((found, want))
}

// The texts of what the call gave and of what the expression gives, where the bits are those of the number.
fn both(alloc: Global, b: &Build, case: &Case, n: usize) -> Result<(Vec<u8>, Vec<u8>), AllocError> {
    let first = bits(alloc, n)?;
    let a = assigned(alloc, b, first.as_slice(), 0)?;
    let values = decoded(alloc, b, a.as_slice())?;
    told_both(alloc, case, values.as_slice(), a.as_slice())
}

fn agree_at(alloc: Global, b: &Build, case: &Case, n: usize) -> Result<bool, AllocError> {
    let (found, want) = both(alloc, b, case, n)?;
    Ok(found.as_slice() == want.as_slice())
}

// Whether the two are alike under all values of the bits.
fn agree(alloc: Global, b: &Build, case: &Case) -> Result<bool, AllocError> {
    for n in 0..16usize {
        if !agree_at(alloc, b, case, n)? {
            return Ok(false);
        }
    }
    Ok(true)
}

fn agrees_in(alloc: Global, b: &mut Build, line: &str) -> Result<bool, AllocError> {
    let case = begun(alloc, b, line)?;
    let right = agree(alloc, b, &case);
    drop(case);
    right
}

fn agrees(alloc: Global, line: &str) -> Result<bool, AllocError> {
    agrees_in(alloc, &mut build(alloc)?, line)
}

#[test]
fn calls_agree_with_the_evaluator(rt: HostRuntime) -> Result<(), Fail> {
    passes(&rt, count_lines(rt.alloc(), CASES, agrees), 517)
}

// Puts what a pick gives, where its literal says that it gives something.
fn put_value(
    list: &mut List<Value>,
    alloc: Global,
    b: &Build,
    given: Given,
    a: &[bool],
) -> Result<(), AllocError> {
    match given {
        Some((id, missing)) if !is_true(missing, a) => {
            let values = decoded(alloc, b, a)?;
            let v = value_at(alloc, values.as_slice(), id)?;
            list.push(v)?;
            Ok(())
        }
        _ => Ok(()),
    }
}

// What a pick gives under all values of the bits that are left to it, which are at most 6.
fn picked(
    alloc: Global,
    b: &Build,
    given: Given,
    first: &[bool],
) -> Result<List<Value>, AllocError> {
    let mut list = List::new(alloc);
    for mask in 0..64u64 {
        let a = assigned(alloc, b, first, mask)?;
        put_value(&mut list, alloc, b, given, a.as_slice())?;
    }
    Ok(list)
}

// The set of these.
fn outcomes(alloc: Global, b: &Build, given: Given, n: usize) -> Result<Vec<u8>, AllocError> {
    let first = bits(alloc, n)?;
    let list = picked(alloc, b, given, first.as_slice())?;
    let set = set_of(alloc, list)?;
    text_of(alloc, &set)
}

// Whether the functions that are picked are those of the set of all functions.
fn are_picked_at(alloc: Global, b: &Build, case: &Case, n: usize) -> Result<bool, AllocError> {
    let found = outcomes(alloc, b, case.given, n)?;
    let (_, want) = both(alloc, b, case, n)?;
    Ok(found.as_slice() == want.as_slice())
}

fn are_picked(alloc: Global, b: &Build, case: &Case) -> Result<bool, AllocError> {
    for i in 0..6usize {
        if !are_picked_at(alloc, b, case, 3 * i)? {
            return Ok(false);
        }
    }
    Ok(true)
}

fn picks_all_in(alloc: Global, b: &mut Build, line: &str) -> Result<bool, AllocError> {
    let case = begun(alloc, b, line)?;
    let right = are_picked(alloc, b, &case);
    drop(case);
    right
}

fn picks_all(alloc: Global, line: &str) -> Result<bool, AllocError> {
    picks_all_in(alloc, &mut build(alloc)?, line)
}

#[test]
fn picks_give_all_functions_of_the_evaluator(rt: HostRuntime) -> Result<(), Fail> {
    passes(&rt, count_lines(rt.alloc(), PICKS, picks_all), 20)
}

fn put_shown(
    out: &mut Vec<u8>,
    alloc: Global,
    b: &Build,
    case: &Case,
    n: usize,
) -> Result<(), AllocError> {
    let (found, _) = both(alloc, b, case, n)?;
    out.extend_from_slice(found.as_slice())?;
    Ok(())
}

fn all_shown(alloc: Global, b: &Build, case: &Case, varying: usize) -> Result<Vec<u8>, AllocError> {
    if varying > 4 {
        return Err(AllocError);
    }
    let mut out = Vec::new(alloc);
    for n in 0..power(varying) {
        if n > 0 {
            out.extend_from_slice(b"; ")?;
        }
        put_shown(&mut out, alloc, b, case, n)?;
    }
    Ok(out)
}

fn texts_in(
    alloc: Global,
    b: &mut Build,
    line: &str,
    varying: usize,
) -> Result<Vec<u8>, AllocError> {
    let case = begun(alloc, b, line)?;
    let texts = all_shown(alloc, b, &case, varying);
    drop(case);
    texts
}

/// The texts of what the call of the line gives under all values of so many bits.
pub fn texts_under(alloc: Global, line: &str, varying: usize) -> Result<Vec<u8>, AllocError> {
    texts_in(alloc, &mut build(alloc)?, line, varying)
}
