// Values read from their text. Each reader promises that it reads a value whose text stands in front; whether that is
// so is for the caller to test.
ghost use Rattle.std.specs.Prelude.{◌≡◌, ℕ, pos, ◌+◌, ◌≤◌, ◌++◌, Bool, IfOk, List as Items, MatchOption, MatchResult, length};
ghost use Rattle.tla_values.specs.declared.value.Value.{Value as Member};
ghost use Rattle.tla_values.specs.Show.{Ends, text_of};
ghost use Rattle.trace_text.specs.inner.Pieces.{ArePieces, IsArgument, IsPiece, IsPlain, argument_text, opening, piece_text, pieces_text, truth_text};
ghost use Rattle.trace_text.specs.inner.Reading.{Fits, Gives, IsNoLonger, OfRead};

use crate::brackets::{Bracket, opened};
use crate::bytes::{Class, behind, run};
use crate::faults::Unread;
use crate::numbers::number;
use crate::texts::text;
use std::alloc::{AllocError, Global};
use tla_values::{List, Text, Value};

// The value in front, with at most so many brackets open at one place, where no digit stands behind it.
#[cycle(read_value)]
pub(crate) fn read_value(alloc: Global, bytes: &[u8], depth: u32) -> Result<(Value, &[u8]), Unread>
    ensures reads { (v : Member) (r : Items ℕ) → Fits v → Ends r
        → bytes.now ≡ text_of v ++ r → Gives result v r }
    ensures fits { OfRead result Fits }
    ensures shorter { IsNoLonger result bytes.now }
{
    match opened(bytes) {
        Some((bracket, inner)) => {
            if depth == 0 {
                return Err(Unread::Memory(AllocError));
            }
            let (pieces, rest) = read_pieces(alloc, bracket, inner, depth - 1)?;
            let value = bracket.made(alloc, pieces)?;
            Ok((value, rest))
        }
        None => read_plain(alloc, bytes),
    }
}

// The pieces up to the closing bracket, and what stands behind that.
#[cycle(read_value)]
fn read_pieces(
    alloc: Global,
    bracket: Bracket,
    bytes: &[u8],
    depth: u32,
) -> Result<(List<(Value, Value)>, &[u8]), Unread>
    ensures reads { (ps : Items (Member × Member)) (r : Items ℕ) → ArePieces bracket 0 ps
        → bytes.now ≡ pieces_text bracket ps r → Gives result ps r }
    ensures fits { OfRead result (λ ps. Fits (Value.Fun ps)) }
    ensures shorter { IsNoLonger result bytes.now }
{
    let mut pieces = List::new(alloc);
    if let Some(rest) = behind(bytes, bracket.closing()) {
        return Ok((pieces, rest));
    }
    let mut rest = bytes;
    'pieces: loop {
        let (piece, more) = read_piece(alloc, bracket, pieces.len(), rest, depth)?;
        pieces.push(piece)?;
        match behind(more, bracket.separator()) {
            Some(next) => rest = next,
            None => {
                rest = more;
                break;
            }
        }
    }
    match behind(rest, bracket.closing()) {
        Some(end) => Ok((pieces, end)),
        None => Err(Unread::NoValue),
    }
}

// The piece at this place, counted from 0.
#[cycle(read_value)]
fn read_piece(
    alloc: Global,
    bracket: Bracket,
    place: usize,
    bytes: &[u8],
    depth: u32,
) -> Result<((Value, Value), &[u8]), Unread>
    ensures reads { (p : Member × Member) (r : Items ℕ) → IsPiece bracket place p → Ends r
        → bytes.now ≡ piece_text bracket p ++ r → Gives result p r }
    ensures fits { OfRead result (λ p. Fits p.0 × Fits p.1) }
    ensures shorter { IsNoLonger result bytes.now }
{
    let (argument, behind_argument) = read_argument(alloc, bracket, place, bytes, depth)?;
    let (value, rest) = read_value(alloc, behind_argument, depth)?;
    Ok(((argument, value), rest))
}

// The argument of the piece at this place, counted from 0.
#[cycle(read_value)]
fn read_argument(
    alloc: Global,
    bracket: Bracket,
    place: usize,
    bytes: &[u8],
    depth: u32,
) -> Result<(Value, &[u8]), Unread>
    ensures reads { (a : Member) (r : Items ℕ) → IsArgument bracket place a
        → bytes.now ≡ argument_text bracket a ++ r → Gives result a r }
    ensures fits { OfRead result Fits }
    ensures shorter { IsNoLonger result bytes.now }
{
    match bracket {
        Bracket::Brace => Ok((counted(place), bytes)),
        Bracket::Angle => Ok((counted(place), bytes)),
        Bracket::Square => read_name(alloc, bytes),
        Bracket::Round => {
            let (argument, rest) = read_value(alloc, bytes, depth)?;
            match behind(rest, b" :> ") {
                Some(more) => Ok((argument, more)),
                None => Err(Unread::NoValue),
            }
        }
    }
}

// The argument of a tuple's item.
fn counted(place: usize) -> Value
    ensures is { result ≡ Value.Int (pos (place + 1)) }
    ensures fits { Fits result }
{
    Value::Int(place as i128 + 1)
}

// The name of a field, with what stands behind its arrow.
fn read_name(alloc: Global, bytes: &[u8]) -> Result<(Value, &[u8]), Unread>
    ensures reads { (a : Member) (r : Items ℕ) → IsArgument Bracket.Square 0 a
        → bytes.now ≡ argument_text Bracket.Square a ++ r → Gives result a r }
    ensures fits { OfRead result Fits }
    ensures shorter { IsNoLonger result bytes.now }
{
    let (front, rest) = run(Class::NameByte, bytes);
    match behind(rest, b" |-> ") {
        Some(more) => {
            let name = Vec::from_slice(alloc, front)?;
            Ok((Value::Text(Text::from_vec(name)), more))
        }
        None => Err(Unread::NoValue),
    }
}

// A value without brackets.
fn read_plain(alloc: Global, bytes: &[u8]) -> Result<(Value, &[u8]), Unread>
    ensures reads { (v : Member) (r : Items ℕ) → Fits v → IsPlain v → Ends r
        → bytes.now ≡ text_of v ++ r → Gives result v r }
    ensures fits { OfRead result Fits }
    ensures shorter { IsNoLonger result bytes.now }
{
    if let Some((truth, rest)) = read_truth(bytes) {
        return Ok((Value::Bool(truth), rest));
    }
    if let Some(inner) = behind(bytes, b"\"") {
        let (out, rest) = text(alloc, inner)?;
        return Ok((Value::Text(Text::from_vec(out)), rest));
    }
    number(bytes)
}

fn read_truth(bytes: &[u8]) -> Option<(bool, &[u8])>
    ensures { MatchOption result ((b : Bool) (r : Items ℕ) → bytes.now ≡ truth_text b ++ r → ⊥)
        (λ p. bytes.now ≡ truth_text p.0 ++ p.1.now) }
{
    if let Some(rest) = behind(bytes, b"TRUE") {
        return Some((true, rest));
    }
    match behind(bytes, b"FALSE") {
        Some(rest) => Some((false, rest)),
        None => None,
    }
}
