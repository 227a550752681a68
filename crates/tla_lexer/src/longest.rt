// The longest piece that a text begins with.
ghost use Rattle.std.specs.Prelude.{◌≡◌, ◌<◌, ◌==◌, length, IfOk, IfSome, IfNone};
ghost use Rattle.tla_lexer.specs.Classes.{is_blank, is_in, StartsIn};
ghost use Rattle.tla_lexer.specs.Pieces.{is_other, begins_octal, run_token, IsSign, IsFound, IsSymbolic, IsStepLength, HasNoStep};
ghost use Rattle.tla_lexer.specs.Symbols.{NoSymbolPast};

use crate::classes::{Class, run_length};
use crate::comments::{begins_with_pair, block_comment, line_comment};
use crate::pieces::{Found, Piece};
use crate::symbols::{longest_symbol, symbol_or_bad, symbol_piece};
use crate::texts::longest_text;
use crate::token::TokenKind;
use crate::words::longest_word;
use std::alloc::{AllocError, Global};

/// The longest piece that the bytes begin with.
pub(crate) fn longest_piece(alloc: Global, bytes: &[u8]) -> Result<Found, AllocError>
    requires { 0 < length bytes.now }
    ensures { IfOk result (λ found. IsFound bytes.now found.piece found.length) }
{
    let first = bytes[0];
    if Class::WordByte.has(first) {
        return longest_word(alloc, bytes);
    }
    if Class::Blank.has(first) {
        return Ok(blanks(bytes));
    }
    match first {
        b'"' => longest_text(alloc, bytes),
        b'(' => parenthesis(alloc, bytes),
        b'\\' => backslash(alloc, bytes),
        b'-' => signs(alloc, bytes, Class::Dash),
        b'=' => signs(alloc, bytes, Class::EqualSign),
        b'<' => less(alloc, bytes),
        _ => other(alloc, bytes),
    }
}

fn blanks(bytes: &[u8]) -> Found
    requires { StartsIn is_blank bytes.now }
    ensures { IsFound bytes.now result.piece result.length }
{
    let length = run_length(bytes, Class::Blank);
    Found {
        piece: Piece::Blanks,
        length,
    }
}

// A comment or `(`.
fn parenthesis(alloc: Global, bytes: &[u8]) -> Result<Found, AllocError>
    requires { StartsIn (λ b. b == 40) bytes.now }
    ensures { IfOk result (λ found. IsFound bytes.now found.piece found.length) }
{
    if begins_with_pair(bytes, b'(', b'*') {
        Ok(block_comment(bytes))
    } else {
        symbol(alloc, bytes)
    }
}

// A comment, a word of letters or a symbol.
fn backslash(alloc: Global, bytes: &[u8]) -> Result<Found, AllocError>
    requires { StartsIn (λ b. b == 92) bytes.now }
    ensures { IfOk result (λ found. IsFound bytes.now found.piece found.length) }
{
    if begins_with_pair(bytes, b'\\', b'*') {
        return Ok(line_comment(bytes));
    }
    let behind = &bytes[1..];
    if begins_octal(behind) {
        return Ok(Found {
            piece: Piece::Bad,
            length: 3,
        });
    }
    let letters = run_length(behind, Class::Letter);
    if letters == 0 {
        return symbol(alloc, bytes);
    }
    let length = letters + 1;
    let piece = symbol_or_bad(alloc, &bytes[..length])?;
    Ok(Found { piece, length })
}

// Whether `o` and a digit stand here.
fn begins_octal(bytes: &[u8]) -> bool
    ensures { result ≡ begins_octal bytes.now }
{
    match bytes {
        [letter, digit, ..] => *letter == b'o' && Class::Digit.has(*digit),
        _ => false,
    }
}

// A run of one sign: a token where there are four or more, and else a symbol or a bad piece.
fn signs(alloc: Global, bytes: &[u8], sign: Class) -> Result<Found, AllocError>
    requires sign { IsSign sign }
    requires starts { StartsIn (is_in sign) bytes.now }
    ensures { IfOk result (λ found. IsFound bytes.now found.piece found.length) }
{
    let length = run_length(bytes, sign);
    if length == 1 {
        return symbol(alloc, bytes);
    }
    let piece = if length >= 4 {
        Piece::Lexeme(run_token(sign))
    } else {
        symbol_or_bad(alloc, &bytes[..length])?
    };
    Ok(Found { piece, length })
}

// The token that four or more of the sign are.
fn run_token(sign: Class) -> TokenKind
    ensures { result ≡ run_token sign }
{
    match sign {
        Class::Dash => TokenKind::Dashes,
        _ => TokenKind::End,
    }
}

// A proof step or a symbol.
fn less(alloc: Global, bytes: &[u8]) -> Result<Found, AllocError>
    requires { StartsIn (λ b. b == 60) bytes.now }
    ensures { IfOk result (λ found. IsFound bytes.now found.piece found.length) }
{
    match step_length(&bytes[1..]) {
        Some(length) => Ok(Found {
            piece: Piece::Lexeme(TokenKind::ProofStep),
            length: length + 1,
        }),
        None => symbol(alloc, bytes),
    }
}

// How many bytes the digits and the `>` of a proof step take.
fn step_length(bytes: &[u8]) -> Option<usize>
    ensures found { IfSome result (λ n. IsStepLength bytes.now n) }
    ensures none { IfNone result (HasNoStep bytes.now) }
{
    let digits = run_length(bytes, Class::Digit);
    if digits > 0 && digits < bytes.len() && bytes[digits] == b'>' {
        Some(digits + 1)
    } else {
        None
    }
}

fn other(alloc: Global, bytes: &[u8]) -> Result<Found, AllocError>
    requires { StartsIn is_other bytes.now }
    ensures { IfOk result (λ found. IsFound bytes.now found.piece found.length) }
{
    symbol(alloc, bytes)
}

// A symbol or a stray byte.
fn symbol(alloc: Global, bytes: &[u8]) -> Result<Found, AllocError>
    requires some { 0 < length bytes.now }
    requires symbolic { IsSymbolic bytes.now }
    requires short { NoSymbolPast bytes.now 3 }
    ensures { IfOk result (λ found. IsFound bytes.now found.piece found.length) }
{
    match longest_symbol(bytes) {
        Some((symbol, length)) => {
            let piece = symbol_piece(alloc, symbol)?;
            Ok(Found { piece, length })
        }
        None => Ok(Found {
            piece: Piece::Bad,
            length: 1,
        }),
    }
}
