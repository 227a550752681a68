// Words and numbers.
ghost use Rattle.std.specs.Prelude.{◌≡◌, ◌||◌, not, true, ◌==◌, length, IfOk};
ghost use Rattle.std.specs.List.{list_all, list_any};
ghost use Rattle.tla_values.specs.Names.{begins_fairness, is_letter, is_name_byte};
ghost use Rattle.tla_lexer.specs.Classes.{is_digit, StartsIn};
ghost use Rattle.tla_lexer.specs.Pieces.{number, word_piece, IsFound, IsWordLength};

use crate::classes::{Class, run_length};
use crate::pieces::{Found, Piece};
use crate::symbols::symbol_or_bad;
use crate::token::TokenKind;
use std::alloc::{AllocError, Global};
use tla_values::{Text, is_name};

/// The word that the bytes begin with: letters, digits and `_`, cut after `WF_` and `SF_`.
pub(crate) fn longest_word(alloc: Global, bytes: &[u8]) -> Result<Found, AllocError>
    requires { StartsIn is_name_byte bytes.now }
    ensures { IfOk result (λ found. IsFound bytes.now found.piece found.length) }
{
    let length = word_length(bytes);
    let piece = word_piece(alloc, &bytes[..length])?;
    Ok(Found { piece, length })
}

fn word_length(bytes: &[u8]) -> usize
    requires { StartsIn is_name_byte bytes.now }
    ensures { IsWordLength bytes.now result }
{
    let run = run_length(bytes, Class::WordByte);
    if begins_fairness(&bytes[..run]) {
        3
    } else {
        run
    }
}

fn begins_fairness(word: &[u8]) -> bool
    ensures { result ≡ begins_fairness word.now }
{
    word.starts_with(b"WF_") || word.starts_with(b"SF_")
}

// What a word is.
fn word_piece(alloc: Global, word: &[u8]) -> Result<Piece, AllocError>
    requires bytes { list_all is_name_byte word.now ≡ true }
    requires cut { (not (begins_fairness word.now) || length word.now == 3) ≡ true }
    ensures { IfOk result (λ piece. piece ≡ word_piece word.now) }
{
    if are_digits(word) {
        return Ok(number(word));
    }
    if !has_letter(word) {
        return symbol_or_bad(alloc, word);
    }
    let text = Text::from_vec(Vec::from_slice(alloc, word)?);
    if is_name(word) {
        Ok(Piece::Lexeme(TokenKind::Name(text)))
    } else {
        Ok(Piece::Lexeme(TokenKind::Reserved(text)))
    }
}

fn are_digits(word: &[u8]) -> bool
    ensures { result ≡ list_all is_digit word.now }
{
    word.iter().all(|byte| Class::Digit.has(*byte))
}

fn has_letter(word: &[u8]) -> bool
    ensures { result ≡ list_any is_letter word.now }
{
    word.iter().any(|byte| Class::Letter.has(*byte))
}

// The greatest number that a token has.
const GREATEST: u128 = 0x7fff_ffff_ffff_ffff_ffff_ffff_ffff_ffff;

// The number that the digits write.
fn number(digits: &[u8]) -> Piece
    requires { list_all is_digit digits.now ≡ true }
    ensures { result ≡ number digits.now }
{
    let mut value: u128 = 0;
    for digit in digits {
        let last = u128::from(*digit - b'0');
        if value > (GREATEST - last) / 10 {
            return Piece::BigNumber;
        }
        value = 10 * value + last;
    }
    Piece::Lexeme(TokenKind::Number(value as i128))
}
