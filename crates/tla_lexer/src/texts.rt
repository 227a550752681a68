// Texts between quotes.
ghost use Rattle.std.specs.Prelude.{◌≡◌, ◌==◌, IfOk};
ghost use Rattle.tla_lexer.specs.Classes.{StartsIn};
ghost use Rattle.tla_lexer.specs.Pieces.{escaped, IsFound};
ghost use Rattle.tla_lexer.specs.inner.Texts.{IsUnit};

use crate::pieces::{Found, Piece};
use crate::token::TokenKind;
use std::alloc::{AllocError, Global};
use tla_values::Text;

/// The text that the bytes begin with, or its quote, which is bad where it opens no text.
pub(crate) fn longest_text(alloc: Global, bytes: &[u8]) -> Result<Found, AllocError>
    requires { StartsIn (λ b. b == 34) bytes.now }
    ensures { IfOk result (λ found. IsFound bytes.now found.piece found.length) }
{
    let rest = &bytes[1..];
    let mut text = Vec::new(alloc);
    let mut at = 0;
    'units: loop {
        match next_unit(&rest[at..]) {
            Unit::Stands(byte, length) => {
                text.push(byte)?;
                at += length;
            }
            Unit::Closes => {
                let kind = TokenKind::Quoted(Text::from_vec(text));
                return Ok(Found {
                    piece: Piece::Lexeme(kind),
                    length: at + 2,
                });
            }
            Unit::Fails => {
                return Ok(Found {
                    piece: Piece::Bad,
                    length: 1,
                });
            }
        }
    }
}

// What stands next inside a text.
#[derive(Clone, Copy, Debug)]
enum Unit {
    // This byte, spelled by so many bytes.
    Stands(u8, usize),
    // The closing quote.
    Closes,
    // Nothing that may stand in a text.
    Fails,
}

fn next_unit(rest: &[u8]) -> Unit
    ensures { IsUnit rest.now result }
{
    match rest {
        [b'"', ..] => Unit::Closes,
        [b'\\', letter, ..] => match escaped(*letter) {
            Some(byte) => Unit::Stands(byte, 2),
            None => Unit::Fails,
        },
        [b'\\'] => Unit::Fails,
        [byte, ..] if b' ' <= *byte && *byte <= b'~' => Unit::Stands(*byte, 1),
        _ => Unit::Fails,
    }
}

// The byte that a letter behind a backslash stands for.
fn escaped(letter: u8) -> Option<u8>
    ensures { result ≡ escaped letter }
{
    match letter {
        b'"' => Some(b'"'),
        b'\\' => Some(b'\\'),
        b't' => Some(b'\t'),
        b'n' => Some(b'\n'),
        b'f' => Some(12),
        b'r' => Some(b'\r'),
        _ => None,
    }
}
