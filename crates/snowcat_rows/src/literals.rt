// The types of text literals.
ghost use Rattle.std.specs.Prelude.{◌≡◌, ◌+◌, ◌≤◌, [], IfOk, IfSome, None, Some, drop, length, option_map, take};
ghost use Rattle.snowcat_rows.specs.LiteralTypes.{begins_of, last_of, literal_type, type_of_parts};
ghost use Rattle.snowcat_rows.specs.Types.{mean};

use crate::pieces::{after, is_type_name, is_word};
use crate::types::Ty;
use std::alloc::{AllocError, Global};
use tla_values::Text;

fn begins_of(bytes: &[u8]) -> bool
    ensures { result ≡ begins_of bytes.now }
{
    match bytes {
        [a, b, c, d, ..] => *a == b'_' && *b == b'O' && *c == b'F' && *d == b'_',
        _ => false,
    }
}

// The place of the last `_OF_`.
fn last_of(text: &[u8]) -> Option<usize>
    ensures place { last_of [] text.now None ≡ option_map (λ i. (take i text.now, drop (i + 4) text.now)) result }
    ensures whole { IfSome result (λ i. i + 4 ≤ length text.now) }
{
    let mut found = None;
    for at in 0..text.len() {
        if begins_of(after(text, at)) {
            found = Some(at);
        }
    }
    found
}

/// The type of a text literal: `"1_OF_NODE"` is of the uninterpreted type `NODE`, where letters, digits and `_` stand
/// before the last `_OF_` and the name of a type behind it; every other text is of `Str`.
/// Source: the Apalache manual, "Uninterpreted types".
pub fn literal_type(alloc: Global, text: &[u8]) -> Result<Ty, AllocError>
    ensures { IfOk result (λ t. mean t ≡ literal_type text.now) }
{
    match last_of(text) {
        None => Ok(Ty::Str),
        Some(at) => named_by(alloc, &text[..at], &text[at + 4..]),
    }
}

// The type of a text in which these stand before and behind the last `_OF_`.
fn named_by(alloc: Global, word: &[u8], name: &[u8]) -> Result<Ty, AllocError>
    ensures { IfOk result (λ t. mean t ≡ type_of_parts (Some (word.now, name.now))) }
{
    if is_word(word) && is_type_name(name) {
        let name = Vec::from_slice(alloc, name)?;
        return Ok(Ty::Named(Text::from_vec(name)));
    }
    Ok(Ty::Str)
}
