// Texts between quotes.
ghost use Rattle.std.specs.Prelude.{◌≡◌, ℕ, [], ◌∷◌, ◌++◌, ◌<◌, ◌≤◌, ◌⊎◌, List, flat_map, length, IfOk, IfSome, MatchOption, MatchResult};
ghost use Rattle.tla_values.specs.Show.{escaped};
ghost use Rattle.tla_values.specs.inner.Escapes.{decode, letter};
ghost use Rattle.trace_text.specs.inner.Reading.{IsWant};

use crate::bytes::behind;
use crate::faults::Unread;
use std::alloc::Global;

// The text up to its closing quote, and what stands behind that.
pub(crate) fn text(alloc: Global, bytes: &[u8]) -> Result<(Vec<u8>, &[u8]), Unread>
    ensures reads { (t r : List ℕ) → bytes.now ≡ flat_map escaped t ++ 34 ∷ r
        → MatchResult result (λ p. (p.0.items ≡ t) × (p.1.now ≡ r)) IsWant }
    ensures shorter { IfOk result (λ p. length p.1.now ≤ length bytes.now) }
{
    let mut out = Vec::new(alloc);
    let mut rest = bytes;
    'text: while let Some((byte, more)) = next_byte(rest) {
        out.push(byte)?;
        rest = more;
    }
    match behind(rest, b"\"") {
        Some(more) => Ok((out, more)),
        None => Err(Unread::NoValue),
    }
}

// The byte in front, with its backslash or without, where no quote stands there.
fn next_byte(bytes: &[u8]) -> Option<(u8, &[u8])>
    ensures { MatchOption result ((bytes.now ≡ []) ⊎ ((r : List ℕ) × (bytes.now ≡ 34 ∷ r)))
        (λ p. (decode bytes.now ≡ (p.0, p.1.now)) × ((length p.1.now < length bytes.now) × ((r : List ℕ) → bytes.now ≡ 34 ∷ r → ⊥))) }
{
    match bytes {
        [b'"', ..] => None,
        [b'\\', second, rest @ ..] => Some((letter(*second), rest)),
        [first, rest @ ..] => Some((*first, rest)),
        [] => None,
    }
}

// The byte that this one stands for behind a backslash.
fn letter(byte: u8) -> u8
    ensures { result ≡ letter byte }
{
    match byte {
        b't' => b'\t',
        b'n' => b'\n',
        b'f' => 12,
        b'r' => b'\r',
        _ => byte,
    }
}
