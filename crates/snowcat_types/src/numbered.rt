// The text of a note in an expanded tree: a number, a blank and an annotation.
ghost use Rattle.std.specs.Prelude.{ℕ, List as Items, ◌≡◌, ◌<◌, ◌^◌, ◌++◌, ◌∷◌, IfOk, MatchOption, Some};
ghost use Rattle.std.specs.Fmt.{decimal};
ghost use Rattle.snowcat_types.specs.inner.Telling.{IsNumbered, IsUnbroken};

use std::alloc::{AllocError, Global};

// What stands before the first blank, and what stands behind it.
fn at_blank(text: &[u8]) -> Option<(&[u8], &[u8])>
    ensures { MatchOption result (IsUnbroken text.now)
        (λ r. (text.now ≡ r.0.now ++ 32 ∷ r.1.now) × IsUnbroken r.0.now) }
{
    for i in 0..text.len() {
        if text[i] == b' ' {
            return Some((&text[..i], &text[i + 1..]));
        }
    }
    None
}

// The number of these digits, where they are digits.
fn proposed(digits: &[u8]) -> Option<usize>
    ensures { (n : ℕ) → n < 2 ^ 64 → digits.now ≡ decimal n → result ≡ Some n }
{
    match str::from_utf8(digits) {
        Ok(text) => text.parse::<usize>().ok(),
        Err(_) => None,
    }
}

// The number that is written so in decimal.
fn number_of(alloc: Global, digits: &[u8]) -> Result<Option<usize>, AllocError>
    ensures { IfOk result (λ r. MatchOption r ((n : ℕ) → n < 2 ^ 64 → digits.now ≡ decimal n → ⊥)
        (λ n. (n < 2 ^ 64) × (digits.now ≡ decimal n))) }
{
    match proposed(digits) {
        Some(n) => {
            let written = format!(in alloc; "{n}")?;
            Ok(if written.as_bytes() == digits {
                Some(n)
            } else {
                None
            })
        }
        None => Ok(None),
    }
}

/// The number and the annotation; `None` where the text is none of these.
pub fn split(alloc: Global, text: &[u8]) -> Result<Option<(usize, &[u8])>, AllocError>
    ensures { IfOk result (λ r. MatchOption r ((n : ℕ) (t : Items ℕ) → IsNumbered text.now n t → ⊥)
        (λ x. IsNumbered text.now x.0 x.1.now)) }
{
    let Some((digits, annotation)) = at_blank(text) else {
        return Ok(None);
    };
    match number_of(alloc, digits)? {
        Some(number) => Ok(Some((number, annotation))),
        None => Ok(None),
    }
}
