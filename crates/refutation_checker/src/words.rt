//! The words of a line: numbers, literals, and lists of them that a 0 closes.

ghost use Rattle.std.specs.Prelude.{◌≡◌, ◌↔◌, ℕ, IsTrue, List, ◌+◌, ◌<◌, ◌≤◌, ◌^◌, ◌++◌, ◌∷◌, length, MatchOption, IfOk, decimal, option_copied};
ghost use Rattle.std.specs.Str.Parse.{AllDigits, digits_value};
ghost use Rattle.sat_formula.specs.Lit.{IsBelow};
ghost use Rattle.refutation_checker.specs.Certificate.{IsHint, lit_text};
ghost use Rattle.refutation_checker.specs.inner.Reading.{Lacks, Spells, SpellsNone, Closes, ClosesNone};

use sat_formula::Lit;
use std::alloc::{AllocError, Global};

// Whether the two texts are the same.
pub(crate) fn is(text: &[u8], other: &[u8]) -> bool
    ensures { IsTrue result ↔ (text.now ≡ other.now) }
{
    text == other
}

// What stands behind this beginning.
pub(crate) fn after<'a>(text: &'a [u8], beginning: &[u8]) -> Option<&'a [u8]>
    ensures { MatchOption result ((rest : List ℕ) → text.now ≡ beginning.now ++ rest → ⊥)
        (λ rest. text.now ≡ beginning.now ++ rest.now) }
{
    text.strip_prefix(beginning)
}

// What stands before the first byte `at` and behind it.
pub(crate) fn cut(text: &[u8], at: u8) -> Option<(&[u8], &[u8])>
    ensures { MatchOption result (Lacks at text.now)
        (λ r. (text.now ≡ r.0.now ++ at ∷ r.1.now) × Lacks at r.0.now) }
{
    for i in 0..text.len() {
        if text[i] == at {
            return Some((&text[..i], &text[i + 1..]));
        }
    }
    None
}

// The value of decimal digits, of which there are at most 19.
fn value(word: &[u8]) -> Option<u64>
    requires { length word.now ≤ 19 }
    ensures { MatchOption result (AllDigits 10 word.now → ⊥)
        (λ n. AllDigits 10 word.now × (n ≡ digits_value 10 word.now)) }
{
    let mut n: u64 = 0;
    for b in word {
        let b = *b;
        if b < b'0' || b > b'9' {
            return None;
        }
        n = n * 10 + u64::from(b - b'0');
    }
    Some(n)
}

// The number below the limit that the word is in decimals without leading zeros.
pub(crate) fn number(word: &[u8], limit: u64) -> Option<u64>
    requires { limit ≤ 2 ^ 63 }
    ensures { MatchOption result (SpellsNone decimal (λ n. n < limit) word.now)
        (Spells decimal (λ n. n < limit) word.now) }
{
    if word.is_empty() || word.len() > 19 {
        return None;
    }
    if word[0] == b'0' && word.len() > 1 {
        return None;
    }
    match value(word) {
        Some(n) if n < limit => Some(n),
        _ => None,
    }
}

// The variable below `vars` that the word gives, counted from 1.
fn variable(word: &[u8], vars: usize) -> Option<usize>
    requires { vars < 2 ^ 31 }
    ensures { MatchOption result (SpellsNone (λ v. decimal (v + 1)) (λ v. v < vars) word.now)
        (Spells (λ v. decimal (v + 1)) (λ v. v < vars) word.now) }
{
    match number(word, vars as u64 + 1) {
        Some(n) if n > 0 => Some((n - 1) as usize),
        _ => None,
    }
}

// The literal over the first `vars` variables that the word is.
fn lit(word: &[u8], vars: usize) -> Option<Lit>
    requires { vars < 2 ^ 31 }
    ensures { MatchOption result (SpellsNone lit_text (IsBelow vars) word.now)
        (Spells lit_text (IsBelow vars) word.now) }
{
    match after(word, b"-") {
        Some(digits) => {
            let var = variable(digits, vars)?;
            Some(Lit { var, neg: true })
        }
        None => {
            let var = variable(word, vars)?;
            Some(Lit { var, neg: false })
        }
    }
}

// The number that the word is, if it can be a hint.
fn hint(word: &[u8]) -> Option<u64>
    ensures { MatchOption result (SpellsNone decimal IsHint word.now) (Spells decimal IsHint word.now) }
{
    match number(word, 1 << 63) {
        Some(n) if n > 0 => Some(n),
        _ => None,
    }
}

// Literals up to a 0, and what stands behind it: nothing, or a blank and this text.
pub(crate) fn lits<'a>(
    alloc: Global,
    text: &'a [u8],
    vars: usize,
) -> Result<Option<(Vec<Lit>, Option<&'a [u8]>)>, AllocError>
    requires { vars < 2 ^ 31 }
    ensures { IfOk result (λ o. MatchOption o (ClosesNone lit_text (IsBelow vars) text.now)
        (λ r. Closes lit_text (IsBelow vars) text.now r.0.items (option_copied r.1))) }
{
    let mut lits = Vec::new(alloc);
    let mut rest = text;
    'words: while let Some((word, more)) = cut(rest, b' ') {
        if is(word, b"0") {
            return Ok(Some((lits, Some(more))));
        }
        let Some(l) = lit(word, vars) else {
            return Ok(None);
        };
        lits.push(l)?;
        rest = more;
    }
    if is(rest, b"0") {
        Ok(Some((lits, None)))
    } else {
        Ok(None)
    }
}

// Hints in the same way.
pub(crate) fn hints<'a>(
    alloc: Global,
    text: &'a [u8],
) -> Result<Option<(Vec<u64>, Option<&'a [u8]>)>, AllocError>
    ensures { IfOk result (λ o. MatchOption o (ClosesNone decimal IsHint text.now)
        (λ r. Closes decimal IsHint text.now r.0.items (option_copied r.1))) }
{
    let mut hints = Vec::new(alloc);
    let mut rest = text;
    'words: while let Some((word, more)) = cut(rest, b' ') {
        if is(word, b"0") {
            return Ok(Some((hints, Some(more))));
        }
        let Some(h) = hint(word) else {
            return Ok(None);
        };
        hints.push(h)?;
        rest = more;
    }
    if is(rest, b"0") {
        Ok(Some((hints, None)))
    } else {
        Ok(None)
    }
}
