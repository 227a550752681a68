//! Words of known numbers.

ghost use Rattle.std.specs.Prelude.{◌≡◌, ◌<◌, ◌≤◌, IfOk};
ghost use Rattle.sat_formula.specs.Formula.{Grows};
ghost use Rattle.word_blaster.specs.Word.{IsExact, magnitude};

use crate::bitwise::constant;
use sat_formula::{Formula, Lit, Word};
use std::alloc::{AllocError, Global};

// n for n, and n for -(n + 1).
fn magnitude_of(n: i128) -> u128
    ensures value { result ≡ magnitude n }
{
    if n < 0 { (-(n + 1)) as u128 } else { n as u128 }
}

/// A number as a word of `top` and its negation, and the literal that is true where the number is
/// outside of the width; the word then holds its low bits. It adds nothing to the formula.
#[tactic(auto, using(sat_formula::proofs::Extension::gates, crate::proofs::Words::words))]
pub fn literal(
    alloc: Global,
    f: &mut Formula,
    n: i128,
    width: u32,
) -> Result<(Word, Lit), AllocError>
    requires { 0 < width }
    ensures exact { IfOk result (λ r. IsExact f.new width r.0 r.1 (λ a. n)) }
    ensures unchanged { f.new ≡ f.old }
    ensures grows { Grows f.old f.new }
{
    let negative = n.is_negative();
    let mut rest = magnitude_of(n);
    let mut lits = Vec::new(alloc);
    for i in 0..width - 1 {
        let one = rest % 2 == 1;
        lits.push(constant(f, one != negative))?;
        rest /= 2;
    }
    lits.push(constant(f, negative))?;
    let outside = constant(f, rest != 0);
    Ok((Word::from_vec(lits), outside))
}
