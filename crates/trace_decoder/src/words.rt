//! Literals and words under an assignment.

ghost use Rattle.sat_formula.specs.Lit.{lit_value};
ghost use Rattle.std.specs.Prelude.{◌≡◌, ◌≤◌, length};
ghost use Rattle.word_blaster.specs.Word.{word_value};

use sat_formula::{Assignment, Lit};

// The value of a literal. A variable past the end of the assignment counts as false.
pub(crate) fn is_true(l: Lit, a: &Assignment) -> bool
    ensures { result ≡ lit_value l a.now }
{
    match a.values().get(l.var) {
        Some(value) => *value != l.neg,
        None => l.neg,
    }
}

// The number of a word in two's complement.
pub(crate) fn number(word: &[Lit], a: &Assignment) -> i128
    requires { length word.now ≤ 64 }
    ensures { result ≡ word_value word.now a.now }
{
    let mut sum: u128 = 0;
    let mut place: u128 = 1;
    let mut negative = false;
    for l in word {
        negative = is_true(*l, a);
        if negative {
            sum += place;
        }
        place *= 2;
    }
    if negative {
        sum as i128 - place as i128
    } else {
        sum as i128
    }
}
