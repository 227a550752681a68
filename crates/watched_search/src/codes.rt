//! Literals as numbers, by which tables are read.

ghost use Rattle.std.specs.Prelude.{◌≡◌, ◌<◌, ◌^◌};
ghost use Rattle.watched_search.specs.Codes.{code};

use sat_formula::Lit;

/// The literal's code: twice its variable, and one more where it is negated.
pub fn code_of(l: Lit) -> usize
    requires { l.var < 2 ^ 63 }
    ensures { result ≡ code l }
{
    if l.neg { 2 * l.var + 1 } else { 2 * l.var }
}

/// The literal of this code. Each number is the code of one literal.
pub fn literal_of(number: usize) -> Lit
    ensures { code result ≡ number }
{
    Lit {
        var: number / 2,
        neg: number % 2 == 1,
    }
}
