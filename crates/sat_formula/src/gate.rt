//! Gates as they are kept, so that equal ones are made once.

ghost use Rattle.std.specs.Prelude.{◌≡◌, ◌<◌, ◌&&◌, Bool, List};
ghost use Rattle.sat_formula.specs.Lit.{lit_value};
ghost use Rattle.sat_formula.specs.inner.Gates.{gate_value};

use crate::lit::Lit;

/// What a gate was asked for: both of two literals, all of several, or the first literal's choice
/// between the second, where it is true, and the third.
#[derive(PartialEq, Eq, Hash, Drop)]
pub(crate) enum Gate {
    And(Lit, Lit),
    AndAll(Vec<Lit>),
    Mux(Lit, Lit, Lit),
}

impl Gate {
    // Both of two literals, the one of the lower variable first.
    pub(crate) fn both(x: Lit, y: Lit) -> Gate
        ensures { (a : List Bool) → gate_value result a ≡ (lit_value x a && lit_value y a) }
    {
        if y.var < x.var {
            Gate::And(y, x)
        } else {
            Gate::And(x, y)
        }
    }
}
