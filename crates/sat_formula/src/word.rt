//! Numbers as lists of literals.

ghost use Rattle.std.specs.Prelude.{◌≡◌};

use crate::lit::Lit;
use std::marker::Model;

/// The literals of a two's complement number, lowest bit first. Contracts see it as that list.
#[derive(Drop)]
pub struct Word {
    lits: Vec<Lit>,
}

impl Model for Word {
    ghost use Rattle.std.specs.Prelude.{List};
    ghost use Rattle.sat_formula.specs.declared.lit.Lit.{Lit};

    ghost Value = { List Lit };

    ghost view = { λ c. c.lits.items };
}

impl Word {
    /// The word of these literals, lowest bit first, which takes no memory.
    pub fn from_vec(lits: Vec<Lit>) -> Word
        ensures { result ≡ lits.items }
    {
        Word { lits }
    }

    /// The literals, which takes no memory.
    pub fn into_vec(self) -> Vec<Lit>
        ensures { result.items ≡ self }
    {
        let Word { lits } = self;
        lits
    }

    /// The literals, lowest bit first.
    pub fn lits(&self) -> &[Lit]
        ensures { result.now ≡ self.now }
    {
        self.lits.as_slice()
    }
}
