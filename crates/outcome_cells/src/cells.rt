//! Cells in the place of an outcome.

ghost use Rattle.std.specs.Prelude.{◌≡◌};
ghost use Rattle.outcome_cells.specs.Shows.{faults_of};

use cell_arena::CellId;
use sat_formula::Lit;

/// A cell, and literals that are true where there is a fault in its place.
#[derive(Clone, Copy, PartialEq, Eq, Debug)]
pub struct Cells {
    pub cell: CellId,
    pub wrong: Lit,
    pub big: Lit,
}

/// Where there is a fault.
#[derive(Clone, Copy, PartialEq, Eq, Debug)]
pub struct Faults {
    pub wrong: Lit,
    pub big: Lit,
}

impl Cells {
    /// The literals alone.
    pub fn faults(self) -> Faults
        ensures { result ≡ faults_of self }
    {
        Faults {
            wrong: self.wrong,
            big: self.big,
        }
    }
}
