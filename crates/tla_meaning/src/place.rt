// Places in the module texts.
ghost use Rattle.std.specs.Prelude.{◌≡◌};
ghost use Rattle.tla_meaning.specs.Outcomes.{before};

use std::cmp::Ordering;

/// A place in a file. Places come in order of file, line and column.
#[derive(Clone, Copy, Debug, Drop, PartialEq, Eq)]
pub struct Place {
    /// The number of the file: files are numbered in the order in which they are read, and the root is 0.
    pub file: u32,
    /// From 1.
    pub line: u32,
    /// From 1.
    pub col: u32,
}

impl Place {
    /// Whether this place comes before the other.
    pub fn is_before(self, other: Place) -> bool
        ensures { result ≡ before self other }
    {
        self.file
            .cmp(&other.file)
            .then(self.line.cmp(&other.line).then(self.col.cmp(&other.col)))
            == Ordering::Less
    }
}
