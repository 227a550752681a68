//! The lines of a text, taken one after another.

ghost use Rattle.std.specs.Prelude.{◌≡◌, ◌+◌, ◌∷◌, ◌++◌, [], ◌↔◌, IsTrue, MatchResult};
ghost use Rattle.refutation_checker.specs.declared.faults.CertFault.TheVariants.{BadLine as bad_line};
ghost use Rattle.refutation_checker.specs.inner.Reading.{Lacks};

use crate::faults::CertFault;
use crate::words::cut;
use std::marker::Model;

/// A text whose first lines are taken. Contracts see the bytes that are left and the number of
/// lines that were taken.
#[derive(Drop)]
pub(crate) struct Cursor<'a> {
    rest: &'a [u8],
    taken: u64,
}

impl<'a> Model for Cursor<'a> {
    ghost use Rattle.std.specs.Prelude.{◌+◌, ◌<◌, ◌^◌, length};
    ghost use Rattle.refutation_checker.specs.Place.{Place};

    ghost Value = { Place };

    ghost view = { λ c. record { rest = c.rest.now; taken = c.taken } };

    ghost invariant = { λ c. c.taken + length c.rest.now < 2 ^ 63 };
}

impl<'a> Cursor<'a> {
    pub(crate) fn new(text: &'a [u8]) -> Cursor<'a>
        ensures { result ≡ record { rest = text.now; taken = 0 } }
    {
        Cursor {
            rest: text,
            taken: 0,
        }
    }

    /// Whether no byte is left.
    pub(crate) fn is_done(&self) -> bool
        ensures { IsTrue result ↔ (self.now.rest ≡ []) }
    {
        self.rest.is_empty()
    }

    /// The next line that ends with a line feed, without it; where there is none, the fault at
    /// the place of that line.
    pub(crate) fn take(&mut self) -> Result<&'a [u8], CertFault>
        ensures { MatchResult result
            (λ line. (self.old.rest ≡ line.now ++ 10 ∷ self.new.rest)
            × (Lacks 10 line.now × (self.new.taken ≡ self.old.taken + 1)))
            (λ e. (e ≡ bad_line (self.old.taken + 1)) × Lacks 10 self.old.rest) }
    {
        match cut(self.rest, b'\n') {
            Some((line, rest)) => {
                self.rest = rest;
                self.taken += 1;
                Ok(line)
            }
            None => Err(CertFault::BadLine(self.taken + 1)),
        }
    }

    /// The fault at the line that was taken last.
    pub(crate) fn fault(&self) -> CertFault
        ensures { result ≡ bad_line self.now.taken }
    {
        CertFault::BadLine(self.taken)
    }
}
