//! How a log may end.

ghost use Rattle.std.specs.Prelude.{◌≡◌, ◌↔◌, ◌<◌, All, IsTrue, MatchOption, length};
ghost use Rattle.refutation_checker.specs.Certificate.{EndsRightly, end_text};
ghost use Rattle.refutation_checker.specs.Follows.{ends_empty};
ghost use Rattle.refutation_checker.specs.inner.Reading.{SpellsNone};

use crate::log::Step;
use crate::words::is;

/// Whether the last step is the empty clause.
pub(crate) fn ends_empty(steps: &[Step]) -> bool
    ensures { result ≡ ends_empty steps.now }
{
    match steps.last() {
        Some(s) => s.lits.lits().is_empty(),
        None => false,
    }
}

// Whether no step is the empty clause.
fn none_empty(steps: &[Step]) -> bool
    ensures { IsTrue result ↔ All (λ s. 0 < length s.lits) steps.now }
{
    steps.iter().all(|s| !s.lits.lits().is_empty())
}

/// Whether the section is open, where the line may end it behind these steps.
pub(crate) fn ending(line: &[u8], steps: &[Step]) -> Option<bool>
    ensures { MatchOption result (SpellsNone end_text (λ o. EndsRightly o steps.now) line.now)
        (λ o. EndsRightly o steps.now × (line.now ≡ end_text o)) }
{
    if is(line, b"end") && ends_empty(steps) {
        Some(false)
    } else if is(line, b"open") && none_empty(steps) {
        Some(true)
    } else {
        None
    }
}
