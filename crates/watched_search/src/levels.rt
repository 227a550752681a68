//! Where levels begin and end, and what propagation has to look at again.

ghost use Rattle.std.specs.Prelude.{◌≡◌, ◌<◌, ◌≤◌, ◌++◌, ◌∷◌, [], length, take, None};
ghost use Rattle.watched_search.specs.declared.propagation.Progress.{Progress as Reached};
ghost use Rattle.watched_search.specs.Trail.{lits_of, IsFree, starts_below};
ghost use Rattle.watched_search.specs.inner.Keeping.{Watched, IsKept};

use crate::entry::Entry;
use crate::propagation::Progress;
use crate::trail::Trail;
use sat_formula::Lit;

/// Makes a literal true without a reason. A level begins there where all entries were looked at.
pub fn decide(trail: &mut Trail, head: usize, l: Lit)
    requires below { l.var < trail.old.room }
    requires free { IsFree (lits_of trail.old.entries) l }
    ensures pushed { trail.new ≡ record trail.old {
      entries = trail.old.entries ++ record { lit = l; reason = None } ∷ [];
      starts = trail.new.starts;
    } }
    ensures kept { (w : Watched) (p : Reached) → p.head ≡ head → IsKept w trail.old p → IsKept w trail.new p }
{
    let _ = trail.top_start();
    let count = trail.entries().len();
    trail.push(Entry {
        lit: l,
        reason: None,
    });
    if head == count {
        trail.note_start();
    }
}

/// Takes back all but the first `keep` entries, and answers how far propagation has come then.
pub fn retreat(trail: &mut Trail, progress: Progress, keep: usize) -> Progress
    requires { keep ≤ length trail.old.entries }
    ensures taken { trail.new ≡ record trail.old {
      entries = take keep trail.old.entries;
      starts = starts_below keep trail.old.starts;
    } }
    ensures kept { (w : Watched) → IsKept w trail.old progress → IsKept w trail.new result }
{
    if let Some(start) = trail.back(keep) {
        if start == keep {
            return Progress {
                head: keep,
                ready: progress.ready,
            };
        }
    }
    match trail.top_start() {
        Some(start) => Progress {
            head: start,
            ready: progress.ready,
        },
        None => Progress { head: 0, ready: 0 },
    }
}
