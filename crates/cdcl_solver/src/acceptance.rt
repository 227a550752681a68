//! Tests of a clause that may be learned. They look at its literals alone.

ghost use Rattle.std.specs.Prelude.{◌≡◌, ℕ, ◌+◌, ◌<◌, ◌≤◌, ◌↔◌, [], length, take, IsTrue, All, Contains, List};
ghost use Rattle.sat_formula.specs.Lit.{IsBelow};
ghost use Rattle.refutation_checker.specs.Follows.{negation, IsUnit};
ghost use Rattle.watched_search.specs.Trail.{lits_of};
ghost use Rattle.cdcl_solver.specs.inner.Levels.{levels_from};
ghost use Rattle.cdcl_solver.specs.inner.Acceptance.{HasSecond, IsJump, start_of, IsOtherAt};

use crate::analysis::Candidate;
use sat_formula::Lit;
use watched_search::Search;

/// Whether the candidate's clause may be learned, and its literal be forced in the place of the
/// decision of its level.
pub fn is_jump(candidate: &Candidate, search: &Search, levels: &[usize]) -> bool
    requires { levels.now ≡ levels_from 0 search.now.entries }
    ensures { IsTrue result → IsJump search.now.vars search.now.entries candidate.now.lits.items
        candidate.now.forced candidate.now.level }
{
    let lits = candidate.lits.as_slice();
    let forced = candidate.forced;
    let level = candidate.level;
    if level >= levels.len() || forced.var >= search.vars() {
        return false;
    }
    are_below(lits, search.vars())
        && is_unit(lits, search, levels[level], forced)
        && has_second(lits, search, levels, level, forced)
}

// Whether each literal's variable is below `vars`.
fn are_below(lits: &[Lit], vars: usize) -> bool
    ensures { IsTrue result → All (IsBelow vars) lits.now }
{
    for l in lits {
        if l.var >= vars {
            return false;
        }
    }
    true
}

// Whether the literal is one of the first `count` entries.
fn is_among(search: &Search, l: Lit, count: usize) -> bool
    requires { l.var < search.now.vars }
    ensures { IsTrue result ↔ Contains (lits_of (take count search.now.entries)) l }
{
    let entries = search.entries();
    match search.place(l.var) {
        None => false,
        Some(k) => k < count && entries[k].lit == l,
    }
}

// Whether `u` is the one literal that isn't false under the first `count` entries, and isn't true.
fn is_unit(lits: &[Lit], search: &Search, count: usize, u: Lit) -> bool
    requires below { All (IsBelow search.now.vars) lits.now }
    requires forced { u.var < search.now.vars }
    ensures { IsTrue result → IsUnit (lits_of (take count search.now.entries)) lits.now u }
{
    if is_among(search, u, count) || is_among(search, u.negated(), count) {
        return false;
    }
    let mut found = false;
    for l in lits {
        if *l == u {
            found = true;
        } else if !is_among(search, l.negated(), count) {
            return false;
        }
    }
    found
}

// Whether a literal other than `u` wasn't false at the last decision before this level.
fn has_second(lits: &[Lit], search: &Search, levels: &[usize], level: usize, u: Lit) -> bool
    requires below { All (IsBelow search.now.vars) lits.now }
    requires levels { levels.now ≡ levels_from 0 search.now.entries }
    requires level { level < length levels.now }
    ensures { IsTrue result →
        HasSecond lits.now u [] (take (start_of search.now.entries level) search.now.entries) }
{
    if level == 0 {
        return true;
    }
    has_other(lits, search, levels[level - 1], u)
}

// Whether a literal other than `u` isn't false under the first `count` entries.
fn has_other(lits: &[Lit], search: &Search, count: usize, u: Lit) -> bool
    requires { All (IsBelow search.now.vars) lits.now }
    ensures { IsTrue result → IsOtherAt (lits_of (take count search.now.entries)) lits.now u }
{
    for l in lits {
        if *l != u && !is_among(search, l.negated(), count) {
            return true;
        }
    }
    false
}
