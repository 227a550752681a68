//! What a clause is under a trail.

ghost use Rattle.std.specs.Prelude.{◌≡◌, ◌<◌, ◌≤◌, length, map, All};
ghost use Rattle.sat_formula.specs.Lit.{IsBelow};
ghost use Rattle.watched_search.specs.Trail.{lits_of};
ghost use Rattle.watched_search.specs.Searching.{clause_at};
ghost use Rattle.watched_search.specs.Codes.{literal};
ghost use Rattle.watched_search.specs.inner.Visiting.{IsStatus, IsReplacement, IsReplacementIn};

use crate::codes::literal_of;
use crate::pairing::WatchedClauses;
use crate::trail::Trail;
use sat_formula::Lit;

/// A literal is true, all are false, this one alone is not false, or two different ones are not.
#[derive(Clone, Copy, Debug)]
pub enum Status {
    Satisfied,
    Falsified,
    Unit(Lit),
    Open,
}

/// What the clause is.
pub fn status_of(watched: &WatchedClauses, trail: &Trail, c: usize) -> Status
    requires clause { c < length watched.now.clauses }
    requires room { watched.now.vars ≡ trail.now.room }
    ensures { IsStatus (lits_of trail.now.entries) (clause_at watched.now.clauses c) result }
{
    let mut found: Option<Lit> = None;
    for k in 0..watched.size(c) {
        let l = watched.lit(c, k);
        match trail.value(l) {
            Some(true) => return Status::Satisfied,
            Some(false) => {}
            None => match found {
                None => found = Some(l),
                Some(u) => {
                    if u != l {
                        return Status::Open;
                    }
                }
            },
        }
    }
    match found {
        None => Status::Falsified,
        Some(u) => Status::Unit(u),
    }
}

/// A place of a literal of the clause other than `other` that is not false, looked for from the
/// clause's mark on and round.
pub fn replacement(watched: &WatchedClauses, trail: &Trail, c: usize, other: Lit) -> Option<usize>
    requires clause { c < length watched.now.clauses }
    requires room { watched.now.vars ≡ trail.now.room }
    ensures { IsReplacement (lits_of trail.now.entries) (clause_at watched.now.clauses c) other result }
{
    let codes = watched.codes(c);
    let mark = watched.mark(c);
    match replacement_in(codes, trail, mark, codes.len(), other) {
        Some(k) => Some(k),
        None => replacement_in(codes, trail, 0, mark, other),
    }
}

// A place from `from` on and before `to` whose literal is not false and another one.
fn replacement_in(codes: &[u32], trail: &Trail, from: usize, to: usize, other: Lit) -> Option<usize>
    requires within { to ≤ length codes.now }
    requires below { All (IsBelow trail.now.room) (map (λ n. literal n) codes.now) }
    ensures { IsReplacementIn (lits_of trail.now.entries) (map (λ n. literal n) codes.now) other from to result }
{
    for k in from..to {
        let code = codes[k];
        if !trail.is_false(code) {
            if literal_of(code as usize) != other {
                return Some(k);
            }
        }
    }
    None
}
