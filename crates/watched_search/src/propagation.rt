//! Unit propagation over watched clauses.

ghost use Rattle.std.specs.Prelude.{◌≡◌, ℕ, ◌+◌, ◌^◌, ◌<◌, ◌≤◌, ◌++◌, ◌∷◌, List, length, All, Contains, MatchBool, MatchOption, true, Some, None};
ghost use Rattle.refutation_checker.specs.Follows.{negation};
ghost use Rattle.watch_chains.specs.declared.link.Link.{Link as Place};
ghost use Rattle.watched_search.specs.Trail.{lits_of};
ghost use Rattle.watched_search.specs.Searching.{clause_at, HasTrue, IsFalseAt};
ghost use Rattle.watched_search.specs.inner.Keeping.{IsPaired, IsKept, IsLowered, Held};
ghost use Rattle.watched_search.specs.inner.Moving.{IsAt, IsStanding, IsMoved};
ghost use Rattle.watched_search.specs.inner.Visiting.{Advances, IsFirstOpen, IsVisited, IsWalked, IsDriving, IsDrivenTo, IsSettled, IsPropagated, IsReplacement};
ghost use Rattle.sat_formula.specs.declared.lit.Lit.{Lit as Literal};

use crate::entry::Entry;
use crate::lists::{Watch, link_of};
use crate::pairing::{Standing, WatchedClauses};
use crate::status::{Status, replacement, status_of};
use crate::trail::Trail;
use sat_formula::Lit;
use watch_chains::Link;

/// How far propagation has come: what the first `head` entries of the trail make of the first
/// `ready` clauses is known.
#[derive(Clone, Copy, Debug)]
pub struct Progress {
    pub head: usize,
    pub ready: usize,
}

// What becomes of a link in the list of a literal that is false: it stays, since its clause is true,
// it goes to another list, or its clause is false.
#[derive(Clone, Copy, Debug)]
pub enum Visit {
    Stays,
    Moves,
    Fails,
}

// Lets another literal of the clause that is not false watch in the place of the one that is, if
// there is one.
fn move_watch(watched: &mut WatchedClauses, trail: &Trail, at: Standing, other: Lit) -> bool
    requires room { watched.old.vars ≡ trail.now.room }
    requires is_false { Contains (lits_of trail.now.entries) (negation at.lit) }
    requires paired { IsPaired watched.old }
    requires at { IsStanding watched.old at.lit at.place at.link other }
    ensures advances { Advances watched.old watched.new trail.now trail.now }
    ensures moved { MatchBool result
        ((v : Literal) × IsMoved watched.old watched.new at.lit at.place at.link v)
        ((watched.new ≡ watched.old) × IsReplacement (lits_of trail.now.entries) (clause_at watched.old.clauses at.link.clause) other None) }
{
    match replacement(watched, trail, at.link.clause, other) {
        Some(k) => {
            let v = watched.lit(at.link.clause, k);
            watched.set_mark(at.link.clause, k);
            watched.move_to(at, v);
            true
        }
        None => false,
    }
}

// Looks at the clause of a link in the list of a false literal.
fn visit_clause(watched: &mut WatchedClauses, trail: &mut Trail, at: Standing) -> Visit
    requires room { watched.old.vars ≡ trail.old.room }
    requires is_false { Contains (lits_of trail.old.entries) (negation at.lit) }
    requires at { IsAt watched.old at.lit at.place at.link }
    ensures advances { Advances watched.old watched.new trail.old trail.new }
    ensures visited { IsVisited watched.old watched.new trail.new at.lit at.place at.link result }
{
    let other = watched.other_watch(at.lit, at.link);
    if trail.is_true(other) {
        watched.set_blocker(at, other);
        return Visit::Stays;
    }
    if move_watch(watched, trail, at, other) {
        return Visit::Moves;
    }
    if trail.is_true(other.negated()) {
        return Visit::Fails;
    }
    trail.push(Entry {
        lit: other,
        reason: Some(at.link.clause),
    });
    Visit::Stays
}

// The first place from `from` on whose watch has no true literal at hand, or the end. Most visits
// end at such a literal, so the loop goes over two tables and nothing else.
fn first_open(watches: &[Watch], truths: &[bool], from: usize) -> usize
    requires from { from ≤ length watches.now }
    requires below { All (λ w. w.blocker < length truths.now) watches.now }
    ensures { IsFirstOpen watches.now truths.now from result }
{
    for i in from..watches.len() {
        if !truths[watches[i].blocker as usize] {
            return i;
        }
    }
    watches.len()
}

// Looks at the clauses that a false literal watches, and makes true what they force. Answers the
// number of one that is false.
fn visit_list(watched: &mut WatchedClauses, trail: &mut Trail, l: Lit) -> Option<usize>
    requires room { watched.old.vars ≡ trail.old.room }
    requires below { l.var < watched.old.vars }
    requires is_false { Contains (lits_of trail.old.entries) (negation l) }
    requires paired { IsPaired watched.old }
    ensures advances { Advances watched.old watched.new trail.old trail.new }
    ensures walked { IsWalked watched.new trail.new l result }
{
    let mut from = 0;
    loop {
        let watches = watched.watches(l);
        let place = first_open(watches, trail.truths(), from);
        if place >= watches.len() {
            return None;
        }
        let link = link_of(watches[place]);
        let at = Standing {
            lit: l,
            place,
            link,
        };
        match visit_clause(watched, trail, at) {
            Visit::Stays => from = place + 1,
            // The last watch of the list takes its place.
            Visit::Moves => from = place,
            Visit::Fails => return Some(link.clause),
        }
    }
}

// Makes the clause true where it is a unit. Answers whether it is true now, and `None` where it is
// false.
fn drive(watched: &WatchedClauses, trail: &mut Trail, c: usize) -> Option<bool>
    requires room { watched.now.vars ≡ trail.old.room }
    requires paired { IsPaired watched.now }
    requires clause { c < length watched.now.clauses }
    ensures advances { Advances watched.now watched.now trail.old trail.new }
    ensures driving { IsDriving watched.now.clauses trail.new c result }
{
    match status_of(watched, trail, c) {
        Status::Satisfied => Some(true),
        Status::Falsified => None,
        Status::Unit(u) => {
            trail.push(Entry {
                lit: u,
                reason: Some(c),
            });
            Some(true)
        }
        Status::Open => Some(false),
    }
}

// Sees to it that a literal which watches a clause is held. Answers from which entry on is to be
// looked.
fn settle(trail: &mut Trail, head: usize, l: Lit, is_true: bool) -> usize
    requires below { l.var < trail.old.room }
    requires head { head ≤ length trail.old.entries }
    ensures lowered { IsLowered trail.old trail.new head result }
    ensures held { (c : List Literal) → (is_true ≡ true → HasTrue (lits_of trail.old.entries) c)
        → Held (lits_of trail.new.entries) trail.new.starts result c l }
{
    let Some(place) = trail.place(l.var) else {
        return head;
    };
    if trail.entries()[place].lit == l {
        return head;
    }
    if place >= head {
        return head;
    }
    let _ = trail.cut(place + 1);
    if is_true { head } else { place }
}

// Sees to it that the clause is settled. Answers from which entry on is to be looked.
fn settle_clause(
    watched: &WatchedClauses,
    trail: &mut Trail,
    head: usize,
    c: usize,
    is_true: bool,
) -> usize
    requires room { watched.now.vars ≡ trail.old.room }
    requires paired { IsPaired watched.now }
    requires clause { c < length watched.now.clauses }
    requires head { head ≤ length trail.old.entries }
    requires driving { IsDriving watched.now.clauses trail.old c (Some is_true) }
    ensures lowered { IsLowered trail.old trail.new head result }
    ensures settled { IsSettled watched.now trail.new result c }
{
    let first = Link { clause: c, slot: 0 };
    let Some(a) = watched.watch(first) else {
        let _ = trail.cut(0);
        return head;
    };
    let b = watched.other_watch(a, first);
    let lower = settle(trail, head, a, is_true);
    settle(trail, lower, b, is_true)
}

// Looks at the next clause, unless it is false, and is then answered.
fn admit(watched: &WatchedClauses, trail: &mut Trail, progress: &mut Progress) -> Option<usize>
    requires room { watched.now.vars ≡ trail.old.room }
    requires paired { IsPaired watched.now }
    requires kept { IsKept watched.now trail.old progress.old }
    requires next { progress.old.ready < length watched.now.clauses }
    requires small { length watched.now.clauses < 2 ^ 64 }
    ensures driven { IsDrivenTo watched.now trail.old trail.new progress.new }
    ensures answer { MatchOption result
        (progress.new.ready ≡ progress.old.ready + 1)
        (λ c. IsFalseAt watched.now.clauses (lits_of trail.new.entries) c) }
{
    let c = progress.ready;
    let Some(is_true) = drive(watched, trail, c) else {
        return Some(c);
    };
    let head = settle_clause(watched, trail, progress.head, c, is_true);
    progress.head = head;
    progress.ready = c + 1;
    None
}

// Looks at each clause that was not looked at yet, until one is false, which is answered.
fn admit_all(watched: &WatchedClauses, trail: &mut Trail, progress: &mut Progress) -> Option<usize>
    requires room { watched.now.vars ≡ trail.old.room }
    requires kept { IsKept watched.now trail.old progress.old }
    ensures driven { IsDrivenTo watched.now trail.old trail.new progress.new }
    ensures answer { MatchOption result
        ((progress.new.ready ≡ length watched.now.clauses) × IsPaired watched.now)
        (λ c. IsFalseAt watched.now.clauses (lits_of trail.new.entries) c) }
{
    while progress.ready < watched.count() {
        if let Some(c) = admit(watched, trail, progress) {
            return Some(c);
        }
    }
    None
}

/// Looks at all clauses and entries that were not looked at yet, and makes true what the clauses
/// force, until one is false, which is answered.
pub fn propagate_all(
    watched: &mut WatchedClauses,
    trail: &mut Trail,
    progress: &mut Progress,
) -> Option<usize>
    requires room { watched.old.vars ≡ trail.old.room }
    requires kept { IsKept watched.old trail.old progress.old }
    ensures { IsPropagated watched.old watched.new trail.old trail.new progress.new result }
{
    if let Some(c) = admit_all(watched, trail, progress) {
        return Some(c);
    }
    while progress.head < trail.entries().len() {
        let l = trail.entries()[progress.head].lit.negated();
        if let Some(c) = visit_list(watched, trail, l) {
            return Some(c);
        }
        progress.head += 1;
    }
    None
}
