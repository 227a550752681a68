//! What is true, in the order in which it became so.

ghost use Rattle.std.specs.Prelude.{◌≡◌, ◌+◌, ◌-◌, ◌<◌, ◌↔◌, ◌++◌, ◌∷◌, [], length, IfOk, IsTrue, All, AllPairs, Contains, slice_get, take};
ghost use Rattle.std.specs.Vec.{vec_capacity};
ghost use Rattle.refutation_checker.specs.Follows.{negation};
ghost use Rattle.refutation_checker.specs.Marks.{TellsValue};
ghost use Rattle.watched_search.specs.Trail.{lits_of, IsFree, IsPlaceOf, IsTrail, starts_below, starts_from};
ghost use Rattle.watched_search.specs.Codes.{literal};
ghost use Rattle.watched_search.specs.inner.Tables.{Marked, Truths};

use crate::Entry;
use crate::codes::code_of;
use sat_formula::Lit;
use std::alloc::{AllocError, Global};
use std::marker::Model;

/// True literals over variables below a fixed number, each with its reason; each variable's value and
/// place are at hand. Contracts see the number, `room`, the entries in their order, and where levels
/// begin.
#[derive(Drop)]
pub struct Trail {
    // The value of each variable that an entry has.
    values: Vec<Option<bool>>,
    // Whether each literal is true, by its code.
    truths: Vec<bool>,
    // Where the entry of each such variable stands. What the others have is not read.
    places: Vec<usize>,
    // Both lists have room for each variable from the start.
    entries: Vec<Entry>,
    starts: Vec<usize>,
}

impl Model for Trail {
    ghost use Rattle.std.specs.Prelude.{◌≤◌, length};
    ghost use Rattle.std.specs.Vec.{vec_capacity};
    ghost use Rattle.watched_search.specs.Trail.{TrailView, AreStarts, lits_of};
    ghost use Rattle.watched_search.specs.inner.Tables.{Tabled, Truths};

    ghost Value = { TrailView };

    ghost view = { λ t. record {
      room = length t.values.items;
      entries = t.entries.items;
      starts = t.starts.items;
    } };

    ghost invariant = { λ t.
        Tabled t.values.items t.places.items t.entries.items
        × AreStarts (length t.entries.items) t.starts.items
        × (length t.values.items ≤ vec_capacity t.entries)
        × (length t.values.items ≤ vec_capacity t.starts)
        × Truths (length t.values.items) t.truths.items (lits_of t.entries.items) };
}

impl Trail {
    /// The empty trail over the variables below `room`, with memory for all that it will hold.
    pub fn new(alloc: Global, room: usize) -> Result<Trail, AllocError>
        ensures { IfOk result (λ t. t ≡ record { room = room; entries = []; starts = [] }) }
    {
        let Some(codes) = room.checked_mul(2) else {
            return Err(AllocError);
        };
        let values = vec![in alloc; None; room]?;
        let truths = vec![in alloc; false; codes]?;
        let places = vec![in alloc; 0; room]?;
        let entries = Vec::with_capacity(alloc, room)?;
        let starts = Vec::with_capacity(alloc, room)?;
        Ok(Trail {
            values,
            truths,
            places,
            entries,
            starts,
        })
    }

    /// How many variables there are.
    pub fn room(&self) -> usize
        ensures { result ≡ self.now.room }
    {
        let _ = &self.entries;
        self.values.len()
    }

    /// The entries, the oldest first.
    pub fn entries(&self) -> &[Entry]
        ensures same { result.now ≡ self.now.entries }
        ensures sound { IsTrail self.now }
    {
        let _ = &self.values;
        self.entries.as_slice()
    }

    /// The value of a literal; `None` where its variable has none.
    pub fn value(&self, l: Lit) -> Option<bool>
        requires { l.var < self.now.room }
        ensures { TellsValue (lits_of self.now.entries) l result }
    {
        match self.values[l.var] {
            None => None,
            Some(b) => Some(b != l.neg),
        }
    }

    /// Whether the literal is true, which is found faster than its value.
    pub fn is_true(&self, l: Lit) -> bool
        requires { l.var < self.now.room }
        ensures { IsTrue result ↔ Contains (lits_of self.now.entries) l }
    {
        let _ = &self.entries;
        self.truths[code_of(l)]
    }

    /// Whether each literal is true, by its code.
    pub fn truths(&self) -> &[bool]
        ensures { Truths self.now.room result.now (lits_of self.now.entries) }
    {
        let _ = &self.entries;
        self.truths.as_slice()
    }

    /// Whether the literal of this code is false.
    pub fn is_false(&self, code: u32) -> bool
        requires { (literal code).var < self.now.room }
        ensures { IsTrue result ↔ Contains (lits_of self.now.entries) (negation (literal code)) }
    {
        let _ = &self.entries;
        self.truths[(code ^ 1) as usize]
    }

    /// Where the entry of this variable stands; `None` where it has no value.
    pub fn place(&self, v: usize) -> Option<usize>
        requires { v < self.now.room }
        ensures { IsPlaceOf self.now.entries v result }
    {
        match self.values[v] {
            None => None,
            Some(_) => Some(self.places[v]),
        }
    }

    /// Where the last level begins; `None` before the first.
    pub fn top_start(&self) -> Option<usize>
        ensures last { result ≡ slice_get self.now.starts (length self.now.starts - 1) }
        ensures sound { IsTrail self.now }
    {
        let _ = &self.values;
        self.starts.last().copied()
    }

    /// Makes a literal true whose variable has no value.
    pub fn push(&mut self, entry: Entry)
        requires below { entry.lit.var < self.old.room }
        requires free { IsFree (lits_of self.old.entries) entry.lit }
        ensures { self.new ≡ record self.old { entries = self.old.entries ++ entry ∷ [] } }
    {
        let place = self.entries.as_slice().len();
        self.entries.push_reserved(entry);
        self.values[entry.lit.var] = Some(!entry.lit.neg);
        self.truths[code_of(entry.lit)] = true;
        self.places[entry.lit.var] = place;
    }

    /// Notes that a level begins at the last entry. No level may begin there already.
    pub fn note_start(&mut self)
        requires some { 0 < length self.old.entries }
        requires later { All (λ s. s + 1 < length self.old.entries) self.old.starts }
        ensures { self.new ≡ record self.old {
          starts = self.old.starts ++ (length self.old.entries - 1) ∷ [];
        } }
    {
        let last = self.entries.as_slice().len() - 1;
        self.starts.push_reserved(last);
    }

    /// Takes back all but the first `keep` entries, and the levels that began at these. Answers where
    /// the first of these levels began.
    pub fn back(&mut self, keep: usize) -> Option<usize>
        ensures kept { self.new ≡ record self.old {
          entries = take keep self.old.entries;
          starts = starts_below keep self.old.starts;
        } }
        ensures first { result ≡ slice_get (starts_from keep self.old.starts) 0 }
    {
        take_back(&mut self.values, &mut self.truths, &mut self.entries, keep);
        cut_starts(&mut self.starts, keep)
    }

    /// Forgets that levels begin at `limit` and behind it, and answers where the first of these began.
    pub fn cut(&mut self, limit: usize) -> Option<usize>
        ensures kept { self.new ≡ record self.old { starts = starts_below limit self.old.starts } }
        ensures first { result ≡ slice_get (starts_from limit self.old.starts) 0 }
    {
        cut_starts(&mut self.starts, limit)
    }
}

// Takes back all but the first `keep` entries, with their values.
fn take_back(
    values: &mut Vec<Option<bool>>,
    truths: &mut Vec<bool>,
    entries: &mut Vec<Entry>,
    keep: usize,
)
    requires marked { Marked values.old.items entries.old.items }
    requires truths { Truths (length values.old.items) truths.old.items (lits_of entries.old.items) }
    ensures marked { Marked values.new.items entries.new.items }
    ensures truths { Truths (length values.new.items) truths.new.items (lits_of entries.new.items) }
    ensures room { length values.new.items ≡ length values.old.items }
    ensures kept { entries.new.items ≡ take keep entries.old.items }
    ensures capacity { vec_capacity entries.new ≡ vec_capacity entries.old }
{
    while entries.len() > keep {
        if let Some(e) = entries.pop() {
            values[e.lit.var] = None;
            truths[code_of(e.lit)] = false;
        }
    }
}

// Takes the numbers from `limit` on out of a rising list, and answers the first of them.
fn cut_starts(starts: &mut Vec<usize>, limit: usize) -> Option<usize>
    requires { AllPairs (λ s t. s < t) starts.old.items }
    ensures kept { starts.new.items ≡ starts_below limit starts.old.items }
    ensures first { result ≡ slice_get (starts_from limit starts.old.items) 0 }
    ensures capacity { vec_capacity starts.new ≡ vec_capacity starts.old }
{
    let mut first = None;
    while let Some(&last) = starts.last() {
        if last < limit {
            return first;
        }
        starts.pop();
        first = Some(last);
    }
    first
}
