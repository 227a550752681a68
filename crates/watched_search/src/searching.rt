//! The search: clauses, what is true, and unit propagation.

ghost use Rattle.std.specs.Prelude.{◌≡◌, ◌<◌, ◌≤◌, ◌++◌, ◌∷◌, [], length, map, take, All, IfOk, OnOk, OnErr, None};
ghost use Rattle.sat_formula.specs.Lit.{IsBelow};
ghost use Rattle.sat_formula.specs.Clause.{NamesBelow};
ghost use Rattle.refutation_checker.specs.Marks.{TellsValue};
ghost use Rattle.watched_search.specs.Codes.{literal};
ghost use Rattle.watched_search.specs.Trail.{lits_of, IsFree, IsPlaceOf, AreEntries};
ghost use Rattle.watched_search.specs.Searching.{clause_at, lit_at, Propagates, IsBegun};
ghost use Rattle.watched_search.specs.Watching.{IsWatched};

use crate::entry::Entry;
use crate::levels::{decide, retreat};
use crate::pairing::WatchedClauses;
use crate::propagation::{Progress, propagate_all};
use crate::trail::Trail;
use sat_formula::{Clause, Formula, Lit};
use std::alloc::{AllocError, Global};
use std::marker::Model;

/// A search for a model: clauses over variables below a fixed number, the literals that are true in
/// the order in which they became so, and what the clauses force under these. Contracts see that, and
/// for each code of a literal the list of the clauses that it watches. All calls but `new` and
/// `learn` take no memory.
#[derive(Drop)]
pub struct Search {
    watched: WatchedClauses,
    trail: Trail,
    progress: Progress,
}

impl Model for Search {
    ghost use Rattle.std.specs.Prelude.{◌≡◌};
    ghost use Rattle.watched_search.specs.Searching.{SearchView};

    ghost Value = { SearchView };

    ghost use Rattle.watched_search.specs.inner.Keeping.{IsKept};

    ghost view = { λ s. record {
      vars = s.watched.vars;
      clauses = s.watched.clauses;
      entries = s.trail.entries;
      chains = s.watched.chains;
    } };

    ghost invariant = { λ s. IsKept s.watched s.trail s.progress × (s.watched.vars ≡ s.trail.room) };
}

impl Search {
    /// The formula's clauses, where nothing is true yet. 2^31 variables, or 2^32 literals in all
    /// clauses, are want of memory.
    pub fn new(alloc: Global, formula: &Formula) -> Result<Search, AllocError>
        ensures { IfOk result (λ s. IsBegun formula.now s) }
    {
        let vars = formula.vars();
        let trail = Trail::new(alloc, vars)?;
        let watched = watch_all(alloc, vars, formula.clauses().clauses())?;
        Ok(Search {
            watched,
            trail,
            progress: Progress { head: 0, ready: 0 },
        })
    }

    /// The number that all variables are below.
    pub fn vars(&self) -> usize
        ensures { result ≡ self.now.vars }
    {
        let _ = &self.trail;
        self.watched.vars()
    }

    /// How many clauses there are, those that were learned among them.
    pub fn count(&self) -> usize
        ensures same { result ≡ length self.now.clauses }
        ensures watched { IsWatched self.now }
    {
        let _ = &self.trail;
        self.watched.count()
    }

    /// How many literals the clause has, each as often as it is named.
    pub fn size(&self, c: usize) -> usize
        requires { c < length self.now.clauses }
        ensures { result ≡ length (clause_at self.now.clauses c) }
    {
        let _ = &self.trail;
        self.watched.size(c)
    }

    /// The clause's literal at this place.
    pub fn lit(&self, c: usize, k: usize) -> Lit
        requires clause { c < length self.now.clauses }
        requires place { k < length (clause_at self.now.clauses c) }
        ensures same { result ≡ lit_at (clause_at self.now.clauses c) k }
        ensures below { result.var < self.now.vars }
    {
        let _ = &self.trail;
        self.watched.lit(c, k)
    }

    /// The codes of the clause's literals, which are read faster than the literals.
    pub fn codes(&self, c: usize) -> &[u32]
        requires { c < length self.now.clauses }
        ensures same { map (λ n. literal n) result.now ≡ clause_at self.now.clauses c }
        ensures below { All (IsBelow self.now.vars) (clause_at self.now.clauses c) }
    {
        let _ = &self.trail;
        self.watched.codes(c)
    }

    /// What is true and why, the oldest first.
    pub fn entries(&self) -> &[Entry]
        ensures same { result.now ≡ self.now.entries }
        ensures sound { AreEntries self.now.vars self.now.entries }
    {
        let _ = &self.watched;
        self.trail.entries()
    }

    /// Where the entry of this variable stands; `None` where it has no value.
    pub fn place(&self, v: usize) -> Option<usize>
        requires { v < self.now.vars }
        ensures { IsPlaceOf self.now.entries v result }
    {
        let _ = &self.watched;
        self.trail.place(v)
    }

    /// The value of a literal; `None` where its variable has none.
    pub fn value(&self, l: Lit) -> Option<bool>
        requires { l.var < self.now.vars }
        ensures { TellsValue (lits_of self.now.entries) l result }
    {
        let _ = &self.watched;
        self.trail.value(l)
    }

    /// Makes a literal true whose variable has no value. Nothing is propagated yet.
    pub fn push(&mut self, l: Lit)
        requires below { l.var < self.old.vars }
        requires free { IsFree (lits_of self.old.entries) l }
        ensures { self.new ≡ record self.old { entries = self.old.entries ++ record { lit = l; reason = None } ∷ [] } }
    {
        let _ = &self.watched;
        decide(&mut self.trail, self.progress.head, l);
    }

    /// Makes true what the clauses force, until one is false, whose number it answers, or each clause
    /// is true or has two different literals without a value. The cost goes by the clauses that are
    /// looked at, and not by the entries that were looked at before.
    pub fn propagate(&mut self) -> Option<usize>
        ensures { Propagates self.old self.new result }
    {
        propagate_all(&mut self.watched, &mut self.trail, &mut self.progress)
    }

    /// Takes back all but the first `keep` entries, with their values.
    pub fn back(&mut self, keep: usize)
        requires { keep ≤ length self.old.entries }
        ensures { self.new ≡ record self.old { entries = take keep self.old.entries } }
    {
        let _ = &self.watched;
        let progress = retreat(&mut self.trail, self.progress, keep);
        self.progress = progress;
    }

    /// Adds a clause at the end and answers its number, counted from 0. A refusal, which comes for want
    /// of memory or where all clauses have 2^32 literals, changes nothing. At first the clause is watched
    /// by its first literal and the first that differs from it, so it is best to name those first that
    /// will be taken back first.
    pub fn learn(&mut self, clause: &[Lit]) -> Result<usize, AllocError>
        requires { All (IsBelow self.old.vars) clause.now }
        ensures number { IfOk result (λ c. c ≡ length self.old.clauses) }
        ensures added { OnOk result (self.new ≡ record self.old { clauses = self.old.clauses ++ clause.now ∷ []; chains = self.new.chains }) }
        ensures err { OnErr result (self.new ≡ self.old) }
    {
        let _ = &self.trail;
        let c = self.watched.count();
        self.watched.add(clause)?;
        Ok(c)
    }
}

// The clauses with what watches them.
fn watch_all(alloc: Global, vars: usize, clauses: &[Clause]) -> Result<WatchedClauses, AllocError>
    requires { NamesBelow vars clauses.now }
    ensures vars { IfOk result (λ w. w.vars ≡ vars) }
    ensures clauses { IfOk result (λ w. w.clauses ≡ clauses.now) }
{
    let mut watched = WatchedClauses::new(alloc, vars)?;
    for clause in clauses {
        watched.add(clause.lits())?;
    }
    Ok(watched)
}
