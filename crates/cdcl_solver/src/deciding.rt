//! Which variable is decided next, and which value is tried first.

ghost use Rattle.std.specs.Prelude.{◌<◌, IfSome, MatchOption};
ghost use Rattle.cdcl_solver.specs.inner.Deciding.{AreDecided, IsUndecided};

use crate::heap::Heap;
use crate::phases::first_phases;
use crate::scores::Scores;
use crate::walking::Walk;
use sat_formula::{Clauses, Lit};
use std::alloc::{AllocError, Global};
use watched_search::{Entry, Search};

/// The variables that may be without a value, those that conflicts came from of late first. Each
/// variable keeps its last value, until a walk beside the search has found one for all of them. (Eén
/// and Sörensson, "An Extensible SAT-solver", 2003, on the order; Pipatsrisawat and Darwiche, "A
/// Lightweight Component Caching Scheme for Satisfiability Solvers", 2007, on values; Selman, Kautz
/// and Cohen, "Noise Strategies for Improving Local Search", 1994, on walks.)
#[derive(Drop)]
pub struct Deciding {
    heap: Heap,
    scores: Scores,
    // Whether each variable was false when it had a value last, or is to be false at first.
    phases: Vec<bool>,
    // Looks for values beside the search, once it had some conflicts.
    walk: Option<Walk>,
    conflicts: u64,
}

// The walk begins behind so many conflicts, and then goes on behind each so many.
const WALK_FROM: u64 = 128;

const WALK_EVERY: u64 = 64;

impl Deciding {
    /// All variables below `vars` wait for a decision.
    pub fn new(alloc: Global, clauses: &Clauses, vars: usize) -> Result<Deciding, AllocError> {
        let heap = Heap::new(alloc, vars)?;
        let scores = Scores::new(alloc, vars)?;
        let phases = first_phases(alloc, clauses.clauses(), vars)?;
        Ok(Deciding {
            heap,
            scores,
            phases,
            walk: None,
            conflicts: 0,
        })
    }

    /// The literal to decide: a variable without a value, with its last one or that of the walk.
    pub fn next(&mut self, search: &Search) -> Option<Lit>
        ensures { MatchOption result (AreDecided search.now.entries search.now.vars)
            (λ l. IsUndecided search.now.vars search.now.entries l.var) }
    {
        let var = match self.proposed(search) {
            Some(v) => v,
            None => first_undecided(search)?,
        };
        Some(Lit {
            var,
            neg: self.phase(var),
        })
    }

    /// Lets what the entries from `keep` on decided be decided again, and keeps their values.
    pub fn give_back(&mut self, entries: &[Entry], keep: usize) {
        for e in entries.iter().skip(keep) {
            if e.lit.var < self.phases.len() {
                self.phases[e.lit.var] = e.lit.neg;
            }
            self.heap.insert(&self.scores, e.lit.var);
        }
    }

    /// Lets what a conflict came from be decided earlier.
    pub fn raise(&mut self, seen: &[usize]) {
        for v in seen {
            self.scores.raise(*v);
            self.heap.lift(&self.scores, *v);
        }
        self.scores.age();
    }

    /// Notes a conflict, behind which the walk goes on for a little, by the clauses that the search
    /// began with.
    pub fn walk(&mut self, alloc: Global, clauses: &Clauses) -> Result<(), AllocError> {
        self.conflicts = self.conflicts.saturating_add(1);
        if self.conflicts < WALK_FROM || self.conflicts % WALK_EVERY != 0 {
            return Ok(());
        }
        if self.walk.is_none() {
            self.walk = Some(Walk::new(alloc, clauses.clauses(), self.phases.len())?);
        }
        if let Some(walk) = &mut self.walk {
            walk.go_on(visits_behind(self.conflicts));
        }
        Ok(())
    }

    /// Whether the walk has come to values by which all these clauses are true. They are decided from
    /// then on.
    pub fn has_arrived(&self) -> bool {
        let _ = &self.heap;
        match &self.walk {
            Some(walk) => walk.is_done(),
            None => false,
        }
    }

    // The first variable without a value that the heap gives, which it then has no more.
    fn proposed(&mut self, search: &Search) -> Option<usize>
        ensures { IfSome result (λ v. IsUndecided search.now.vars search.now.entries v) }
    {
        for _ in 0..search.vars() {
            let v = self.heap.pop(&self.scores)?;
            if v < search.vars() && search.place(v).is_none() {
                return Some(v);
            }
        }
        None
    }

    // Whether the variable is to be false.
    fn phase(&self, v: usize) -> bool {
        match &self.walk {
            Some(walk) if walk.is_done() => walk.is_false(v),
            _ => v < self.phases.len() && self.phases[v],
        }
    }
}

// How many clauses the walk visits behind so many conflicts. Each costs more than the one before it, so
// that the walk's part of the time stays about the same, a twentieth.
fn visits_behind(conflicts: u64) -> usize {
    WALK_EVERY.saturating_mul(80 + conflicts / 256) as usize
}

// The first variable without a value. The search asks it once the heap is empty, mostly at its end.
fn first_undecided(search: &Search) -> Option<usize>
    ensures { MatchOption result (AreDecided search.now.entries search.now.vars)
        (λ v. IsUndecided search.now.vars search.now.entries v) }
{
    for v in 0..search.vars() {
        if search.place(v).is_none() {
            return Some(v);
        }
    }
    None
}
