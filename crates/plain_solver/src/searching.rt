//! The search: it propagates, decides and learns.

ghost use Rattle.std.specs.Prelude.{◌≡◌, ℕ, ◌+◌, ◌-◌, ◌^◌, ◌<◌, ◌≤◌, ◌↔◌, ◌++◌, ◌∷◌, [], IsTrue, length, map, drop, take, OnErr, IfOk, OnOk, All, MatchBool, true, slice_index_or, List, Option, Some, None};
ghost use Rattle.sat_formula.specs.Lit.{IsBelow};
ghost use Rattle.sat_formula.specs.Clause.{NamesBelow};
ghost use Rattle.refutation_checker.specs.Follows.{known};
ghost use Rattle.watched_search.specs.Trail.{IsFree, lits_of};
ghost use Rattle.cdcl_solver.specs.inner.Chain.{Quiet};
ghost use Rattle.plain_solver.specs.inner.Trail.{IsLastOf};
ghost use Rattle.plain_solver.specs.inner.Occurrences.{IsIndex};
ghost use Rattle.plain_solver.specs.inner.Search.{IsSearching, IsReady, Meets, IsEnd, IsBegun, IsOpened, IsSettled, IsDecided, IsUnspent, IsResolved, Advances, IsRefuted, IsStepped};

use crate::learning::{explained, last_decision};
use crate::model::first_free;
use crate::occurrences::Occurrences;
use crate::propagation::{look_at_all, propagate};
use refutation_checker::{Log, Step};
use sat_formula::{Clause, Clauses, Cnf, Lit};
use std::alloc::{AllocError, Global};
use tla_values::List;
use watched_search::{Entry, Trail};

/// The clauses, the steps that were derived from them, what is true, and which clauses name a literal.
/// What the entries of the trail before `head` make of the clauses is known.
#[derive(Drop)]
pub struct Search {
    pub clauses: Clauses,
    pub steps: Log,
    pub trail: Trail,
    pub head: usize,
    pub occurrences: Occurrences,
}

/// Why a search ended.
#[derive(Clone, Copy, Debug)]
pub enum End {
    Satisfied,
    Refuted,
    Spent,
}

impl Search {
    /// A search in which nothing is true yet.
    pub fn new(alloc: Global, formula: Cnf) -> Result<Search, AllocError>
        requires { NamesBelow formula.vars formula.clauses }
        ensures { IfOk result (λ s. IsBegun formula s) }
    {
        let trail = Trail::new(alloc, formula.vars)?;
        let occurrences = indexed(alloc, formula.vars, formula.clauses.clauses())?;
        Ok(Search {
            clauses: formula.clauses,
            steps: List::new(alloc),
            trail,
            head: 0,
            occurrences,
        })
    }

    // How many clauses a hint can name.
    fn count(&self) -> usize
        ensures count { result ≡ length (known self.now.clauses self.now.steps) }
        ensures small { result + 1 < 2 ^ 64 }
    {
        self.clauses.clauses().len() + self.steps.as_slice().len()
    }

    /// The steps, which takes no memory.
    pub fn into_log(self) -> Log
        ensures { result ≡ self.steps }
    {
        let Search { steps, .. } = self;
        steps
    }
}

// The index of these clauses.
fn indexed(alloc: Global, room: usize, clauses: &[Clause]) -> Result<Occurrences, AllocError>
    requires { NamesBelow room clauses.now }
    ensures { IfOk result (λ t. IsIndex room t clauses.now) }
{
    let mut occurrences = Occurrences::new(alloc, room)?;
    for (k, clause) in clauses.iter().enumerate() {
        occurrences.add(clause.lits(), k)?;
    }
    Ok(occurrences)
}

/// Searches until each variable has a value, the empty clause is derived or the budget is spent.
pub fn run(alloc: Global, search: &mut Search, budget: Option<u64>) -> Result<End, AllocError>
    requires searching { IsSearching search.old }
    requires empty { search.old.steps ≡ [] }
    requires head { search.old.head ≡ 0 }
    ensures end { IfOk result (λ e. IsEnd budget search.old search.new e) }
{
    if let Some(conflict) = begin(search) {
        if let Some(end) = resolve(alloc, search, budget, conflict)? {
            return Ok(end);
        }
    }
    'search: loop {
        if let Some(conflict) = settle(search) {
            if let Some(end) = resolve(alloc, search, budget, conflict)? {
                return Ok(end);
            }
        } else {
            let Some(var) = first_free(&search.trail) else {
                return Ok(End::Satisfied);
            };
            decide(search, var);
        }
    }
}

// Looks at each clause once, since some force a literal before any is true.
fn begin(search: &mut Search) -> Option<usize>
    requires searching { IsSearching search.old }
    requires head { search.old.head ≡ 0 }
    ensures { IsOpened search.old search.new result }
{
    look_at_all(
        search.clauses.clauses(),
        search.steps.as_slice(),
        &mut search.trail,
    )
}

// Derives a step from a conflict, unless the budget is spent, and goes on behind it.
fn resolve(
    alloc: Global,
    search: &mut Search,
    budget: Option<u64>,
    conflict: usize,
) -> Result<Option<End>, AllocError>
    requires searching { IsSearching search.old }
    requires unspent { IsUnspent budget search.old.steps }
    requires conflict { Meets search.old conflict }
    ensures { IfOk result (λ o. IsResolved budget search.old search.new o) }
{
    let Some(last) = last_decision(search.trail.entries()) else {
        refute(alloc, search, conflict)?;
        return Ok(Some(End::Refuted));
    };
    if is_spent(budget, search.steps.len()) {
        return Ok(Some(End::Spent));
    }
    learn_decisions(alloc, search, conflict, last)?;
    Ok(None)
}

fn is_spent(budget: Option<u64>, count: usize) -> bool
    ensures { IsTrue result ↔ (budget ≡ Some count) }
{
    match budget {
        Some(n) => n == count as u64,
        None => false,
    }
}

// Makes true what the clauses force, and answers the number of a clause that is false, if one is.
fn settle(search: &mut Search) -> Option<usize>
    requires searching { IsSearching search.old }
    requires ready { IsReady search.old }
    ensures { IsSettled search.old search.new result }
{
    propagate(
        search.clauses.clauses(),
        search.steps.as_slice(),
        &search.occurrences,
        search.head,
        &mut search.trail,
    )
}

// Tries false for a variable, where no clause forces more.
fn decide(search: &mut Search, var: usize)
    requires searching { IsSearching search.old }
    requires quiet { All (Quiet (lits_of search.old.trail.entries)) (known search.old.clauses search.old.steps) }
    requires below { var < search.old.trail.room }
    requires free { IsFree (lits_of search.old.trail.entries) (record { var = var; neg = true }) }
    ensures { IsDecided search.old search.new }
{
    search.head = search.trail.entries().len();
    search.trail.push(Entry {
        lit: Lit { var, neg: true },
        reason: None,
    });
    let _ = search.trail.entries();
}

// Adds the empty clause, where no decision is left.
fn refute(alloc: Global, search: &mut Search, conflict: usize) -> Result<(), AllocError>
    requires searching { IsSearching search.old }
    requires conflict { Meets search.old conflict }
    requires none { IsLastOf search.old.trail.entries None }
    ensures { OnOk result (IsRefuted search.old search.new) }
{
    let step = explained(alloc, search.count(), search.trail.entries(), conflict)?;
    search.steps.push(step)?;
    Ok(())
}

// Adds the negated decisions as a clause, goes back before the last decision and makes it false.
fn learn_decisions(
    alloc: Global,
    search: &mut Search,
    conflict: usize,
    last: usize,
) -> Result<(), AllocError>
    requires searching { IsSearching search.old }
    requires conflict { Meets search.old conflict }
    requires last { IsLastOf search.old.trail.entries (Some last) }
    ensures { OnOk result (Advances search.old search.new) }
{
    let entries = search.trail.entries();
    let decided = entries[last].lit;
    let step = explained(alloc, search.count(), entries, conflict)?;
    add_step(search, step, decided.negated(), last)?;
    Ok(())
}

// Adds the step, goes back to the first `at` entries and makes the literal true by it.
fn add_step(search: &mut Search, step: Step, forced: Lit, at: usize) -> Result<(), AllocError>
    requires searching { IsSearching search.old }
    requires names { All (IsBelow search.old.trail.room) step.lits }
    requires below { forced.var < search.old.trail.room }
    requires free { IsFree (lits_of (take at search.old.trail.entries)) forced }
    ensures { OnOk result (IsStepped search.old step forced at search.new) }
{
    let place = search.count();
    search.occurrences.add(step.lits.lits(), place)?;
    search.steps.push(step)?;
    search.head = at;
    let _ = search.trail.back(at);
    search.trail.push(Entry {
        lit: forced,
        reason: Some(place),
    });
    Ok(())
}
