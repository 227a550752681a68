//! The solver: it propagates, decides and learns.

ghost use Rattle.std.specs.Prelude.{◌≡◌, ℕ, ◌+◌, ◌^◌, ◌<◌, ◌≤◌, ◌↔◌, ◌++◌, ◌∷◌, [], IsTrue, length, IfOk, OnOk, All, MatchBool, Contains, take, List, Some, None};
ghost use Rattle.sat_formula.specs.Lit.{IsBelow};
ghost use Rattle.sat_formula.specs.Clause.{NamesBelow};
ghost use Rattle.refutation_checker.specs.Follows.{known, Follows};
ghost use Rattle.watched_search.specs.Trail.{lits_of};
ghost use Rattle.watched_search.specs.Searching.{IsOpen, IsFalseAt};
ghost use Rattle.cdcl_solver.specs.Answers.{clauses_with};
ghost use Rattle.cdcl_solver.specs.inner.Acceptance.{IsJump};
ghost use Rattle.cdcl_solver.specs.inner.Chain.{IsLastDecision, decisions};
ghost use Rattle.cdcl_solver.specs.inner.Deciding.{IsUndecided};
ghost use Rattle.cdcl_solver.specs.inner.Levels.{levels_from};
ghost use Rattle.cdcl_solver.specs.inner.Solving.{IsSolving, IsBegun, IsFound, IsSettled, IsDecided, IsLearned, IsRefuted, IsAdded, IsRetreated, IsUnspent, IsEnd, IsStepped};

use crate::acceptance::is_jump;
use crate::analysis::{Candidate, first_unique_point};
use crate::checking::follows;
use crate::deciding::Deciding;
use crate::learning::explained;
use crate::marks::Marks;
use crate::pace::Pace;
use refutation_checker::{Log, Step};
use sat_formula::{Clause, Clauses, Formula, Lit};
use std::alloc::{AllocError, Global};
use tla_values::List;
use watched_search::{Search, Trail};

/// The clauses and the steps that were derived from them, the search that holds them all, what is
/// decided next, where the decisions stand, an empty trail, on which a proposed step is tested, what
/// analyses keep, and when the search begins anew.
#[derive(Drop)]
pub struct Solver {
    pub clauses: Clauses,
    pub steps: Log,
    pub search: Search,
    pub deciding: Deciding,
    pub levels: Vec<usize>,
    pub checking: Trail,
    pub marks: Marks,
    pub pace: Pace,
}

/// Why a solver ended.
#[derive(Clone, Copy, Debug)]
pub enum End {
    Satisfied,
    Refuted,
    Spent,
}

/// What a step comes to: the end, or what propagation found behind it.
#[derive(Clone, Copy, Debug)]
pub enum Next {
    Ends(End),
    Goes(Option<usize>),
}

impl Solver {
    /// The formula's clauses with that of the one literal, where nothing is true yet.
    pub fn new(alloc: Global, formula: &Formula, assume: Lit) -> Result<Solver, AllocError>
        requires { assume.var < formula.now.vars }
        ensures { IfOk result (λ s.
            IsBegun (record formula.now { clauses = clauses_with formula.now assume }) s) }
    {
        let cnf = formula.with_unit(alloc, assume)?;
        let vars = cnf.vars;
        let unit = Vec::from_slice(alloc, &[assume])?;
        let mut search = Search::new(alloc, formula)?;
        search.learn(unit.as_slice())?;
        let deciding = Deciding::new(alloc, &cnf.clauses, vars)?;
        let checking = Trail::new(alloc, vars)?;
        let marks = Marks::new(alloc, vars)?;
        Ok(Solver {
            clauses: cnf.clauses,
            steps: List::new(alloc),
            search,
            deciding,
            levels: Vec::new(alloc),
            checking,
            marks,
            pace: Pace::new(),
        })
    }

    // How many clauses a hint can name.
    fn count(&self) -> usize
        ensures count { result ≡ length (known self.now.clauses self.now.steps) }
        ensures small { result + 1 < 2 ^ 64 }
    {
        self.clauses.clauses().len() + self.steps.as_slice().len()
    }

    /// The steps, which takes no memory.
    pub fn into_log(self) -> Log
        ensures { result ≡ self.steps }
    {
        let Solver { steps, .. } = self;
        steps
    }
}

/// Searches until each variable has a value, the empty clause is derived or the budget is spent.
pub fn run(alloc: Global, solver: &mut Solver, budget: Option<u64>) -> Result<End, AllocError>
    requires solving { IsSolving solver.old }
    requires empty { solver.old.steps ≡ [] }
    ensures end { IfOk result (λ e. IsEnd budget solver.old solver.new e) }
{
    let mut found = settle(solver);
    'search: loop {
        match step(alloc, solver, budget, found)? {
            Next::Ends(end) => return Ok(end),
            Next::Goes(next) => found = next,
        }
    }
}

// Makes true what the clauses force, and answers the number of a clause that is false, if one is.
fn settle(solver: &mut Solver) -> Option<usize>
    requires { IsSolving solver.old }
    ensures { IsSettled solver.old solver.new result }
{
    let found = solver.search.propagate();
    let _ = solver.search.entries();
    found
}

// Learns from the clause that is false, or decides where none is, and propagates.
fn step(
    alloc: Global,
    solver: &mut Solver,
    budget: Option<u64>,
    found: Option<usize>,
) -> Result<Next, AllocError>
    requires solving { IsSolving solver.old }
    requires found { IsFound solver.old.search found }
    requires unspent { IsUnspent budget solver.old.steps }
    ensures { IfOk result (λ n. IsStepped budget solver.old solver.new n) }
{
    match found {
        Some(conflict) => resolve(alloc, solver, budget, conflict),
        None => proceed(solver),
    }
}

// Decides the next variable, unless each one has a value.
fn proceed(solver: &mut Solver) -> Result<Next, AllocError>
    requires solving { IsSolving solver.old }
    requires found { IsFound solver.old.search None }
    ensures { IfOk result (λ n. (budget : _) → IsUnspent budget solver.old.steps →
        IsStepped budget solver.old solver.new n) }
{
    let Some(l) = solver.deciding.next(&solver.search) else {
        return Ok(Next::Ends(End::Satisfied));
    };
    decide(solver, l)?;
    Ok(Next::Goes(settle(solver)))
}

// Derives a step from a conflict, unless the budget is spent, and propagates behind it.
fn resolve(
    alloc: Global,
    solver: &mut Solver,
    budget: Option<u64>,
    conflict: usize,
) -> Result<Next, AllocError>
    requires solving { IsSolving solver.old }
    requires conflict { IsFound solver.old.search (Some conflict) }
    requires unspent { IsUnspent budget solver.old.steps }
    ensures { IfOk result (λ n. IsStepped budget solver.old solver.new n) }
{
    if solver.levels.is_empty() {
        refute(alloc, solver, conflict)?;
        return Ok(Next::Ends(End::Refuted));
    }
    if is_spent(budget, solver.steps.len()) {
        return Ok(Next::Ends(End::Spent));
    }
    learn(alloc, solver, conflict)?;
    Ok(Next::Goes(settle(solver)))
}

fn is_spent(budget: Option<u64>, count: usize) -> bool
    ensures { IsTrue result ↔ (budget ≡ Some count) }
{
    match budget {
        Some(n) => n == count as u64,
        None => false,
    }
}

// Decides a literal of a variable without a value, where no clause forces more.
fn decide(solver: &mut Solver, l: Lit) -> Result<(), AllocError>
    requires solving { IsSolving solver.old }
    requires opened { All (IsOpen (lits_of solver.old.search.entries)) solver.old.search.clauses }
    requires undecided { IsUndecided solver.old.search.vars solver.old.search.entries l.var }
    ensures { OnOk result (IsDecided solver.old solver.new) }
{
    let place = solver.search.entries().len();
    solver.levels.push(place)?;
    solver.search.push(l);
    Ok(())
}

// Adds the empty clause, where no decision is left.
fn refute(alloc: Global, solver: &mut Solver, conflict: usize) -> Result<(), AllocError>
    requires solving { IsSolving solver.old }
    requires conflict { IsFound solver.old.search (Some conflict) }
    requires none { solver.old.levels.items ≡ [] }
    ensures { OnOk result (IsRefuted solver.old solver.new) }
{
    let step = explained(alloc, solver.count(), solver.search.entries(), conflict)?;
    solver.steps.push(step)?;
    Ok(())
}

// Learns by the first unique point, or else the negated decisions.
fn learn(alloc: Global, solver: &mut Solver, conflict: usize) -> Result<(), AllocError>
    requires solving { IsSolving solver.old }
    requires conflict { IsFound solver.old.search (Some conflict) }
    requires some { solver.old.levels.items ≡ [] → ⊥ }
    ensures { OnOk result (IsLearned solver.old solver.new) }
{
    let jumped = jump(alloc, solver, conflict)?;
    if jumped {
        return Ok(());
    }
    learn_decisions(alloc, solver, conflict)?;
    Ok(())
}

// Learns by the first unique point and jumps back, or leaves all but the marks as it is where the
// tests refuse the clause.
fn jump(alloc: Global, solver: &mut Solver, conflict: usize) -> Result<bool, AllocError>
    requires { IsSolving solver.old }
    ensures { IfOk result (λ b. MatchBool b (IsLearned solver.old solver.new)
        (solver.new ≡ record solver.old { marks = solver.new.marks })) }
{
    let Some(candidate) = propose(alloc, solver, conflict)? else {
        return Ok(false);
    };
    if !is_jump(&candidate, &solver.search, &solver.levels) {
        return Ok(false);
    }
    let Candidate {
        lits,
        hints,
        level,
        spread,
        ..
    } = candidate;
    let step = Step {
        id: solver.count() as u64 + 1,
        lits: Clause::from_vec(lits),
        hints: List::from_vec(hints),
    };
    if !follows(&solver.search, &step, &mut solver.checking) {
        return Ok(false);
    }
    let arrived = solver.deciding.has_arrived();
    let back = solver.pace.level_after(spread, level, arrived);
    add_step(alloc, solver, step, back)?;
    Ok(true)
}

// A clause to learn, of which nothing is known.
fn propose(
    alloc: Global,
    solver: &mut Solver,
    conflict: usize,
) -> Result<Option<Candidate>, AllocError>
    ensures { OnOk result (solver.new ≡ record solver.old { marks = solver.new.marks }) }
{
    solver.marks.cut(0);
    let proposed = first_unique_point(
        alloc,
        &solver.search,
        &solver.levels,
        &mut solver.marks,
        conflict,
    )?;
    Ok(proposed)
}

// Adds the negated decisions as a clause, and goes back before the last decision.
fn learn_decisions(alloc: Global, solver: &mut Solver, conflict: usize) -> Result<(), AllocError>
    requires solving { IsSolving solver.old }
    requires conflict { IsFound solver.old.search (Some conflict) }
    requires some { solver.old.levels.items ≡ [] → ⊥ }
    ensures { OnOk result (IsLearned solver.old solver.new) }
{
    let level = solver.levels.len() - 1;
    let step = explained(alloc, solver.count(), solver.search.entries(), conflict)?;
    add_step(alloc, solver, step, level)?;
    Ok(())
}

// Adds the step, and goes back before the decision of the level.
fn add_step(alloc: Global, solver: &mut Solver, step: Step, level: usize) -> Result<(), AllocError>
    requires solving { IsSolving solver.old }
    requires names { All (IsBelow solver.old.search.vars) step.lits }
    requires level { level < length solver.old.levels.items }
    ensures { OnOk result (IsAdded solver.old step level solver.new) }
{
    retreat(solver, level);
    solver.deciding.raise(solver.marks.causes());
    solver.deciding.walk(alloc, &solver.clauses)?;
    solver.search.learn(step.lits.lits())?;
    solver.steps.push(step)?;
    Ok(())
}

// Goes back before the decision of the level.
fn retreat(solver: &mut Solver, level: usize)
    requires solving { IsSolving solver.old }
    requires level { level < length solver.old.levels.items }
    ensures { IsRetreated solver.old level solver.new }
{
    let keep = solver.levels[level];
    solver.deciding.give_back(solver.search.entries(), keep);
    solver.search.back(keep);
    solver.levels.truncate(level);
}
