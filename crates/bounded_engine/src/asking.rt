// One question after another, each with a section of the certificate.
ghost use Rattle.std.specs.Prelude.{◌≡◌, ◌<◌, [], IfOk, false};
ghost use Rattle.bounded_engine.specs.Sections.{IsWithin, conflicts_in, name_of};
ghost use Rattle.bounded_engine.specs.inner.Asking.{IsReply, left_after};

use cdcl_solver::{Answer, solve};
use refutation_checker::{Log, QueryName, Section, Step};
use sat_formula::{Assignment, Cnf, Formula, Lit};
use std::alloc::{AllocError, Global};
use tla_meaning::Query;

/// A question of a level.
#[derive(Clone, Copy, Drop)]
pub(crate) struct Question {
    pub level: u32,
    pub query: Query,
}

/// What the solver answers to a question.
#[derive(Drop)]
pub(crate) enum Reply {
    /// It does not hold, and the journal has a section that refutes it.
    Refuted,
    /// It holds by this assignment.
    Holds(Assignment),
    /// No conflict is left, and the journal has an open section.
    Spent,
}

/// The sections so far, the budget of conflicts, and what is left of it.
#[derive(Drop)]
pub(crate) struct Journal {
    pub sections: Vec<Section>,
    pub budget: Option<u64>,
    pub left: Option<u64>,
}

impl Journal {
    /// A journal without sections.
    pub fn new(alloc: Global, budget: Option<u64>) -> Journal
        ensures sections { result.sections.items ≡ [] }
        ensures budget { result.budget ≡ budget }
        ensures left { result.left ≡ budget }
    {
        Journal {
            sections: Vec::new(alloc),
            budget,
            left: budget,
        }
    }

    /// Asks whether the formula can be satisfied with the question's literal.
    pub fn ask(
        &mut self,
        alloc: Global,
        formula: &Formula,
        question: Question,
        literal: Lit,
    ) -> Result<Reply, AllocError>
        requires { literal.var < formula.now.vars }
        ensures { IfOk result (IsReply formula.now question literal self.old self.new) }
    {
        match solve(alloc, formula, literal, self.left)? {
            Answer::Sat(assignment) => Ok(Reply::Holds(assignment)),
            Answer::Unsat(log) => {
                let asked = formula.with_unit(alloc, literal)?;
                self.left = left_after(self.left, &log);
                self.sections.push(section(question, asked, log, false))?;
                Ok(Reply::Refuted)
            }
            Answer::Spent(log) => {
                let asked = formula.with_unit(alloc, literal)?;
                self.sections.push(section(question, asked, log, true))?;
                Ok(Reply::Spent)
            }
        }
    }
}

// The section of a question.
fn section(question: Question, formula: Cnf, log: Log, is_open: bool) -> Section
    ensures { result ≡ record {
      level = question.level;
      typed = false;
      query = name_of question.query;
      formula = formula;
      log = log;
      is_open = is_open;
    } }
{
    Section {
        level: question.level,
        typed: false,
        query: name_of(question.query),
        formula,
        log,
        is_open,
    }
}

// The name of a question in certificates.
fn name_of(query: Query) -> QueryName
    ensures { result ≡ name_of query }
{
    match query {
        Query::StepWrong => QueryName::StepWrong,
        Query::StepBig => QueryName::StepBig,
        Query::InvNotTrue => QueryName::InvNotTrue,
        Query::InvBig => QueryName::InvBig,
        Query::AssumeBig => QueryName::AssumeBig,
    }
}

// What is left behind a log.
fn left_after(left: Option<u64>, log: &Log) -> Option<u64>
    requires { IsWithin left (conflicts_in log.now) }
    ensures { result ≡ left_after left (conflicts_in log.now) }
{
    match left {
        None => None,
        Some(left) => Some(left - conflicts_in(log.as_slice())),
    }
}

// How many of the steps are not the empty clause.
fn conflicts_in(log: &[Step]) -> u64
    ensures { result ≡ conflicts_in log.now }
{
    let mut count = 0;
    for step in log {
        if !step.lits.lits().is_empty() {
            count += 1;
        }
    }
    count
}
