//! The public call.

ghost use Rattle.std.specs.Prelude.{◌≡◌, ◌<◌, IfOk, List};
ghost use Rattle.refutation_checker.specs.declared.log.Step.{Step};
ghost use Rattle.refutation_checker.specs.Follows.{IsUnsatisfiable};
ghost use Rattle.cdcl_solver.specs.Answers.{IsAnswer, clauses_with};

use crate::answer::Answer;
use crate::model::assignment_of;
use crate::solver::{End, Solver, run};
use sat_formula::{Formula, Lit};
use std::alloc::{AllocError, Global};

/// Looks for an assignment that satisfies `formula` and makes `assume` true.
///
/// `Sat` has one, with a value for each variable of the formula. `Unsat` has a log that refutes
/// `formula.with_unit(assume)`. With a budget of n, no log has more than n steps besides the empty
/// clause, and `Spent` comes only then: its log has exactly n steps, none of them empty, and each
/// follows. No step but the empty clause contains, as a set, a clause of the formula with its unit
/// or of an earlier step.
pub fn solve(
    alloc: Global,
    formula: &Formula,
    assume: Lit,
    budget: Option<u64>,
) -> Result<Answer, AllocError>
    requires { assume.var < formula.now.vars }
    ensures answer { IfOk result (λ a. IsAnswer formula.now assume budget a) }
    ensures refuted { IfOk result (λ a. (log : List Step) → a ≡ Answer.Unsat log →
        IsUnsatisfiable (clauses_with formula.now assume)) }
{
    let mut solver = Solver::new(alloc, formula, assume)?;
    match run(alloc, &mut solver, budget)? {
        End::Satisfied => Ok(Answer::Sat(assignment_of(alloc, &solver.search)?)),
        End::Refuted => Ok(Answer::Unsat(solver.into_log())),
        End::Spent => Ok(Answer::Spent(solver.into_log())),
    }
}
