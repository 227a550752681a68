//! The public call.

ghost use Rattle.std.specs.Prelude.{◌≡◌, ◌<◌, IfOk, List};
ghost use Rattle.refutation_checker.specs.declared.log.Step.{Step};
ghost use Rattle.refutation_checker.specs.Follows.{IsUnsatisfiable};
ghost use Rattle.cdcl_solver.specs.Answers.{IsAnswer, clauses_with};

use crate::model::assignment_of;
use crate::searching::{End, Search, run};
use cdcl_solver::Answer;
use sat_formula::{Formula, Lit};
use std::alloc::{AllocError, Global};

/// Looks for an assignment that satisfies `formula` and makes `assume` true, as `cdcl_solver` does.
pub fn solve(
    alloc: Global,
    formula: &Formula,
    assume: Lit,
    budget: Option<u64>,
) -> Result<Answer, AllocError>
    requires { assume.var < formula.now.vars }
    ensures answer { IfOk result (λ a. IsAnswer formula.now assume budget a) }
    ensures refuted { IfOk result (λ a. (log : List Step) → a ≡ Answer.Unsat log →
        IsUnsatisfiable (clauses_with formula.now assume)) }
{
    let cnf = formula.with_unit(alloc, assume)?;
    let mut search = Search::new(alloc, cnf)?;
    match run(alloc, &mut search, budget)? {
        End::Satisfied => Ok(Answer::Sat(assignment_of(alloc, &search.trail)?)),
        End::Refuted => Ok(Answer::Unsat(search.into_log())),
        End::Spent => Ok(Answer::Spent(search.into_log())),
    }
}
