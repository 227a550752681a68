// The questions of one level.
ghost use Rattle.std.specs.Prelude.{◌≡◌, ◌∷◌, ◌+◌, ◌++◌, ◌<◌, [], IfOk, Some, unwrap_or};
ghost use Rattle.step_encoder.specs.Encoders.{IsOfLevels};
ghost use Rattle.trace_text.specs.declared.verdict.Verdict.TheVariants.{Spent};
ghost use Rattle.trace_text.specs.declared.verdict.Where.TheVariants.{Level as at_level};
ghost use Rattle.bounded_engine.specs.Sections.{asked_below, asked_until};
ghost use Rattle.bounded_engine.specs.inner.Asking.{HasRefuted};
ghost use Rattle.bounded_engine.specs.inner.Finding.{HasLevel, IsAnswered, IsReady};

use crate::asking::{Journal, Question, Reply};
use crate::subject::Subject;
use crate::telling::tell;
use std::alloc::{AllocError, Global};
use step_encoder::Encoder;
use tla_meaning::Query;
use trace_text::{Verdict, Where};

/// Asks the questions of a level in order: a verdict, where one of them holds or the budget is
/// spent.
pub(crate) fn ask_level(
    alloc: Global,
    a: &Subject,
    encoder: &Encoder,
    level: u32,
    journal: &mut Journal,
) -> Result<Option<Verdict>, AllocError>
    requires ready { IsReady a.now × HasLevel a.now encoder.now level × (level < 4294967295) }
    requires refuted { HasRefuted (Some a.now.width) a.now.job.now journal.old.budget
        (asked_below level) journal.old }
    ensures { IfOk result (IsAnswered a.now journal.old.budget level (asked_below (level + 1))
        journal.new) }
{
    let queries = [
        Query::StepWrong,
        Query::StepBig,
        Query::InvNotTrue,
        Query::InvBig,
    ];
    for query in &queries {
        let question = Question {
            level,
            query: *query,
        };
        let found = ask(alloc, a, encoder, question, journal)?;
        if let Some(verdict) = found {
            return Ok(Some(verdict));
        }
    }
    Ok(None)
}

// Asks one question.
fn ask(
    alloc: Global,
    a: &Subject,
    encoder: &Encoder,
    question: Question,
    journal: &mut Journal,
) -> Result<Option<Verdict>, AllocError>
    requires ready { IsReady a.now × HasLevel a.now encoder.now question.level
        × (question.level < 4294967295) × IsOfLevels question.query }
    requires refuted { HasRefuted (Some a.now.width) a.now.job.now journal.old.budget
        (asked_until question.level question.query) journal.old }
    ensures { IfOk result (IsAnswered a.now journal.old.budget question.level
        (asked_until question.level question.query ++ (question.level, question.query) ∷ [])
        journal.new) }
{
    let literal = encoder.query(question.level, question.query);
    match journal.ask(alloc, &encoder.build.formula, question, literal)? {
        Reply::Refuted => Ok(None),
        Reply::Spent => Ok(Some(spent(journal, question.level))),
        Reply::Holds(assignment) => {
            let verdict = tell(alloc, a, encoder, question, &assignment)?;
            Ok(Some(verdict))
        }
    }
}

// The budget is spent at this level.
fn spent(journal: &Journal, level: u32) -> Verdict
    ensures { result ≡ Spent (unwrap_or journal.now.budget 0) (at_level level) }
{
    Verdict::Spent(journal.budget.unwrap_or(0), Where::Level(level))
}
