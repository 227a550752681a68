// What is told of a question that holds.
ghost use Rattle.std.specs.Prelude.{◌<◌, IfOk};
ghost use Rattle.step_encoder.specs.Encoders.{IsOfLevels};
ghost use Rattle.bounded_engine.specs.inner.Finding.{HasLevel, IsOfInvariants, IsOfSteps, IsReady};
ghost use Rattle.bounded_engine.specs.inner.Finding.{IsShownBy, IsTold};

use crate::asking::Question;
use crate::decoding::{decode_cells, decode_states};
use crate::subject::Subject;
use crate::verdicts::{tell_invariant, tell_step};
use sat_formula::Assignment;
use std::alloc::{AllocError, Global};
use step_encoder::Encoder;
use tla_meaning::Query;
use trace_text::Verdict;

/// The verdict where an assignment shows that the question holds.
pub(crate) fn tell(
    alloc: Global,
    a: &Subject,
    encoder: &Encoder,
    question: Question,
    assignment: &Assignment,
) -> Result<Verdict, AllocError>
    requires ready { IsReady a.now × HasLevel a.now encoder.now question.level
        × (question.level < 4294967295) × IsOfLevels question.query }
    requires shown { IsShownBy a.now encoder.now question.level question.query assignment.now }
    ensures { IfOk result (IsTold a.now question.level question.query) }
{
    match question.query {
        Query::StepWrong | Query::StepBig => of_step(alloc, a, encoder, question, assignment),
        Query::InvNotTrue | Query::InvBig => of_invariant(alloc, a, encoder, question, assignment),
        Query::AssumeBig => unreachable!(),
    }
}

// Of the start or a step.
fn of_step(
    alloc: Global,
    a: &Subject,
    encoder: &Encoder,
    question: Question,
    assignment: &Assignment,
) -> Result<Verdict, AllocError>
    requires ready { IsReady a.now × HasLevel a.now encoder.now question.level
        × IsOfSteps question.query }
    requires shown { IsShownBy a.now encoder.now question.level question.query assignment.now }
    ensures { IfOk result (IsTold a.now question.level question.query) }
{
    let states = decode_states(alloc, encoder, question.level, assignment)?;
    let cells = encoder.attempt(question.level);
    let attempt = decode_cells(alloc, encoder, cells, assignment)?;
    tell_step(alloc, a, question, states, attempt)
}

// Of the invariants.
fn of_invariant(
    alloc: Global,
    a: &Subject,
    encoder: &Encoder,
    question: Question,
    assignment: &Assignment,
) -> Result<Verdict, AllocError>
    requires ready { IsReady a.now × HasLevel a.now encoder.now question.level
        × (question.level < 4294967295) × IsOfInvariants question.query }
    requires shown { IsShownBy a.now encoder.now question.level question.query assignment.now }
    ensures { IfOk result (IsTold a.now question.level question.query) }
{
    let states = decode_states(alloc, encoder, question.level + 1, assignment)?;
    tell_invariant(alloc, a, question, states)
}
