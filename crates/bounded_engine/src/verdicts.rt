// The verdicts at states that show a question: which part gives what, and where.
ghost use Rattle.std.specs.Prelude.{◌<◌, ◌≡◌, ◌++◌, ◌∷◌, [], IfOk, None, Some, option_copied};
ghost use Rattle.encoder_laws.specs.Levels.{IsTruthOutcome};
ghost use Rattle.tla_meaning.specs.Executions.{last_of};
ghost use Rattle.tla_meaning.specs.Numbers.{Width};
ghost use Rattle.tla_meaning.specs.declared.job.Job.{Job as AnyJob};
ghost use Rattle.tla_meaning.specs.declared.job.State.{State as Values};
ghost use Rattle.trace_text.specs.declared.verdict.Fault.TheVariants.{StartWrong, StepWrong};
ghost use Rattle.trace_text.specs.declared.verdict.Part.TheVariants.{Start as at_start};
ghost use Rattle.trace_text.specs.declared.verdict.Part.TheVariants.{Step as at_step};
ghost use Rattle.bounded_engine.specs.Verdicts.{AreTyped, InvariantGives, states_of, states_told};
ghost use Rattle.bounded_engine.specs.inner.Finding.{EndInTruths, IsCauseOf, IsOfInvariants};
ghost use Rattle.bounded_engine.specs.inner.Finding.{IsOfSteps, IsReady, IsShown, IsTold, PartGives};
ghost use Rattle.bounded_engine.specs.inner.Finding.{ShowsQuestion, types_of};

use crate::asking::Question;
use crate::subject::Subject;
use std::alloc::{AllocError, Global};
use tla_evaluator::{invariant, next, start};
use tla_meaning::{Outcome, Place, State};
use tla_values::{List, Text, copy_text};
use trace_text::{Fault, Part, Trace, Verdict, Where};

/// The verdict where the start or a step to the attempt is Wrong or Big.
pub(crate) fn tell_step(
    alloc: Global,
    a: &Subject,
    question: Question,
    states: List<State>,
    attempt: State,
) -> Result<Verdict, AllocError>
    requires ready { IsReady a.now × IsOfSteps question.query }
    requires shown { ShowsQuestion a.now question.level question.query states attempt }
    requires typed { AreTyped (types_of a.now) (states ++ attempt ∷ []) }
    ensures { IfOk result (IsTold a.now question.level question.query) }
{
    let outcome = step_outcome(alloc, a, question, &states, &attempt)?;
    let trace = Trace {
        states,
        attempt: Some(attempt),
    };
    Ok(of_step(question, outcome, trace))
}

// What the start gives at the attempt, or Next from the last of the states.
fn step_outcome(
    alloc: Global,
    a: &Subject,
    question: Question,
    states: &List<State>,
    attempt: &State,
) -> Result<Outcome, AllocError>
    requires ready { IsReady a.now × IsOfSteps question.query }
    requires shown { ShowsQuestion a.now question.level question.query states.now attempt.now }
    ensures { IfOk result (λ o. IsCauseOf question.query o
        × PartGives (Some a.now.width) a.now.job.now question.level o
        (record { states = states.now; attempt = Some attempt.now })) }
{
    match last(states) {
        None => start(alloc, a.job, attempt, a.width),
        Some(state) => next(alloc, a.job, state, attempt, a.width),
    }
}

fn last(states: &List<State>) -> Option<&State>
    ensures { option_copied result ≡ last_of states.now }
{
    states.as_slice().last()
}

// The verdict where the start or a step gives such an outcome.
fn of_step(question: Question, outcome: Outcome, trace: Trace) -> Verdict
    requires { IsCauseOf question.query outcome × IsOfSteps question.query }
    ensures shown { (w : Width) (job : AnyJob) → PartGives w job question.level outcome trace →
        IsShown w job question.level question.query result }
    ensures states { states_told result ≡ states_of trace }
{
    match outcome {
        Outcome::Wrong(place) => Verdict::Error(
            question.level,
            step_fault(question.level, place),
            trace,
        ),
        Outcome::Big(place) => Verdict::Overflow(
            Where::Level(question.level),
            step_part(question.level),
            place,
            trace,
        ),
        Outcome::Val(_) => unreachable!(),
    }
}

fn step_fault(level: u32, place: Place) -> Fault
    ensures start { level ≡ 0 → result ≡ StartWrong place }
    ensures step { 0 < level → result ≡ StepWrong place }
{
    if level == 0 {
        Fault::StartWrong(place)
    } else {
        Fault::StepWrong(place)
    }
}

fn step_part(level: u32) -> Part
    ensures start { level ≡ 0 → result ≡ at_start }
    ensures step { 0 < level → result ≡ at_step }
{
    if level == 0 { Part::Start } else { Part::Step }
}

/// The verdict where an invariant is not TRUE at the last of the states.
pub(crate) fn tell_invariant(
    alloc: Global,
    a: &Subject,
    question: Question,
    states: List<State>,
) -> Result<Verdict, AllocError>
    requires ready { IsReady a.now × IsOfInvariants question.query × EndInTruths a.now states }
    requires shown { (t : Values) → ShowsQuestion a.now question.level question.query states t }
    requires typed { AreTyped (types_of a.now) states }
    ensures { IfOk result (IsTold a.now question.level question.query) }
{
    let (name, outcome) = broken(alloc, a, question, &states)?;
    let trace = Trace {
        states,
        attempt: None,
    };
    Ok(of_invariant(question, name, outcome, trace))
}

// The name of the first invariant that is not TRUE, and what it gives.
fn broken(
    alloc: Global,
    a: &Subject,
    question: Question,
    states: &List<State>,
) -> Result<(Text, Outcome), AllocError>
    requires ready { IsReady a.now × IsOfInvariants question.query × EndInTruths a.now states.now }
    requires shown { (t : Values) → ShowsQuestion a.now question.level question.query states.now t }
    ensures { IfOk result (λ r. IsCauseOf question.query r.1 × IsTruthOutcome r.1
        × InvariantGives (Some a.now.width) a.now.job.now question.level r.0 r.1
        (record { states = states.now; attempt = None })) }
{
    let Some(state) = last(states) else {
        unreachable!();
    };
    let (number, outcome) = invariant(alloc, a.job, state, a.width)?;
    let name = copy_text(alloc, &a.job.invs.as_slice()[number].0)?;
    Ok((name, outcome))
}

// The verdict where this invariant gives such an outcome.
fn of_invariant(question: Question, name: Text, outcome: Outcome, trace: Trace) -> Verdict
    requires { IsCauseOf question.query outcome × IsOfInvariants question.query
        × IsTruthOutcome outcome }
    ensures shown { (w : Width) (job : AnyJob) →
        InvariantGives w job question.level name outcome trace →
        IsShown w job question.level question.query result }
    ensures states { states_told result ≡ states_of trace }
{
    match outcome {
        Outcome::Wrong(place) => Verdict::Error(
            question.level,
            Fault::InvWrong(name, place),
            trace,
        ),
        Outcome::Big(place) => Verdict::Overflow(
            Where::Level(question.level),
            Part::Inv(name),
            place,
            trace,
        ),
        Outcome::Val(_value) => Verdict::Error(question.level, Fault::InvFalse(name), trace),
    }
}
