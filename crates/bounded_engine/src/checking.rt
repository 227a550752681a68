// The levels in order, up to the first at which a question holds.
ghost use Rattle.std.specs.Prelude.{◌≡◌, ◌<◌, ◌≤◌, IfOk, OnOk, Some, length};
ghost use Rattle.accepted_systems.specs.Checking.{CanCheck};
ghost use Rattle.front_end.specs.Accepted.{IsAccepted};
ghost use Rattle.step_encoder.specs.Encoders.{AddsLevel, IsEncoder};
ghost use Rattle.bounded_engine.specs.Answers.{IsChecked};
ghost use Rattle.bounded_engine.specs.inner.Finding.{IsReady, types_of};

use crate::asking::Journal;
use crate::levels::ask_level;
use crate::run::Run;
use crate::subject::Subject;
use front_end::Accepted;
use std::alloc::{AllocError, Global};
use step_encoder::Encoder;
use tla_values::List;
use trace_text::Verdict;

/// Checks the executions of an accepted job of at most as many steps as its length: for each level
/// from 0 it is asked whether the start or the step to it is outside an operator's domain, whether
/// it computes an integer outside the width, whether an invariant is not TRUE at its end, and
/// whether one computes such an integer; up to the first question that holds, or until so many
/// conflicts are spent, where there is a budget.
///
/// An error is the least: no lower level errs, and its trace is an execution, also without the
/// width, of values of the names' types. `Clean` says that no execution of at most so many steps
/// errs. An integer outside the width is no error. The place of a verdict is in a file of the job.
/// One formula grows from level to level; the section of a question has what it was when the
/// question was asked. (Specifying Systems, sections
/// 2.3 and 8.1.)
pub fn check_to(alloc: Global, a: &Accepted, conflicts: Option<u64>) -> Result<Run, AllocError>
    requires accepted { IsAccepted a.now }
    requires ready { CanCheck a.now }
    ensures { IfOk result (λ r. IsChecked (Some a.now.width) a.now.job a.now.typed.names
        a.now.length conflicts r.verdict r.certificate) }
{
    let subject = Subject {
        job: &a.job,
        system: &a.system,
        width: a.width,
    };
    let checked = check_levels(alloc, &subject, a.length, conflicts)?;
    Ok(checked)
}

fn check_levels(
    alloc: Global,
    a: &Subject,
    longest: u32,
    conflicts: Option<u64>,
) -> Result<Run, AllocError>
    requires ready { IsReady a.now }
    requires short { longest ≤ 1000 }
    ensures { IfOk result (λ r. IsChecked (Some a.now.width) a.now.job.now (types_of a.now)
        longest conflicts r.verdict r.certificate) }
{
    let mut encoder = Encoder::new(alloc, a.system, a.width)?;
    let mut journal = Journal::new(alloc, conflicts);
    for level in 0..longest + 1 {
        add_level(&mut encoder, level)?;
        let found = ask_level(alloc, a, &encoder, level, &mut journal)?;
        if let Some(verdict) = found {
            return Ok(finish(verdict, journal));
        }
    }
    Ok(finish(Verdict::Clean(longest), journal))
}

// The encoder with its next level.
fn add_level(encoder: &mut Encoder, level: u32) -> Result<(), AllocError>
    requires encoder { IsEncoder encoder.old }
    requires next { (length encoder.old.levels ≡ level) × (level < 4294967295) }
    ensures { OnOk result (AddsLevel encoder.old encoder.new) }
{
    if level == 0 {
        encoder.start()
    } else {
        encoder.advance()
    }
}

fn finish(verdict: Verdict, journal: Journal) -> Run
    ensures verdict { result.verdict ≡ verdict }
    ensures sections { result.certificate ≡ journal.sections.items }
{
    Run {
        verdict,
        certificate: List::from_vec(journal.sections),
    }
}
