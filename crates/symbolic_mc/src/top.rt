// The top call: words, module or certificate, verdict, certificate file, report.
ghost use Rattle.std.specs.Prelude.{◌≡◌, ◌⊎◌, ◌<◌, ℕ, List as Items, Option, None, Some, IfOk};
ghost use Rattle.tool_outside.specs.Causes.{Stayed, WritesPrefix};
ghost use Rattle.tool_outside.specs.Outside.{Rose};
ghost use Rattle.front_end.specs.Accepted.{IsAcceptedFor};
ghost use Rattle.symbolic_mc.specs.Report.{memory_line};
ghost use Rattle.symbolic_mc.specs.inner.Told.{IsAskable, IsTold, IsReadFault, IsCalm, answer_of, requests};
ghost use Rattle.symbolic_mc.specs.Top.{WritesError, WritesClean, WritesOverflow, WritesSpent, WritesAccepted, Tells, TellsPart, Touches, IsAnswer, AsksForModule, AsksToRecheck, IsComplete, IsStatus, IsCutStatus, asked_of};
ghost use Rattle.symbolic_mc.specs.Words.{command_of, request_of, recheck_of};

use crate::accepting::{accept_file, refused};
use crate::answer::Answer;
use crate::copies::copied;
use crate::lines::write_lines;
use crate::naming::certificate_of;
use crate::saving::save;
use crate::words::{Request, recheck_requested, requested};
use accepted_systems::accepted_systems_can_be_checked;
use bounded_engine::check_to;
use front_end::Accepted;
use refutation_checker::recheck;
use std::alloc::{AllocError, Global};
use tla_values::Text;
use tool_outside::{FileFail, Files, Sink, SinkFail};
use trace_text::Verdict;

/// The most bytes that a certificate may have.
const CERTIFICATE_LIMIT: u64 = 268_435_456;

/// Does all that the program does: takes the words after its name, reads the modules or the certificate that they name,
/// checks it, writes the certificate of a verdict to its file and the report to the sink, and answers the status of
/// the program: 0 where no level errs or the certificate is accepted, 12 where a level errs, 14 where the certificate
/// is refused, 20 where an integer is outside the width, 21 where the conflicts are spent, 30 where the module is
/// refused, 31 where the words are no command, 40 where a read failed or a file is too long, 41 where a write failed,
/// and 50 for want of memory. No file is changed but the certificate's.
pub fn run<F: Files, K: Sink>(alloc: Global, words: &[String], files: &mut F, out: &mut K) -> u8
    ensures error { result ≡ 12 → WritesError (command_of words.now) (F.held files.old) (F.held files.new) (K.written out.old) (K.written out.new) }
    ensures clean { result ≡ 0 → WritesClean (command_of words.now) (F.held files.old) (F.held files.new) (K.written out.old) (K.written out.new)
        ⊎ WritesAccepted (command_of words.now) (F.held files.old) (F.held files.new) (K.written out.old) (K.written out.new) }
    ensures overflow { result ≡ 20 → WritesOverflow (command_of words.now) (F.held files.old) (F.held files.new) (K.written out.old) (K.written out.new) }
    ensures spent { result ≡ 21 → WritesSpent (command_of words.now) (F.held files.old) (F.held files.new) (K.written out.old) (K.written out.new) }
    ensures told { (IsCutStatus result → ⊥) → Tells (command_of words.now) (F.held files.old) (F.held files.new)
        (F.faults files.old) (F.faults files.new) (K.written out.old) (K.written out.new) result }
    ensures unwritten { result ≡ 41 → (Rose (K.faults out.old) (K.faults out.new) × TellsPart (command_of words.now) (F.held files.old) (F.held files.new)
        (F.faults files.old) (F.faults files.new) (K.written out.old) (K.written out.new))
        ⊎ Tells (command_of words.now) (F.held files.old) (F.held files.new)
        (F.faults files.old) (F.faults files.new) (K.written out.old) (K.written out.new) result }
    ensures no_memory { result ≡ 50 → TellsPart (command_of words.now) (F.held files.old) (F.held files.new)
        (F.faults files.old) (F.faults files.new) (K.written out.old) (K.written out.new)
        ⊎ WritesPrefix (K.written out.old) (K.written out.new) memory_line }
    ensures statuses { IsStatus result }
    ensures usage { request_of words.now ≡ None → recheck_of words.now ≡ None → (result ≡ 31) ⊎ IsCutStatus result }
    ensures complete { (asks : AsksForModule (command_of words.now) (F.held files.old)) → Stayed (F.faults files.old) (F.faults files.new)
        → Stayed (K.faults out.old) (K.faults out.new) → IsComplete asks.of.job asks.longest asks.budget result ⊎ (result ≡ 50) }
    ensures rechecked { AsksToRecheck (command_of words.now) (F.held files.old) → Stayed (F.faults files.old) (F.faults files.new)
        → Stayed (K.faults out.old) (K.faults out.new) → (result ≡ 0) ⊎ (result ≡ 14) ⊎ (result ≡ 50) }
    ensures faults_of_files { F.faults files.old < F.faults files.new → (result ≡ 40) ⊎ IsCutStatus result }
    ensures faults_of_sink { K.faults out.old < K.faults out.new → IsCutStatus result }
    ensures files { Touches (command_of words.now) (F.held files.old) (F.held files.new) }
{
    match decide(alloc, words, files) {
        Ok(answer) => tell(alloc, &answer, out),
        Err(_) => out_of_memory(out),
    }
}

// The answer to the words.
fn decide<F: Files>(alloc: Global, words: &[String], files: &mut F) -> Result<Answer, AllocError>
    ensures answer { IfOk result (IsAnswer (command_of words.now) (F.held files.old) (F.held files.new) (F.faults files.old) (F.faults files.new)) }
    ensures calm { IfOk result (IsCalm (F.faults files.old) (F.faults files.new)) }
    ensures files { Touches (command_of words.now) (F.held files.old) (F.held files.new) }
{
    if let Some(request) = requested(words) {
        return check_file(alloc, &request, files);
    }
    match recheck_requested(words) {
        Some(cert) => recheck_file(alloc, cert, files),
        None => Ok(Answer::Usage),
    }
}

// The answer to a request for a check.
fn check_file<F: Files>(
    alloc: Global,
    request: &Request<'_>,
    files: &mut F,
) -> Result<Answer, AllocError>
    requires { IsAskable request.now.file.now request.now.longest }
    ensures answer { IfOk result (λ answer. (again : Option (Items ℕ)) → IsAnswer (requests request.now.file.now request.now.longest request.now.budget again)
        (F.held files.old) (F.held files.new) (F.faults files.old) (F.faults files.new) answer) }
    ensures calm { IfOk result (IsCalm (F.faults files.old) (F.faults files.new)) }
    ensures files { (again : Option (Items ℕ)) → Touches (requests request.now.file.now request.now.longest request.now.budget again)
        (F.held files.old) (F.held files.new) }
{
    match accept_file(alloc, request, files) {
        Ok(accepted) => check_accepted(alloc, request, accepted, files),
        Err(refusal) => refused(refusal),
    }
}

// The answer to modules that are accepted.
fn check_accepted<F: Files>(
    alloc: Global,
    request: &Request<'_>,
    accepted: Accepted,
    files: &mut F,
) -> Result<Answer, AllocError>
    requires askable { IsAskable request.now.file.now request.now.longest }
    requires accepted { IsAcceptedFor (F.held files.old) (asked_of request.now.file.now request.now.longest) accepted }
    ensures answer { IfOk result (λ answer. (again : Option (Items ℕ)) → IsAnswer (requests request.now.file.now request.now.longest request.now.budget again)
        (F.held files.old) (F.held files.new) (F.faults files.old) (F.faults files.new) answer) }
    ensures calm { IfOk result (IsCalm (F.faults files.old) (F.faults files.new)) }
    ensures files { (again : Option (Items ℕ)) → Touches (requests request.now.file.now request.now.longest request.now.budget again)
        (F.held files.old) (F.held files.new) }
{
    match check_module(alloc, request, &accepted, files)? {
        Kept::Saved(verdict) => Ok(Answer::Checked(
            accepted.job.names,
            accepted.job.files,
            verdict,
        )),
        Kept::Unsaved(name) => Ok(Answer::WriteFault(name)),
    }
}

// What became of a check: its verdict, where the certificate was written; or the name of a certificate that could not be.
#[derive(Drop)]
enum Kept {
    Saved(Verdict),
    Unsaved(Text),
}

// Checks the job of accepted modules, and writes the certificate.
fn check_module<F: Files>(
    alloc: Global,
    request: &Request<'_>,
    accepted: &Accepted,
    files: &mut F,
) -> Result<Kept, AllocError>
    requires askable { IsAskable request.now.file.now request.now.longest }
    requires accepted { IsAcceptedFor (F.held files.old) (asked_of request.now.file.now request.now.longest) accepted.now }
    ensures answer { IfOk result (λ kept. (again : Option (Items ℕ)) → IsAnswer (requests request.now.file.now request.now.longest request.now.budget again)
        (F.held files.old) (F.held files.new) (F.faults files.old) (F.faults files.new) (answer_of kept accepted.now.job)) }
    ensures calm { IfOk result (λ kept. IsCalm (F.faults files.old) (F.faults files.new) (answer_of kept accepted.now.job)) }
    ensures files { (again : Option (Items ℕ)) → Touches (requests request.now.file.now request.now.longest request.now.budget again)
        (F.held files.old) (F.held files.new) }
{
    accepted_systems_can_be_checked();
    let found = check_to(alloc, accepted, request.budget)?;
    let name = certificate_of(alloc, request.file)?;
    let fault = copied(alloc, name.as_bytes())?;
    match save(alloc, files, name.as_str(), found.certificate.as_slice()) {
        Ok(()) => Ok(Kept::Saved(found.verdict)),
        Err(FileFail::Failed) => Ok(Kept::Unsaved(fault)),
        Err(FileFail::TooLong) => unreachable!(),
        Err(FileFail::Memory(fail)) => Err(fail),
    }
}

// The answer to a request to check a certificate again.
fn recheck_file<F: Files>(alloc: Global, cert: &str, files: &mut F) -> Result<Answer, AllocError>
    ensures answer { IfOk result (IsAnswer (None, Some cert.now) (F.held files.old) (F.held files.new) (F.faults files.old) (F.faults files.new)) }
    ensures calm { IfOk result (IsCalm (F.faults files.old) (F.faults files.new)) }
    ensures files { F.held files.new ≡ F.held files.old }
{
    match files.read(alloc, cert, CERTIFICATE_LIMIT) {
        Ok(Some(bytes)) => Ok(Answer::Rechecked(recheck(alloc, &bytes)?)),
        Ok(None) => Ok(Answer::NoCertificate),
        Err(fail) => read_fault(alloc, cert, fail),
    }
}

// The answer to a read that failed.
fn read_fault(alloc: Global, file: &str, fail: FileFail) -> Result<Answer, AllocError>
    ensures { IfOk result (IsReadFault file.now fail) }
{
    match fail {
        FileFail::Failed => Ok(Answer::ReadFault(copied(alloc, file.as_bytes())?)),
        FileFail::TooLong => Ok(Answer::TooLong(copied(alloc, file.as_bytes())?)),
        FileFail::Memory(fail) => Err(fail),
    }
}

// Writes the report of the answer. The result is its status, or 41 or 50 where it could not be written whole.
fn tell<K: Sink>(alloc: Global, answer: &Answer, out: &mut K) -> u8
    ensures { IsTold answer.now (K.written out.old) (K.written out.new) (K.faults out.old) (K.faults out.new) result }
{
    let Ok(report) = answer.report(alloc) else {
        return out_of_memory(out);
    };
    match write_lines(out, &report) {
        Ok(()) => answer.status(),
        Err(SinkFail::Failed) => 41,
        Err(SinkFail::Memory(_)) => 50,
    }
}

// Says so where memory ran out, if it can.
fn out_of_memory<K: Sink>(out: &mut K) -> u8
    ensures status { result ≡ 50 }
    ensures prefix { WritesPrefix (K.written out.old) (K.written out.new) memory_line }
{
    let _ = write_lines(out, b"out of memory\n");
    50
}
