// What the program answers: its status, and what it writes.
ghost use Rattle.std.specs.Prelude.{◌≡◌, ◌++◌, codes, IfOk};
ghost use Rattle.symbolic_mc.specs.Report.{status_of, report_of, refusal_status, verdict_status, recheck_status, recheck_report};

use front_end::{FrontFault, Refusal, refusal_text};
use refutation_checker::Recheck;
use std::alloc::{AllocError, Global};
use tla_meaning::Decl;
use tla_modules::ModuleFault;
use tla_values::{List, Text};
use trace_text::{Verdict, report_text};

/// The answer to the words and to what the files hold.
#[derive(Drop)]
pub(crate) enum Answer {
    /// The words are no command.
    Usage,
    /// The read of this certificate failed.
    ReadFault(Text),
    /// This certificate is longer than it may be.
    TooLong(Text),
    /// The modules of the file are refused.
    Refused(Refusal),
    /// The certificate of this name could not be written.
    WriteFault(Text),
    /// The verdict on a module with these names, of the files of these names.
    Checked(List<Decl>, List<Text>, Verdict),
    /// There is no file for the certificate.
    NoCertificate,
    /// What the checker says of a certificate.
    Rechecked(Recheck),
}

impl Answer {
    /// The status of the program.
    pub fn status(&self) -> u8
        ensures { result ≡ status_of self.now }
    {
        match self {
            Answer::Usage => 31,
            Answer::ReadFault(_) | Answer::TooLong(_) => 40,
            Answer::WriteFault(_) => 41,
            Answer::Refused(refusal) => refusal_status(&refusal.fault),
            Answer::Checked(_, _, verdict) => verdict_status(verdict),
            Answer::NoCertificate => 14,
            Answer::Rechecked(answer) => recheck_status(answer),
        }
    }

    /// The lines that are written.
    pub fn report(&self, alloc: Global) -> Result<Vec<u8>, AllocError>
        ensures { IfOk result (λ report. report.items ≡ report_of self.now) }
    {
        match self {
            Answer::Usage => Vec::from_slice(
                alloc,
                b"usage: symbolic_mc check|induct|audit|recheck|ring OPTIONS NAMES\n",
            ),
            Answer::ReadFault(file) => line(alloc, "read fault: ", file, "\n"),
            Answer::TooLong(file) => line(alloc, "file is too long: ", file, "\n"),
            Answer::WriteFault(file) => line(alloc, "write fault: ", file, "\n"),
            Answer::Refused(refusal) => refusal_text(alloc, refusal),
            Answer::Checked(names, files, verdict) => report_text(alloc, verdict, names, files),
            Answer::NoCertificate => Vec::from_slice(alloc, b"certificate refused: no file\n"),
            Answer::Rechecked(answer) => recheck_report(alloc, answer),
        }
    }
}

fn refusal_status(fault: &FrontFault) -> u8
    ensures { result ≡ refusal_status fault.now }
{
    match fault {
        FrontFault::Module(ModuleFault::Read(_) | ModuleFault::TooLong(_)) => 40,
        _ => 30,
    }
}

fn verdict_status(verdict: &Verdict) -> u8
    ensures { result ≡ verdict_status verdict.now }
{
    match verdict {
        Verdict::Clean(_) | Verdict::Inductive => 0,
        Verdict::Error(_, _, _) => 12,
        Verdict::NotInductive(_, _) => 13,
        Verdict::Overflow(_, _, _, _) => 20,
        Verdict::Spent(_, _) => 21,
    }
}

fn recheck_status(answer: &Recheck) -> u8
    ensures { result ≡ recheck_status answer.now }
{
    match answer {
        Recheck::Accepted(_, _) => 0,
        Recheck::BadLine(_) | Recheck::BadStep(_, _) => 14,
    }
}

fn recheck_report(alloc: Global, answer: &Recheck) -> Result<Vec<u8>, AllocError>
    ensures { IfOk result (λ report. report.items ≡ recheck_report answer.now) }
{
    match answer {
        Recheck::Accepted(refuted, left) => {
            let line = format!(in alloc; "accepted: {refuted} refuted, {left} open\n")?;
            Vec::from_slice(alloc, line.as_bytes())
        }
        Recheck::BadLine(n) => {
            let line = format!(in alloc; "certificate refused: line {n}\n")?;
            Vec::from_slice(alloc, line.as_bytes())
        }
        Recheck::BadStep(query, step) => {
            let line = format!(in alloc; "certificate refused: query {query} step {step}\n")?;
            Vec::from_slice(alloc, line.as_bytes())
        }
    }
}

fn line(alloc: Global, before: &str, text: &Text, behind: &str) -> Result<Vec<u8>, AllocError>
    ensures { IfOk result (λ line. line.items ≡ before.now ++ text.now ++ behind.now) }
{
    let mut line = Vec::from_slice(alloc, before.as_bytes())?;
    line.extend_from_slice(text.bytes())?;
    line.extend_from_slice(behind.as_bytes())?;
    Ok(line)
}
