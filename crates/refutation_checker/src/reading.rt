//! Reads a certificate from its bytes.

ghost use Rattle.std.specs.Prelude.{◌≡◌, ℕ, ◌+◌, ◌<◌, ◌^◌, ◌++◌, ◌∷◌, [], All, List, IfErr, IfOk, MatchResult, length, map};
ghost use Rattle.sat_formula.specs.Lit.{IsBelow};
ghost use Rattle.refutation_checker.specs.Certificate.{EndsRightly, IsCertificate, IsFirstBadLine, IsInGrammar, IsStep, certificate_text, clause_text, end_text, section_lines, step_text};
ghost use Rattle.refutation_checker.specs.Faults.{AtLine, IsLineUnlessMemory, IsOkUnlessMemory};
ghost use Rattle.refutation_checker.specs.declared.section.Section.{Section as SectionValue};
ghost use Rattle.refutation_checker.specs.inner.Lines.{IsHeader, IsQuestion, header_line, question_line};
ghost use Rattle.refutation_checker.specs.inner.Sections.{IsLineOf, StopsAtOnce, StopsInClauses, StopsInSection, StopsInSteps, Takes};

use crate::cursor::Cursor;
use crate::endings::ending;
use crate::faults::CertFault;
use crate::lines::{Header, Question, read_clause, read_header, read_question, read_step};
use crate::log::{Log, Step};
use crate::section::{Certificate, Section};
use crate::words::is;
use sat_formula::{Clause, Clauses, Cnf};
use std::alloc::{AllocError, Global};

/// The certificate that the bytes are: the line `tla-refutation 1`, and then the lines of each
/// section, as [`print_section`](crate::print_section) writes them. What is printed of sections
/// that are in the grammar is read back as these sections. Where no certificate has these bytes,
/// the fault names the first line outside the grammar; the last line of a text is outside it if
/// it has no line feed, and so is the line behind the last one where more is wanted.
///
/// The bytes are read once, and the memory is in proportion to their number.
pub fn read_certificate(alloc: Global, bytes: &[u8]) -> Result<Certificate, CertFault>
    ensures ok { IfOk result (λ sections. IsCertificate bytes.now sections) }
    ensures bad { IfErr result (λ e. AtLine e (IsFirstBadLine bytes.now)) }
    ensures printed { (sections : List SectionValue) → All IsInGrammar sections
        → bytes.now ≡ certificate_text sections → IsOkUnlessMemory result sections }
    ensures only { (sections : List SectionValue) → IsCertificate bytes.now sections
        → IsOkUnlessMemory result sections }
    ensures only_bad { (n : ℕ) → IsFirstBadLine bytes.now n → IsLineUnlessMemory result n }
{
    let mut lines = Cursor::new(bytes);
    fixed_line(&mut lines, b"tla-refutation 1")?;
    let mut sections = Vec::new(alloc);
    'sections: while !lines.is_done() {
        let s = section(alloc, &mut lines)?;
        sections.push(s)?;
    }
    Ok(Certificate::from_vec(sections))
}

// The next line, which is to be this one.
fn fixed_line(lines: &mut Cursor<'_>, text: &[u8]) -> Result<(), CertFault>
    ensures { MatchResult result (λ _. Takes lines.old lines.new (text.now ∷ []))
        (λ e. AtLine e (StopsAtOnce (λ line. line ≡ text.now) lines.old)) }
{
    let line = lines.take()?;
    if is(line, text) {
        Ok(())
    } else {
        Err(lines.fault())
    }
}

fn question(lines: &mut Cursor<'_>) -> Result<Question, CertFault>
    ensures { MatchResult result (λ q. IsQuestion q × Takes lines.old lines.new (question_line q ∷ []))
        (λ e. AtLine e (StopsAtOnce (IsLineOf question_line IsQuestion) lines.old)) }
{
    let line = lines.take()?;
    match read_question(line) {
        Some(q) => Ok(q),
        None => Err(lines.fault()),
    }
}

fn header(lines: &mut Cursor<'_>) -> Result<Header, CertFault>
    ensures { MatchResult result (λ h. IsHeader h × Takes lines.old lines.new (header_line h ∷ []))
        (λ e. AtLine e (StopsAtOnce (IsLineOf header_line IsHeader) lines.old)) }
{
    let line = lines.take()?;
    match read_header(line) {
        Some(h) => Ok(h),
        None => Err(lines.fault()),
    }
}

fn clause(alloc: Global, lines: &mut Cursor<'_>, vars: usize) -> Result<Clause, CertFault>
    requires { vars < 2 ^ 31 }
    ensures { MatchResult result (λ c. All (IsBelow vars) c × Takes lines.old lines.new (clause_text c ∷ []))
        (λ e. AtLine e (StopsAtOnce (IsLineOf clause_text (All (IsBelow vars))) lines.old)) }
{
    let line = lines.take()?;
    match read_clause(alloc, line, vars)? {
        Some(c) => Ok(c),
        None => Err(lines.fault()),
    }
}

// As many clauses as the header says. No room is made for them before they are read.
fn clauses(
    alloc: Global,
    lines: &mut Cursor<'_>,
    vars: usize,
    count: u64,
) -> Result<Clauses, CertFault>
    requires { vars < 2 ^ 31 }
    ensures { MatchResult result
        (λ cs. All (All (IsBelow vars)) cs × ((length cs ≡ count) × Takes lines.old lines.new (map clause_text cs)))
        (λ e. AtLine e (StopsInClauses vars count lines.old)) }
{
    let mut clauses = Clauses::new(alloc);
    for _ in 0..count {
        let c = clause(alloc, lines, vars)?;
        clauses.push(c)?;
    }
    Ok(clauses)
}

// The steps, and whether the section is open.
fn steps(alloc: Global, lines: &mut Cursor<'_>, vars: usize) -> Result<(Vec<Step>, bool), CertFault>
    requires { vars < 2 ^ 31 }
    ensures { MatchResult result
        (λ r. All (IsStep vars) r.0.items × (EndsRightly r.1 r.0.items
        × Takes lines.old lines.new (map step_text r.0.items ++ end_text r.1 ∷ [])))
        (λ e. AtLine e (StopsInSteps vars lines.old)) }
{
    let mut steps = Vec::new(alloc);
    'steps: loop {
        let line = lines.take()?;
        if let Some(is_open) = ending(line, &steps) {
            return Ok((steps, is_open));
        }
        match read_step(alloc, line, vars)? {
            Some(step) => steps.push(step)?,
            None => return Err(lines.fault()),
        }
    }
}

fn section(alloc: Global, lines: &mut Cursor<'_>) -> Result<Section, CertFault>
    ensures { MatchResult result (λ s. IsInGrammar s × Takes lines.old lines.new (section_lines s))
        (λ e. AtLine e (StopsInSection lines.old)) }
{
    let question = question(lines)?;
    let header = header(lines)?;
    let clauses = clauses(alloc, lines, header.vars, header.clauses)?;
    fixed_line(lines, b"log")?;
    let (steps, is_open) = steps(alloc, lines, header.vars)?;
    Ok(Section {
        level: question.level,
        typed: question.typed,
        query: question.query,
        formula: Cnf {
            vars: header.vars,
            clauses,
        },
        log: Log::from_vec(steps),
        is_open,
    })
}
