//! Whether the bytes of a certificate can be trusted.

ghost use Rattle.std.specs.Prelude.{IfOk, MatchOption};
ghost use Rattle.refutation_checker.specs.Rechecking.{FailsWith, IsRechecked, IsVerdict, RefutesClosed, StepsFollow, WhereAccepted};

use crate::answers::{Check, Recheck};
use crate::checking::check;
use crate::faults::CertFault;
use crate::reading::read_certificate;
use crate::section::Section;
use std::alloc::{AllocError, Global};

/// Reads a certificate and checks each section's log. Where it is accepted, no assignment
/// satisfies the formula of a section that is not open.
pub fn recheck(alloc: Global, bytes: &[u8]) -> Result<Recheck, AllocError>
    ensures exact { IfOk result (λ r. IsRechecked bytes.now r) }
    ensures refuted { IfOk result (λ r. WhereAccepted r (RefutesClosed bytes.now)) }
{
    match read_certificate(alloc, bytes) {
        Ok(certificate) => check_sections(alloc, certificate.as_slice()),
        Err(CertFault::BadLine(n)) => Ok(Recheck::BadLine(n)),
        Err(CertFault::Memory(fail)) => Err(fail),
    }
}

fn check_sections(alloc: Global, sections: &[Section]) -> Result<Recheck, AllocError>
    ensures { IfOk result (λ r. IsVerdict sections.now r) }
{
    let mut refuted: u64 = 0;
    let mut left_open: u64 = 0;
    for (i, s) in sections.iter().enumerate() {
        if let Some(id) = failing_step(alloc, s)? {
            return Ok(Recheck::BadStep(i as u64 + 1, id));
        }
        if s.is_open {
            left_open += 1;
        } else {
            refuted += 1;
        }
    }
    Ok(Recheck::Accepted(refuted, left_open))
}

// The number of the first step that does not follow.
fn failing_step(alloc: Global, section: &Section) -> Result<Option<u64>, AllocError>
    ensures { IfOk result (λ o. MatchOption o (StepsFollow section.now) (λ id. FailsWith id section.now)) }
{
    match check(alloc, &section.formula, &section.log)? {
        Check::No(id) => Ok(Some(id)),
        Check::Yes | Check::Open => Ok(None),
    }
}
