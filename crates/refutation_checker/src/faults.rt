//! Why bytes are no certificate.

ghost use Rattle.std.specs.Prelude.{◌≡◌, alloc_error};
ghost use Rattle.refutation_checker.specs.declared.faults.CertFault.TheVariants.{Memory as cert_memory};

use std::alloc::{AllocError, AllocFailed};
use thiserror::Error;

/// Why a certificate was not read.
#[derive(Debug, Drop, Error)]
pub enum CertFault {
    /// The number, counted from 1, of the first line outside the grammar.
    #[error("line {0} is not a certificate's")]
    BadLine(u64),
    /// Memory ran out.
    #[error(transparent)]
    Memory(AllocError),
}

impl From<AllocError> for CertFault {
    ghost from_gives = { λ _ e. e ≡ cert_memory alloc_error };

    fn from(_: AllocError) -> Self {
        CertFault::Memory(AllocError)
    }
}

impl<T: Drop> From<AllocFailed<T>> for CertFault {
    ghost from_gives = { λ _ e. e ≡ cert_memory alloc_error };

    fn from(_: AllocFailed<T>) -> Self {
        CertFault::Memory(AllocError)
    }
}
