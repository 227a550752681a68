// What can be wrong with a file.
ghost use Rattle.std.specs.Prelude.{◌≡◌, alloc_error};
ghost use Rattle.tla_lexer.specs.declared.fault.LexFault.TheVariants.{Memory as wants_memory};

use std::alloc::{AllocError, AllocFailed};
use thiserror::Error;
use tla_meaning::Place;

/// The first fault in a file.
#[derive(Debug, Drop, Error)]
pub enum LexFault {
    /// No token, comment or blank begins here.
    #[error("no token begins here")]
    BadToken(Place),
    /// The comment that begins here is not closed.
    #[error("a comment is not closed")]
    OpenComment(Place),
    /// The number here is greater than `2^127 - 1`.
    #[error("a number is too big")]
    BigLiteral(Place),
    /// The file of this number holds no header of a module.
    #[error("no module begins in the file")]
    NoHeader(u32),
    /// Memory ran out.
    #[error(transparent)]
    Memory(AllocError),
}

impl From<AllocError> for LexFault {
    ghost from_gives = { λ _ e. e ≡ wants_memory alloc_error };

    fn from(_: AllocError) -> Self {
        LexFault::Memory(AllocError)
    }
}

impl<T: Drop> From<AllocFailed<T>> for LexFault {
    ghost from_gives = { λ _ e. e ≡ wants_memory alloc_error };

    fn from(_: AllocFailed<T>) -> Self {
        LexFault::Memory(AllocError)
    }
}
