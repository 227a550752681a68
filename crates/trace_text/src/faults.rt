// Why nothing is read.
ghost use Rattle.std.specs.Prelude.{◌≡◌, alloc_error};
ghost use Rattle.trace_text.specs.declared.faults.Unread.TheVariants.{Memory as wants_memory};

use std::alloc::{AllocError, AllocFailed};
use thiserror::Error;

/// Why no state is read.
#[derive(Debug, Drop, Error)]
pub enum StateTextFault {
    /// The number, from 1, of the first line that is not the next name with the text of a value.
    #[error("a line is not the next name with a value")]
    BadLine(u64),
    /// Memory ran out, or the stack would: a value with more than 1,000 brackets open at one place is not read.
    #[error(transparent)]
    Memory(AllocError),
}

// Why no value is read.
#[derive(Debug, Drop)]
pub(crate) enum Unread {
    // The bytes do not begin with the text of a value.
    NoValue,
    // Memory ran out, or the stack would.
    Memory(AllocError),
}

impl From<AllocError> for Unread {
    ghost from_gives = { λ _ e. e ≡ wants_memory alloc_error };

    fn from(_: AllocError) -> Self {
        Unread::Memory(AllocError)
    }
}

impl<T: Drop> From<AllocFailed<T>> for Unread {
    ghost from_gives = { λ _ e. e ≡ wants_memory alloc_error };

    fn from(_: AllocFailed<T>) -> Self {
        Unread::Memory(AllocError)
    }
}
