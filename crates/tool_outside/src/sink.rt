// Where the tool writes its report.
ghost use Rattle.std.specs.Prelude.{◌≡◌, ℕ, List, Option, take, alloc_error, OnOk, OnErr};
ghost use Rattle.std.specs.Io.KnownBytes.{Appends};
ghost use Rattle.tool_outside.specs.declared.sink.SinkFail.TheVariants.{Failed as sink_failed, Memory as sink_memory};
ghost use Rattle.tool_outside.specs.Outside.{HasCause};

use std::alloc::AllocError;
use thiserror::Error;

/// Why a write to a [`Sink`] was refused.
#[derive(Debug, Drop, Error)]
pub enum SinkFail {
    /// The outside refused the write. The count of faults rose.
    #[error("the system refused a write")]
    Failed,
    /// Memory ran out.
    #[error(transparent)]
    Memory(AllocError),
}

impl From<AllocError> for SinkFail {
    ghost from_gives = { λ _ e. e ≡ sink_memory alloc_error };

    fn from(_: AllocError) -> Self {
        SinkFail::Memory(AllocError)
    }
}

/// A place to which bytes are written, one piece after the other. A count of faults says how often
/// the outside has failed; it may stand still at `2^64 - 1`.
pub trait Sink {
    /// The bytes that were written, where they are told.
    ghost written: { Self → Option (List ℕ) };

    /// How often the outside has failed.
    ghost faults: { Self → ℕ };

    /// Writes the piece. After a refusal a prefix of it was written.
    fn write(&mut self, piece: &[u8]) -> Result<(), SinkFail>
        ensures added { OnOk result (Appends (written self.old) (written self.new) piece.now) }
        ensures refused { OnErr result ((count : ℕ)
            × Appends (written self.old) (written self.new) (take count piece.now)) }
        ensures cause { HasCause sink_failed (faults self.old) (faults self.new) result };
}
