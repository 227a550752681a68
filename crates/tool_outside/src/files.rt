// Files by their names.
ghost use Rattle.std.specs.Prelude.{◌≡◌, ◌⊎◌, ℕ, ◌++◌, ◌<◌, ◌≤◌, [], List, Option, length, alloc_error, IfOk, OnOk, OnErr, IfSome, IsErrOf};
ghost use Rattle.std.specs.Option.{option_map};
ghost use Rattle.tool_outside.specs.declared.files.FileFail.TheVariants.{Failed as file_failed, TooLong as too_long, Memory as file_memory};
ghost use Rattle.tool_outside.specs.Outside.{Folder, file_at, bytes_or_none, HasCause, Changes, AddsPrefix};

use std::alloc::{AllocError, AllocFailed, Global};
use thiserror::Error;

/// Why a call of [`Files`] was refused.
#[derive(Debug, Drop, Error)]
pub enum FileFail {
    /// The outside refused the call. The count of faults rose.
    #[error("the system refused a file")]
    Failed,
    /// The file has more bytes than the limit of this read.
    #[error("a file is too long")]
    TooLong,
    /// Memory ran out.
    #[error(transparent)]
    Memory(AllocError),
}

impl From<AllocError> for FileFail {
    ghost from_gives = { λ _ e. e ≡ file_memory alloc_error };

    fn from(_: AllocError) -> Self {
        FileFail::Memory(AllocError)
    }
}

impl<T: Drop> From<AllocFailed<T>> for FileFail {
    ghost from_gives = { λ _ e. e ≡ file_memory alloc_error };

    fn from(_: AllocFailed<T>) -> Self {
        FileFail::Memory(AllocError)
    }
}

/// Files that are known by their names. A count of faults says how often the outside has failed; it
/// may stand still at `2^64 - 1`.
pub trait Files {
    /// The names with their bytes, where they are told.
    ghost held: { Self → Option Folder };

    /// How often the outside has failed.
    ghost faults: { Self → ℕ };

    /// The bytes of a file, which are at most `limit`, and `None` where no file has the name. It
    /// changes no file.
    ///
    /// `TooLong` is a file of more than `limit` bytes, and `Failed` a fault of the outside, which is
    /// counted.
    fn read(&mut self, alloc: Global, name: &str, limit: u64) -> Result<Option<Vec<u8>>, FileFail>
        ensures keeps { held self.new ≡ held self.old }
        ensures within { IfOk result (λ read. IfSome read (λ bytes. length bytes.items ≤ limit)) }
        ensures bytes { IfSome (held self.old) (λ folder. IfOk result (λ read.
            option_map (λ bytes. bytes.items) read ≡ file_at folder name.now)) }
        ensures too_long { IsErrOf result too_long → IfSome (held self.old) (λ folder.
            (bytes : List ℕ) × (file_at folder name.now ≡ Some bytes) × (limit < length bytes)) }
        ensures cause { HasCause file_failed (faults self.old) (faults self.new) result };

    /// Makes the file empty, whether or not one has the name. After a refusal it is as before or empty.
    fn create(&mut self, alloc: Global, name: &str) -> Result<(), FileFail>
        ensures created { OnOk result (Changes (held self.old) (held self.new) name.now
            (λ old new. new ≡ Some [])) }
        ensures refused { OnErr result (Changes (held self.old) (held self.new) name.now
            (λ old new. (new ≡ old) ⊎ (new ≡ Some []))) }
        ensures not_too_long { IsErrOf result too_long → ⊥ }
        ensures cause { HasCause file_failed (faults self.old) (faults self.new) result };

    /// Adds the piece at the end of the file. A name that isn't held is first made empty. After a
    /// refusal a prefix of the piece was added.
    fn append(&mut self, alloc: Global, name: &str, piece: &[u8]) -> Result<(), FileFail>
        ensures added { OnOk result (Changes (held self.old) (held self.new) name.now
            (λ old new. new ≡ Some (bytes_or_none old ++ piece.now))) }
        ensures refused { OnErr result (Changes (held self.old) (held self.new) name.now
            (AddsPrefix piece.now)) }
        ensures not_too_long { IsErrOf result too_long → ⊥ }
        ensures cause { HasCause file_failed (faults self.old) (faults self.new) result };
}
