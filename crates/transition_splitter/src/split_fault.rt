// Why an action is not taken apart.
ghost use Rattle.std.specs.Prelude.{◌≡◌, alloc_error};
ghost use Rattle.transition_splitter.specs.declared.split_fault.SplitFault.TheVariants.{Memory as wants_memory};

use std::alloc::AllocError;

/// Why an action is not taken apart.
#[derive(Drop)]
pub enum SplitFault {
    /// The number of its paths, from 4,097 to 1,000,000,000,000; the last stands for every greater number too.
    TooManyPaths(u64),
    /// No memory was left.
    Memory(AllocError),
}

impl From<AllocError> for SplitFault {
    ghost from_gives = { λ _ e. e ≡ wants_memory alloc_error };

    fn from(_: AllocError) -> Self {
        SplitFault::Memory(AllocError)
    }
}
