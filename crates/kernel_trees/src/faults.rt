// Why a job has no kernel.
ghost use Rattle.std.specs.Prelude.{◌≡◌, alloc_error};

use std::alloc::AllocError;
use tla_meaning::Place;

/// Why a job has no kernel.
#[derive(Drop)]
pub enum KerFault {
    /// An infinite set stands here, outside a form position.
    NotFinite(Place),
    Memory(AllocError),
}

impl From<AllocError> for KerFault {
    ghost use Rattle.kernel_trees.specs.declared.faults.KerFault.TheVariants.{Memory as wants_memory};

    ghost from_gives = { λ _ e. e ≡ wants_memory alloc_error };

    fn from(_: AllocError) -> Self {
        KerFault::Memory(AllocError)
    }
}
