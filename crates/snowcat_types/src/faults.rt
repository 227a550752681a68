// Why a job has no typing.
ghost use Rattle.std.specs.Prelude.{◌≡◌, alloc_error};
ghost use Rattle.snowcat_types.specs.declared.faults.TypeFault.TheVariants.{Memory as wants_memory};

use snowcat_rows::Ty;
use std::alloc::{AllocError, AllocFailed};
use tla_meaning::Place;
use tla_values::{List, Text};

/// Why a job has no typing.
#[derive(Drop)]
pub enum TypeFault {
    /// The declared name at the place has no annotation: the first such name.
    NotAnnotated(Text, Place),
    /// The annotation of the name or the definition at the place is no type: the least such place.
    BadAnnotation(Place),
    /// Two types of the node at the place that cannot be made equal, the earlier operand's first, where the
    /// nodes at the places behind took their default in this order.
    Clash(Place, Ty, Ty, List<Place>),
    Memory(AllocError),
}

impl From<AllocError> for TypeFault {
    ghost from_gives = { λ _ e. e ≡ wants_memory alloc_error };

    fn from(_: AllocError) -> Self {
        TypeFault::Memory(AllocError)
    }
}

impl<T: Drop> From<AllocFailed<T>> for TypeFault {
    ghost from_gives = { λ _ e. e ≡ wants_memory alloc_error };

    fn from(_: AllocFailed<T>) -> Self {
        TypeFault::Memory(AllocError)
    }
}
