// What a definition is expanded for, and why it may be refused.
ghost use Rattle.std.specs.Prelude.{◌≡◌, alloc_error};
ghost use Rattle.op_inliner.specs.declared.parts.InlineFault.TheVariants.{Memory as wants_memory};

use std::alloc::{AllocError, AllocFailed};
use tla_meaning::{Form, Place};
use tla_values::Text;

/// The parts of a job.
#[derive(Clone, Copy, Debug, Drop, PartialEq, Eq)]
pub enum PartKind {
    /// CInit and the assumptions: neither variables nor primes.
    Constants,
    /// Init: no primes.
    Start,
    /// Next: variables with one prime at most.
    Step,
    /// An invariant: no primes.
    Inv,
}

/// Why there is no expanded tree.
#[derive(Drop)]
pub enum InlineFault {
    /// No definition without parameters has this name.
    NoOperator(Text),
    /// The tree of this operator has so many nodes, more than 1,000,000; 10^12 stands for every greater number.
    TooLarge(Text, u64),
    /// The tree of this operator has more than 400 levels.
    TooDeep(Text),
    /// This form stands in the tree, the first in preorder.
    Reached(Form, Place),
    /// Memory ran out.
    Memory(AllocError),
}

impl From<AllocError> for InlineFault {
    ghost from_gives = { λ _ e. e ≡ wants_memory alloc_error };

    fn from(_: AllocError) -> Self {
        InlineFault::Memory(AllocError)
    }
}

impl<T: Drop> From<AllocFailed<T>> for InlineFault {
    ghost from_gives = { λ _ e. e ≡ wants_memory alloc_error };

    fn from(_: AllocFailed<T>) -> Self {
        InlineFault::Memory(AllocError)
    }
}
