// Why a system has no shapes.
ghost use Rattle.std.specs.Prelude.{Some, ◌≡◌, alloc_error, option_map};
ghost use Rattle.kernel_shapes.specs.Counts.{refused_at};
ghost use Rattle.shape_bounds.specs.Excesses.{rank_of};
ghost use Rattle.shape_bounds.specs.declared.shape_fault.ShapeFault.TheVariants.{Memory as wants_memory};
ghost use Rattle.shape_bounds.specs.inner.Climbing.{told_at};
ghost use Rattle.shape_bounds.specs.Stages.{told};

use crate::limits::{Excess, MOST_PRINTED};
use std::alloc::AllocError;
use tla_meaning::Place;

/// Why a system has no shapes: a level, a place, and the number there; 1,000,000,000,000 stands for every greater one.
#[derive(Drop)]
pub enum ShapeFault {
    /// A set or a function may have so many members or arguments, more than 65,536.
    TooLarge(u32, Place, u64),
    /// A sequence may have so many places, more than 4,096.
    TooLong(u32, Place, u64),
    /// No memory was left.
    Memory(AllocError),
}

impl From<AllocError> for ShapeFault {
    ghost from_gives = { λ _ e. e ≡ wants_memory alloc_error };

    fn from(_: AllocError) -> Self {
        ShapeFault::Memory(AllocError)
    }
}

// What is told of a number past its limit, if there is one.
pub(crate) fn fault_at(level: u32, first: Option<Excess>) -> Option<ShapeFault>
    ensures { option_map told result ≡ told_at level first }
{
    match first {
        None => None,
        Some(excess) => Some(fault_of(level, excess)),
    }
}

fn fault_of(level: u32, excess: Excess) -> ShapeFault
    ensures { told result ≡ Some (level, refused_at (rank_of excess)) }
{
    let number = excess.number.min(MOST_PRINTED);
    if excess.of_sequence {
        ShapeFault::TooLong(level, excess.place, number)
    } else {
        ShapeFault::TooLarge(level, excess.place, number)
    }
}
