// What is wrong with a path.
ghost use Rattle.std.specs.Prelude.{◌≡◌, alloc_error};
ghost use Rattle.assignment_finder.specs.declared.assign_fault.AssignFault.TheVariants.{Memory as wants_memory};

use std::alloc::AllocError;
use tla_meaning::Place;

/// What is wrong with a path. Names are told by their number in the job.
#[derive(Drop)]
pub enum AssignFault {
    /// The path ends without assigning the name; the place is the root of the last branch that it takes, or of the
    /// action where it takes none.
    Unassigned(usize, Place),
    /// The name is read here before its assignment.
    ReadEarly(usize, Place),
    /// A name would be a member of a form that is this infinite set or has it as a part.
    Infinite(Place),
    /// No memory was left.
    Memory(AllocError),
}

impl From<AllocError> for AssignFault {
    ghost from_gives = { λ _ e. e ≡ wants_memory alloc_error };

    fn from(_: AllocError) -> Self {
        AssignFault::Memory(AllocError)
    }
}
