// Why the text of a type is not read.
ghost use Rattle.std.specs.Prelude.{◌≡◌, alloc_error};

use std::alloc::AllocError;
use tla_values::Text;

/// Why the text of a type is not read.
#[derive(Drop)]
pub enum TypeTextFault {
    /// The text before this offset begins the text of some type, and with the next byte it begins none; or it is the
    /// length of the text, which begins the text of a type and is none. No alias before the offset is unknown.
    BadType(usize),
    /// No alias of this name counts: the first such, in a type's text or before its first bad byte.
    UnknownAlias(Text),
    Memory(AllocError),
}

impl From<AllocError> for TypeTextFault {
    ghost use Rattle.snowcat_rows.specs.declared.faults.TypeTextFault.TheVariants.{Memory as wants_memory};

    ghost from_gives = { λ _ e. e ≡ wants_memory alloc_error };

    fn from(_: AllocError) -> Self {
        TypeTextFault::Memory(AllocError)
    }
}
