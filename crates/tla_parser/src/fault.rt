// Why tokens are refused.
ghost use Rattle.std.specs.Prelude.{◌≡◌, alloc_error};
ghost use Rattle.tla_parser.specs.declared.fault.ParseFault.TheVariants.{Memory as wants_memory};

use std::alloc::{AllocError, AllocFailed};
use thiserror::Error;
use tla_meaning::Place;

/// A form of the language that is read nowhere.
#[derive(Clone, Copy, Debug, PartialEq, Eq, Drop)]
pub enum Syntax {
    NestedModule,
    ParametrizedInstance,
    SymbolDefinition,
    Proof,
    OperatorParameter,
    TuplePattern,
}

/// Why tokens are no module.
#[derive(Debug, Drop, Error)]
pub enum ParseFault {
    /// No module spells the tokens, and the unit that begins here is the first that is not whole, or that names a field
    /// of a record twice; where none begins, it is the token behind the header, the last token, or the first where no
    /// header stands.
    #[error("no unit of the grammar stands here")]
    BadGrammar(Place),
    /// All units are whole, and the one that begins here is the first with more than 400 levels.
    #[error("a unit is nested too deeply")]
    TooDeep(Place),
    /// No module spells the tokens, and the form at this place, in the first unit that is not whole, is read nowhere.
    #[error("a form is not supported")]
    NotSupported(Place, Syntax),
    /// Memory ran out.
    #[error(transparent)]
    Memory(AllocError),
}

impl From<AllocError> for ParseFault {
    ghost from_gives = { λ _ e. e ≡ wants_memory alloc_error };

    fn from(_: AllocError) -> Self {
        ParseFault::Memory(AllocError)
    }
}

impl<T: Drop> From<AllocFailed<T>> for ParseFault {
    ghost from_gives = { λ _ e. e ≡ wants_memory alloc_error };

    fn from(_: AllocFailed<T>) -> Self {
        ParseFault::Memory(AllocError)
    }
}
