// Why a root makes no flat module.
ghost use Rattle.std.specs.Prelude.{◌≡◌, None, alloc_error};
ghost use Rattle.tla_modules.specs.Refusals.{handed};
ghost use Rattle.tla_modules.specs.declared.fault.ModuleFault.TheVariants.{Memory as wants_memory};
ghost use Rattle.tla_modules.specs.inner.Reading.{file_in};

use std::alloc::{AllocError, AllocFailed};
use std::fmt;
use thiserror::Error;
use tla_lexer::LexFault;
use tla_meaning::Place;
use tla_parser::ParseFault;
use tla_values::{List, Text};

/// What is wrong with a root or with what it mentions.
#[derive(Drop, Error)]
pub enum ModuleFault {
    /// The files hold no module of this name.
    #[error("a module is missing")]
    Missing(Text),
    /// The file of the first name holds a module of the second.
    #[error("a file holds a module of another name")]
    NameDiffers(Text, Text),
    /// Modules of which each mentions the next, the first and last equal.
    #[error("modules mention each other")]
    Cycle(List<Text>),
    /// No declaration, earlier definition, parameter or bound name in scope has the name.
    #[error("a name is unknown")]
    Unknown(Text, Place),
    /// Two declarations of a name in one scope.
    #[error("a name is declared twice")]
    Twice(Text, Place, Place),
    /// So many arguments stand there, and so many are wanted.
    #[error("a use has another number of arguments")]
    Arity(Place, usize, usize),
    /// One more module is mentioned where 64 were read.
    #[error("there are more than 64 modules")]
    TooMany,
    /// The first fault among the pieces of a file. It is no want of memory.
    #[error("a file has a fault")]
    Lex(LexFault),
    /// Why the tokens of a file are refused. It is no want of memory.
    #[error("the tokens of a file are refused")]
    Parse(ParseFault),
    /// The outside refused to read this file. The count of faults rose.
    #[error("a file could not be read")]
    Read(Text),
    /// This file has more than 4,194,304 bytes.
    #[error("a file is too long")]
    TooLong(Text),
    /// Memory ran out.
    #[error(transparent)]
    Memory(AllocError),
}

impl fmt::Debug for ModuleFault {
    fn fmt<W: fmt::Write>(&self, f: &mut fmt::Formatter<W>) -> fmt::Result {
        fmt::Display::fmt(self, f)
    }
}

impl From<AllocError> for ModuleFault {
    ghost from_gives = { λ _ e. e ≡ wants_memory alloc_error };

    fn from(_: AllocError) -> Self {
        ModuleFault::Memory(AllocError)
    }
}

impl<T: Drop> From<AllocFailed<T>> for ModuleFault {
    ghost from_gives = { λ _ e. e ≡ wants_memory alloc_error };

    fn from(_: AllocFailed<T>) -> Self {
        ModuleFault::Memory(AllocError)
    }
}

/// Why a root makes no flat module.
#[derive(Drop)]
pub struct ModuleRefusal {
    /// The names of the files that were read, at their numbers, with one that was read and refused.
    pub files: List<Text>,
    pub fault: ModuleFault,
}

// Why reading ends, and the file that was read and refused.
#[derive(Drop)]
pub(crate) struct Stop {
    pub(crate) fault: ModuleFault,
    pub(crate) file: Option<Text>,
}

impl Stop {
    // Where no file was refused.
    pub(crate) fn of(fault: ModuleFault) -> Stop
        ensures { result ≡ record { fault = fault; file = None } }
    {
        Stop { fault, file: None }
    }

    // Where this file was to be read.
    pub(crate) fn at(fault: ModuleFault, file: Text) -> Stop
        ensures fault { result.fault ≡ fault }
        ensures file { file_in result.file ≡ handed fault file }
    {
        match fault {
            ModuleFault::Lex(fault) => Stop {
                fault: ModuleFault::Lex(fault),
                file: Some(file),
            },
            ModuleFault::Parse(fault) => Stop {
                fault: ModuleFault::Parse(fault),
                file: Some(file),
            },
            ModuleFault::NameDiffers(wanted, found) => Stop {
                fault: ModuleFault::NameDiffers(wanted, found),
                file: Some(file),
            },
            fault => Stop { fault, file: None },
        }
    }
}

impl From<AllocError> for Stop {
    ghost from_gives = { λ _ e. e ≡ record { fault = wants_memory alloc_error; file = None } };

    fn from(_: AllocError) -> Self {
        Stop {
            fault: ModuleFault::Memory(AllocError),
            file: None,
        }
    }
}

impl<T: Drop> From<AllocFailed<T>> for Stop {
    ghost from_gives = { λ _ e. e ≡ record { fault = wants_memory alloc_error; file = None } };

    fn from(_: AllocFailed<T>) -> Self {
        Stop {
            fault: ModuleFault::Memory(AllocError),
            file: None,
        }
    }
}
