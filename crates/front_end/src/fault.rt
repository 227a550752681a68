// Why modules and a request are refused.
ghost use Rattle.std.specs.Prelude.{◌≡◌, alloc_error};
ghost use Rattle.front_end.specs.Faults.{of_assign, of_inline, of_ker, of_module, of_shape, of_split, of_type};
ghost use Rattle.front_end.specs.declared.fault.FrontFault.TheVariants.{Memory as wants_memory};

use assignment_finder::AssignFault;
use kernel_trees::KerFault;
use op_inliner::InlineFault;
use shape_bounds::ShapeFault;
use snowcat_types::TypeFault;
use std::alloc::AllocError;
use std::fmt;
use thiserror::Error;
use tla_meaning::Decl;
use tla_modules::ModuleFault;
use tla_values::{List, Text};
use transition_splitter::SplitFault;

/// Why modules and a request are refused, in the order of the stages. No fault holds a want of memory but `Memory`.
#[derive(Drop, Error)]
pub enum FrontFault {
    /// There is no flat module.
    #[error("the modules are refused")]
    Module(ModuleFault),
    /// The operators of the request make no job.
    #[error("the operators are refused")]
    Inline(InlineFault),
    /// The job has no typing.
    #[error("the types are refused")]
    Type(TypeFault),
    /// The job has no kernel.
    #[error("a set is infinite")]
    Ker(KerFault),
    /// CInit, Init or Next has too many paths.
    #[error("there are too many paths")]
    Split(SplitFault),
    /// A path of CInit, Init or Next has no assignments.
    #[error("a path has no assignments")]
    Assign(AssignFault),
    /// The shapes go past their limits.
    #[error("a value may be too large")]
    Shape(ShapeFault),
    /// Memory ran out.
    #[error(transparent)]
    Memory(AllocError),
}

impl fmt::Debug for FrontFault {
    fn fmt<W: fmt::Write>(&self, f: &mut fmt::Formatter<W>) -> fmt::Result {
        fmt::Display::fmt(self, f)
    }
}

impl From<AllocError> for FrontFault {
    ghost from_gives = { λ _ e. e ≡ wants_memory alloc_error };

    fn from(_: AllocError) -> Self {
        FrontFault::Memory(AllocError)
    }
}

/// Why modules and a request are refused.
#[derive(Drop)]
pub struct Refusal {
    /// The names of the files that were read, at their numbers.
    pub files: List<Text>,
    /// The declared names of the job, and none before there is a job.
    pub names: List<Decl>,
    pub fault: FrontFault,
}

// The faults of each stage as those of all stages.

pub(crate) fn of_module(fault: ModuleFault) -> FrontFault
    ensures { result ≡ of_module fault }
{
    match fault {
        ModuleFault::Memory(fail) => FrontFault::Memory(fail),
        fault => FrontFault::Module(fault),
    }
}

pub(crate) fn of_inline(fault: InlineFault) -> FrontFault
    ensures { result ≡ of_inline fault }
{
    match fault {
        InlineFault::Memory(fail) => FrontFault::Memory(fail),
        fault => FrontFault::Inline(fault),
    }
}

pub(crate) fn of_type(fault: TypeFault) -> FrontFault
    ensures { result ≡ of_type fault }
{
    match fault {
        TypeFault::Memory(fail) => FrontFault::Memory(fail),
        fault => FrontFault::Type(fault),
    }
}

pub(crate) fn of_ker(fault: KerFault) -> FrontFault
    ensures { result ≡ of_ker fault }
{
    match fault {
        KerFault::Memory(fail) => FrontFault::Memory(fail),
        fault => FrontFault::Ker(fault),
    }
}

pub(crate) fn of_split(fault: SplitFault) -> FrontFault
    ensures { result ≡ of_split fault }
{
    match fault {
        SplitFault::Memory(fail) => FrontFault::Memory(fail),
        fault => FrontFault::Split(fault),
    }
}

pub(crate) fn of_assign(fault: AssignFault) -> FrontFault
    ensures { result ≡ of_assign fault }
{
    match fault {
        AssignFault::Memory(fail) => FrontFault::Memory(fail),
        fault => FrontFault::Assign(fault),
    }
}

pub(crate) fn of_shape(fault: ShapeFault) -> FrontFault
    ensures { result ≡ of_shape fault }
{
    match fault {
        ShapeFault::Memory(fail) => FrontFault::Memory(fail),
        fault => FrontFault::Shape(fault),
    }
}
