// The paths of an action.
ghost use Rattle.std.specs.Prelude.{◌≡◌};
ghost use Rattle.kernel_trees.specs.Paths.{is_end};

use crate::kernel::{Ker, KerOp};
use tla_meaning::Place;
use tla_values::{List, Value};

/// A guard with the truth value that it must have, or the bound numbers of one `\E`, each with its set.
#[derive(Drop)]
pub enum PathStep {
    Guard(Ker, bool),
    Pick(List<(u32, Ker)>),
}

/// A path, and the root of the last branch that it takes, or of the part where it takes none.
#[derive(Drop)]
pub struct KerPath {
    pub place: Place,
    pub steps: List<PathStep>,
}

/// A step of a path whose assignments are marked: of a value, or of a member of a set form, to a declared name.
#[derive(Drop)]
pub enum AssignedStep {
    Guard(Ker, bool),
    Pick(List<(u32, Ker)>),
    Equals(usize, Ker),
    Among(usize, Ker),
}

/// A path with its assignments marked.
#[derive(Drop)]
pub struct Assigned {
    pub place: Place,
    pub steps: List<AssignedStep>,
}

/// Whether a path ends at an operand with this operator, as it cannot be TRUE.
pub fn is_end(op: &KerOp) -> bool
    ensures { result ≡ is_end op.now }
{
    match op {
        KerOp::Const(Value::Bool(holds)) => !*holds,
        KerOp::NoCase => true,
        _ => false,
    }
}
