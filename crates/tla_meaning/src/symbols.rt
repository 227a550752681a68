// Names in scope, and what may be wrong with them.
use crate::op::Op;
use crate::place::Place;
use tla_values::Text;

/// What declares a name.
#[derive(Clone, Copy, Debug, Drop, PartialEq, Eq)]
pub enum Kind {
    /// VARIABLE or CONSTANT.
    Declaration,
    /// A definition, of a module or of a standard one.
    Definition,
    /// RECURSIVE, or a function inside its own definition.
    Announcement,
    /// The name of an INSTANCE, which is no operator.
    InstanceName,
    /// A definition under the name of an INSTANCE.
    Member,
    /// A binder, a parameter, a definition of a LET.
    Inner,
}

/// A name in scope (Specifying Systems, section 17.3).
#[derive(Drop)]
pub struct Entry {
    pub name: Text,
    pub kind: Kind,
    /// Where it is declared.
    pub place: Place,
    /// What tells the symbol from every other, whatever its name and on whatever way it came.
    pub origin: Text,
    /// The operator at the node of a use.
    pub stands: Op,
    /// How many arguments a use has.
    pub arity: usize,
    /// Whether other modules see it.
    pub exported: bool,
}

/// What is wrong with a name.
#[derive(Drop)]
pub enum Misuse {
    /// No such name is in scope.
    Unknown(Text, Place),
    /// The places of two declarations of a name, the later one behind.
    Twice(Text, Place, Place),
    /// So many arguments stand there, and so many are wanted.
    Arity(Place, usize, usize),
}
