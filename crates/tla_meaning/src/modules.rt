// Modules as they are written, and the flat module that a root and those that it mentions make.
use crate::expr::{Decl, Def, Expr};
use crate::place::Place;
use tla_values::{List, Text};

/// A unit of a module. The bool of a definition or an instance says LOCAL.
#[derive(Drop)]
pub enum Unit {
    /// VARIABLE(S) or CONSTANT(S).
    Declare(List<Decl>),
    /// ASSUME.
    Assume(Expr),
    /// THEOREM: parsed and ignored.
    Theorem(Expr),
    /// A definition.
    Define(Def, bool),
    /// `Name == INSTANCE M WITH c <- e`: the name if there is one, the module, what replaces its names.
    Instance(Option<Text>, Text, List<(Text, Expr)>, bool, Place),
    /// RECURSIVE names with their numbers of parameters.
    Recursive(List<(Text, usize)>),
}

/// A module as its tokens spell it (Specifying Systems, chapter 17).
#[derive(Drop)]
pub struct Module {
    pub name: Text,
    /// The modules after EXTENDS.
    pub extends: List<Text>,
    pub units: List<Unit>,
    /// The type aliases of its comments, in the order of the text.
    pub aliases: List<(Text, Text)>,
}

/// What a root module has with those that EXTENDS and INSTANCE bring in.
#[derive(Drop)]
pub struct Flat {
    /// The names of the files read, at their numbers.
    pub files: List<Text>,
    pub decls: List<Decl>,
    pub defs: List<Def>,
    pub assumes: List<Expr>,
    pub aliases: List<(Text, Text)>,
}
