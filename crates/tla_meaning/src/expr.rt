// Expressions, declarations and definitions.
use crate::op::Op;
use crate::place::Place;
use tla_values::{List, Text};

/// An expression.
#[derive(Drop)]
pub struct Expr {
    pub place: Place,
    pub op: Op,
    pub args: List<Expr>,
    pub binds: List<Text>,
}

/// A declared constant or variable.
#[derive(Drop)]
pub struct Decl {
    pub name: Text,
    pub place: Place,
    pub constant: bool,
    pub note: Text,
}

/// A definition.
#[derive(Drop)]
pub struct Def {
    pub name: Text,
    pub place: Place,
    pub params: List<Text>,
    pub note: Text,
    pub body: Expr,
}
