// What a form is made of.
use crate::signs::Sign;
use tla_lexer::Token;
use tla_meaning::{Expr, Place};
use tla_values::{List, Text};

/// A part of a form.
#[derive(Drop)]
pub enum Item {
    Piece(Token),
    Tree(Expr),
}

/// What a form has: its first token, its names and its operands, each set once for each name that it is the set of.
#[derive(Drop)]
pub struct Digest {
    pub first: Sign,
    pub place: Place,
    pub names: List<Text>,
    /// Where the last name stands that is a token.
    pub name_place: Place,
    pub operands: List<Expr>,
    /// How many names wait for their set.
    pub pending: usize,
    /// Whether an `\in` stands among the tokens.
    pub bounded: bool,
    /// The token behind `]_`, `>>_`, `WF_` or `SF_`, with its place.
    pub subscript: Sign,
    pub subscript_place: Place,
    /// Whether the last token is one of these.
    pub opens_subscript: bool,
    /// Whether the next operand is a name or `x \in S` that the form binds.
    pub heads: bool,
}

/// The updates of an EXCEPT.
#[derive(Drop)]
pub struct Updates {
    pub place: Place,
    /// Whether the function was read.
    pub begun: bool,
    pub operands: List<Expr>,
    /// The number of indexes of each update.
    pub counts: List<usize>,
    /// The number of indexes of the update that is read.
    pub steps: usize,
    /// Whether an index in brackets is read, and its parts.
    pub inside: bool,
    pub index: List<Expr>,
    pub index_place: Place,
}

/// The definitions of a LET.
#[derive(Drop)]
pub struct Locals {
    pub place: Place,
    pub lets: List<(Text, usize)>,
    pub binds: List<Text>,
    pub bodies: List<Expr>,
    /// The definition that is read.
    pub head: Head,
    /// Whether IN was read.
    pub last: bool,
}

/// What stands before `==` in a definition.
#[derive(Drop)]
pub struct Head {
    /// Whether its name was read.
    pub named: bool,
    pub name: Text,
    pub place: Place,
    pub note: Text,
    /// Its parameters, or the names that a function binds.
    pub names: List<Text>,
    /// Whether it is a function, and where its `[` stands.
    pub function: bool,
    pub function_place: Place,
    /// Whether the brackets of a function are open.
    pub inside: bool,
    /// A set for each of the names.
    pub sets: List<Expr>,
    /// How many names wait for their set.
    pub pending: usize,
}
