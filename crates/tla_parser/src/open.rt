// What is open while tokens are read, and what was read.
use crate::moves::{Class, Construct, Next};
use tla_lexer::Token;

/// What was read, each construct behind its parts.
#[derive(Drop)]
pub(crate) enum Code {
    /// A token of a form.
    Part(Token),
    /// A prefix operator behind its operand.
    Prefix(Token),
    /// An infix operator behind its operands, and whether it goes on with the chain on its left.
    Infix(Token, bool),
    /// A form of so many parts, each a token or an operand.
    Close(Construct, usize),
}

/// An operand that was read.
#[derive(Clone, Copy)]
pub(crate) struct Operand {
    pub(crate) class: Class,
    /// Its levels, or 401 where it has more.
    pub(crate) levels: u16,
}

/// A form that is open.
#[derive(Clone, Copy)]
pub(crate) struct Form {
    /// What comes behind the parts that were read.
    pub(crate) next: Next,
    /// How many parts were read.
    pub(crate) count: usize,
    /// The most levels of an operand among them.
    pub(crate) levels: u16,
    /// The least column of the tokens around the form.
    pub(crate) outer: u64,
}

/// What is open.
#[derive(Drop)]
pub(crate) enum Open {
    Before(Token),
    Between(Operand, Token),
    Within(Form),
}

/// What is behind the last token.
#[derive(Clone, Copy)]
pub(crate) enum Mode {
    /// An operand is to come.
    Want,
    Have(Operand),
    /// A token of the innermost form is to come.
    Read,
    /// No expression begins so.
    Stuck,
}
