// What is read of a type's text.
use tla_values::{List, Text};

/// What was read of a type's text, each construct behind its parts.
#[derive(Drop)]
pub(crate) enum Mark {
    Bool,
    Int,
    Str,
    /// An uninterpreted type.
    Named(Text),
    /// A type variable.
    Var(Text),
    /// A use of an alias, without its `$`.
    Alias(Text),
    /// A set of the last type.
    Set,
    /// A sequence of the last type.
    Seq,
    /// A function between the last two types.
    Function,
    /// No types, as a list.
    Nothing,
    /// The last type, as a list.
    One,
    /// The last type joins the list before it.
    Join,
    /// The last list is a tuple.
    Tuple,
    /// The last list has the types of the fields of these names; a row variable may follow.
    Record(List<Text>, Option<Text>),
    /// The last list has the arguments of an operator, the last type is its result.
    Operator,
}

/// What is open while a type's text is read.
#[derive(Drop)]
pub(crate) enum Frame {
    /// `Set(`
    Set,
    /// `Seq(`
    Seq,
    /// `<<`, and whether items stand before this one.
    Tuple(bool),
    /// `(`, and whether types stand before this one.
    Paren(bool),
    /// `{` with the names of the fields so far.
    Fields(List<Text>),
    /// `{` with the names of the fields before, and the name of this one.
    Field(List<Text>, Text),
    /// What stands left of `->` was read.
    Function,
    /// What stands left of `=>` was read.
    Operator,
}

/// What may come next.
#[derive(Drop)]
pub(crate) enum Mode {
    /// A type begins.
    Begins,
    /// Behind `Set` or `Seq`.
    Headed,
    /// The name of a field, or a row variable.
    Name,
    /// Behind such a word.
    Called(Text),
    /// Behind a type that may stand left of `->`; and whether it is one type in parentheses.
    Ended(bool),
    /// Behind no type or several types in parentheses.
    Closed,
}

/// What a piece is.
#[derive(Clone, Copy, Drop)]
pub(crate) enum Sign {
    Word,
    Alias,
    Arrow,
    Result,
    Comma,
    Colon,
    Open,
    Close,
    Left,
    Right,
    Begin,
    Finish,
    Bad,
}

/// What has a number.
#[derive(Drop)]
pub(crate) enum Seen {
    /// A type variable of the text.
    Type(Text),
    /// A row variable of the text.
    Row(Text),
    /// A variable of an alias that stands in the text.
    Own,
}
