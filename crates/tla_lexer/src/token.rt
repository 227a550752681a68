// Tokens.
use tla_meaning::Place;
use tla_values::{List, Text};

/// What a token is.
#[derive(Drop)]
pub enum TokenKind {
    /// Four `-` or more.
    Dashes,
    /// Four `=` or more, which end the module.
    End,
    /// A run of digits, by its value.
    Number(i128),
    /// Letters, digits and `_` with a letter among them, by its bytes.
    Name(Text),
    /// A word that is no name, by its bytes; `WF_` and `SF_` are such words.
    Reserved(Text),
    /// A text between quotes, with the bytes that its escapes stand for.
    Quoted(Text),
    /// `<`, digits and `>` without blanks.
    ProofStep,
    /// A symbol or a word behind a backslash, by the first of its equal spellings.
    Symbol(Text),
}

/// A token, where it begins, and the inner texts of the comments between the token before it and itself, joined by
/// line feeds.
#[derive(Drop)]
pub struct Token {
    pub kind: TokenKind,
    pub place: Place,
    pub notes: Text,
}

/// The tokens of a module in their order.
pub type Tokens = List<Token>;
