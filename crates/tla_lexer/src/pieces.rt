// Pieces of a text.
use crate::token::TokenKind;

/// What a string of bytes is, as a whole.
#[derive(Drop)]
pub(crate) enum Piece {
    Blanks,
    /// `\*` up to the end of the line.
    LineComment,
    /// `(*` up to its `*)`.
    BlockComment,
    /// `(*` up to the end of the text, without its `*)`.
    OpenComment,
    Lexeme(TokenKind),
    /// A number that is greater than `2^127 - 1`.
    BigNumber,
    /// What is no token.
    Bad,
}

/// The longest piece that a text begins with, and the number of its bytes.
#[derive(Drop)]
pub(crate) struct Found {
    pub(crate) piece: Piece,
    pub(crate) length: usize,
}
