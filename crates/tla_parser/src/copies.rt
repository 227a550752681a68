// Equal tokens.
ghost use Rattle.std.specs.Prelude.{◌≡◌, IfOk};

use std::alloc::{AllocError, Global};
use tla_lexer::{Token, TokenKind};
use tla_values::copy_text;

/// An equal kind.
pub(crate) fn copy_kind(alloc: Global, kind: &TokenKind) -> Result<TokenKind, AllocError>
    ensures { IfOk result (λ k. k ≡ kind.now) }
{
    match kind {
        TokenKind::Dashes => Ok(TokenKind::Dashes),
        TokenKind::End => Ok(TokenKind::End),
        TokenKind::Number(n) => Ok(TokenKind::Number(*n)),
        TokenKind::Name(text) => Ok(TokenKind::Name(copy_text(alloc, text)?)),
        TokenKind::Reserved(text) => Ok(TokenKind::Reserved(copy_text(alloc, text)?)),
        TokenKind::Quoted(text) => Ok(TokenKind::Quoted(copy_text(alloc, text)?)),
        TokenKind::ProofStep => Ok(TokenKind::ProofStep),
        TokenKind::Symbol(text) => Ok(TokenKind::Symbol(copy_text(alloc, text)?)),
    }
}

/// An equal token.
pub(crate) fn copy_token(alloc: Global, token: &Token) -> Result<Token, AllocError>
    ensures { IfOk result (λ t. t ≡ token.now) }
{
    let kind = copy_kind(alloc, &token.kind)?;
    let notes = copy_text(alloc, &token.notes)?;
    Ok(Token {
        kind,
        place: token.place,
        notes,
    })
}
