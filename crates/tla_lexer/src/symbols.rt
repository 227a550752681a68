// Symbols.
ghost use Rattle.std.specs.Prelude.{◌≡◌, map, option_map, IfOk, IfSome, IfNone};
ghost use Rattle.tla_lexer.specs.Symbols.{look_up, symbol_of, IsLongestSymbol, NoSymbolPast};
ghost use Rattle.tla_lexer.specs.Pieces.{symbol_or_bad};
ghost use Rattle.tla_lexer.specs.declared.pieces.Piece.TheVariants.{Lexeme};
ghost use Rattle.tla_lexer.specs.declared.token.TokenKind.TheVariants.{Symbol};

use crate::pieces::Piece;
use crate::token::TokenKind;
use std::alloc::{AllocError, Global};
use tla_values::Text;

// Each spelling with the symbol that it stands for, by the number of bytes.

static OF_ONE: [(&[u8], &[u8]); 24] = [
    (b"(", b"("),
    (b")", b")"),
    (b"[", b"["),
    (b"]", b"]"),
    (b"{", b"{"),
    (b"}", b"}"),
    (b",", b","),
    (b":", b":"),
    (b".", b"."),
    (b"!", b"!"),
    (b"'", b"'"),
    (b"@", b"@"),
    (b"_", b"_"),
    (b"+", b"+"),
    (b"-", b"-"),
    (b"*", b"*"),
    (b"%", b"%"),
    (b"^", b"^"),
    (b"=", b"="),
    (b"#", b"#"),
    (b"<", b"<"),
    (b">", b">"),
    (b"~", b"~"),
    (b"\\", b"\\"),
];

static OF_TWO: [(&[u8], &[u8]); 24] = [
    (b"<<", b"<<"),
    (b">>", b">>"),
    (b"==", b"=="),
    (b"<-", b"<-"),
    (b"->", b"->"),
    (b":=", b":="),
    (b":>", b":>"),
    (b"@@", b"@@"),
    (b"..", b".."),
    (b"/=", b"#"),
    (b"<=", b"<="),
    (b"=<", b"<="),
    (b">=", b">="),
    (b"=>", b"=>"),
    (b"/\\", b"/\\"),
    (b"\\/", b"\\/"),
    (b"~>", b"~>"),
    (b"[]", b"[]"),
    (b"<>", b"<>"),
    (b"]_", b"]_"),
    (b"\\X", b"\\X"),
    (b"\\o", b"\\o"),
    (b"\\E", b"\\E"),
    (b"\\A", b"\\A"),
];

static OF_THREE: [(&[u8], &[u8]); 4] = [
    (b"|->", b"|->"),
    (b"<=>", b"<=>"),
    (b">>_", b">>_"),
    (b"\\in", b"\\in"),
];

static OF_MORE: [(&[u8], &[u8]); 16] = [
    (b"\\leq", b"<="),
    (b"\\geq", b">="),
    (b"\\equiv", b"<=>"),
    (b"\\land", b"/\\"),
    (b"\\lor", b"\\/"),
    (b"\\lnot", b"~"),
    (b"\\neg", b"~"),
    (b"\\notin", b"\\notin"),
    (b"\\subseteq", b"\\subseteq"),
    (b"\\cup", b"\\cup"),
    (b"\\union", b"\\cup"),
    (b"\\cap", b"\\cap"),
    (b"\\intersect", b"\\cap"),
    (b"\\times", b"\\X"),
    (b"\\circ", b"\\o"),
    (b"\\div", b"\\div"),
];

/// The symbol that the bytes are a spelling of.
pub(crate) fn symbol_of(spelling: &[u8]) -> Option<&'static [u8]>
    ensures { option_map (λ s. s.now) result ≡ symbol_of spelling.now }
{
    let length = spelling.len();
    if length == 1 {
        look_up(spelling, &OF_ONE)
    } else if length == 2 {
        look_up(spelling, &OF_TWO)
    } else if length == 3 {
        look_up(spelling, &OF_THREE)
    } else {
        look_up(spelling, &OF_MORE)
    }
}

fn look_up(spelling: &[u8], table: &[(&'static [u8], &'static [u8])]) -> Option<&'static [u8]>
    ensures { option_map (λ s. s.now) result
        ≡ look_up spelling.now (map (λ row. (row.0.now, row.1.now)) table.now) }
{
    for row in table {
        if spelling == row.0 {
            return Some(row.1);
        }
    }
    None
}

/// The symbol with the longest spelling that the bytes begin with, and the number of its bytes.
pub(crate) fn longest_symbol(bytes: &[u8]) -> Option<(&'static [u8], usize)>
    requires { NoSymbolPast bytes.now 3 }
    ensures found { IfSome result (λ r. IsLongestSymbol bytes.now r.0.now r.1) }
    ensures none { IfNone result (NoSymbolPast bytes.now 0) }
{
    let mut length = bytes.len().min(3);
    while length > 0 {
        if let Some(symbol) = symbol_of(&bytes[..length]) {
            return Some((symbol, length));
        }
        length -= 1;
    }
    None
}

/// The symbol that the bytes are a spelling of, or what is no token.
pub(crate) fn symbol_or_bad(alloc: Global, spelling: &[u8]) -> Result<Piece, AllocError>
    ensures { IfOk result (λ piece. piece ≡ symbol_or_bad spelling.now) }
{
    match symbol_of(spelling) {
        Some(symbol) => symbol_piece(alloc, symbol),
        None => Ok(Piece::Bad),
    }
}

/// The piece of this symbol.
pub(crate) fn symbol_piece(alloc: Global, symbol: &[u8]) -> Result<Piece, AllocError>
    ensures { IfOk result (λ piece. piece ≡ Lexeme (Symbol symbol.now)) }
{
    let symbol = Text::from_vec(Vec::from_slice(alloc, symbol)?);
    Ok(Piece::Lexeme(TokenKind::Symbol(symbol)))
}
