// Comments.
ghost use Rattle.std.specs.Prelude.{◌≡◌, not, true};
ghost use Rattle.tla_lexer.specs.Classes.{is_line_feed, BeginsWith};
ghost use Rattle.tla_lexer.specs.inner.Comments.{begins_with_pair, IsMark};
ghost use Rattle.tla_lexer.specs.Pieces.{IsFound};

use crate::pieces::{Found, Piece};

/// The comment that the bytes begin with at `\*`, up to the end of the line.
pub(crate) fn line_comment(bytes: &[u8]) -> Found
    requires { begins_with_pair 92 42 bytes.now ≡ true }
    ensures { IsFound bytes.now result.piece result.length }
{
    let length = line_length(bytes);
    Found {
        piece: Piece::LineComment,
        length,
    }
}

// How many bytes stand before the end of the line.
fn line_length(bytes: &[u8]) -> usize
    ensures { BeginsWith (λ b. not (is_line_feed b)) bytes.now result }
{
    for i in 0..bytes.len() {
        if bytes[i] == b'\n' {
            return i;
        }
    }
    bytes.len()
}

/// The comment that the bytes begin with at `(*`, up to the `*)` that closes it or to the end.
pub(crate) fn block_comment(bytes: &[u8]) -> Found
    requires { begins_with_pair 40 42 bytes.now ≡ true }
    ensures { IsFound bytes.now result.piece result.length }
{
    let mut depth: usize = 1;
    let mut at = 2;
    while at < bytes.len() {
        match next_mark(&bytes[at..]) {
            Mark::Opens => {
                depth += 1;
                at += 2;
            }
            Mark::Closes => {
                depth -= 1;
                at += 2;
                if depth == 0 {
                    return Found {
                        piece: Piece::BlockComment,
                        length: at,
                    };
                }
            }
            Mark::Neither => at += 1,
        }
    }
    Found {
        piece: Piece::OpenComment,
        length: bytes.len(),
    }
}

// What stands next inside a comment.
#[derive(Clone, Copy, Debug)]
enum Mark {
    // `(*`
    Opens,
    // `*)`
    Closes,
    Neither,
}

fn next_mark(rest: &[u8]) -> Mark
    ensures { IsMark rest.now result }
{
    if begins_with_pair(rest, b'(', b'*') {
        Mark::Opens
    } else if begins_with_pair(rest, b'*', b')') {
        Mark::Closes
    } else {
        Mark::Neither
    }
}

/// Whether the two bytes stand at the front.
pub(crate) fn begins_with_pair(bytes: &[u8], first: u8, second: u8) -> bool
    ensures { result ≡ begins_with_pair first second bytes.now }
{
    match bytes {
        [a, b, ..] => *a == first && *b == second,
        _ => false,
    }
}
