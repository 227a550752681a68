// The tokens of a module.
ghost use Rattle.std.specs.Prelude.{◌≡◌, ◌⊎◌, ◌++◌, ◌<◌, ◌≤◌, ℕ, List, not, false, map, drop, take, length, alloc_error, IfOk, IfErr, MatchResult, Some};
ghost use Rattle.std.specs.List.{join_with_byte};
ghost use Rattle.std.specs.Result.{IsErrAnd};
ghost use Rattle.tla_meaning.specs.declared.place.Place.{Place};
ghost use Rattle.tla_lexer.specs.declared.token.Token.{Token as Item};
ghost use Rattle.tla_lexer.specs.declared.fault.LexFault.{LexFault as Wrong};
ghost use Rattle.tla_lexer.specs.Header.{IsModuleIn};
ghost use Rattle.tla_lexer.specs.Pieces.{piece_of};
ghost use Rattle.tla_lexer.specs.Runs.{is_fault, is_last, notes_behind, token_of, IsFault, IsRefusal, IsTokenRun};

use crate::fault::LexFault;
use crate::header::module_start;
use crate::longest::longest_piece;
use crate::pieces::{Found, Piece};
use crate::position::Position;
use crate::token::{Token, TokenKind, Tokens};
use std::alloc::{AllocError, Global};
use tla_meaning::Place;
use tla_values::{List, Text};

/// The tokens of the module in a file of this number, or the first fault in it. (Lamport, Specifying Systems,
/// chapter 15.)
///
/// The file has at most 268,435,456 bytes. There is at least one token, the dashes of the header. All bytes before the module's header and behind its `====` are ignored,
/// though places count those before; where no `====` stands, the tokens have no `End`. Lines and columns are from 1,
/// and at most 2^31 + 1. The time is in proportion to the bytes, and the memory to the tokens and notes.
pub fn tokens(alloc: Global, file: u32, bytes: &[u8]) -> Result<Tokens, LexFault>
    requires { length bytes.now ≤ 268435456 }
    ensures run { IfOk result (λ found. IsTokenRun file bytes.now found) }
    ensures some { IfOk result (λ found. 0 < length found) }
    ensures fault { IfErr result (λ e. IsFault file bytes.now e ⊎ (e ≡ LexFault.Memory alloc_error)) }

    // A file has one run of tokens or one first fault, and that is the answer.
    ensures one_run { (others : List Item) → IsTokenRun file bytes.now others
        → MatchResult result (λ found. found ≡ others) (λ e. e ≡ LexFault.Memory alloc_error) }
    ensures one_fault { (e : Wrong) → IsFault file bytes.now e
        → IsErrAnd result (λ d. (d ≡ e) ⊎ (d ≡ LexFault.Memory alloc_error)) }
{
    match module_start(bytes) {
        Some(start) => module_tokens(alloc, file, bytes, start),
        None => Err(LexFault::NoHeader(file)),
    }
}

fn module_tokens(alloc: Global, file: u32, bytes: &[u8], start: usize) -> Result<Tokens, LexFault>
    requires size { length bytes.now ≤ 268435456 }
    requires start { start ≤ length bytes.now }
    requires found { IsModuleIn bytes.now (take start bytes.now) (drop start bytes.now) }
    ensures run { IfOk result (λ found. IsTokenRun file bytes.now found) }
    ensures fault { IfErr result (λ e. IsFault file bytes.now e ⊎ (e ≡ LexFault.Memory alloc_error)) }
{
    let mut at = start;
    let mut position = Position::START.behind(&bytes[..start]);
    let mut tokens = Vec::new(alloc);
    let mut notes = Vec::new(alloc);
    while at < bytes.len() {
        let Found { piece, length } = longest_piece(alloc, &bytes[at..])?;
        let spelling = &bytes[at..at + length];
        let place = position.in_file(file);
        if !take_in(alloc, piece, spelling, place, &mut tokens, &mut notes)? {
            return Ok(List::from_vec(tokens));
        }
        position = position.behind(spelling);
        at += length;
    }
    Ok(List::from_vec(tokens))
}

/// The law that a file has at most one run of tokens and at most one first fault, and not both. It does nothing.
pub fn one_answer()
    ensures run { (file : ℕ) (bytes : List ℕ) (found others : List Item)
        → IsTokenRun file bytes found → IsTokenRun file bytes others → found ≡ others }
    ensures fault { (file : ℕ) (bytes : List ℕ) (d e : Wrong) → IsFault file bytes d → IsFault file bytes e → d ≡ e }
    ensures apart { (file : ℕ) (bytes : List ℕ) (found : List Item) (e : Wrong)
        → IsTokenRun file bytes found → IsFault file bytes e → ⊥ }
{}

// Takes in the next piece, which stands at this place. Whether anything is read behind it.
fn take_in<'a>(
    alloc: Global,
    piece: Piece,
    spelling: &'a [u8],
    place: Place,
    tokens: &mut Vec<Token>,
    notes: &mut Vec<&'a [u8]>,
) -> Result<bool, LexFault>
    requires { piece_of spelling.now ≡ Some piece }
    ensures goes_on { IfOk result (λ b. is_last piece ≡ not b) }
    ensures sound { IfOk result (λ b. is_fault piece ≡ false) }
    ensures tokens { IfOk result (λ b. tokens.new.items
        ≡ tokens.old.items ++ token_of place (map (λ s. s.now) notes.old.items) piece) }
    ensures notes { IfOk result (λ b. map (λ s. s.now) notes.new.items
        ≡ notes_behind (map (λ s. s.now) notes.old.items) piece spelling.now) }
    ensures fault { IfErr result (λ e. IsRefusal piece place e) }
{
    match piece {
        Piece::Blanks => {}
        Piece::LineComment => notes.push(&spelling[2..])?,
        Piece::BlockComment => notes.push(&spelling[2..spelling.len() - 2])?,
        Piece::Lexeme(kind) => {
            let goes_on = !matches!(kind, TokenKind::End);
            let text = joined(alloc, notes)?;
            tokens.push(Token {
                kind,
                place,
                notes: text,
            })?;
            notes.clear();
            return Ok(goes_on);
        }
        Piece::OpenComment => return Err(LexFault::OpenComment(place)),
        Piece::BigNumber => return Err(LexFault::BigLiteral(place)),
        Piece::Bad => return Err(LexFault::BadToken(place)),
    }
    Ok(true)
}

// The notes with line feeds between them.
fn joined(alloc: Global, notes: &[&[u8]]) -> Result<Text, AllocError>
    ensures { IfOk result (λ text. text ≡ join_with_byte 10 (map (λ s. s.now) notes.now)) }
{
    let mut text = Vec::new(alloc);
    for (i, note) in notes.iter().enumerate() {
        if i > 0 {
            text.push(b'\n')?;
        }
        text.extend_from_slice(note)?;
    }
    Ok(Text::from_vec(text))
}
