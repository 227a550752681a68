// The aliases of types that notes give.
ghost use Rattle.std.specs.Prelude.{◌≡◌, ◌≢◌, ◌++◌, ℕ, List, [], Some, None, IfOk, IfSome, IfNone};
ghost use Rattle.tla_lexer.specs.Classes.{BeginsWith, is_blank};
ghost use Rattle.tla_parser.specs.Aliases.{alias_at, aliases_in, aliases_of, behind, first_of, in_type, name_in, past, type_in};
ghost use Rattle.tla_parser.specs.inner.Notes.{passes};

use std::alloc::{AllocError, Global};
use tla_lexer::Token;
use tla_values::{List, Text, is_name_byte};

// A kind of bytes that stand in runs.
#[derive(Clone, Copy)]
pub(crate) enum Kind {
    Blank,
    NameByte,
    // What stands in the text of a type.
    TypeByte,
}

fn passes(kind: Kind, byte: u8) -> bool
    ensures { result ≡ passes kind byte }
{
    match kind {
        Kind::Blank => {
            byte == b' ' || byte == b'\t' || byte == b'\n' || byte == 12 || byte == b'\r'
        }
        Kind::NameByte => is_name_byte(byte),
        Kind::TypeByte => !(byte == b';' || byte == b'@'),
    }
}

// How many bytes of this kind the bytes begin with.
fn run_length(bytes: &[u8], kind: Kind) -> usize
    ensures { BeginsWith (passes kind) bytes.now result }
{
    for i in 0..bytes.len() {
        if !passes(kind, bytes[i]) {
            return i;
        }
    }
    bytes.len()
}

fn after_blanks<'a>(bytes: &'a [u8]) -> &'a [u8]
    ensures { result.now ≡ past is_blank bytes.now }
{
    &bytes[run_length(bytes, Kind::Blank)..]
}

fn after<'a>(bytes: &'a [u8], beginning: &[u8]) -> Option<&'a [u8]>
    ensures some { IfSome result (λ rest. bytes.now ≡ beginning.now ++ rest.now) }
    ensures none { IfNone result ((rest : List ℕ) → bytes.now ≢ beginning.now ++ rest) }
{
    bytes.strip_prefix(beginning)
}

// The bytes behind this beginning.
fn behind<'a>(bytes: &'a [u8], beginning: &[u8]) -> Option<&'a [u8]>
    ensures some { IfSome result (λ rest. behind beginning.now bytes.now ≡ Some rest.now) }
    ensures none { IfNone result (behind beginning.now bytes.now ≡ None) }
{
    after(bytes, beginning)
}

fn text(alloc: Global, bytes: &[u8]) -> Result<Text, AllocError>
    ensures { IfOk result (λ t. t ≡ bytes.now) }
{
    Ok(Text::from_vec(Vec::from_slice(alloc, bytes)?))
}

// The type up to its `;`, under this name.
fn type_in(alloc: Global, name: &[u8], bytes: &[u8]) -> Result<Option<(Text, Text)>, AllocError>
    ensures { IfOk result (λ r. r ≡ type_in name.now bytes.now) }
{
    let end = run_length(bytes, Kind::TypeByte);
    if end < bytes.len() && bytes[end] == b';' {
        let name = text(alloc, name)?;
        Ok(Some((name, text(alloc, &bytes[..end])?)))
    } else {
        Ok(None)
    }
}

// The name, and behind `=` its type.
fn name_in(alloc: Global, bytes: &[u8]) -> Result<Option<(Text, Text)>, AllocError>
    ensures { IfOk result (λ r. r ≡ name_in bytes.now) }
{
    let end = run_length(bytes, Kind::NameByte);
    if end == 0 {
        return Ok(None);
    }
    match behind(after_blanks(&bytes[end..]), b"=") {
        Some(rest) => type_in(alloc, &bytes[..end], rest),
        None => Ok(None),
    }
}

// The alias that the bytes begin with.
fn alias_at(alloc: Global, bytes: &[u8]) -> Result<Option<(Text, Text)>, AllocError>
    ensures { IfOk result (λ r. r ≡ alias_at bytes.now) }
{
    match behind(bytes, b"@typeAlias:") {
        Some(rest) => name_in(alloc, after_blanks(rest)),
        None => Ok(None),
    }
}

// With the alias that the bytes begin with.
fn with_alias(
    alloc: Global,
    found: List<(Text, Text)>,
    bytes: &[u8],
) -> Result<List<(Text, Text)>, AllocError>
    ensures { IfOk result (λ r. r ≡ found ++ first_of (alias_at bytes.now) []) }
{
    let mut found = found;
    if let Some(alias) = alias_at(alloc, bytes)? {
        found.push(alias)?;
    }
    Ok(found)
}

// With the aliases of a text.
fn with_aliases(
    alloc: Global,
    found: List<(Text, Text)>,
    bytes: &[u8],
) -> Result<List<(Text, Text)>, AllocError>
    ensures { IfOk result (λ r. r ≡ found ++ aliases_in bytes.now) }
{
    let mut found = found;
    for i in 0..bytes.len() {
        found = with_alias(alloc, found, &bytes[i..])?;
    }
    Ok(found)
}

/// The aliases that the notes of the tokens give, in their order.
pub(crate) fn aliases_of(alloc: Global, tokens: &[Token]) -> Result<List<(Text, Text)>, AllocError>
    ensures { IfOk result (λ r. r ≡ aliases_of tokens.now) }
{
    let mut found = List::new(alloc);
    for token in tokens {
        found = with_aliases(alloc, found, token.notes.bytes())?;
    }
    Ok(found)
}
