// The pieces of a type's text by their bytes.
ghost use Rattle.std.specs.Prelude.{◌≡◌, ◌||◌, drop};
ghost use Rattle.std.specs.List.{list_all, list_any};
ghost use Rattle.snowcat_rows.specs.LiteralTypes.{in_type_name, in_word, is_capital, is_digit, is_small, is_type_name, is_word};
ghost use Rattle.snowcat_rows.specs.TypeTexts.{has_letter, is_among, is_blank, is_name, is_variable};
ghost use Rattle.snowcat_rows.specs.inner.Machine.{alias_front, covers, is_front, keywords, same_names, sign_of, symbol_of, word_front};

use crate::marks::Sign;
use tla_values::Text;

fn is_capital(byte: u8) -> bool
    ensures { result ≡ is_capital byte }
{
    b'A' <= byte && byte <= b'Z'
}

fn is_small(byte: u8) -> bool
    ensures { result ≡ is_small byte }
{
    b'a' <= byte && byte <= b'z'
}

fn is_digit(byte: u8) -> bool
    ensures { result ≡ is_digit byte }
{
    b'0' <= byte && byte <= b'9'
}

pub(crate) fn in_word(byte: u8) -> bool
    ensures { result ≡ in_word byte }
{
    is_capital(byte) || is_small(byte) || is_digit(byte) || byte == b'_'
}

fn in_type_name(byte: u8) -> bool
    ensures { result ≡ in_type_name byte }
{
    is_capital(byte) || is_digit(byte) || byte == b'_'
}

pub(crate) fn is_blank(byte: u8) -> bool
    ensures { result ≡ is_blank byte }
{
    byte == b' ' || byte == b'\t' || byte == b'\n' || byte == b'\x0c' || byte == b'\r'
}

// The bytes from this place on.
pub(crate) fn after(bytes: &[u8], n: usize) -> &[u8]
    ensures { result.now ≡ drop n bytes.now }
{
    if n < bytes.len() { &bytes[n..] } else { &[] }
}

pub(crate) fn are_word(bytes: &[u8]) -> bool
    ensures { result ≡ list_all in_word bytes.now }
{
    bytes.iter().all(|byte| in_word(*byte))
}

fn are_digits(bytes: &[u8]) -> bool
    ensures { result ≡ list_all is_digit bytes.now }
{
    bytes.iter().all(|byte| is_digit(*byte))
}

fn are_capitals(bytes: &[u8]) -> bool
    ensures { result ≡ list_all in_type_name bytes.now }
{
    bytes.iter().all(|byte| in_type_name(*byte))
}

pub(crate) fn is_word(bytes: &[u8]) -> bool
    ensures { result ≡ is_word bytes.now }
{
    match bytes {
        [] => false,
        [_, ..] => are_word(bytes),
    }
}

// The name of an uninterpreted type.
pub(crate) fn is_type_name(word: &[u8]) -> bool
    ensures { result ≡ is_type_name word.now }
{
    match word {
        [] => false,
        [first, ..] => is_capital(*first) && are_capitals(&word[1..]),
    }
}

pub(crate) fn is_variable(word: &[u8]) -> bool
    ensures { result ≡ is_variable word.now }
{
    match word {
        [] => false,
        [first, ..] => is_small(*first) && are_digits(&word[1..]),
    }
}

fn has_letter(word: &[u8]) -> bool
    ensures { result ≡ has_letter word.now }
{
    for byte in word {
        if is_capital(*byte) || is_small(*byte) {
            return true;
        }
    }
    false
}

// The name of a field or of an alias.
pub(crate) fn is_name(word: &[u8]) -> bool
    ensures { result ≡ is_name word.now }
{
    are_word(word) && has_letter(word)
}

pub(crate) fn is_among(name: &[u8], names: &[Text]) -> bool
    ensures { result ≡ is_among name.now names.now }
{
    for other in names {
        if name == other.bytes() {
            return true;
        }
    }
    false
}

fn covers(names: &[Text], others: &[Text]) -> bool
    ensures { result ≡ covers names.now others.now }
{
    names.iter().all(|name| is_among(name.bytes(), others))
}

pub(crate) fn same_names(names: &[Text], others: &[Text]) -> bool
    ensures { result ≡ same_names names.now others.now }
{
    covers(names, others) && covers(others, names)
}

// What a piece is.
pub(crate) fn sign_of(piece: &[u8]) -> Sign
    ensures { result ≡ sign_of piece.now }
{
    match piece {
        [] => Sign::Bad,
        [first, ..] => {
            if in_word(*first) {
                Sign::Word
            } else if *first == b'$' {
                Sign::Alias
            } else {
                symbol_of(piece)
            }
        }
    }
}

fn symbol_of(piece: &[u8]) -> Sign
    ensures { result ≡ symbol_of piece.now }
{
    if piece == b"->".as_slice() {
        Sign::Arrow
    } else if piece == b"=>".as_slice() {
        Sign::Result
    } else if piece == b",".as_slice() {
        Sign::Comma
    } else if piece == b":".as_slice() {
        Sign::Colon
    } else if piece == b"(".as_slice() {
        Sign::Open
    } else if piece == b")".as_slice() {
        Sign::Close
    } else if piece == b"<<".as_slice() {
        Sign::Left
    } else if piece == b">>".as_slice() {
        Sign::Right
    } else if piece == b"{".as_slice() {
        Sign::Begin
    } else if piece == b"}".as_slice() {
        Sign::Finish
    } else {
        Sign::Bad
    }
}

#[tactic(auto, using(crate::proofs::Fronts::starts_front))]
pub(crate) fn is_front(bytes: &[u8], whole: &[u8]) -> bool
    ensures { result ≡ is_front bytes.now whole.now }
{
    whole.starts_with(bytes)
}

fn keyword_front(word: &[u8]) -> bool
    ensures { result ≡ list_any (λ k. is_front word.now k) keywords }
{
    is_front(word, b"Bool")
        || is_front(word, b"Int")
        || is_front(word, b"Str")
        || is_front(word, b"Set")
        || is_front(word, b"Seq")
}

// A type of one word, or an alias, may begin so.
pub(crate) fn type_front(piece: &[u8]) -> bool
    ensures { result ≡ (word_front piece.now || alias_front piece.now) }
{
    keyword_front(piece) || is_type_name(piece) || is_variable(piece) || alias_front(piece)
}

fn alias_front(piece: &[u8]) -> bool
    ensures { result ≡ alias_front piece.now }
{
    match piece {
        [] => false,
        [first, ..] => *first == b'$' && are_word(&piece[1..]),
    }
}
