// Names and reserved words.
ghost use Rattle.std.specs.List.{list_all, list_any};
ghost use Rattle.std.specs.Prelude.{◌≡◌, bytes_eq, map};
ghost use Rattle.tla_values.specs.Names.{begins_fairness, is_letter, is_name, is_name_byte, is_reserved, is_word};

const RESERVED_WORDS: [&[u8]; 43] = [
    b"ASSUME",
    b"ASSUMPTION",
    b"AXIOM",
    b"BOOLEAN",
    b"BY",
    b"CASE",
    b"CHOOSE",
    b"CONSTANT",
    b"CONSTANTS",
    b"COROLLARY",
    b"DOMAIN",
    b"ELSE",
    b"ENABLED",
    b"EXCEPT",
    b"EXTENDS",
    b"FALSE",
    b"IF",
    b"IN",
    b"INSTANCE",
    b"LAMBDA",
    b"LEMMA",
    b"LET",
    b"LOCAL",
    b"MODULE",
    b"OBVIOUS",
    b"OMITTED",
    b"OTHER",
    b"PROOF",
    b"PROPOSITION",
    b"QED",
    b"RECURSIVE",
    b"SF_",
    b"STRING",
    b"SUBSET",
    b"THEN",
    b"THEOREM",
    b"TRUE",
    b"UNCHANGED",
    b"UNION",
    b"VARIABLE",
    b"VARIABLES",
    b"WF_",
    b"WITH",
];

/// Whether the bytes are a name: letters, digits and `_` with a letter among them, no reserved word, and not begun
/// by `WF_` or `SF_`. Source: Specifying Systems, chapter 15.
#[tactic(auto, unfolding(crate::specs::Names::is_name))]
pub fn is_name(text: &[u8]) -> bool
    ensures { result ≡ is_name text.now }
{
    is_word(text) && !begins_fairness(text) && !is_reserved(text)
}

fn is_word(text: &[u8]) -> bool
    ensures { result ≡ is_word text.now }
{
    are_name_bytes(text) && has_letter(text)
}

fn are_name_bytes(text: &[u8]) -> bool
    ensures { result ≡ list_all is_name_byte text.now }
{
    text.iter().all(|byte| is_name_byte(*byte))
}

fn has_letter(text: &[u8]) -> bool
    ensures { result ≡ list_any is_letter text.now }
{
    text.iter().any(|byte| is_letter(*byte))
}

/// Whether the byte is a letter, a digit or `_`.
pub fn is_name_byte(byte: u8) -> bool
    ensures { result ≡ is_name_byte byte }
{
    is_letter(byte) || (b'0' <= byte && byte <= b'9') || byte == b'_'
}

fn is_letter(byte: u8) -> bool
    ensures { result ≡ is_letter byte }
{
    (b'A' <= byte && byte <= b'Z') || (b'a' <= byte && byte <= b'z')
}

fn begins_fairness(text: &[u8]) -> bool
    ensures { result ≡ begins_fairness text.now }
{
    text.starts_with(b"WF_") || text.starts_with(b"SF_")
}

#[tactic(auto, unfolding(crate::specs::Names::reserved_words))]
fn is_reserved(text: &[u8]) -> bool
    ensures { result ≡ is_reserved text.now }
{
    is_among(text, &RESERVED_WORDS)
}

fn is_among(text: &[u8], words: &[&[u8]]) -> bool
    ensures { result ≡ list_any (bytes_eq text.now) (map (λ w. w.now) words.now) }
{
    for word in words {
        if text == *word {
            return true;
        }
    }
    false
}
