// Kinds of bytes.
ghost use Rattle.std.specs.Prelude.{◌≡◌};
ghost use Rattle.tla_lexer.specs.Classes.{is_in, BeginsWith};

/// A kind of bytes that stand in runs.
#[derive(Clone, Copy, Debug)]
pub(crate) enum Class {
    /// A letter, a digit or `_`.
    WordByte,
    Letter,
    Digit,
    Dash,
    EqualSign,
    Blank,
}

impl Class {
    pub(crate) fn has(self, byte: u8) -> bool
        ensures { result ≡ is_in self byte }
    {
        match self {
            Class::WordByte => {
                (b'A' <= byte && byte <= b'Z')
                    || (b'a' <= byte && byte <= b'z')
                    || (b'0' <= byte && byte <= b'9')
                    || byte == b'_'
            }
            Class::Letter => (b'A' <= byte && byte <= b'Z') || (b'a' <= byte && byte <= b'z'),
            Class::Digit => b'0' <= byte && byte <= b'9',
            Class::Dash => byte == b'-',
            Class::EqualSign => byte == b'=',
            Class::Blank => {
                byte == b' ' || byte == b'\t' || byte == b'\n' || byte == 12 || byte == b'\r'
            }
        }
    }
}

/// How many bytes of this kind the bytes begin with.
pub(crate) fn run_length(bytes: &[u8], class: Class) -> usize
    ensures { BeginsWith (is_in class) bytes.now result }
{
    for i in 0..bytes.len() {
        if !class.has(bytes[i]) {
            return i;
        }
    }
    bytes.len()
}
