// The bytes in front of others.
ghost use Rattle.std.specs.Prelude.{◌≡◌, ℕ, List, ◌++◌, MatchOption};
ghost use Rattle.trace_text.specs.inner.Reading.{IsRun, is_in};

// What stands behind this beginning.
pub(crate) fn behind<'a>(bytes: &'a [u8], beginning: &[u8]) -> Option<&'a [u8]>
    ensures { MatchOption result ((rest : List ℕ) → bytes.now ≡ beginning.now ++ rest → ⊥)
        (λ rest. bytes.now ≡ beginning.now ++ rest.now) }
{
    bytes.strip_prefix(beginning)
}

// A kind of bytes that stand in runs.
#[derive(Clone, Copy)]
pub(crate) enum Class {
    Digit,
    NameByte,
}

impl Class {
    fn has(self, byte: u8) -> bool
        ensures { result ≡ is_in self byte }
    {
        match self {
            Class::Digit => b'0' <= byte && byte <= b'9',
            Class::NameByte => tla_values::is_name_byte(byte),
        }
    }
}

// The bytes of this kind in front, as many as there are, and what stands behind them.
pub(crate) fn run(class: Class, bytes: &[u8]) -> (&[u8], &[u8])
    ensures { IsRun (is_in class) bytes.now result.0.now result.1.now }
{
    for i in 0..bytes.len() {
        if !class.has(bytes[i]) {
            return bytes.split_at(i);
        }
    }
    bytes.split_at(bytes.len())
}
