// Where a module begins.
ghost use Rattle.std.specs.Prelude.{◌≡◌, take, drop, IfSome, IfNone, ◌≤◌, length};
ghost use Rattle.tla_lexer.specs.Classes.{is_blank};
ghost use Rattle.tla_lexer.specs.Header.{behind_run, says_module, IsModuleIn, HasNoHeader};

use crate::classes::{Class, run_length};

/// The number of bytes before the module.
pub(crate) fn module_start(bytes: &[u8]) -> Option<usize>
    ensures within { IfSome result (λ start. start ≤ length bytes.now) }
    ensures found { IfSome result (λ start. IsModuleIn bytes.now (take start bytes.now) (drop start bytes.now)) }
    ensures none { IfNone result (HasNoHeader bytes.now) }
{
    let mut at = 0;
    while at < bytes.len() {
        let rest = &bytes[at..];
        let dashes = run_length(rest, Class::Dash);
        if dashes >= 4 && says_module(&rest[dashes..]) {
            return Some(at);
        }
        at += dashes.max(1);
    }
    None
}

// Whether blanks or none stand here, and then the word MODULE.
fn says_module(rest: &[u8]) -> bool
    ensures { result ≡ says_module (behind_run is_blank rest.now) }
{
    is_module_word(&rest[run_length(rest, Class::Blank)..])
}

// Whether the word MODULE stands here, and a byte that is no part of it.
fn is_module_word(bytes: &[u8]) -> bool
    ensures { result ≡ says_module bytes.now }
{
    bytes.len() > 6 && bytes.starts_with(b"MODULE") && !Class::WordByte.has(bytes[6])
}
