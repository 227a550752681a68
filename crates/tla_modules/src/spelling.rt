// The module that the bytes of a file spell.
ghost use Rattle.std.specs.Prelude.{◌≡◌, ◌<◌, ◌≤◌, ℕ, List as Items, length, MatchResult};
ghost use Rattle.tla_lexer.specs.Runs.{IsTokenRun};
ghost use Rattle.tla_modules.specs.Sources.{IsSpelled, module_limit};
ghost use Rattle.tla_modules.specs.inner.Reading.{IsMisspelledHere};

use crate::fault::ModuleFault;
use std::alloc::{AllocError, Global};
use tla_lexer::{LexFault, Tokens, tokens};
use tla_meaning::Module;
use tla_parser::{ParseFault, parse};
use tla_values::{Text, copy_text, same_text};

// The module of this name that the bytes of the file of this number spell.
pub(crate) fn spelled(
    alloc: Global,
    number: u32,
    name: &Text,
    bytes: &[u8],
) -> Result<Module, ModuleFault>
    requires { length bytes.now ≤ module_limit }
    ensures { MatchResult result (λ m. IsSpelled number bytes.now m × (m.name ≡ name.now)) (IsMisspelledHere number bytes.now name.now) }
{
    match tokens(alloc, number, bytes) {
        Ok(tokens) => of_tokens(alloc, name, &tokens),
        Err(LexFault::Memory(fail)) => Err(ModuleFault::Memory(fail)),
        Err(fault) => Err(ModuleFault::Lex(fault)),
    }
}

// Where these are the tokens of the bytes.
fn of_tokens(alloc: Global, name: &Text, tokens: &Tokens) -> Result<Module, ModuleFault>
    requires { 0 < length tokens.now }
    ensures { (number : ℕ) (bytes : Items ℕ) → IsTokenRun number bytes tokens.now
        → MatchResult result (λ m. IsSpelled number bytes m × (m.name ≡ name.now)) (IsMisspelledHere number bytes name.now) }
{
    match parse(alloc, tokens) {
        Ok(source) => named(alloc, name, source),
        Err(ParseFault::Memory(fail)) => Err(ModuleFault::Memory(fail)),
        Err(fault) => Err(ModuleFault::Parse(fault)),
    }
}

// Where the bytes spell this module.
fn named(alloc: Global, name: &Text, source: Module) -> Result<Module, ModuleFault>
    ensures { (number : ℕ) (bytes : Items ℕ) → IsSpelled number bytes source
        → MatchResult result (λ m. IsSpelled number bytes m × (m.name ≡ name.now)) (IsMisspelledHere number bytes name.now) }
{
    if same_text(&source.name, name) {
        return Ok(source);
    }
    let wanted = copy_text(alloc, name)?;
    let found = copy_text(alloc, &source.name)?;
    Err(ModuleFault::NameDiffers(wanted, found))
}
