// The module of its tokens.
ghost use Rattle.std.specs.Prelude.{◌≡◌, ◌<◌, ◌≤◌, ◌∷◌, ◌++◌, [], List, length, reverse, IfOk, IfErr};
ghost use Rattle.tla_lexer.specs.declared.token.Token.{Token as Tok};
ghost use Rattle.tla_meaning.specs.declared.modules.Module.{Module as Tree};
ghost use Rattle.tla_parser.specs.Grammar.{SpelledWithin, Spells};
ghost use Rattle.tla_parser.specs.Refused.{IsRefusal};
ghost use Rattle.tla_parser.specs.Modules.{module_tree};
ghost use Rattle.tla_parser.specs.Spelling.{items};
ghost use Rattle.tla_parser.specs.Written.{Parts};
ghost use Rattle.tla_parser.specs.inner.Derivations.{posts};
ghost use Rattle.tla_parser.specs.inner.Moves.{is_finished};
ghost use Rattle.tla_parser.specs.inner.Notes.{noted};
ghost use Rattle.tla_parser.specs.inner.Refusals.{HasRead, IsEnd, IsReading, IsStanding};
ghost use Rattle.tla_parser.specs.inner.Recognition.{ended_module, module_start, outcome_mode, outcome_stack, stood};

use crate::aliases::aliases_of;
use crate::binders::Copies;
use crate::builder::Builder;
use crate::fault::ParseFault;
use crate::fields::Fields;
use crate::looks::look;
use crate::moves::{Mark, Next};
use crate::open::{Code, Form, Mode, Open};
use crate::places::{LEVELS, Places, Standing, what_stands};
use crate::recognizer::Recognizer;
use crate::sights::shown;
use crate::units::module_tree;
use std::alloc::{AllocError, Global};
use tla_lexer::{Token, Tokens};
use tla_meaning::{Module, Place};
use tla_values::{List, Text};

/// What is read of a module's tokens.
#[derive(Drop)]
pub(crate) struct Reading {
    pub(crate) recognizer: Recognizer,
    pub(crate) places: Places,
    pub(crate) fields: Fields,
}

/// Where a module begins.
pub(crate) fn begun(alloc: Global) -> Result<Recognizer, AllocError>
    ensures { IfOk result (λ r. stood Mode.Read r ≡ module_start) }
{
    let mut stack = Vec::new(alloc);
    let next = Next::Reads(Mark::AtTop);
    stack.push(Open::Within(Form {
        next,
        count: 0,
        levels: 0,
        outer: 0,
    }))?;
    Ok(Recognizer {
        stack,
        code: Vec::new(alloc),
        margin: 0,
    })
}

// Nothing is read.
fn unread(alloc: Global, first: Place) -> Result<Reading, AllocError>
    ensures { IfOk result (λ r. IsReading [] Mode.Read r) }
{
    Ok(Reading {
        recognizer: begun(alloc)?,
        places: Places::new(first),
        fields: Fields::new(alloc),
    })
}

// Reads a token.
fn read(alloc: Global, reading: &mut Reading, mode: Mode, token: &Token) -> Result<Mode, AllocError>
    ensures { (ts : List Tok) → IsReading ts mode reading.old
        → IfOk result (λ next. IsReading (ts ++ (token.now ∷ [])) next reading.new) }
{
    let before = what_stands(reading.recognizer.stack.as_slice(), mode);
    let count = reading.recognizer.code.len();
    let next = reading.recognizer.step(alloc, mode, token)?;
    let behind = what_stands(reading.recognizer.stack.as_slice(), next);
    reading
        .fields
        .walk(alloc, reading.recognizer.code.as_slice(), count)?;
    reading
        .places
        .read(before, behind, token, reading.fields.once);
    Ok(next)
}

// Reads the tokens of a module.
fn read_all(alloc: Global, reading: &mut Reading, tokens: &[Token]) -> Result<Mode, AllocError>
    ensures { IsReading [] Mode.Read reading.old → IfOk result (λ mode. IsReading tokens.now mode reading.new) }
{
    let mut mode = Mode::Read;
    for token in tokens {
        mode = read(alloc, reading, mode, token)?;
    }
    Ok(mode)
}

#[tactic(auto, unfolding(crate::specs::inner::Moves::is_finished))]
fn is_finished(mark: Mark) -> bool
    ensures { result ≡ is_finished mark }
{
    match mark {
        Mark::Finished => true,
        _ => false,
    }
}

fn ended_module(next: Next) -> bool
    ensures { result ≡ ended_module next }
{
    match next {
        Next::Reads(mark) => is_finished(mark),
        _ => false,
    }
}

// Why tokens that spell nothing are refused: by a form that is read nowhere, or else by the grammar.
fn refusal(
    alloc: Global,
    tokens: &[Token],
    places: &Places,
    end: Standing,
) -> Result<ParseFault, AllocError>
    ensures { 0 < length tokens.now → IsEnd tokens.now end → HasRead tokens.now places.now
        → IfOk result (λ e. IsStanding e tokens.now) }
{
    let fault = places.bad(end);
    if !places.are_whole() {
        return Ok(ParseFault::BadGrammar(fault));
    }
    match shown(alloc, tokens)? {
        Some((place, form)) => Ok(ParseFault::NotSupported(place, form)),
        None => Ok(ParseFault::BadGrammar(fault)),
    }
}

// The levels of the module that is the one thing open.
fn outcome_stack(stack: Vec<Open>) -> Option<u16>
    ensures { result ≡ outcome_stack (reverse stack.items) }
{
    let mut stack = stack;
    match stack.pop() {
        Some(top) => {
            if stack.pop().is_some() {
                return None;
            }
            match top {
                Open::Within(form) if ended_module(form.next) => Some(form.levels),
                _ => None,
            }
        }
        None => None,
    }
}

// The levels of the module, where a whole one was read.
fn outcome(mode: Mode, stack: Vec<Open>) -> Option<u16>
    ensures { result ≡ outcome_mode mode (reverse stack.items) }
{
    match mode {
        Mode::Read => outcome_stack(stack),
        _ => None,
    }
}

// The module that was read.
fn made(alloc: Global, codes: Vec<Code>) -> Result<Module, AllocError>
    ensures { (ps : Parts) → codes.items ≡ posts ps → IfOk result (λ m. m ≡ module_tree (items ps)) }
{
    let mut builder = Builder {
        items: Vec::new(alloc),
        copies: Copies { nodes: 0 },
    };
    let _whole = builder.run(alloc, codes)?;
    let Builder { items, mut copies } = builder;
    module_tree(&mut copies, alloc, items)
}

fn noted(tree: Module, aliases: List<(Text, Text)>) -> Module
    ensures { result ≡ noted aliases tree }
{
    let mut tree = tree;
    tree.aliases = aliases;
    tree
}

/// The module that the tokens spell. (Lamport, Specifying Systems, chapters 15 and 17.)
///
/// There is at least one token. The aliases are those that the notes of the tokens give, `@typeAlias: name = T;`, in their
/// order, each with its T as it is written. A refusal names where the first unit begins that is not whole, as one is
/// that names a field of a record twice; where none begins the token behind the header, the first token where no header
/// stands, or the last where no unit is left. It names the first unit with more than 400 levels where all are whole, or
/// the place of a form that is read nowhere behind whole units, which comes before the fault of the grammar. Parentheses
/// make no level. The time is in proportion to the tokens, and memory too, but for sets that
/// several names share, of which at most 1,048,576 nodes are copied; past them memory counts as wanting.
pub fn parse(alloc: Global, tokens: &Tokens) -> Result<Module, ParseFault>
    requires { 0 < length tokens.now }
    ensures spells { IfOk result (λ m. Spells m tokens.now) }
    ensures one { (m : Tree) → Spells m tokens.now → IfOk result (λ found. found ≡ m) }
    ensures levels { IfOk result (λ m. SpelledWithin 400 tokens.now) }
    ensures fault { IfErr result (λ e. IsRefusal e tokens.now) }
{
    let source = tokens.as_slice();
    let mut reading = unread(alloc, source[0].place)?;
    let mode = read_all(alloc, &mut reading, source)?;
    let end = what_stands(reading.recognizer.stack.as_slice(), mode);
    let Reading {
        recognizer,
        places,
        fields,
    } = reading;
    let Recognizer {
        stack,
        code,
        margin: _,
    } = recognizer;
    match outcome(mode, stack) {
        None => Err(refusal(alloc, source, &places, end)?),
        Some(levels) => {
            if !fields.once {
                return Err(refusal(alloc, source, &places, end)?);
            }
            if levels > LEVELS {
                return Err(ParseFault::TooDeep(places.deep(end)));
            }
            let tree = made(alloc, code)?;
            let aliases = aliases_of(alloc, source)?;
            Ok(noted(tree, aliases))
        }
    }
}
