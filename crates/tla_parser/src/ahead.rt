// Whether some module goes on with tokens, and with others in the place of one.
ghost use Rattle.std.specs.Prelude.{◌≡◌, ◌<◌, ◌++◌, ◌∷◌, [], true, false, codes, drop, map, take, length, ◌+◌, IfNone, IfOk, IfSome, OnOk};
ghost use Rattle.tla_lexer.specs.declared.token.TokenKind.TheVariants.{Name, Reserved, Symbol};
ghost use Rattle.tla_parser.specs.Refused.{at_place, of_bound_name, of_definition, of_last_parameter, of_parameter, of_parameters, of_unit};
ghost use Rattle.tla_parser.specs.inner.Recognition.{advances, module_start, stood};
ghost use Rattle.tla_parser.specs.inner.Sights.{goes};
ghost use Rattle.tla_parser.specs.inner.Standings.{standing_of};

use crate::open::Mode;
use crate::parsing::begun;
use crate::places::what_stands;
use crate::recognizer::Recognizer;
use std::alloc::{AllocError, Global};
use tla_lexer::{Token, TokenKind};
use tla_meaning::Place;
use tla_values::Text;

fn is_stuck(recognizer: &Recognizer, mode: Mode) -> bool
    ensures { result ≡ (standing_of (stood mode recognizer.now)).stuck }
{
    what_stands(recognizer.stack.as_slice(), mode).stuck
}

// Reads tokens.
fn read_on(
    alloc: Global,
    recognizer: &mut Recognizer,
    mode: Mode,
    tokens: &[Token],
) -> Result<Mode, AllocError>
    ensures { IfOk result (λ next. stood next recognizer.new ≡ advances (stood mode recognizer.old) tokens.now) }
{
    let mut next = mode;
    for token in tokens {
        next = recognizer.step(alloc, next, token)?;
    }
    Ok(next)
}

/// Whether some module goes on with the first tokens and the others behind them.
pub(crate) fn goes(alloc: Global, front: &[Token], ahead: &[Token]) -> Result<bool, AllocError>
    ensures { IfOk result (λ b. b ≡ goes (front.now ++ ahead.now)) }
{
    let mut recognizer = begun(alloc)?;
    let between = read_on(alloc, &mut recognizer, Mode::Read, front)?;
    let behind = read_on(alloc, &mut recognizer, between, ahead)?;
    Ok(!is_stuck(&recognizer, behind))
}

/// The index of the first token with which no module goes on.
pub(crate) fn stick(alloc: Global, tokens: &[Token]) -> Result<Option<usize>, AllocError>
    ensures stuck { IfOk result (λ o. IfSome o
        (λ i. (i < length tokens.now) × (goes (take i tokens.now) ≡ true) × (goes (take (i + 1) tokens.now) ≡ false))) }
    ensures whole { IfOk result (λ o. IfNone o (goes tokens.now ≡ true)) }
{
    let mut recognizer = begun(alloc)?;
    let mut mode = Mode::Read;
    for (i, token) in tokens.iter().enumerate() {
        mode = recognizer.step(alloc, mode, token)?;
        if is_stuck(&recognizer, mode) {
            return Ok(Some(i));
        }
    }
    Ok(None)
}

// ---- what could stand at a place

fn text_of(alloc: Global, bytes: &[u8]) -> Result<Text, AllocError>
    ensures { IfOk result (λ t. t ≡ bytes.now) }
{
    Ok(Text::from_vec(Vec::from_slice(alloc, bytes)?))
}

// Adds a token of the kind.
fn put(
    alloc: Global,
    place: Place,
    kind: TokenKind,
    tokens: &mut Vec<Token>,
) -> Result<(), AllocError>
    ensures { OnOk result (tokens.new.items ≡ tokens.old.items ++ (at_place place kind ∷ [])) }
{
    let notes = Text::from_vec(Vec::new(alloc));
    tokens.push(Token { kind, place, notes })?;
    Ok(())
}

fn put_name(alloc: Global, place: Place, tokens: &mut Vec<Token>) -> Result<(), AllocError>
    ensures { OnOk result (tokens.new.items ≡ tokens.old.items ++ (at_place place (Name (codes "x")) ∷ [])) }
{
    put(alloc, place, TokenKind::Name(text_of(alloc, b"x")?), tokens)
}

fn put_symbol(
    alloc: Global,
    place: Place,
    symbol: &[u8],
    tokens: &mut Vec<Token>,
) -> Result<(), AllocError>
    ensures { OnOk result (tokens.new.items ≡ tokens.old.items ++ (at_place place (Symbol symbol.now) ∷ [])) }
{
    put(
        alloc,
        place,
        TokenKind::Symbol(text_of(alloc, symbol)?),
        tokens,
    )
}

/// `VARIABLE`, which begins a unit.
pub(crate) fn of_unit(alloc: Global, place: Place) -> Result<Vec<Token>, AllocError>
    ensures { IfOk result (λ v. v.items ≡ map (at_place place) of_unit) }
{
    let mut tokens = Vec::new(alloc);
    put(
        alloc,
        place,
        TokenKind::Reserved(text_of(alloc, b"VARIABLE")?),
        &mut tokens,
    )?;
    Ok(tokens)
}

/// `x \in`, of a name that is bound.
pub(crate) fn of_bound_name(alloc: Global, place: Place) -> Result<Vec<Token>, AllocError>
    ensures { IfOk result (λ v. v.items ≡ map (at_place place) of_bound_name) }
{
    let mut tokens = Vec::new(alloc);
    put_name(alloc, place, &mut tokens)?;
    put_symbol(alloc, place, b"\\in", &mut tokens)?;
    Ok(tokens)
}

/// `x ==`, of a definition.
pub(crate) fn of_definition(alloc: Global, place: Place) -> Result<Vec<Token>, AllocError>
    ensures { IfOk result (λ v. v.items ≡ map (at_place place) of_definition) }
{
    let mut tokens = Vec::new(alloc);
    put_name(alloc, place, &mut tokens)?;
    put_symbol(alloc, place, b"==", &mut tokens)?;
    Ok(tokens)
}

/// `) ==`, behind the last parameter.
pub(crate) fn of_last_parameter(alloc: Global, place: Place) -> Result<Vec<Token>, AllocError>
    ensures { IfOk result (λ v. v.items ≡ map (at_place place) of_last_parameter) }
{
    let mut tokens = Vec::new(alloc);
    put_symbol(alloc, place, b")", &mut tokens)?;
    put_symbol(alloc, place, b"==", &mut tokens)?;
    Ok(tokens)
}

/// `x ) ==`, of the last parameter.
pub(crate) fn of_parameter(alloc: Global, place: Place) -> Result<Vec<Token>, AllocError>
    ensures { IfOk result (λ v. v.items ≡ map (at_place place) of_parameter) }
{
    let mut tokens = Vec::new(alloc);
    put_name(alloc, place, &mut tokens)?;
    put_symbol(alloc, place, b")", &mut tokens)?;
    put_symbol(alloc, place, b"==", &mut tokens)?;
    Ok(tokens)
}

/// `( x ) ==`, of parameters.
pub(crate) fn of_parameters(alloc: Global, place: Place) -> Result<Vec<Token>, AllocError>
    ensures { IfOk result (λ v. v.items ≡ map (at_place place) of_parameters) }
{
    let mut tokens = Vec::new(alloc);
    put_symbol(alloc, place, b"(", &mut tokens)?;
    put_name(alloc, place, &mut tokens)?;
    put_symbol(alloc, place, b")", &mut tokens)?;
    put_symbol(alloc, place, b"==", &mut tokens)?;
    Ok(tokens)
}
