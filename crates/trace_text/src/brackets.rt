// The brackets of sets and functions.
ghost use Rattle.std.specs.Prelude.{◌≡◌, ℕ, List as Items, ◌++◌, IfOk, MatchOption};
ghost use Rattle.trace_text.specs.declared.brackets.Bracket.{Bracket as Kind};
ghost use Rattle.trace_text.specs.inner.Pieces.{closing, made, opening, separator};

use crate::bytes::behind;
use std::alloc::{AllocError, Global};
use tla_values::{List, Value};

// What stands between brackets: the members of a set, the items of a tuple, the fields of a record, or pairs.
#[derive(Clone, Copy, Drop)]
pub(crate) enum Bracket {
    Brace,
    Angle,
    Square,
    Round,
}

impl Bracket {
    fn opening(self) -> &'static [u8]
        ensures { result.now ≡ opening self }
    {
        match self {
            Bracket::Brace => b"{",
            Bracket::Angle => b"<<",
            Bracket::Square => b"[",
            Bracket::Round => b"(",
        }
    }

    pub(crate) fn separator(self) -> &'static [u8]
        ensures { result.now ≡ separator self }
    {
        match self {
            Bracket::Brace => b", ",
            Bracket::Angle => b", ",
            Bracket::Square => b", ",
            Bracket::Round => b" @@ ",
        }
    }

    pub(crate) fn closing(self) -> &'static [u8]
        ensures { result.now ≡ closing self }
    {
        match self {
            Bracket::Brace => b"}",
            Bracket::Angle => b">>",
            Bracket::Square => b"]",
            Bracket::Round => b")",
        }
    }

    // The set or the function of the pieces, each an argument with a value; a set has the values alone.
    pub(crate) fn made(
        self,
        alloc: Global,
        pieces: List<(Value, Value)>,
    ) -> Result<Value, AllocError>
        ensures { IfOk result (λ v. v ≡ made self pieces) }
    {
        match self {
            Bracket::Brace => set(alloc, pieces),
            Bracket::Angle => Ok(Value::Fun(pieces)),
            Bracket::Square => Ok(Value::Fun(pieces)),
            Bracket::Round => Ok(Value::Fun(pieces)),
        }
    }
}

fn set(alloc: Global, pieces: List<(Value, Value)>) -> Result<Value, AllocError>
    ensures { IfOk result (λ v. v ≡ made Bracket.Brace pieces) }
{
    let members = pieces
        .into_vec()
        .into_iter()
        .map(|piece| piece.1)
        .collect(alloc)?;
    Ok(Value::Set(List::from_vec(members)))
}

// The bracket that opens in front, and what stands behind it.
pub(crate) fn opened(bytes: &[u8]) -> Option<(Bracket, &[u8])>
    ensures { MatchOption result ((k : Kind) (r : Items ℕ) → bytes.now ≡ opening k ++ r → ⊥)
        (λ p. bytes.now ≡ opening p.0 ++ p.1.now) }
{
    if let Some(rest) = behind(bytes, Bracket::Brace.opening()) {
        return Some((Bracket::Brace, rest));
    }
    if let Some(rest) = behind(bytes, Bracket::Angle.opening()) {
        return Some((Bracket::Angle, rest));
    }
    if let Some(rest) = behind(bytes, Bracket::Square.opening()) {
        return Some((Bracket::Square, rest));
    }
    if let Some(rest) = behind(bytes, Bracket::Round.opening()) {
        return Some((Bracket::Round, rest));
    }
    None
}
