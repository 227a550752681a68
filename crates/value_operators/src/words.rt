//! The words of numbers, and their division.

ghost use Rattle.sat_formula.specs.Formula.{Grows, HasValue};
ghost use Rattle.set_rewriter.specs.Ranges.{AreNumbers};
ghost use Rattle.std.specs.Prelude.{◌<◌, IfOk, IfSome, IsSome, int_le, pos};
ghost use Rattle.value_operators.specs.inner.Words.{AreWordsOf, Divides};
ghost use Rattle.word_blaster.specs.Word.{IsWord, word_value};

use cell_arena::{Arena, CellId, CellKind};
use sat_formula::{Formula, Lit, Word};
use std::alloc::{AllocError, Global};
use word_blaster::{div_rem_floor, less, literal};

/// The words of two numbers.
pub(crate) fn words_of<'a>(arena: &'a Arena, x: CellId, y: CellId) -> Option<(&'a Word, &'a Word)>
    requires { AreNumbers arena.now.kinds x y }
    ensures some { IsSome result }
    ensures words { IfSome result (λ r. AreWordsOf arena.now x y r.0.now r.1.now) }
{
    let CellKind::Word(v) = arena.kind(x) else {
        return None;
    };
    let CellKind::Word(w) = arena.kind(y) else {
        return None;
    };
    Some((v, w))
}

// A literal that is true where the number is at most 0.
#[tactic(auto, using(sat_formula::proofs::Extension::gates))]
fn at_most_zero(
    alloc: Global,
    formula: &mut Formula,
    word: &Word,
    width: u32,
) -> Result<Lit, AllocError>
    requires some { 0 < width }
    requires word { IsWord formula.old.vars width word.now }
    ensures value { IfOk result (λ l. HasValue formula.new l (λ a. int_le (word_value word.now a) (pos 0))) }
    ensures grows { Grows formula.old formula.new }
{
    let (zero, _) = literal(alloc, formula, 0, width)?;
    let above = less(alloc, formula, &zero, word)?;
    Ok(above.negated())
}

/// The quotient and what is left of a division, and a literal that is true where the divisor is not above 0.
#[derive(Drop)]
pub(crate) struct Division {
    pub quotient: Word,
    pub remainder: Word,
    pub none: Lit,
}

/// The division of the first number by the second.
#[tactic(auto, using(sat_formula::proofs::Extension::gates))]
pub(crate) fn divide(
    alloc: Global,
    formula: &mut Formula,
    v: &Word,
    w: &Word,
    width: u32,
) -> Result<Division, AllocError>
    requires some { 0 < width }
    requires first { IsWord formula.old.vars width v.now }
    requires second { IsWord formula.old.vars width w.now }
    ensures divides { IfOk result (λ r. Divides formula.new width v.now w.now r) }
    ensures grows { Grows formula.old formula.new }
{
    let none = at_most_zero(alloc, formula, w, width)?;
    let (quotient, remainder) = div_rem_floor(alloc, formula, v, w)?;
    Ok(Division {
        quotient,
        remainder,
        none,
    })
}
