//! A choice between two words.

ghost use Rattle.std.specs.Prelude.{◌≡◌, ◌<◌, Bool, List, length, IfOk, if◌then◌else◌};
ghost use Rattle.sat_formula.specs.Lit.{lit_value};
ghost use Rattle.sat_formula.specs.Formula.{Grows, Satisfies};
ghost use Rattle.word_blaster.specs.Word.{word_value, AreWords, IsWord};

use crate::bitwise::choose;
use sat_formula::{Formula, Lit, Word};
use std::alloc::{AllocError, Global};

/// The word of x where the literal is true, and else that of y. Where the two agree on a place,
/// nothing is added for it; over free words it adds a variable and four clauses for each place.
#[tactic(auto, using(sat_formula::proofs::Extension::gates, crate::proofs::Words::words))]
pub fn choose_word(
    alloc: Global,
    f: &mut Formula,
    c: Lit,
    x: &Word,
    y: &Word,
) -> Result<Word, AllocError>
    requires c_below { c.var < f.old.vars }
    requires words { AreWords f.old.vars x.now y.now }
    ensures wide { IfOk result (IsWord f.new.vars (length x.now)) }
    ensures value { IfOk result (λ r. (a : List Bool) → Satisfies a f.new → word_value r a ≡ (if lit_value c a then word_value x.now a else word_value y.now a)) }
    ensures grows { Grows f.old f.new }
{
    let bits = choose(alloc, f, c, x.lits(), y.lits())?;
    Ok(Word::from_vec(bits))
}
