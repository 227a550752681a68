//! Sequences of unknown length.

ghost use Rattle.sat_formula.specs.Formula.{Grows as FormulaGrows};
ghost use Rattle.sequence_rewriter.specs.inner.Lengths.{IsCount};
ghost use Rattle.std.specs.Prelude.{◌^◌, ◌<◌, ◌≤◌, ◌≡◌, All, IfOk, length};
ghost use Rattle.word_blaster.specs.Word.{WordBelow};

use cell_arena::{Build, CellId};
use sat_formula::{Formula, Lit, Word};
use std::alloc::{AllocError, Global};
use tla_values::List;
use word_blaster::natural;

/// The number of assignments of a few bits.
pub fn power(count: usize) -> usize
    requires { count ≤ 4 }
    ensures { result ≡ 2 ^ count }
{
    match count {
        0 => 1,
        1 => 2,
        2 => 4,
        3 => 8,
        _ => 16,
    }
}

// The word of a length by its lowest bits.
#[tactic(auto, using(sat_formula::proofs::Extension::gates))]
fn count_word(alloc: Global, formula: &mut Formula, bits: &[Lit]) -> Result<Word, AllocError>
    requires below { WordBelow formula.old.vars bits.now }
    requires few { length bits.now ≤ 4 }
    ensures count { IfOk result (IsCount formula.new bits.now) }
    ensures grows { FormulaGrows formula.old formula.new }
{
    let (word, _) = natural(alloc, formula, bits, 32)?;
    Ok(word)
}

/// The sequence of the first places, as many as the bits say; none where they may say more.
#[tactic(auto, using(cell_arena::proofs::Growing::growing), unfolding(word_blaster::specs::Word::WordBelow))]
pub fn counted(
    alloc: Global,
    b: &mut Build,
    bits: &[Lit],
    places: Vec<CellId>,
) -> Result<CellId, AllocError> {
    let vars = b.formula.vars();
    let there = b.arena.len();
    let named = bits.iter().all(|l| l.var < vars);
    let older = places.as_slice().iter().all(|p| p.index < there);
    if bits.len() > 4 || !named || !older {
        return Err(AllocError);
    }
    let most = power(bits.len()) - 1;
    let room = places.as_slice().len();
    if room < most {
        return Err(AllocError);
    }
    let count = count_word(alloc, &mut b.formula, bits)?;
    b.seq(count, List::from_vec(places))
}
