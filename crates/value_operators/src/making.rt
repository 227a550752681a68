//! Cells of a truth value or a number that was just made.

ghost use Rattle.cell_arena.specs.Growth.{Grows};
ghost use Rattle.cell_merge.specs.Sorts.{number, truth};
ghost use Rattle.outcome_cells.specs.Rows.{ShowsAt};
ghost use Rattle.outcome_cells.specs.Shows.{AreCells};
ghost use Rattle.sat_formula.specs.Lit.{lit_value};
ghost use Rattle.std.specs.Prelude.{◌<◌, IfOk};
ghost use Rattle.tla_meaning.specs.Operators.{yes_no};
ghost use Rattle.tla_meaning.specs.declared.outcome.Outcome.TheVariants.{Big, Wrong};
ghost use Rattle.value_operators.specs.inner.Words.{number_unless};
ghost use Rattle.word_blaster.specs.Word.{IsWord};

use cell_arena::Build;
use outcome_cells::{Cells, big_where, sure, wrong_where};
use sat_formula::{Lit, Word};
use std::alloc::AllocError;

/// The truth value of a literal.
#[tactic(auto, using(cell_arena::proofs::Growing::growing, cell_merge::proofs::SortLaws::sorts))]
pub(crate) fn truth_of(b: &mut Build, l: Lit) -> Result<Cells, AllocError>
    requires { l.var < b.old.formula.vars }
    ensures cells { IfOk result (AreCells b.new truth) }
    ensures shows { IfOk result (λ r. ShowsAt b.new r (λ a _. yes_no (lit_value l a))) }
    ensures grows { Grows b.old b.new }
{
    let id = b.bit(l)?;
    Ok(sure(b, id))
}

/// The number of a word, and Big where the literal is true.
#[tactic(auto, using(cell_arena::proofs::Growing::growing, cell_merge::proofs::SortLaws::sorts))]
pub(crate) fn number_or_big(b: &mut Build, word: Word, outside: Lit) -> Result<Cells, AllocError>
    requires word { IsWord b.old.formula.vars b.old.arena.width word }
    requires outside { outside.var < b.old.formula.vars }
    ensures cells { IfOk result (AreCells b.new number) }
    ensures shows { IfOk result (λ r. ShowsAt b.new r (λ a p. number_unless outside (Big p) word a)) }
    ensures grows { Grows b.old b.new }
{
    let id = b.word(word)?;
    Ok(big_where(b, id, outside))
}

/// The number of a word, and Wrong where the literal is true.
#[tactic(auto, using(cell_arena::proofs::Growing::growing, cell_merge::proofs::SortLaws::sorts))]
pub(crate) fn number_or_wrong(b: &mut Build, word: Word, none: Lit) -> Result<Cells, AllocError>
    requires word { IsWord b.old.formula.vars b.old.arena.width word }
    requires none { none.var < b.old.formula.vars }
    ensures cells { IfOk result (AreCells b.new number) }
    ensures shows { IfOk result (λ r. ShowsAt b.new r (λ a p. number_unless none (Wrong p) word a)) }
    ensures grows { Grows b.old b.new }
{
    let id = b.word(word)?;
    Ok(wrong_where(b, id, none))
}
