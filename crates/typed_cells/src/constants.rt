//! Cells of known values.

ghost use Rattle.cell_arena.specs.Growth.{Grows};
ghost use Rattle.cell_merge.specs.Sorts.{name, truth};
ghost use Rattle.std.specs.Prelude.{IfOk};
ghost use Rattle.typed_cells.specs.Known.{IsKnownCell, IsNumber, IsTextAmong};

use cell_arena::{Build, CellId};
use function_rewriter::index_of;
use sat_formula::Lit;
use std::alloc::AllocError;
use tla_values::{Text, Value};
use word_blaster::literal;

/// The cell of a truth value. It adds nothing to the formula.
#[tactic(auto, using(cell_arena::proofs::Growing::growing))]
pub fn known_truth(b: &mut Build, value: bool) -> Result<CellId, AllocError>
    ensures cell { IfOk result (IsKnownCell b.new truth (Value.Bool value)) }
    ensures grows { Grows b.old b.new }
{
    let top = b.formula.top();
    let l = if value { top } else { top.negated() };
    let id = b.bit(l)?;
    Ok(id)
}

/// The cell of a number, and a literal that is true where the number is outside of the build's
/// width. It adds nothing to the formula.
#[tactic(auto, using(cell_arena::proofs::Growing::growing))]
pub fn known_number(b: &mut Build, n: i128) -> Result<(CellId, Lit), AllocError>
    ensures cell { IfOk result (IsNumber b.new n) }
    ensures grows { Grows b.old b.new }
{
    let width = b.width();
    let (word, outside) = literal(b.arena.alloc(), &mut b.formula, n, width)?;
    let id = b.word(word)?;
    Ok((id, outside))
}

/// The cell of a text that is one of the build's. It adds nothing to the formula.
#[tactic(auto, using(cell_arena::proofs::Growing::growing))]
pub fn known_text(b: &mut Build, text: &Text) -> Result<CellId, AllocError>
    requires { IsTextAmong b.old.arena.texts text.now }
    ensures cell { IfOk result (IsKnownCell b.new name (Value.Text text.now)) }
    ensures grows { Grows b.old b.new }
{
    let Some(index) = index_of(b.texts().as_slice(), text) else {
        unreachable!()
    };
    let (code, _) = literal(b.arena.alloc(), &mut b.formula, index as i128, 32)?;
    let id = b.text(code)?;
    Ok(id)
}
