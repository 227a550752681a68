//! Operators that give a number of two numbers.

ghost use Rattle.cell_arena.specs.Growth.{Grows};
ghost use Rattle.cell_merge.specs.Sorts.{number};
ghost use Rattle.outcome_cells.specs.Shows.{AreCells};
ghost use Rattle.set_rewriter.specs.Ranges.{AreNumbers};
ghost use Rattle.std.specs.Prelude.{◌∷◌, IfOk, List, []};
ghost use Rattle.tla_meaning.specs.declared.op.Op.TheVariants as op;
ghost use Rattle.value_operators.specs.Operands.{HasRow};

use crate::making::{number_or_big, number_or_wrong};
use crate::words::{divide, words_of};
use cell_arena::{Build, CellId};
use outcome_cells::{Cells, sure};
use std::alloc::AllocError;
use word_blaster::{add, mul, sub};

/// The sum of the numbers, Big where it is outside of the width. (Specifying Systems, section 18.4.)
#[tactic(auto, using(cell_arena::proofs::Growing::growing))]
pub fn plus(b: &mut Build, x: CellId, y: CellId) -> Result<Cells, AllocError>
    requires { AreNumbers b.old.arena.kinds x y }
    ensures cells { IfOk result (AreCells b.new number) }
    ensures row { IfOk result (HasRow b.old b.new op.Add (x ∷ y ∷ [])) }
    ensures grows { Grows b.old b.new }
{
    let Some((v, w)) = words_of(&b.arena, x, y) else {
        return Ok(sure(b, x));
    };
    let (word, outside) = add(b.arena.alloc(), &mut b.formula, v, w)?;
    number_or_big(b, word, outside)
}

/// The first number less the second, Big where that is outside of the width. (Specifying Systems, section 18.4.)
#[tactic(auto, using(cell_arena::proofs::Growing::growing))]
pub fn minus(b: &mut Build, x: CellId, y: CellId) -> Result<Cells, AllocError>
    requires { AreNumbers b.old.arena.kinds x y }
    ensures cells { IfOk result (AreCells b.new number) }
    ensures row { IfOk result (HasRow b.old b.new op.Sub (x ∷ y ∷ [])) }
    ensures grows { Grows b.old b.new }
{
    let Some((v, w)) = words_of(&b.arena, x, y) else {
        return Ok(sure(b, x));
    };
    let (word, outside) = sub(b.arena.alloc(), &mut b.formula, v, w)?;
    number_or_big(b, word, outside)
}

/// The product of the numbers, Big where it is outside of the width. (Specifying Systems, section 18.4.)
#[tactic(auto, using(cell_arena::proofs::Growing::growing))]
pub fn times(b: &mut Build, x: CellId, y: CellId) -> Result<Cells, AllocError>
    requires { AreNumbers b.old.arena.kinds x y }
    ensures cells { IfOk result (AreCells b.new number) }
    ensures row { IfOk result (HasRow b.old b.new op.Mul (x ∷ y ∷ [])) }
    ensures grows { Grows b.old b.new }
{
    let Some((v, w)) = words_of(&b.arena, x, y) else {
        return Ok(sure(b, x));
    };
    let (word, outside) = mul(b.arena.alloc(), &mut b.formula, v, w)?;
    number_or_big(b, word, outside)
}

/// The quotient of the first number by the second, towards minus infinity, and Wrong where the second is not above 0.
/// It never is Big. (Specifying Systems, section 18.4.)
#[tactic(auto, using(cell_arena::proofs::Growing::growing))]
pub fn quotient(b: &mut Build, x: CellId, y: CellId) -> Result<Cells, AllocError>
    requires { AreNumbers b.old.arena.kinds x y }
    ensures cells { IfOk result (AreCells b.new number) }
    ensures row { IfOk result (HasRow b.old b.new op.Div (x ∷ y ∷ [])) }
    ensures grows { Grows b.old b.new }
{
    let width = b.width();
    let Some((v, w)) = words_of(&b.arena, x, y) else {
        return Ok(sure(b, x));
    };
    let parts = divide(b.arena.alloc(), &mut b.formula, v, w, width)?;
    number_or_wrong(b, parts.quotient, parts.none)
}

/// What is left of the first number by the second, from 0 on, and Wrong where the second is not above 0. It never is
/// Big. (Specifying Systems, section 18.4.)
#[tactic(auto, using(cell_arena::proofs::Growing::growing))]
pub fn remainder(b: &mut Build, x: CellId, y: CellId) -> Result<Cells, AllocError>
    requires { AreNumbers b.old.arena.kinds x y }
    ensures cells { IfOk result (AreCells b.new number) }
    ensures row { IfOk result (HasRow b.old b.new op.Mod (x ∷ y ∷ [])) }
    ensures grows { Grows b.old b.new }
{
    let width = b.width();
    let Some((v, w)) = words_of(&b.arena, x, y) else {
        return Ok(sure(b, x));
    };
    let parts = divide(b.arena.alloc(), &mut b.formula, v, w, width)?;
    number_or_wrong(b, parts.remainder, parts.none)
}
