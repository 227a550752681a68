//! Operators that give a truth value.

ghost use Rattle.cell_arena.specs.Growth.{Grows};
ghost use Rattle.cell_merge.specs.Sorts.{OfSort, OneType, truth};
ghost use Rattle.outcome_cells.specs.Shows.{AreCells};
ghost use Rattle.set_rewriter.specs.Ranges.{AreNumbers};
ghost use Rattle.std.specs.Prelude.{◌∷◌, IfOk, List, []};
ghost use Rattle.tla_meaning.specs.declared.op.Op.TheVariants as op;
ghost use Rattle.value_operators.specs.Operands.{HasRow};

use crate::making::truth_of;
use crate::words::words_of;
use cell_arena::{Build, CellId};
use cell_merge::same;
use outcome_cells::{Cells, bit_of, sure};
use std::alloc::AllocError;

/// Whether the truth value is FALSE. (Specifying Systems, section 16.1.1.)
#[tactic(auto, using(cell_arena::proofs::Growing::growing))]
pub fn not(b: &mut Build, x: CellId) -> Result<Cells, AllocError>
    requires { OfSort b.old.arena.kinds truth x }
    ensures cells { IfOk result (AreCells b.new truth) }
    ensures row { IfOk result (HasRow b.old b.new op.Not (x ∷ [])) }
    ensures grows { Grows b.old b.new }
{
    let holds = bit_of(&b.arena, x);
    truth_of(b, holds.negated())
}

/// Whether the two values, of one sort, are equal. (Specifying Systems, section 16.1.6.)
#[tactic(auto, using(cell_arena::proofs::Growing::growing))]
pub fn equal(b: &mut Build, x: CellId, y: CellId) -> Result<Cells, AllocError>
    requires { OneType b.old.arena.kinds x y }
    ensures cells { IfOk result (AreCells b.new truth) }
    ensures row { IfOk result (HasRow b.old b.new op.Eq (x ∷ y ∷ [])) }
    ensures grows { Grows b.old b.new }
{
    let holds = same(b, x, y)?;
    truth_of(b, holds)
}

/// Whether the first number is below the second. (Specifying Systems, section 18.4.)
#[tactic(auto, using(cell_arena::proofs::Growing::growing))]
pub fn less(b: &mut Build, x: CellId, y: CellId) -> Result<Cells, AllocError>
    requires { AreNumbers b.old.arena.kinds x y }
    ensures cells { IfOk result (AreCells b.new truth) }
    ensures row { IfOk result (HasRow b.old b.new op.Lt (x ∷ y ∷ [])) }
    ensures grows { Grows b.old b.new }
{
    let Some((v, w)) = words_of(&b.arena, x, y) else {
        return Ok(sure(b, x));
    };
    let holds = word_blaster::less(b.arena.alloc(), &mut b.formula, v, w)?;
    truth_of(b, holds)
}
