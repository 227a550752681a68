//! Membership and inclusion.

ghost use Rattle.cell_arena.specs.Decode.{decode};
ghost use Rattle.cell_arena.specs.Growth.{Grows};
ghost use Rattle.cell_merge.specs.Sorts.{MemberType, SetsOfOneType};
ghost use Rattle.sat_formula.specs.Formula.{HasValue};
ghost use Rattle.std.specs.Prelude.{◌≡◌, IfOk};
ghost use Rattle.tla_values.specs.Sets.{elements, member, subset};

use cell_arena::{Build, CellId};
use cell_merge::{member_in, subset_in};
use sat_formula::Lit;
use std::alloc::AllocError;

/// A literal that is true exactly where the value of the cell is a member of the set. It makes no
/// cell.
#[tactic(auto, using(cell_arena::proofs::Growing::growing))]
pub fn member(b: &mut Build, x: CellId, set: CellId) -> Result<Lit, AllocError>
    requires { MemberType b.old.arena.kinds x set }
    ensures value { IfOk result (λ l. HasValue b.new.formula l (λ a. member (decode b.old.arena a x) (elements (decode b.old.arena a set)))) }
    ensures arena { b.new.arena ≡ b.old.arena }
    ensures grows { Grows b.old b.new }
{
    let l = member_in(&b.arena, &mut b.formula, x, set)?;
    Ok(l)
}

/// A literal that is true exactly where each member of the first set is one of the second. It
/// makes no cell.
#[tactic(auto, using(cell_arena::proofs::Growing::growing))]
pub fn subset(b: &mut Build, x: CellId, y: CellId) -> Result<Lit, AllocError>
    requires { SetsOfOneType b.old.arena.kinds x y }
    ensures value { IfOk result (λ l. HasValue b.new.formula l (λ a. subset (elements (decode b.old.arena a x)) (elements (decode b.old.arena a y)))) }
    ensures arena { b.new.arena ≡ b.old.arena }
    ensures grows { Grows b.old b.new }
{
    let l = subset_in(&b.arena, &mut b.formula, x, y)?;
    Ok(l)
}
