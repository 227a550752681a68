//! EXCEPT: what stands at an index, and what is made with another value there.

ghost use Rattle.cell_arena.specs.Growth.{Grows};
ghost use Rattle.function_operators.specs.Parts.{Indexed};
ghost use Rattle.function_operators.specs.Updates.{IsOld, IsUpdate, TakesChange};
ghost use Rattle.function_operators.specs.inner.Found.{Masks};
ghost use Rattle.outcome_cells.specs.Shows.{FaultsBelow};
ghost use Rattle.sat_formula.specs.Formula.{Grows as FormulaGrows};
ghost use Rattle.std.specs.Prelude.{◌<◌, IfOk};

use crate::index::Index;
use crate::parts::{find, put};
use cell_arena::{Build, CellId};
use outcome_cells::{Cells, Faults, sure};
use sat_formula::{Formula, Lit};
use std::alloc::AllocError;

/// What stands at the index, and a literal that is true where this is outside of the domain. `None`
/// where it is outside everywhere: there the right side is not evaluated. (Specifying Systems,
/// section 16.1.7.)
#[tactic(auto, using(cell_arena::proofs::Growing::growing))]
pub fn old_at(b: &mut Build, f: CellId, index: Index) -> Result<Option<(CellId, Lit)>, AllocError>
    requires { Indexed b.old.arena.kinds f index }
    ensures old { IfOk result (IsOld b.old b.new f index.entry) }
    ensures grows { Grows b.old b.new }
{
    let found = find(b, f, index)?;
    Ok(found)
}

// The faults where the literal is false.
#[tactic(auto, using(sat_formula::proofs::Extension::gates))]
fn inside_alone(f: &mut Formula, outside: Lit, new: Faults) -> Result<Faults, AllocError>
    requires outside { outside.var < f.old.vars }
    requires new { FaultsBelow f.old.vars new }
    ensures masks { IfOk result (Masks f.new outside new) }
    ensures grows { FormulaGrows f.old f.new }
{
    let inside = outside.negated();
    let wrong = f.and(inside, new.wrong)?;
    let big = f.and(inside, new.big)?;
    Ok(Faults { wrong, big })
}

/// What is made of f by putting something else at the index, where this is not outside of the
/// domain: the literal is that of `old_at`, and the cells are those of the right side at the cell
/// of `old_at`. Where the index is outside, nothing is asked of them, and what f has stays.
/// (Specifying Systems, section 16.1.7, for `EXCEPT`.)
#[tactic(auto, using(cell_arena::proofs::Growing::growing))]
pub fn update(
    b: &mut Build,
    f: CellId,
    index: Index,
    change: Option<(Lit, Cells)>,
) -> Result<Cells, AllocError>
    requires { TakesChange b.old f index change }
    ensures update { IfOk result (IsUpdate b.old b.new f index.entry change) }
    ensures grows { Grows b.old b.new }
{
    let Some((outside, new)) = change else {
        return Ok(sure(b, f));
    };
    let id = put(b, f, index, new.cell)?;
    let faults = inside_alone(&mut b.formula, outside, new.faults())?;
    Ok(Cells {
        cell: id,
        wrong: faults.wrong,
        big: faults.big,
    })
}
