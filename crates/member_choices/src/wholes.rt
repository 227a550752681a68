//! The cells of each choice as one.

ghost use Rattle.cell_arena.specs.Growth.{Grows};
ghost use Rattle.member_choices.specs.Choices.{ChoicesOfSome};
ghost use Rattle.member_choices.specs.inner.Tests.{AreThere, AreWholes, IsWhole, whole_sort, whole_value};
ghost use Rattle.std.specs.Prelude.{IfOk, length};

use crate::choice::Choice;
use cell_arena::{Build, CellId};
use std::alloc::AllocError;
use typed_cells::tuple_of_cells;

// The tuple of the cells; of a single one itself where that is asked.
#[tactic(auto, using(cell_arena::proofs::Growing::growing))]
fn whole(b: &mut Build, cells: &[CellId], alone: bool) -> Result<CellId, AllocError>
    requires { AreThere b.old.arena.kinds cells.now }
    ensures whole { IfOk result (IsWhole b.old b.new (whole_value alone) (whole_sort alone) cells.now) }
    ensures grows { Grows b.old b.new }
{
    if alone && cells.len() == 1 {
        return Ok(cells[0]);
    }
    let parts = Vec::from_slice(b.arena.alloc(), cells)?;
    let id = tuple_of_cells(b, parts)?;
    Ok(id)
}

/// One cell for each choice: the tuple of its cells, or a single one itself where that is asked.
#[tactic(auto, using(cell_arena::proofs::Growing::growing))]
pub(crate) fn wholes(b: &mut Build, cs: &[Choice], alone: bool) -> Result<Vec<CellId>, AllocError>
    requires { ChoicesOfSome b.old.arena.kinds cs.now }
    ensures wholes { IfOk result (λ ids.
        AreWholes b.old b.new (whole_value alone) (whole_sort alone) cs.now (length cs.now) ids.items) }
    ensures grows { Grows b.old b.new }
{
    let mut out = Vec::new(b.arena.alloc());
    for i in 0..cs.len() {
        let id = whole(b, cs[i].cells.as_slice(), alone)?;
        out.push(id)?;
    }
    Ok(out)
}
