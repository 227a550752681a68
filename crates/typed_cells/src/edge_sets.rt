//! Sets of edges.

ghost use Rattle.cell_arena.specs.Growth.{Grows};
ghost use Rattle.cell_merge.specs.Edges.{OneSort};
ghost use Rattle.std.specs.Prelude.{IfOk};
ghost use Rattle.typed_cells.specs.Known.{IsSetOfEdges};

use cell_arena::{Build, CellId};
use cell_merge::join_alike;
use sat_formula::Lit;
use std::alloc::AllocError;
use tla_values::List;

/// The set of the members whose literal is true, with these edges as they are: of a set's own edges
/// some are kept, and no two of them need to be compared. It adds nothing to the formula.
#[tactic(auto, using(cell_arena::proofs::Growing::growing))]
pub fn set_of_edges(b: &mut Build, edges: Vec<(Lit, CellId)>) -> Result<CellId, AllocError>
    requires { OneSort b.old.arena.kinds b.old.formula.vars edges.items }
    ensures set { IfOk result (IsSetOfEdges b.old b.new edges.items) }
    ensures grows { Grows b.old b.new }
{
    let id = b.set(List::from_vec(edges))?;
    Ok(id)
}

/// The set of the members whose literal is true, with one edge for those that are made alike, as
/// images and enumerations may be. Each is compared with each.
#[tactic(auto, using(cell_arena::proofs::Growing::growing))]
pub fn set_of_joined_edges(b: &mut Build, edges: &[(Lit, CellId)]) -> Result<CellId, AllocError>
    requires { OneSort b.old.arena.kinds b.old.formula.vars edges.now }
    ensures set { IfOk result (IsSetOfEdges b.old b.new edges.now) }
    ensures grows { Grows b.old b.new }
{
    let joined = join_alike(&b.arena, &mut b.formula, edges)?;
    let id = b.set(List::from_vec(joined))?;
    Ok(id)
}
