//! Cells that stand for names.

use cell_arena::CellId;
use tla_values::List;

/// The cells of the declared names in a state and in the next one, by their numbers, and of bound numbers, of which the
/// last with a number stands for it. A name without a cell in the state reads that of the next one, which a path has
/// assigned; a name that is not read may have none in either.
#[derive(Drop)]
pub struct CellEnv {
    pub now: List<CellId>,
    pub next: List<Option<CellId>>,
    pub bound: List<(u32, CellId)>,
}
