// The cells of a level.

use cell_arena::CellId;
use sat_formula::Lit;
use tla_values::List;

/// A level: a cell for each name, a literal that is true where the states so far are a run that
/// ends in these cells, and the literals of the level's questions. Where a fault's literal is
/// true, the cells are a state at which the start, or to which the step, has that fault.
#[derive(Drop)]
pub struct LevelCells {
    pub cells: List<CellId>,
    pub run: Lit,
    pub step_wrong: Lit,
    pub step_big: Lit,
    pub not_true: Lit,
    pub inv_big: Lit,
}
