// The cells of a path.

use cell_arena::CellId;
use outcome_cells::Faults;
use sat_formula::Lit;
use tla_values::List;

/// What a path is as literals and cells: all its steps hold, it meets a fault that is Wrong, one that is Big, and for
/// each declared name the cell of the value that it gives, with a literal that is true where it gives one. `None`
/// stands only for a name to which the path gives a value under no satisfying assignment.
#[derive(Drop)]
pub struct PathCells {
    pub holds: Lit,
    pub wrong: Lit,
    pub big: Lit,
    pub next: List<Option<(CellId, Lit)>>,
}

/// What one step of a path is as literals and cells: its faults, further literals that must be true where it holds, and
/// the cells of the values that it picks, or of the value that it gives.
#[derive(Drop)]
pub struct StepCells {
    pub faults: Faults,
    pub choices: List<Lit>,
    pub cells: List<CellId>,
}
