// What is made of paths.

use cell_arena::CellId;
use sat_formula::Lit;
use tla_values::List;

/// A literal for each end: that it holds, that it meets what has no value, and that it meets an integer outside the
/// width.
#[derive(Clone, Copy, PartialEq, Eq, Debug)]
pub struct Ends {
    pub holds: Lit,
    pub wrong: Lit,
    pub big: Lit,
}

/// How a path ends, or one of several, and for each declared name a cell: where it ends so, the name's value in the next
/// state.
#[derive(Drop)]
pub struct BranchCells {
    pub ends: Ends,
    pub next: List<CellId>,
}
