//! One member from each of several sets.

use cell_arena::CellId;
use sat_formula::Lit;
use tla_values::List;

/// One member from each of several sets, and a literal that says whether all of them are there.
#[derive(Drop)]
pub struct Choice {
    pub there: Lit,
    pub cells: List<CellId>,
}
