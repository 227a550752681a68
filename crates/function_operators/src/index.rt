//! Indexes.

use cell_arena::CellId;
use tla_values::Text;

/// Where something stands in a function, a sequence, a tuple or a record.
#[derive(Clone, Copy, Drop)]
pub enum Index<'a> {
    /// At the value of a cell: in a function or a sequence.
    Cell(CellId),
    /// At a number that is written out, from 1: in a tuple.
    Number(usize),
    /// At a name that is written out: in a record.
    Name(&'a Text),
}
