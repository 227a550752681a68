//! Cells whose faults are known.

ghost use Rattle.cell_arena.specs.Decode.{decode};
ghost use Rattle.cell_merge.specs.Partial.{Yields};
ghost use Rattle.cell_merge.specs.Sorts.{OfSort, Sort};
ghost use Rattle.outcome_cells.specs.Rows.{ShowsAt, or_big};
ghost use Rattle.outcome_cells.specs.Shows.{AreCells};
ghost use Rattle.std.specs.Prelude.{◌<◌, Bool, List as Items, Option};
ghost use Rattle.tla_meaning.specs.Operators.{or_wrong};
ghost use Rattle.tla_meaning.specs.declared.outcome.Outcome.TheVariants.{Val};
ghost use Rattle.tla_values.specs.declared.value.Value.{Value};

use crate::cells::Cells;
use cell_arena::{Build, CellId};
use sat_formula::Lit;

/// The value of a cell, without a fault. It takes no memory.
pub fn sure(b: &Build, id: CellId) -> Cells
    ensures cells { (s : Sort) → OfSort b.now.arena.kinds s id → AreCells b.now s result }
    ensures shows { ShowsAt b.now result (λ a _. Val (decode b.now.arena a id)) }
{
    let bottom = b.formula.top().negated();
    Cells {
        cell: id,
        wrong: bottom,
        big: bottom,
    }
}

/// The value of a cell, and Wrong where the literal says that there is none. It takes no memory.
pub fn wrong_where(b: &Build, id: CellId, none: Lit) -> Cells
    requires { none.var < b.now.formula.vars }
    ensures cells { (s : Sort) → OfSort b.now.arena.kinds s id → AreCells b.now s result }
    ensures shows { (value : Items Bool → Option Value) → Yields b.now (id, none) value →
        ShowsAt b.now result (λ a p. or_wrong p (value a)) }
{
    Cells {
        cell: id,
        wrong: none,
        big: b.formula.top().negated(),
    }
}

/// The value of a cell, and Big where the literal says that it is outside the width. It takes no memory.
pub fn big_where(b: &Build, id: CellId, outside: Lit) -> Cells
    requires { outside.var < b.now.formula.vars }
    ensures cells { (s : Sort) → OfSort b.now.arena.kinds s id → AreCells b.now s result }
    ensures shows { (value : Items Bool → Option Value) → Yields b.now (id, outside) value →
        ShowsAt b.now result (λ a p. or_big p (value a)) }
{
    Cells {
        cell: id,
        wrong: b.formula.top().negated(),
        big: outside,
    }
}
