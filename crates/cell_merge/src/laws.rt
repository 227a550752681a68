//! Laws of the sorts and of the values of cells.

ghost use Rattle.cell_arena.specs.Cells.{Cells as AnyCells};
ghost use Rattle.cell_arena.specs.Decode.{decode};
ghost use Rattle.cell_arena.specs.Growth.{Grows};
ghost use Rattle.cell_arena.specs.declared.build.Build.{Build as AnyBuild};
ghost use Rattle.cell_arena.specs.declared.kinds.CellId.{CellId as AnyCell};
ghost use Rattle.cell_merge.specs.Sorts.{OfSort, Sort};
ghost use Rattle.std.specs.Prelude.{Bool, List};
ghost use Rattle.tla_values.specs.Sets.{Normal};

/// A cell keeps its sorts as a build grows, and has a normal value under every assignment.
pub fn cells_keep_sorts_and_are_normal()
    ensures sorts { (old new : AnyBuild) (s : Sort) (id : AnyCell) → Grows old new → OfSort old.arena.kinds s id → OfSort new.arena.kinds s id }
    ensures normal { (c : AnyCells) (a : List Bool) (id : AnyCell) → Normal (decode c a id) }
{}
