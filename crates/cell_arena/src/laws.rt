//! Laws of growth.

ghost use Rattle.cell_arena.specs.Cells.{kind_at};
ghost use Rattle.cell_arena.specs.Decode.{decode};
ghost use Rattle.cell_arena.specs.Growth.{Grows};
ghost use Rattle.cell_arena.specs.declared.build.Build.{Build as AnyBuild};
ghost use Rattle.cell_arena.specs.declared.kinds.CellId.{CellId as AnyCell};
ghost use Rattle.std.specs.Prelude.{◌++◌, ◌<◌, ◌≡◌, Bool, List, length};

/// An older cell keeps its kind and its value under every assignment, and more
/// variables change no value.
pub fn older_cells_stay()
    ensures kinds { (old new : AnyBuild) (id : AnyCell) → Grows old new → id.index < length old.arena.kinds →
        kind_at new.arena.kinds id ≡ kind_at old.arena.kinds id }
    ensures values { (old new : AnyBuild) (id : AnyCell) (a : List Bool) → Grows old new → id.index < length old.arena.kinds →
        decode new.arena a id ≡ decode old.arena a id }
    ensures assigned { (b : AnyBuild) (id : AnyCell) (a more : List Bool) → length a ≡ b.formula.vars →
        decode b.arena (a ++ more) id ≡ decode b.arena a id }
{}
