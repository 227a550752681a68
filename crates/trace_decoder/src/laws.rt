//! Laws of decoded states.

ghost use Rattle.cell_arena.specs.Cells.{Cells as AnyCells};
ghost use Rattle.cell_arena.specs.Decode.{decode};
ghost use Rattle.cell_arena.specs.Growth.{Grows};
ghost use Rattle.cell_arena.specs.declared.build.Build.{Build as AnyBuild};
ghost use Rattle.cell_arena.specs.declared.kinds.CellId.{CellId as AnyCell};
ghost use Rattle.kernel_trees.specs.TypeKinds.{Kind, all_there, kind_of};
ghost use Rattle.snowcat_rows.specs.Types.{mean};
ghost use Rattle.snowcat_rows.specs.Values.{HasType};
ghost use Rattle.snowcat_rows.specs.declared.types.Ty.{Ty as AnyTy};
ghost use Rattle.std.specs.Prelude.{◌<◌, ◌≡◌, ◌≤◌, All, Bool, List, Some, length, map, take};
ghost use Rattle.tla_meaning.specs.Executions.{IsState};
ghost use Rattle.tla_meaning.specs.declared.job.Job.{Job as AnyJob};
ghost use Rattle.tla_meaning.specs.declared.job.State.{State as AnyState};
ghost use Rattle.trace_decoder.specs.Typed.{HaveTypes};
ghost use Rattle.typed_cells.specs.KindSorts.{OfSorts, OfType, sort_of};

/// The values of as many cells as a job has names are a state of the job, under every assignment:
/// each of them is normal.
pub fn decoded_states_are_normal()
    ensures { (job : AnyJob) (s : AnyState) (c : AnyCells) (a : List Bool) (ids : List AnyCell) →
        s.vals ≡ map (decode c a) ids → length ids ≡ length job.names → IsState job s }
{}

/// Cells keep their values as the build grows, under each assignment, and these go by the variables
/// of the older formula alone.
pub fn decoded_states_stay()
    ensures { (old new : AnyBuild) (ids : List AnyCell) (a more : List Bool) → Grows old new →
        All (λ id. id.index < length old.arena.kinds) ids → old.formula.vars ≤ length a →
        old.formula.vars ≤ length more → take old.formula.vars more ≡ take old.formula.vars a →
        map (decode new.arena more) ids ≡ map (decode old.arena a) ids }
{}

/// A cell of a type has values of this type alone, under every assignment; so has a state whose
/// cells are of the types of its names.
pub fn decoded_values_have_their_types()
    ensures cells { (b : AnyBuild) (t : AnyTy) (k : Kind) (id : AnyCell) (a : List Bool) →
        kind_of t ≡ Some k → OfType b.arena.kinds t id → HasType (decode b.arena a id) (mean t) }
    ensures states { (b : AnyBuild) (ts : List AnyTy) (ks : List Kind) (ids : List AnyCell) (a : List Bool) →
        all_there (map kind_of ts) ≡ Some ks → OfSorts b.arena.kinds (map sort_of ks) ids →
        HaveTypes ts (map (decode b.arena a) ids) }
{}
