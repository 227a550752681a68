//! What filters and maps mean where their literals and cells are given by a test or a function of the
//! values.

ghost use Rattle.cell_arena.specs.Decode.{present};
ghost use Rattle.cell_arena.specs.declared.kinds.CellId.{CellId as AnyCell};
ghost use Rattle.cell_merge.specs.Edges.{MapsBy};
ghost use Rattle.sat_formula.specs.declared.lit.Lit.{Lit as AnyLit};
ghost use Rattle.set_rewriter.specs.Edges.{KeepsBy, image_edges, kept};
ghost use Rattle.std.specs.Prelude.{◌≡◌, Bool, List, filter, length, map};
ghost use Rattle.tla_values.specs.Sets.{set_of};
ghost use Rattle.tla_values.specs.declared.value.Value.{Value as AnyValue};

/// Where the literals are a test of the values that are there, `filter` gives the members that
/// pass; and where the cells are images of the values that are there, `map` gives the images of the
/// members. Equal members on several edges do no harm.
pub fn members_are_kept_and_mapped()
    ensures kept { (a : List Bool) (of : AnyCell → AnyValue) (es : List (AnyLit × AnyCell)) (ls : List AnyLit) (test : AnyValue → Bool) →
        length ls ≡ length es → KeepsBy a of es ls test → set_of (kept a of es ls) ≡ filter test (set_of (present a of es)) }
    ensures mapped { (a : List Bool) (of : AnyCell → AnyValue) (es : List (AnyLit × AnyCell)) (xs : List AnyCell) (g : AnyValue → AnyValue) →
        length xs ≡ length es → MapsBy a of es xs g → set_of (present a of (image_edges es xs)) ≡ set_of (map g (set_of (present a of es))) }
{}
