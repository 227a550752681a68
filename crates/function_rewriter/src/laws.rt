//! What a function that is made means where its results are given by a rule.

ghost use Rattle.cell_arena.specs.Decode.{present, present_pairs};
ghost use Rattle.cell_arena.specs.declared.kinds.CellId.{CellId as AnyCell};
ghost use Rattle.cell_merge.specs.Edges.{MapsBy};
ghost use Rattle.function_rewriter.specs.Arrows.{with_results};
ghost use Rattle.sat_formula.specs.declared.lit.Lit.{Lit as AnyLit};
ghost use Rattle.std.specs.Prelude.{◌≡◌, Bool, List, length, map};
ghost use Rattle.tla_values.specs.Sets.{function_of, set_of};
ghost use Rattle.tla_values.specs.declared.value.Value.{Value as AnyValue};

/// Where the results are given by a rule of the values that are there, `make` gives the function that
/// has at each member what the rule gives. Equal members on several edges do no harm.
pub fn functions_are_made()
    ensures made { (a : List Bool) (of : AnyCell → AnyValue) (es : List (AnyLit × AnyCell)) (rs : List AnyCell) (g : AnyValue → AnyValue) →
        length rs ≡ length es → MapsBy a of es rs g → function_of (present_pairs a of (with_results es rs)) ≡ map (λ v. (v, g v)) (set_of (present a of es)) }
{}
