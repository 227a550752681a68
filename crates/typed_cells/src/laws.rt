//! Laws of sorts.

ghost use Rattle.kernel_trees.specs.TypeKinds.{Kind, Rec, Tup, fields, kinds};
ghost use Rattle.std.specs.Prelude.{◌≡◌, List, map, zip, ℕ};
ghost use Rattle.typed_cells.specs.FieldOrder.{in_order};
ghost use Rattle.typed_cells.specs.KindSorts.{record_sort, sort_of, tuple_sort};

/// A tuple and a record of parts of the sorts of some kinds are of the sort of the kind that is made
/// of these, a record in whatever order its fields are given.
pub fn kinds_have_sorts_of_parts()
    ensures tuples { (ks : List Kind) → sort_of (Tup (kinds ks)) ≡ tuple_sort (map sort_of ks) }
    ensures records { (names : List (List ℕ)) (ks : List Kind) →
        sort_of (Rec (fields (zip names ks))) ≡ record_sort (in_order names (map sort_of ks)) }
{}
