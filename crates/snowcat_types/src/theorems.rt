// Laws of the definitions, as contracts of functions that do nothing.
ghost use Rattle.std.specs.Prelude.{ℕ, List, IsTrue};
ghost use Rattle.tla_meaning.specs.declared.job.Job.{Job};
ghost use Rattle.tla_meaning.specs.declared.place.Place.{Place};
ghost use Rattle.snowcat_rows.specs.declared.types.Ty.{Ty};
ghost use Rattle.snowcat_rows.specs.declared.types.Typed.{Typed};
ghost use Rattle.snowcat_types.specs.Annotated.{IsFirstWithout, IsLeastBad};
ghost use Rattle.snowcat_types.specs.Answers.{AllGround, HaveSameTypes, IsClashOf, IsTypedAs, MeetsRows, is_typable};

/// No job has a typing and a clash: where two types clash there is no typing at all, whatever nodes would take their
/// default in it. It does nothing.
pub fn clashes_have_no_typing()
    ensures { (job : Job) (t : Typed) (p : Place) (x y : Ty) (places : List Place)
        → IsTypedAs job t → IsClashOf job p x y places → ⊥ }
{}

/// A job with a name that has no annotation, or with an annotation that is no type, has no typing. It does nothing.
pub fn unread_annotations_have_no_typing()
    ensures missing { (job : Job) (t : Typed) (x : List ℕ) (p : Place) → IsTypedAs job t → IsFirstWithout job x p → ⊥ }
    ensures bad { (job : Job) (t : Typed) (p : Place) → IsTypedAs job t → IsLeastBad job p → ⊥ }
{}

/// No type of a typing holds a variable or an operator type. It does nothing.
pub fn typings_are_ground()
    ensures { (job : Job) (t : Typed) → IsTrue (is_typable job) → IsTypedAs job t → AllGround t }
{}

/// A job has one typing: whatever nodes are decided first, all end with the same types. It does nothing.
pub fn jobs_have_one_typing()
    ensures { (job : Job) (t u : Typed) → IsTrue (is_typable job) → IsTypedAs job t → IsTypedAs job u → HaveSameTypes t u }
{}

/// In a typing each declared name has its annotated type, with some types in the place of variables; each node
/// and its children have types that some types make of the row of its operator, with a choice where the node is
/// overloaded; and each part is a truth value: the type of its root is Bool. It does nothing.
pub fn typings_meet_rows()
    ensures { (job : Job) (t : Typed) → IsTrue (is_typable job) → IsTypedAs job t → MeetsRows job t }
{}
