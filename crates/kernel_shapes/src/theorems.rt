// Laws of shapes, each as the contract of a function that does nothing.
ghost use Rattle.std.specs.Prelude.{Bool, List, ℕ, ℤ};
ghost use Rattle.tla_meaning.specs.Scopes.{Scope};
ghost use Rattle.tla_meaning.specs.declared.expr.Expr.{Expr};
ghost use Rattle.tla_meaning.specs.declared.forms.SetForm.{SetForm};
ghost use Rattle.tla_meaning.specs.declared.job.State.{State};
ghost use Rattle.tla_values.specs.declared.value.Value.{Value};
ghost use Rattle.snowcat_rows.specs.declared.types.Ty.{Ty};
ghost use Rattle.kernel_trees.specs.Paths.{Marks};
ghost use Rattle.kernel_trees.specs.Sound.{Context};
ghost use Rattle.kernel_trees.specs.TypeKinds.{Kind};
ghost use Rattle.kernel_trees.specs.declared.kernel.Ker.{Ker};
ghost use Rattle.kernel_trees.specs.declared.system.System.{System};
ghost use Rattle.kernel_shapes.specs.Counts.{Count};
ghost use Rattle.kernel_shapes.specs.Laws.{FitsItsShape, FormFitsItsShape, HasSoundShape, KernelFitsItsShape, LevelsFit, Refuses, SameRefusal, StartFits, TypedFits, TypedStateFits};
ghost use Rattle.kernel_shapes.specs.Shape.{Shape};
ghost use Rattle.kernel_shapes.specs.Sized.{Extent};

/// Each value that an expression has under a width of at least 2 fits its shape, if bound names and states fit theirs:
/// of an expanded tree whose names have shapes, which joins shapes of one kind alone and is well formed otherwise (a
/// filter has one name, a power its literal exponent, a record different fields; tuples and records are read by
/// literals; operands are sequences, functions or records where they are to be); and of a sound kernel tree, if the
/// names that it reads have shapes of their types. So does a normal value that belongs to a form in which no infinite
/// set stands, if bound names and states have normal values: it fits the shape of the members.
pub fn values_fit_their_shapes()
    ensures trees { (w : ℕ) (e : Expr) (ks : List Kind) (sc : Scope) (g : Extent) (s t : State) (v : Value) → FitsItsShape w e ks sc g s t v }
    ensures kernel { (w : ℕ) (names : List Kind) (k : Ker) (c : Context) (b : Bool) (sc : Scope) (g : Extent) (s t : State) (v : Value) → KernelFitsItsShape w names k c b sc g s t v }
    ensures forms { (w : ℕ) (e : Expr) (ks : List Kind) (sc : Scope) (g : Extent) (s t : State) (f : SetForm) (v : Value) → FormFitsItsShape w e ks sc g s t f v }
{}

/// The shape of a sound kernel tree is of its type, if the names that it reads have shapes of their types.
pub fn sound_trees_have_shapes_of_their_types()
    ensures { (w : ℕ) (names : List Kind) (k : Ker) (c : Context) (b : Bool) (g : Extent) (a : Kind) → HasSoundShape w names k c b g a }
{}

/// A state with which paths of CInit and of Init hold fits the shapes of the start, which are of the types of its
/// names; and where a state fits such shapes, the state that a run along the paths of the step reaches n steps later
/// fits the shapes of level n, which are of the types again.
pub fn states_fit_the_shapes_of_their_levels()
    ensures start { (w : ℕ) (sys : System) (names : List Kind) (m : Marks) (s : State) → StartFits w sys names m s }
    ensures levels { (w : ℕ) (sys : System) (names : List Kind) (m : Marks) (first : List Shape) (run : ℕ → State) (n : ℕ) → LevelsFit w sys names m first run n }
{}

/// A normal value of a type whose integers lie between two bounds and whose collections have at most so many elements
/// fits the shape of the type in these bounds; and a state whose constants are those of CInit and whose variables have
/// such values fits the shapes of a typed state, which are of the types of its names.
pub fn typed_values_fit_the_shapes_of_their_types()
    ensures values { (literals : List (List ℕ)) (low : ℤ) (high : ℤ) (size : ℕ) (t : Ty) (k : Kind) (v : Value) → TypedFits literals low high size t k v }
    ensures states { (w : ℕ) (sys : System) (names : List Kind) (literals : List (List ℕ)) (low : ℤ) (high : ℤ) (size : ℕ) (ts : List Ty) (s : State) → TypedStateFits w sys names literals low high size ts s }
{}

/// Numbers make a refusal where one of them is past its limit, and which one they make depends neither on their order
/// nor on how often one of them stands there.
pub fn refusals_depend_on_the_numbers_alone()
    ensures limits { (cs : List Count) → Refuses cs }
    ensures order { (cs ds : List Count) → SameRefusal cs ds }
{}
