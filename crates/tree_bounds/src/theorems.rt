// Laws of trees with bounds, each as the contract of a function that does nothing.
ghost use Rattle.std.specs.Prelude.{Bool, List, ℕ};
ghost use Rattle.tla_meaning.specs.Numbers.{Width};
ghost use Rattle.tla_meaning.specs.Scopes.{Scope};
ghost use Rattle.tla_meaning.specs.declared.job.State.{State};
ghost use Rattle.kernel_trees.specs.Paths.{Marks};
ghost use Rattle.kernel_trees.specs.Sound.{Context};
ghost use Rattle.kernel_trees.specs.TypeKinds.{Kind};
ghost use Rattle.kernel_trees.specs.declared.kernel.Ker.{Ker};
ghost use Rattle.kernel_shapes.specs.Sized.{Extent};
ghost use Rattle.tree_bounds.specs.Laws.{RangesLie, SameForm, SameNames, SameOutcome, SameShape, StaysSound};

/// A tree with bounds has the outcomes of the tree, with their places, and its forms, in all scopes and states and under
/// all widths. It reads the names that the tree reads, and has its shapes and the numbers that are held against limits.
pub fn bounded_trees_give_the_same()
    ensures outcomes { (n : ℕ) (k : Ker) (gs : List Extent) (w : Width) (sc : Scope) (s t : State) → SameOutcome n k gs w sc s t }
    ensures forms { (n : ℕ) (k : Ker) (gs : List Extent) (w : Width) (sc : Scope) (s t : State) → SameForm n k gs w sc s t }
    ensures names { (n : ℕ) (k : Ker) (gs : List Extent) (m : Marks) → SameNames n k gs m }
    ensures shapes { (n : ℕ) (k : Ker) (gs : List Extent) (w : ℕ) → SameShape n k gs w }
{}

/// A tree with bounds is sound where the tree is.
pub fn bounded_trees_stay_sound()
    ensures { (w : ℕ) (names : List Kind) (k : Ker) (c : Context) (b : Bool) (gs : List Extent) → StaysSound w names k c b gs }
{}

/// Each range that the evaluation of a tree with bounds comes to lies within its bounds, under a width of at least 2:
/// where the tree is sound, the names that it reads have shapes of their types, and bound names and states fit these in
/// one of the extents by which the bounds are.
pub fn ranges_lie_within_their_bounds()
    ensures { (w : ℕ) (names : List Kind) (k : Ker) (c : Context) (b : Bool) (gs : List Extent) (g : Extent) (sc : Scope) (s t : State) → RangesLie w names k c b gs g sc s t }
{}
