// Laws of kernel trees and their paths, each as the contract of a function that does nothing.
ghost use Rattle.std.specs.Prelude.{◌≡◌, ◌↔◌, true, Bool, IsTrue, List, [], length, ℕ};
ghost use Rattle.tla_meaning.specs.Actions.{counts, meaning};
ghost use Rattle.tla_meaning.specs.Numbers.{Width};
ghost use Rattle.tla_meaning.specs.Scopes.{Scope};
ghost use Rattle.tla_meaning.specs.declared.actions.Assignable.{Assignable};
ghost use Rattle.tla_meaning.specs.declared.job.State.{State};
ghost use Rattle.tla_meaning.specs.declared.outcome.Fault.{Fault};
ghost use Rattle.tla_meaning.specs.declared.place.Place.{Place};
ghost use Rattle.tla_values.specs.declared.value.Value.{Value};
ghost use Rattle.kernel_trees.specs.declared.kernel.Ker.{Ker};
ghost use Rattle.kernel_trees.specs.declared.path.AssignedStep.{AssignedStep};
ghost use Rattle.kernel_trees.specs.Trees.{as_expr};
ghost use Rattle.kernel_trees.specs.Paths.{Marks, mentions};
ghost use Rattle.kernel_trees.specs.Scoped.{Names};
ghost use Rattle.kernel_trees.specs.TypeKinds.{Kind};
ghost use Rattle.kernel_trees.specs.Sound.{Context, bound_in, sound_tree};
ghost use Rattle.kernel_trees.specs.Assignments.{AssignedMeets, MeetsWith, reads_at};
ghost use Rattle.kernel_trees.specs.Laws.{GoesByAssigned, GoesByKerPaths, GoesByPaths, HasSoundPaths, IsWithin, MeetsTheSame};

/// An action holds exactly where one of its paths does for some picks, and its fault is the join of those that its
/// paths meet over all picks, if no number is bound again where it is bound: for the paths by the names that the
/// action may assign; for those that are handed on, by the marks of the declared names, where guards are truth values
/// and picks have sets; and for these with their assignments, where the names have values and are assigned from sets.
pub fn actions_go_by_their_paths()
    ensures picks { (w : Width) (m : Assignable) (k : Ker) (B : Names) (sc : Scope) (s t : State) → GoesByPaths w m k B sc s t }
    ensures split { (w : Width) (m : Assignable) (n : ℕ) (k : Ker) (B : Names) (sc : Scope) (s t : State) → IsWithin n k B → GoesByKerPaths w m n k sc s t }
    ensures assigned { (w : Width) (m : Assignable) (n : ℕ) (k : Ker) (B : Names) (sc : Scope) (s t : State) → IsWithin n k B → GoesByAssigned w m n k sc s t }
{}

/// A sound tree binds no number again where it is bound, and its names are below the number of types.
pub fn sound_trees_are_scoped()
    ensures { (names : List Kind) (k : Ker) (c : Context) (b : Bool) → IsTrue (sound_tree names k c b) → IsWithin (length names) k (bound_in c) }
{}

/// The paths of a sound tree that is a truth value are sound, whatever names they may assign.
pub fn paths_of_sound_trees_are_sound()
    ensures { (names : List Kind) (m : Marks) (k : Ker) (c : Context) → HasSoundPaths names m k c }
{}

/// What a path reads before its first fault was assigned on it: where no step reads a marked name before its
/// assignment, a fault that is met with some names assigned is met at every two states that agree on these and on the
/// unmarked names; and each fault that is met is met with some names assigned.
pub fn faults_read_what_was_assigned()
    ensures same { (w : Width) (m : Marks) (zs : List AssignedStep) (vss : List (List Value)) (sc : Scope) (f : Fault) (given : List ℕ) → MeetsTheSame w m zs vss sc f given }
    ensures some { (w : Width) (s t : State) (zs : List AssignedStep) (vss : List (List Value)) (sc : Scope) (f : Fault) → AssignedMeets w s t zs vss sc f → (given : List ℕ) × MeetsWith w s t [] zs vss sc f given }
    ensures met { (w : Width) (s t : State) (zs : List AssignedStep) (vss : List (List Value)) (sc : Scope) (f : Fault) (given : List ℕ) → MeetsWith w s t [] zs vss sc f given → AssignedMeets w s t zs vss sc f }
{}

/// A tree holds a marked name exactly where it reads one at some place.
pub fn what_is_read_has_a_place()
    ensures { (m : Marks) (k : Ker) → (mentions m k ≡ true) ↔ ((i : ℕ) × (p : Place) × (reads_at m k i p ≡ true)) }
{}

/// A kernel tree holds a name that counts exactly where the expression for which it stands does.
pub fn trees_mention_what_they_stand_for()
    ensures { (w : Width) (m : Assignable) (k : Ker) (sc : Scope) → (meaning w (as_expr k) sc).mentions m ≡ mentions (counts m) k }
{}
