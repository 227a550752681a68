// A law of steps with their assignments, as the contract of a function that does nothing.
ghost use Rattle.std.specs.Prelude.{IsTrue, List, ℕ};
ghost use Rattle.kernel_trees.specs.Assignments.{reads_late};
ghost use Rattle.kernel_trees.specs.Paths.{Marks};
ghost use Rattle.kernel_trees.specs.declared.path.AssignedStep.{AssignedStep};
ghost use Rattle.assignment_finder.specs.Finding.{AreFine};

/// On a path of steps that are fine no step reads a marked name before its assignment, as
/// [`faults_read_what_was_assigned`](kernel_trees::faults_read_what_was_assigned) asks it.
pub fn fine_steps_read_nothing_early()
    ensures { (m : Marks) (before : List ℕ) (zs : List AssignedStep) → AreFine m before zs → IsTrue (reads_late m before zs) }
{}
