// Laws of what the reduction keeps: of an action, of places, and of a job, each as the contract of a function that does
// nothing.
ghost use Rattle.std.specs.Prelude.{List, Option, ℕ};
ghost use Rattle.tla_meaning.specs.Numbers.{Width};
ghost use Rattle.tla_meaning.specs.declared.actions.Assignable.{Assignable};
ghost use Rattle.tla_meaning.specs.declared.expr.Expr.{Expr};
ghost use Rattle.tla_meaning.specs.declared.job.Job.{Job};
ghost use Rattle.tla_meaning.specs.declared.job.State.{State};
ghost use Rattle.tla_meaning.specs.declared.place.Place.{Place};
ghost use Rattle.kernel_trees.specs.Paths.{Marks};
ghost use Rattle.kernel_trees.specs.declared.kernel.Ker.{Ker};
ghost use Rattle.kernel_trees.specs.declared.system.KerJob.{KerJob};
ghost use Rattle.kernel_reduction.specs.BuiltJobs.{KeepsJobOutcomes, KeepsJobPaths, KeepsJobPlaces, KeepsJobReads, KeepsJobTexts};
ghost use Rattle.kernel_reduction.specs.JobPaths.{TypedTree};
ghost use Rattle.kernel_reduction.specs.PathLaws.{KeepsActions, KeepsPaths, KeepsPathsBelow, KeepsReads};
ghost use Rattle.kernel_reduction.specs.Origins.{KeepsPlaces, KeepsTexts};
ghost use Rattle.kernel_reduction.specs.Reduction.{Numbering};

/// What is built in an action position has there the effect of its expression, faults with their places among it: under
/// no width and under each from 4 on, at states of normal values, where bound names have the values of their numbers.
pub fn built_actions_keep_their_effect()
    ensures { (w : Width) (m : Assignable) (ρ : Numbering) (e : Expr) (k : Ker) → KeepsActions w m ρ e k }
{}

/// What is built in an action position has the paths of its expression: as many, in the same order, each with the same
/// place; each ends or does not, and step by step assigns the same name, by a value or from a form with infinite parts at
/// the same places, and reads the same names at the same places. So it is by all names that may be assigned, and by those
/// of the first n where it holds no others.
pub fn built_actions_keep_their_paths()
    ensures paths { (m : Assignable) (ρ : Numbering) (t : TypedTree) (k : Ker) → KeepsPaths m ρ t k }
    ensures below { (n : ℕ) (m : Assignable) (ρ : Numbering) (t : TypedTree) (k : Ker) → KeepsPathsBelow n m ρ t k }
{}

/// What is built has no place and no text that its expression does not have, and reads the same names at the same places.
pub fn built_trees_keep_places_and_names()
    ensures places { (i : Option Assignable) (ρ : Numbering) (e : Expr) (k : Ker) (p : Place) → KeepsPlaces i ρ e k p }
    ensures texts { (i : Option Assignable) (ρ : Numbering) (e : Expr) (k : Ker) (x : List ℕ) → KeepsTexts i ρ e k x }
    ensures reads { (m : Marks) (i : Option Assignable) (ρ : Numbering) (e : Expr) (k : Ker) (n : ℕ) (p : Place) → KeepsReads m i ρ e k n p }
{}

/// A job's kernel, each part of which is built in its position, has the outcomes of the job's parts at states of normal
/// values, under no width and under each from 4 on; the paths of CInit, Init and Next of a job that may be typed; and its
/// assumption and its invariants read the names that the job's read.
pub fn built_jobs_keep_outcomes_and_paths()
    ensures outcomes { (job : Job) (k : KerJob) (w : Width) (s t : State) → KeepsJobOutcomes job k w s t }
    ensures paths { (job : Job) (k : KerJob) → KeepsJobPaths job k }
    ensures reads { (m : Marks) (job : Job) (k : KerJob) (n : ℕ) (p : Place) → KeepsJobReads m job k n p }
{}

/// It has no place and no text that the job does not have.
pub fn built_jobs_keep_places_and_texts()
    ensures places { (job : Job) (k : KerJob) (p : Place) → KeepsJobPlaces job k p }
    ensures texts { (job : Job) (k : KerJob) (x : List ℕ) → KeepsJobTexts job k x }
{}
