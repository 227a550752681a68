// Laws of what the reduction makes of typed jobs, each as the contract of a function that does nothing.
ghost use Rattle.std.specs.Prelude.{List, Option};
ghost use Rattle.tla_meaning.specs.declared.actions.Assignable.{Assignable};
ghost use Rattle.tla_meaning.specs.declared.expr.Expr.{Expr};
ghost use Rattle.tla_meaning.specs.declared.job.Job.{Job};
ghost use Rattle.snowcat_rows.specs.declared.types.Ty.{Ty};
ghost use Rattle.snowcat_rows.specs.declared.types.Typed.{Typed};
ghost use Rattle.kernel_trees.specs.declared.kernel.Ker.{Ker};
ghost use Rattle.kernel_trees.specs.declared.system.KerJob.{KerJob};
ghost use Rattle.kernel_reduction.specs.Reduction.{Numbering};
ghost use Rattle.kernel_reduction.specs.SoundLaws.{IsBuiltBeside, PartsAreSound, TextsAreWithin};

/// Each part of a typed job's kernel is sound over the kinds of the names: a truth value whose nodes have types of the table,
/// with infinite sets in form positions alone, no number bound again, and no text but the kernel's. So it is where the parts
/// are built with the types of the job's nodes, the job's trees are whole and hold no infinite set outside a form position,
/// each type has a kind, and the types meet the rows of the type table, so that each part is a truth value. What is built
/// with types is built by the same rows. It does nothing.
pub fn built_jobs_are_sound()
    ensures sound { (job : Job) (t : Typed) (k : KerJob) → PartsAreSound job t k }
    ensures texts { (job : Job) (t : Typed) (k : KerJob) → TextsAreWithin job t k }
    ensures built { (i : Option Assignable) (ρ : Numbering) (e : Expr) (ts : List Ty) (k : Ker) (us : List Ty) → IsBuiltBeside i ρ e ts k us }
{}
