// What the reduction keeps of shapes and numbers, of trees and of whole jobs, each as the contract of a function that does
// nothing.
ghost use Rattle.std.specs.Prelude.{List, Option, ℕ, ℤ};
ghost use Rattle.tla_meaning.specs.declared.actions.Assignable.{Assignable};
ghost use Rattle.tla_meaning.specs.declared.expr.Expr.{Expr};
ghost use Rattle.tla_meaning.specs.declared.job.Job.{Job};
ghost use Rattle.snowcat_rows.specs.declared.types.Ty.{Ty};
ghost use Rattle.snowcat_rows.specs.declared.types.Typed.{Typed};
ghost use Rattle.kernel_trees.specs.TypeKinds.{Kind};
ghost use Rattle.kernel_trees.specs.declared.kernel.Ker.{Ker};
ghost use Rattle.kernel_trees.specs.declared.system.KerJob.{KerJob};
ghost use Rattle.kernel_shapes.specs.Sized.{Extent};
ghost use Rattle.kernel_reduction.specs.JobSizes.{KeepsJobRefusals, KeepsJobShapes, KeepsTypedRefusals};
ghost use Rattle.kernel_reduction.specs.Reduction.{Numbering};
ghost use Rattle.kernel_reduction.specs.SizeLaws.{KeepsPartSizes, KeepsSizes, KeepsTypedSizes};

/// What is built of an expression has its shape, and the first of its numbers that is refused, with place and number, in
/// each position: under each width from 2 on, where bound names have the shapes of their numbers and the kernel tree is
/// sound. So the assumption and the invariants of a job have the refusals of what is built of them; and so has what is
/// built with types, where those of the job's nodes have kinds and meet the rows of the type table.
pub fn built_trees_keep_shapes_and_refusals()
    ensures trees { (w : ℕ) (i : Option Assignable) (ρ : Numbering) (e : Expr) (k : Ker) (ks : List Kind) (g h : Extent) → KeepsSizes w i ρ e k ks g h }
    ensures parts { (w : ℕ) (e : Expr) (k : Ker) (ks : List Kind) (g : Extent) → KeepsPartSizes w e k ks g }
    ensures typed { (w : ℕ) (i : Option Assignable) (ρ : Numbering) (e : Expr) (k : Ker) (ts : List Ty) (g h : Extent) → KeepsTypedSizes w i ρ e k ts g h }
{}

/// Along the paths of CInit, Init and Next of a job's own typed trees the names have at each level the shapes that they have
/// along those of its kernel, and the same level is refused for the same number at the same place: from the start and from
/// each typed state, under each width from 2 on. So it is of a kernel that `reduce` makes of the job, where the types meet
/// the rows of the type table, so that it is sound. It does nothing.
pub fn built_jobs_keep_their_refusals()
    ensures shapes { (w : ℕ) (job : Job) (t : Typed) (k : KerJob) (n : ℕ) → KeepsJobShapes w job t k n }
    ensures refusals { (w : ℕ) (job : Job) (t : Typed) (k : KerJob) (n : ℕ) → KeepsJobRefusals w job t k n }
    ensures typed { (w : ℕ) (job : Job) (t : Typed) (k : KerJob) (low : ℤ) (high : ℤ) (size : ℕ) (names : List Kind) → KeepsTypedRefusals w job t k low high size names }
{}
