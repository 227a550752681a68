// What the reduction keeps of values, as the contract of a function that does nothing.
ghost use Rattle.std.specs.Prelude.{Option};
ghost use Rattle.tla_meaning.specs.Numbers.{Width};
ghost use Rattle.tla_meaning.specs.declared.actions.Assignable.{Assignable};
ghost use Rattle.tla_meaning.specs.declared.expr.Expr.{Expr};
ghost use Rattle.kernel_trees.specs.declared.kernel.Ker.{Ker};
ghost use Rattle.kernel_reduction.specs.Laws.{KeepsOutcomes};
ghost use Rattle.kernel_reduction.specs.Reduction.{Numbering};

/// What is built of an expression has its outcome, faults with their places among it, and is the same form as the right
/// side of a membership: under no width and under each from 4 on, at states of normal values, where bound names have the
/// values of their numbers.
pub fn what_is_built_keeps_its_outcomes()
    ensures { (w : Width) (i : Option Assignable) (ρ : Numbering) (e : Expr) (k : Ker) → KeepsOutcomes w i ρ e k }
{}
