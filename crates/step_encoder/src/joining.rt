// Literals over the formula of a build.

ghost use Rattle.branch_cells.specs.Ends.{AreAlso, AreBehind, EndsBelow};
ghost use Rattle.cell_arena.specs.Growth.{Grows};
ghost use Rattle.sat_formula.specs.Formula.{Grows as FormulaGrows};
ghost use Rattle.std.specs.Prelude.{◌<◌, All, IfOk};
ghost use Rattle.step_encoder.specs.inner.Asked.{AreJudgedWith};

use branch_cells::{Ends, also, behind, judged};
use cell_arena::Build;
use sat_formula::{Formula, Lit};
use std::alloc::AllocError;

// Of a conjunction of two parts, of which the second counts only where the first holds.
#[tactic(auto, using(cell_arena::proofs::Growing::growing))]
pub(crate) fn both(b: &mut Build, x: Ends, y: Ends) -> Result<Ends, AllocError>
    requires first { EndsBelow b.old.formula.vars x }
    requires second { EndsBelow b.old.formula.vars y }
    ensures ends { IfOk result (AreBehind b.new.formula x y) }
    ensures grows { Grows b.old b.new }
{
    let ends = behind(&mut b.formula, x, y)?;
    Ok(ends)
}

// Of a step, which counts only where the run literal is true.
#[tactic(auto, using(cell_arena::proofs::Growing::growing))]
pub(crate) fn after_run(b: &mut Build, run: Lit, x: Ends) -> Result<Ends, AllocError>
    requires run { run.var < b.old.formula.vars }
    requires ends { EndsBelow b.old.formula.vars x }
    ensures ends { IfOk result (AreAlso b.new.formula run x) }
    ensures grows { Grows b.old b.new }
{
    let ends = also(&mut b.formula, run, x)?;
    Ok(ends)
}

// Of outcomes one behind the other, where the run literal is true: that the first that is not TRUE
// is FALSE or has no value, and that it is an integer outside the width.
#[tactic(auto, using(sat_formula::proofs::Extension::gates))]
fn judged_with(f: &mut Formula, xs: &[Ends], run: Lit) -> Result<(Lit, Lit), AllocError>
    requires ends { All (EndsBelow f.old.vars) xs.now }
    requires run { run.var < f.old.vars }
    ensures judged { IfOk result (AreJudgedWith f.new xs.now run) }
    ensures grows { FormulaGrows f.old f.new }
{
    let (not_true, big) = judged(f, xs)?;
    let run_not_true = f.and(run, not_true)?;
    let run_big = f.and(run, big)?;
    Ok((run_not_true, run_big))
}

#[tactic(auto, using(cell_arena::proofs::Growing::growing))]
pub(crate) fn judged_in(b: &mut Build, xs: &[Ends], run: Lit) -> Result<(Lit, Lit), AllocError>
    requires ends { All (EndsBelow b.old.formula.vars) xs.now }
    requires run { run.var < b.old.formula.vars }
    ensures judged { IfOk result (AreJudgedWith b.new.formula xs.now run) }
    ensures grows { Grows b.old b.new }
{
    let literals = judged_with(&mut b.formula, xs, run)?;
    Ok(literals)
}
