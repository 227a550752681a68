//! One step of a path.

ghost use Rattle.cell_arena.specs.Growth.{Grows};
ghost use Rattle.expr_rewriter.specs.Rewriting.{CanRewrite};
ghost use Rattle.kernel_trees.specs.declared.path.AssignedStep.TheVariants as mark;
ghost use Rattle.outcome_cells.specs.Joins.{JoinsOperands};
ghost use Rattle.outcome_cells.specs.Shows.{FaultsBelow, faults_of};
ghost use Rattle.path_cells.specs.inner.Steps.{CanGuard, CanPick, CanTakeMember, IsStepCells, no_choice};
ghost use Rattle.path_walks.specs.Paths.{CanRewritePath};
ghost use Rattle.std.specs.Prelude.{[], ◌∷◌, ◌≡◌, All, IfOk, ℕ};

use crate::choosing::{pick_each, sets};
use crate::literals::wanted_bit;
use cell_arena::Build;
use expr_rewriter::{CellEnv, Cells, rewrite, rewrite_form};
use form_choices::pick_form;
use kernel_trees::{AssignedStep, Ker};
use outcome_cells::{Faults, bit_of, join_all};
use path_walks::StepCells;
use sat_formula::Lit;
use std::alloc::{AllocError, Global};
use tla_values::List;

// A step with these faults that never holds.
fn never(alloc: Global, faults: Faults) -> Result<StepCells, AllocError>
    ensures { IfOk result (λ m. m ≡ no_choice faults) }
{
    let mut choices = Vec::new(alloc);
    choices.push(Lit { var: 0, neg: true })?;
    Ok(StepCells {
        faults,
        choices: List::from_vec(choices),
        cells: List::new(alloc),
    })
}

// The list of one.
fn only<T: Drop>(alloc: Global, item: T) -> Result<List<T>, AllocError>
    ensures { IfOk result (λ r. r ≡ item ∷ []) }
{
    let mut items = Vec::new(alloc);
    items.push(item)?;
    Ok(List::from_vec(items))
}

// A guard: the literal of its truth value, or the negation where FALSE is wanted.
#[tactic(auto, using(cell_arena::proofs::Growing::growing))]
fn guard(b: &mut Build, env: &CellEnv, k: &Ker, wanted: bool) -> Result<StepCells, AllocError>
    requires { CanGuard b.old k.now env.now }
    ensures step { IfOk result (IsStepCells b.old b.new env.entry.now (mark.Guard k.now wanted)) }
    ensures grows { Grows b.old b.new }
{
    let x = rewrite(b, k, env)?;
    let alloc = b.arena.alloc();
    let bit = bit_of(&b.arena, x.cell);
    let choices = only(alloc, wanted_bit(wanted, bit))?;
    Ok(StepCells {
        faults: x.faults(),
        choices,
        cells: List::new(alloc),
    })
}

// The faults of the sets of a pick.
#[tactic(auto, using(cell_arena::proofs::Growing::growing))]
fn joined(b: &mut Build, xs: &[Cells]) -> Result<Faults, AllocError>
    requires { All (λ x. FaultsBelow b.old.formula.vars (faults_of x)) xs.now }
    ensures joins { IfOk result (JoinsOperands b.new.formula xs.now) }
    ensures arena { b.new.arena ≡ b.old.arena }
    ensures grows { Grows b.old b.new }
{
    let faults = join_all(b.arena.alloc(), &mut b.formula, xs)?;
    Ok(faults)
}

// A pick: a free choice of a member of each set.
#[tactic(auto, using(cell_arena::proofs::Growing::growing))]
fn picked(b: &mut Build, env: &CellEnv, ps: &[(u32, Ker)]) -> Result<StepCells, AllocError>
    requires { CanPick b.old ps.now env.now }
    ensures step { IfOk result (IsStepCells b.old b.new env.entry.now (mark.Pick ps.now)) }
    ensures grows { Grows b.old b.new }
{
    // Read for its promise: it is true under each satisfying assignment.
    let _ = b.formula.top();
    let made = sets(b, env, ps)?;
    let xs = made.as_slice();
    let faults = joined(b, xs)?;
    let Some(chosen) = pick_each(b, xs)? else {
        let none = never(b.arena.alloc(), faults)?;
        return Ok(none);
    };
    let (cells, choices) = chosen;
    Ok(StepCells {
        faults,
        choices: List::from_vec(choices),
        cells: List::from_vec(cells),
    })
}

// A name is given a value: its cell, and no literal but for its faults.
#[tactic(auto, using(cell_arena::proofs::Growing::growing))]
fn value(b: &mut Build, env: &CellEnv, e: &Ker) -> Result<StepCells, AllocError>
    requires { CanRewrite b.old e.now env.now }
    ensures step { IfOk result (λ m. (i : ℕ) → IsStepCells b.old b.new env.entry.now (mark.Equals i e.now) m) }
    ensures grows { Grows b.old b.new }
{
    let x = rewrite(b, e, env)?;
    let alloc = b.arena.alloc();
    let cells = only(alloc, x.cell)?;
    Ok(StepCells {
        faults: x.faults(),
        choices: List::new(alloc),
        cells,
    })
}

// A name is given a member of a form, by free choice.
#[tactic(auto, using(cell_arena::proofs::Growing::growing))]
fn member(b: &mut Build, env: &CellEnv, e: &Ker) -> Result<StepCells, AllocError>
    requires { CanTakeMember b.old e.now env.now }
    ensures step { IfOk result (λ m. (i : ℕ) → IsStepCells b.old b.new env.entry.now (mark.Among i e.now) m) }
    ensures grows { Grows b.old b.new }
{
    // Read for its promise: it is true under each satisfying assignment.
    let _ = b.formula.top();
    let made = rewrite_form(b, e, env)?;
    let faults = Faults {
        wrong: made.wrong,
        big: made.big,
    };
    let alloc = b.arena.alloc();
    let Some(chosen) = pick_form(b, &made.form)? else {
        let none = never(alloc, faults)?;
        return Ok(none);
    };
    let choices = only(alloc, chosen.1)?;
    let cells = only(alloc, chosen.0)?;
    Ok(StepCells {
        faults,
        choices,
        cells,
    })
}

/// The literals and cells of a step, where the names have cells.
#[tactic(auto, using(cell_arena::proofs::Growing::growing))]
pub(crate) fn step_cells(
    b: &mut Build,
    env: &CellEnv,
    step: &AssignedStep,
) -> Result<StepCells, AllocError>
    requires { CanRewritePath b.old env.now (step.now ∷ []) }
    ensures step { IfOk result (IsStepCells b.old b.new env.entry.now step.now) }
    ensures grows { Grows b.old b.new }
{
    match step {
        AssignedStep::Guard(k, wanted) => {
            let m = guard(b, env, k, *wanted)?;
            Ok(m)
        }
        AssignedStep::Pick(ps) => {
            let m = picked(b, env, ps.as_slice())?;
            Ok(m)
        }
        AssignedStep::Equals(_, e) => {
            let m = value(b, env, e)?;
            Ok(m)
        }
        AssignedStep::Among(_, e) => {
            let m = member(b, env, e)?;
            Ok(m)
        }
    }
}
