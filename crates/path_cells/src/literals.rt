//! The literals of a path, a step at a time.

ghost use Rattle.path_cells.specs.inner.Steps.{LiteralsBelow, StepBelow, all_literals, is_never, negation};
ghost use Rattle.path_walks.specs.inner.Walks.{AddsLiterals};
ghost use Rattle.sat_formula.specs.Formula.{Grows};
ghost use Rattle.std.specs.List.{list_any};
ghost use Rattle.std.specs.Prelude.{◌≡◌, IfOk, if◌then◌else◌};

use path_walks::{PathCells, StepCells};
use sat_formula::{Formula, Lit};
use std::alloc::{AllocError, Global};

/// The literal, or its negation where FALSE is wanted.
pub(crate) fn wanted_bit(wanted: bool, l: Lit) -> Lit
    ensures { result ≡ (if wanted then l else negation l) }
{
    if wanted { l } else { l.negated() }
}

/// Whether the literal is the negation of `top`.
pub(crate) fn is_bottom(l: Lit) -> bool
    ensures { result ≡ is_never l }
{
    l.var == 0 && l.neg
}

/// Whether one of the literals is the negation of `top`, so that they are never all true.
pub(crate) fn has_bottom(lits: &[Lit]) -> bool
    ensures { result ≡ list_any is_never lits.now }
{
    lits.iter().any(|l| l.var == 0 && l.neg)
}

// The literals that are all true where the path holds with the step.
fn all_of(alloc: Global, x: &PathCells, m: &StepCells) -> Result<Vec<Lit>, AllocError>
    ensures { IfOk result (λ r. r.items ≡ all_literals x.now.holds m.now) }
{
    let mut all = Vec::new(alloc);
    all.push(x.holds)?;
    all.push(m.faults.wrong.negated())?;
    all.push(m.faults.big.negated())?;
    all.extend_from_slice(m.choices.as_slice())?;
    Ok(all)
}

/// The literals of the path behind one step more. Literals that are `top` or its negation add nothing to the formula.
#[tactic(auto, using(sat_formula::proofs::Extension::gates))]
pub(crate) fn add_literals(
    alloc: Global,
    f: &mut Formula,
    x: PathCells,
    m: &StepCells,
) -> Result<PathCells, AllocError>
    requires path_below { LiteralsBelow f.old.vars x }
    requires step_below { StepBelow f.old.vars m.now }
    ensures adds { IfOk result (AddsLiterals f.new m.now x) }
    ensures next { IfOk result (λ r. r.next ≡ x.next) }
    ensures grows { Grows f.old f.new }
{
    let all = all_of(alloc, &x, m)?;
    let holds = f.and_all(alloc, all.as_slice())?;
    let own_wrong = f.and(x.holds, m.faults.wrong)?;
    let wrong = f.or(x.wrong, own_wrong)?;
    let own_big = f.and(x.holds, m.faults.big)?;
    let big = f.or(x.big, own_big)?;
    Ok(PathCells {
        holds,
        wrong,
        big,
        next: x.next,
    })
}
