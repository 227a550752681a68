//! The faults of operands that are all evaluated.

ghost use Rattle.outcome_cells.specs.Joins.{IsStrict, JoinsOperands, JoinsTwo, StandsBehind};
ghost use Rattle.outcome_cells.specs.inner.Fallible.{may_fail};
ghost use Rattle.outcome_cells.specs.Shows.{FaultsBelow, faults_of};
ghost use Rattle.sat_formula.specs.Formula.{Grows, HasValue};
ghost use Rattle.sat_formula.specs.Lit.{IsBelow, lit_value};
ghost use Rattle.std.specs.List.{list_any};
ghost use Rattle.std.specs.Prelude.{◌&&◌, ◌<◌, ◌≡◌, ◌||◌, All, IfOk, filter, map, not};

use crate::cells::{Cells, Faults};
use sat_formula::{Formula, Lit};
use std::alloc::{AllocError, Global};

// The negation of each literal.
fn negations(alloc: Global, lits: &[Lit]) -> Result<Vec<Lit>, AllocError>
    ensures { IfOk result (λ r. r.items ≡ map (λ l. record { var = l.var; neg = not l.neg }) lits.now) }
{
    lits.iter().map(|l| l.negated()).collect(alloc)
}

/// A literal that is true exactly where one of them is, which is nowhere where there is none. It adds what
/// `Formula::and_all` does.
#[tactic(auto, using(sat_formula::proofs::Extension::gates))]
pub fn any_of(alloc: Global, f: &mut Formula, lits: &[Lit]) -> Result<Lit, AllocError>
    requires { All (IsBelow f.old.vars) lits.now }
    ensures value { IfOk result (λ l. HasValue f.new l (λ a. list_any (λ x. lit_value x a) lits.now)) }
    ensures grows { Grows f.old f.new }
{
    let others = negations(alloc, lits)?;
    let none = f.and_all(alloc, others.as_slice())?;
    Ok(none.negated())
}

/// The faults of two that are both evaluated: Wrong where one of them is, and else Big where one of them is.
#[tactic(auto, using(sat_formula::proofs::Extension::gates))]
pub fn join(f: &mut Formula, x: Faults, y: Faults) -> Result<Faults, AllocError>
    requires x_below { FaultsBelow f.old.vars x }
    requires y_below { FaultsBelow f.old.vars y }
    ensures joins { IfOk result (JoinsTwo f.new x y) }
    ensures grows { Grows f.old f.new }
{
    let wrong = f.or(x.wrong, y.wrong)?;
    let some_big = f.or(x.big, y.big)?;
    let big = f.and(wrong.negated(), some_big)?;
    Ok(Faults { wrong, big })
}

// Whether one of the operands is Wrong.
#[tactic(auto, using(sat_formula::proofs::Extension::gates))]
fn any_wrong(alloc: Global, f: &mut Formula, xs: &[Cells]) -> Result<Lit, AllocError>
    requires { All (λ x. x.wrong.var < f.old.vars) xs.now }
    ensures value { IfOk result (λ l. HasValue f.new l (λ a. list_any (λ x. lit_value x.wrong a) xs.now)) }
    ensures grows { Grows f.old f.new }
{
    let lits = wrongs(alloc, xs)?;
    let any = any_of(alloc, f, lits.as_slice())?;
    Ok(any)
}

// Whether one of the operands is Big.
#[tactic(auto, using(sat_formula::proofs::Extension::gates))]
fn any_big(alloc: Global, f: &mut Formula, xs: &[Cells]) -> Result<Lit, AllocError>
    requires { All (λ x. x.big.var < f.old.vars) xs.now }
    ensures value { IfOk result (λ l. HasValue f.new l (λ a. list_any (λ x. lit_value x.big a) xs.now)) }
    ensures grows { Grows f.old f.new }
{
    let lits = bigs(alloc, xs)?;
    let any = any_of(alloc, f, lits.as_slice())?;
    Ok(any)
}

fn wrongs(alloc: Global, xs: &[Cells]) -> Result<Vec<Lit>, AllocError>
    ensures { IfOk result (λ r. r.items ≡ map (λ x. x.wrong) xs.now) }
{
    xs.iter().map(|x| x.wrong).collect(alloc)
}

fn bigs(alloc: Global, xs: &[Cells]) -> Result<Vec<Lit>, AllocError>
    ensures { IfOk result (λ r. r.items ≡ map (λ x. x.big) xs.now) }
{
    xs.iter().map(|x| x.big).collect(alloc)
}

// The operands that may have a fault: not both of their literals are the negation of `top`.
fn fallible(alloc: Global, xs: &[Cells]) -> Result<Vec<Cells>, AllocError>
    ensures { IfOk result (λ r. r.items ≡ filter may_fail xs.now) }
{
    xs.iter()
        .copied()
        .filter(|x| !(x.wrong.var == 0 && x.wrong.neg && x.big.var == 0 && x.big.neg))
        .collect(alloc)
}

// The faults of several operands.
#[tactic(auto, using(sat_formula::proofs::Extension::gates))]
fn join_several(alloc: Global, f: &mut Formula, xs: &[Cells]) -> Result<Faults, AllocError>
    requires { All (λ x. FaultsBelow f.old.vars (faults_of x)) xs.now }
    ensures joins { IfOk result (JoinsOperands f.new xs.now) }
    ensures grows { Grows f.old f.new }
{
    let wrong = any_wrong(alloc, f, xs)?;
    let either = any_big(alloc, f, xs)?;
    let big = f.and(wrong.negated(), either)?;
    Ok(Faults { wrong, big })
}

/// The faults of operands that are all evaluated: Wrong where one of them is, and else Big where one of them is.
/// Nothing is added where at most one operand may have a fault, and else at most three variables.
#[tactic(auto, using(sat_formula::proofs::Extension::gates))]
pub fn join_all(alloc: Global, f: &mut Formula, xs: &[Cells]) -> Result<Faults, AllocError>
    requires { All (λ x. FaultsBelow f.old.vars (faults_of x)) xs.now }
    ensures joins { IfOk result (JoinsOperands f.new xs.now) }
    ensures grows { Grows f.old f.new }
{
    // Read for its promise: it is true under each satisfying assignment.
    let _ = f.top();
    let some = fallible(alloc, xs)?;
    let open = some.as_slice();
    if open.len() == 1 {
        return Ok(open[0].faults());
    }
    let faults = join_several(alloc, f, open)?;
    Ok(faults)
}

// The first, or the third where the second is false.
#[tactic(auto, using(sat_formula::proofs::Extension::gates))]
fn or_next(f: &mut Formula, x: Lit, y: Lit, z: Lit) -> Result<Lit, AllocError>
    requires x_below { x.var < f.old.vars }
    requires y_below { y.var < f.old.vars }
    requires z_below { z.var < f.old.vars }
    ensures value { IfOk result (λ l. HasValue f.new l (λ a. lit_value x a || (not (lit_value y a) && lit_value z a))) }
    ensures grows { Grows f.old f.new }
{
    let next = f.and(y.negated(), z)?;
    let either = f.or(x, next)?;
    Ok(either)
}

// The faults of what goes on where there is no first one.
#[tactic(auto, using(sat_formula::proofs::Extension::gates))]
pub(crate) fn later(f: &mut Formula, first: Faults, x: Faults) -> Result<Faults, AllocError>
    requires first_below { FaultsBelow f.old.vars first }
    requires below { FaultsBelow f.old.vars x }
    ensures wrong { IfOk result (λ r. HasValue f.new r.wrong
        (λ a. lit_value first.wrong a || (not (lit_value first.big a) && lit_value x.wrong a))) }
    ensures big { IfOk result (λ r. HasValue f.new r.big
        (λ a. lit_value first.big a || (not (lit_value first.wrong a) && lit_value x.big a))) }
    ensures grows { Grows f.old f.new }
{
    let wrong = or_next(f, first.wrong, first.big, x.wrong)?;
    let big = or_next(f, first.big, first.wrong, x.big)?;
    Ok(Faults { wrong, big })
}

/// The faults of the first, and where it has none and the literal is true, those of the rest.
#[tactic(auto, using(sat_formula::proofs::Extension::gates))]
pub fn in_front(f: &mut Formula, first: Faults, on: Lit, rest: Faults) -> Result<Faults, AllocError>
    requires first_below { FaultsBelow f.old.vars first }
    requires on_below { on.var < f.old.vars }
    requires rest_below { FaultsBelow f.old.vars rest }
    ensures wrong { IfOk result (λ r. HasValue f.new r.wrong
        (λ a. lit_value first.wrong a || (not (lit_value first.big a) && (lit_value on a && lit_value rest.wrong a)))) }
    ensures big { IfOk result (λ r. HasValue f.new r.big
        (λ a. lit_value first.big a || (not (lit_value first.wrong a) && (lit_value on a && lit_value rest.big a)))) }
    ensures grows { Grows f.old f.new }
{
    let wrong = f.and(on, rest.wrong)?;
    let big = f.and(on, rest.big)?;
    let faults = later(f, first, Faults { wrong, big })?;
    Ok(faults)
}

/// The faults, and where there is none the cells. Nothing is asked of these where there is one.
#[tactic(auto, using(sat_formula::proofs::Extension::gates))]
pub fn behind(f: &mut Formula, first: Faults, x: Cells) -> Result<Cells, AllocError>
    requires first_below { FaultsBelow f.old.vars first }
    requires below { FaultsBelow f.old.vars (faults_of x) }
    ensures behind { IfOk result (StandsBehind f.new first x) }
    ensures grows { Grows f.old f.new }
{
    let faults = later(f, first, x.faults())?;
    Ok(Cells {
        cell: x.cell,
        wrong: faults.wrong,
        big: faults.big,
    })
}

/// What an operator gives of operands that are all evaluated: their faults, and where there is none its own cells,
/// which show what it gives of the values of the operands' cells.
#[tactic(auto, using(sat_formula::proofs::Extension::gates))]
pub fn strict(alloc: Global, f: &mut Formula, xs: &[Cells], own: Cells) -> Result<Cells, AllocError>
    requires operands { All (λ x. FaultsBelow f.old.vars (faults_of x)) xs.now }
    requires own { FaultsBelow f.old.vars (faults_of own) }
    ensures strict { IfOk result (IsStrict f.new xs.now own) }
    ensures grows { Grows f.old f.new }
{
    let first = join_all(alloc, f, xs)?;
    let r = behind(f, first, own)?;
    Ok(r)
}
