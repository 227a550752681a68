//! Literals of ends: of a tree that is taken as a whole, of two parts one behind the other, and of invariants.

ghost use Rattle.branch_cells.specs.Ends.{AreAlso, AreBehind, AreJudged, EndsBelow, IsCondition};
ghost use Rattle.branch_cells.specs.inner.Layers.{can_be};
ghost use Rattle.cell_arena.specs.Growth.{Grows};
ghost use Rattle.kernel_trees.specs.TypeKinds.{Truth};
ghost use Rattle.outcome_cells.specs.Shows.{AreCells, FaultsBelow};
ghost use Rattle.sat_formula.specs.Formula.{Grows as FormulaGrows, HasValue};
ghost use Rattle.sat_formula.specs.Lit.{lit_value};
ghost use Rattle.std.specs.Prelude.{◌&&◌, ◌<◌, ◌≡◌, All, IfOk, false, if◌then◌else◌, not, true};
ghost use Rattle.typed_cells.specs.KindSorts.{sort_of};

use crate::branch::Ends;
use cell_arena::Build;
use outcome_cells::{Cells, Faults, bit_of};
use sat_formula::{Formula, Lit};
use std::alloc::AllocError;

// Whether the literal is not the negation of `top`.
pub(crate) fn can_be(l: Lit) -> bool
    ensures { result ≡ can_be l }
{
    !(l.var == 0 && l.neg)
}

// That the truth value is TRUE and has no fault.
#[tactic(auto, using(sat_formula::proofs::Extension::gates))]
fn holds_bit(f: &mut Formula, bit: Lit, x: Faults) -> Result<Lit, AllocError>
    requires bit_below { bit.var < f.old.vars }
    requires below { FaultsBelow f.old.vars x }
    ensures value { IfOk result (λ l. HasValue f.new l
        (λ a. lit_value bit a && (not (lit_value x.wrong a) && not (lit_value x.big a)))) }
    ensures grows { FormulaGrows f.old f.new }
{
    let right = x.wrong.negated();
    let small = x.big.negated();
    let calm = f.and(right, small)?;
    let holds = f.and(bit, calm)?;
    Ok(holds)
}

/// The ends of a truth value's cells: TRUE, no value, or an integer outside the width.
#[tactic(auto, using(cell_arena::proofs::Growing::growing))]
pub fn condition(b: &mut Build, x: Cells) -> Result<Ends, AllocError>
    requires { AreCells b.old (sort_of Truth) x }
    ensures ends { IfOk result (IsCondition b.new x) }
    ensures arena { b.new.arena ≡ b.old.arena }
    ensures grows { Grows b.old b.new }
{
    let bit = bit_of(&b.arena, x.cell);
    let faults = x.faults();
    let holds = holds_bit(&mut b.formula, bit, faults)?;
    Ok(Ends {
        holds,
        wrong: x.wrong,
        big: x.big,
    })
}

// The first, or both of the others.
#[tactic(auto, using(sat_formula::proofs::Extension::gates))]
fn or_both(f: &mut Formula, x: Lit, on: Lit, y: Lit) -> Result<Lit, AllocError>
    requires x_below { x.var < f.old.vars }
    requires on_below { on.var < f.old.vars }
    requires y_below { y.var < f.old.vars }
    ensures value { IfOk result (λ l. HasValue f.new l
        (λ a. if lit_value x a then true else (if lit_value on a then lit_value y a else false))) }
    ensures grows { FormulaGrows f.old f.new }
{
    let both = f.and(on, y)?;
    let either = f.or(x, both)?;
    Ok(either)
}

/// Of a conjunction of two parts, of which the second counts only where the first holds.
#[tactic(auto, using(sat_formula::proofs::Extension::gates))]
pub fn behind(f: &mut Formula, x: Ends, y: Ends) -> Result<Ends, AllocError>
    requires first { EndsBelow f.old.vars x }
    requires second { EndsBelow f.old.vars y }
    ensures ends { IfOk result (AreBehind f.new x y) }
    ensures grows { FormulaGrows f.old f.new }
{
    let holds = f.and(x.holds, y.holds)?;
    let wrong = or_both(f, x.wrong, x.holds, y.wrong)?;
    let big = or_both(f, x.big, x.holds, y.big)?;
    Ok(Ends { holds, wrong, big })
}

/// Of what counts only where a literal is true.
#[tactic(auto, using(sat_formula::proofs::Extension::gates))]
pub fn also(f: &mut Formula, on: Lit, x: Ends) -> Result<Ends, AllocError>
    requires on { on.var < f.old.vars }
    requires ends { EndsBelow f.old.vars x }
    ensures ends { IfOk result (AreAlso f.new on x) }
    ensures grows { FormulaGrows f.old f.new }
{
    let holds = f.and(on, x.holds)?;
    let wrong = f.and(on, x.wrong)?;
    let big = f.and(on, x.big)?;
    Ok(Ends { holds, wrong, big })
}

// What is judged of an outcome and of those behind it, which count only where it is TRUE.
#[tactic(auto, using(sat_formula::proofs::Extension::gates))]
fn judged_first(f: &mut Formula, x: Ends, rest: (Lit, Lit)) -> Result<(Lit, Lit), AllocError>
    requires ends { EndsBelow f.old.vars x }
    requires bad_below { rest.0.var < f.old.vars }
    requires big_below { rest.1.var < f.old.vars }
    ensures bad { IfOk result (λ r. HasValue f.new r.0
        (λ a. if lit_value x.holds a then lit_value rest.0 a else not (lit_value x.big a))) }
    ensures big { IfOk result (λ r. HasValue f.new r.1
        (λ a. if lit_value x.holds a then lit_value rest.1 a else lit_value x.big a)) }
    ensures grows { FormulaGrows f.old f.new }
{
    let small = x.big.negated();
    let bad = f.mux(x.holds, rest.0, small)?;
    let big = f.mux(x.holds, rest.1, x.big)?;
    Ok((bad, big))
}

/// Of outcomes one behind the other, of which the first that is not TRUE counts: that it is FALSE or has no value, and that
/// it is an integer outside the width.
#[tactic(auto, using(sat_formula::proofs::Extension::gates))]
pub fn judged(f: &mut Formula, xs: &[Ends]) -> Result<(Lit, Lit), AllocError>
    requires { All (EndsBelow f.old.vars) xs.now }
    ensures judged { IfOk result (AreJudged f.new xs.now) }
    ensures grows { FormulaGrows f.old f.new }
{
    let bottom = f.top().negated();
    let mut rest = (bottom, bottom);
    for i in 0..xs.len() {
        let place = xs.len() - 1 - i;
        rest = judged_first(f, xs[place], rest)?;
    }
    Ok(rest)
}
