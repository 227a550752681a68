//! Operands that are evaluated where those before them say so.

ghost use Rattle.cell_arena.specs.Growth.{Grows};
ghost use Rattle.cell_merge.specs.Sorts.{OfSort, truth};
ghost use Rattle.outcome_cells.specs.Shows.{AreCells, CellsOfOneSort, FaultsBelow, faults_of};
ghost use Rattle.outcome_cells.specs.Turns.{TakesBranch, TakesInTurn};
ghost use Rattle.outcome_cells.specs.inner.Turns.{ShowsTurns, TurnsTo, junction_value};
ghost use Rattle.sat_formula.specs.Formula.{Grows as FormulaGrows, HasValue};
ghost use Rattle.sat_formula.specs.Lit.{IsBelow, lit_value};
ghost use Rattle.std.specs.List.{list_all};
ghost use Rattle.std.specs.Prelude.{◌&&◌, ◌<◌, ◌≡◌, ◌≤◌, ◌||◌, All, IfOk, if◌then◌else◌, length, not};

use crate::bits::{bit_of, bits_of};
use crate::cells::{Cells, Faults};
use crate::faults::{any_of, in_front, later};
use cell_arena::{Arena, Build};
use cell_merge::choose_cell;
use sat_formula::{Formula, Lit};
use std::alloc::{AllocError, Global};

// The faults of the guard, and where it has none those of the branch that it takes.
#[tactic(auto, using(sat_formula::proofs::Extension::gates))]
fn branch_faults(
    f: &mut Formula,
    bit: Lit,
    guard: Faults,
    x: Faults,
    y: Faults,
) -> Result<Faults, AllocError>
    requires bit_below { bit.var < f.old.vars }
    requires guard_below { FaultsBelow f.old.vars guard }
    requires x_below { FaultsBelow f.old.vars x }
    requires y_below { FaultsBelow f.old.vars y }
    ensures wrong { IfOk result (λ r. HasValue f.new r.wrong (λ a. lit_value guard.wrong a ||
        (not (lit_value guard.big a) && (if lit_value bit a then lit_value x.wrong a else lit_value y.wrong a)))) }
    ensures big { IfOk result (λ r. HasValue f.new r.big (λ a. lit_value guard.big a ||
        (not (lit_value guard.wrong a) && (if lit_value bit a then lit_value x.big a else lit_value y.big a)))) }
    ensures grows { FormulaGrows f.old f.new }
{
    let wrong = f.mux(bit, x.wrong, y.wrong)?;
    let big = f.mux(bit, x.big, y.big)?;
    let faults = later(f, guard, Faults { wrong, big })?;
    Ok(faults)
}

/// The branch that the guard takes, the first where it is TRUE. Nothing is asked of the other one.
#[tactic(auto, using(cell_arena::proofs::Growing::growing))]
pub fn chosen(b: &mut Build, guard: Cells, x: Cells, y: Cells) -> Result<Cells, AllocError>
    requires guard { AreCells b.old truth guard }
    requires branches { CellsOfOneSort b.old x y }
    ensures takes { IfOk result (TakesBranch b.old b.new guard x y) }
    ensures grows { Grows b.old b.new }
{
    let bit = bit_of(&b.arena, guard.cell);
    let (first, left, right) = (guard.faults(), x.faults(), y.faults());
    let faults = branch_faults(&mut b.formula, bit, first, left, right)?;
    let cell = choose_cell(b, bit, x.cell, y.cell)?;
    Ok(Cells {
        cell,
        wrong: faults.wrong,
        big: faults.big,
    })
}

// The literal, or its negation where FALSE is wanted.
fn wanted_bit(wanted: bool, l: Lit) -> Lit
    ensures { result ≡ (if wanted then l else record { var = l.var; neg = not l.neg }) }
{
    if wanted { l } else { l.negated() }
}

// The faults of the operands up to the first that is not as wanted, from the last one on.
#[tactic(auto, using(sat_formula::proofs::Extension::gates))]
fn turn_faults(
    f: &mut Formula,
    wanted: bool,
    xs: &[Cells],
    bits: &[Lit],
) -> Result<Faults, AllocError>
    requires below { All (λ x. FaultsBelow f.old.vars (faults_of x)) xs.now }
    requires named { All (IsBelow f.old.vars) bits.now }
    requires count { length bits.now ≡ length xs.now }
    ensures shows { IfOk result (ShowsTurns f.new wanted xs.now bits.now) }
    ensures grows { FormulaGrows f.old f.new }
{
    let bottom = f.top().negated();
    let mut rest = Faults {
        wrong: bottom,
        big: bottom,
    };
    for i in 0..xs.len() {
        let place = xs.len() - 1 - i;
        let on = wanted_bit(wanted, bits[place]);
        rest = in_front(f, xs[place].faults(), on, rest)?;
    }
    Ok(rest)
}

// Whether all of the literals are true. Two are one gate in either order.
fn all_of(alloc: Global, f: &mut Formula, bits: &[Lit]) -> Result<Lit, AllocError>
    requires { All (IsBelow f.old.vars) bits.now }
    ensures value { IfOk result (λ l. HasValue f.new l (λ a. list_all (λ x. lit_value x a) bits.now)) }
    ensures grows { FormulaGrows f.old f.new }
{
    if bits.len() == 2 {
        let both = f.and(bits[0], bits[1])?;
        return Ok(both);
    }
    f.and_all(alloc, bits)
}

// Whether all of the literals are true, or whether one is.
fn junction_bit(
    alloc: Global,
    f: &mut Formula,
    wanted: bool,
    bits: &[Lit],
) -> Result<Lit, AllocError>
    requires { All (IsBelow f.old.vars) bits.now }
    ensures value { IfOk result (λ l. HasValue f.new l (λ a. junction_value wanted a bits.now)) }
    ensures grows { FormulaGrows f.old f.new }
{
    if wanted {
        return all_of(alloc, f, bits);
    }
    any_of(alloc, f, bits)
}

// The faults and the truth value of a conjunction or disjunction.
#[tactic(auto, using(sat_formula::proofs::Extension::gates))]
fn take_turns(
    arena: &Arena,
    f: &mut Formula,
    wanted: bool,
    xs: &[Cells],
) -> Result<(Faults, Lit), AllocError>
    requires fits { arena.now.vars ≤ f.old.vars }
    requires cells { All (λ x. OfSort arena.now.kinds truth x.cell) xs.now }
    requires below { All (λ x. FaultsBelow f.old.vars (faults_of x)) xs.now }
    ensures turns { IfOk result (λ r. TurnsTo arena.now f.new wanted xs.now r.0 r.1) }
    ensures grows { FormulaGrows f.old f.new }
{
    let lits = bits_of(arena.alloc(), arena, xs)?;
    let bits = lits.as_slice();
    let faults = turn_faults(f, wanted, xs, bits)?;
    let bit = junction_bit(arena.alloc(), f, wanted, bits)?;
    Ok((faults, bit))
}

/// The conjunction of the operands where TRUE is wanted, and their disjunction where FALSE is: from the left, up to the
/// first that is not as wanted, or that has a fault. Nothing is asked of those behind it. The value is one gate over
/// all operands, whatever faults there are; only the two literals go from operand to operand.
#[tactic(auto, using(cell_arena::proofs::Growing::growing))]
pub fn in_turn(b: &mut Build, wanted: bool, xs: &[Cells]) -> Result<Cells, AllocError>
    requires { All (AreCells b.old truth) xs.now }
    ensures takes { IfOk result (TakesInTurn b.old b.new wanted xs.now) }
    ensures grows { Grows b.old b.new }
{
    let (faults, bit) = take_turns(&b.arena, &mut b.formula, wanted, xs)?;
    let cell = b.bit(bit)?;
    Ok(Cells {
        cell,
        wrong: faults.wrong,
        big: faults.big,
    })
}
