//! Whether a value belongs to a form, and whether a set is a part of one.

ghost use Rattle.cell_arena.specs.Growth.{Grows};
ghost use Rattle.expr_rewriter.specs.Rewriting.{HasTreeSort};
ghost use Rattle.expr_rewriter.specs.inner.Forming.{CanRelate, CanTest, Relates, ShowsTest, StandsBehindTwo, Tests};
ghost use Rattle.outcome_cells.specs.Shows.{FaultsBelow, faults_of};
ghost use Rattle.sat_formula.specs.Formula.{Grows as FormulaGrows};
ghost use Rattle.std.specs.Prelude.{IfOk};

use cell_arena::{Build, CellId};
use form_cells::{Form, FormCells, belongs, included};
use kernel_trees::{Ker, KerOp};
use outcome_cells::{Cells, Faults, behind, join, sure};
use sat_formula::{Formula, Lit};
use std::alloc::AllocError;

// Whether the value of the cell is in the relation to the form.
#[tactic(auto, using(cell_arena::proofs::Growing::growing))]
fn test(b: &mut Build, op: &KerOp, x: CellId, form: &Form) -> Result<Lit, AllocError>
    requires { CanTest b.old.arena.kinds op.now x form.now }
    ensures tests { IfOk result (Tests b.old b.new.formula op.now x form.now) }
    ensures grows { Grows b.old b.new }
{
    match op {
        KerOp::Member => {
            let l = belongs(b, x, form)?;
            Ok(l)
        }
        KerOp::Included => {
            let l = included(b, x, form)?;
            Ok(l)
        }
        _ => Err(AllocError),
    }
}

// The cell of the test, which has no fault of its own.
#[tactic(auto, using(cell_arena::proofs::Growing::growing))]
fn own(b: &mut Build, op: &KerOp, x: CellId, form: &Form) -> Result<Cells, AllocError>
    requires { CanTest b.old.arena.kinds op.now x form.now }
    ensures shows { IfOk result (ShowsTest b.old b.new op.now x form.now) }
    ensures grows { Grows b.old b.new }
{
    let l = test(b, op, x, form)?;
    let cell = b.bit(l)?;
    Ok(sure(b, cell))
}

// The cells behind the faults of both sides, which are both evaluated.
#[tactic(auto, using(sat_formula::proofs::Extension::gates))]
fn behind_two(f: &mut Formula, x: Faults, y: Faults, own: Cells) -> Result<Cells, AllocError>
    requires x_below { FaultsBelow f.old.vars x }
    requires y_below { FaultsBelow f.old.vars y }
    requires own_below { FaultsBelow f.old.vars (faults_of own) }
    ensures behind { IfOk result (StandsBehindTwo f.new x y own) }
    ensures grows { FormulaGrows f.old f.new }
{
    let faults = join(f, x, y)?;
    let r = behind(f, faults, own)?;
    Ok(r)
}

/// A membership or an inclusion: the faults of both sides, and where they have none the test.
#[tactic(auto, using(cell_arena::proofs::Growing::growing))]
pub(crate) fn relate(b: &mut Build, e: &Ker, x: Cells, y: &FormCells) -> Result<Cells, AllocError>
    requires { CanRelate b.old e.now x y.now }
    ensures sort { IfOk result (HasTreeSort b.new e.now) }
    ensures relates { IfOk result (Relates b.old b.new e.now x y.now) }
    ensures grows { Grows b.old b.new }
{
    let test = own(b, &e.op, x.cell, &y.form)?;
    let left = Faults {
        wrong: x.wrong,
        big: x.big,
    };
    let right = Faults {
        wrong: y.wrong,
        big: y.big,
    };
    let r = behind_two(&mut b.formula, left, right, test)?;
    Ok(r)
}
