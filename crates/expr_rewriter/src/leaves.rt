//! Trees without operands: constants, names, what is bound under a number, and no case.

ghost use Rattle.cell_arena.specs.Growth.{Grows};
ghost use Rattle.expr_rewriter.specs.Environments.{bound_cell, name_cell};
ghost use Rattle.expr_rewriter.specs.Rewriting.{CanRewrite, HasTreeSort, Rewrites, constant_texts};
ghost use Rattle.expr_rewriter.specs.inner.Leaves.{constant_outcome};
ghost use Rattle.kernel_trees.specs.Sound.{is_literal};
ghost use Rattle.kernel_trees.specs.TypeKinds.{Kind};
ghost use Rattle.outcome_cells.specs.Rows.{ShowsAt};
ghost use Rattle.outcome_cells.specs.Shows.{AreCells};
ghost use Rattle.std.specs.Prelude.{◌≡◌, All, IfOk, [], true, Some};
ghost use Rattle.tla_values.specs.declared.value.Value.{out-Value};
ghost use Rattle.typed_cells.specs.KindSorts.{sort_of};
ghost use Rattle.typed_cells.specs.Known.{IsTextAmong};

use cell_arena::{Build, CellId};
use kernel_trees::{Ker, KerOp};
use outcome_cells::{Cells, big_where, sure, wrong_where};
use std::alloc::AllocError;
use tla_values::Value;
use typed_cells::{default_cell, known_number, known_text, known_truth};

// The cell of a name in the next state.
fn next_at(next: &[Option<CellId>], i: usize) -> Option<CellId>
    ensures { result ≡ name_cell (record { now = []; next = next.now; bound = [] }) i true }
{
    if i < next.len() { next[i] } else { None }
}

// The cell of a name; without one in the state that of the next one.
fn name_at(now: &[CellId], next: &[Option<CellId>], i: usize, primed: bool) -> Option<CellId>
    ensures { result ≡ name_cell (record { now = now.now; next = next.now; bound = [] }) i primed }
{
    if !primed && i < now.len() {
        return Some(now[i]);
    }
    next_at(next, i)
}

// The last of the cells that are bound under the number.
fn last_bound(bound: &[(u32, CellId)], n: u32) -> Option<CellId>
    ensures { result ≡ bound_cell bound.now n }
{
    let mut last = None;
    for entry in bound {
        if n == entry.0 {
            last = Some(entry.1);
        }
    }
    last
}

// The cell of a constant, which is Big where it is a number outside of the width.
#[tactic(auto, using(cell_arena::proofs::Growing::growing))]
fn constant(b: &mut Build, value: &Value) -> Result<Cells, AllocError>
    requires { All (IsTextAmong b.old.arena.texts) (constant_texts (out-Value value.now)) }
    ensures shows { IfOk result (λ r. ShowsAt b.new r
        (λ a p. constant_outcome (Some b.old.arena.width) p (out-Value value.now))) }
    ensures cells { IfOk result (λ r. (k : Kind) → is_literal k (out-Value value.now) ≡ true →
        AreCells b.new (sort_of k) r) }
    ensures grows { Grows b.old b.new }
{
    match value {
        Value::Bool(x) => {
            let id = known_truth(b, *x)?;
            Ok(sure(b, id))
        }
        Value::Int(n) => {
            let (id, outside) = known_number(b, *n)?;
            Ok(big_where(b, id, outside))
        }
        Value::Text(text) => {
            let id = known_text(b, text)?;
            Ok(sure(b, id))
        }
        Value::Set(_) | Value::Fun(_) => Err(AllocError),
    }
}

/// A constant, a name, what is bound under a number, or no case. (Specifying Systems, sections 16.1.3, 16.1.4 and
/// 16.1.10, for names, CASE and literals.)
#[tactic(auto, using(cell_arena::proofs::Growing::growing))]
pub(crate) fn leaf(
    b: &mut Build,
    e: &Ker,
    now: &[CellId],
    next: &[Option<CellId>],
    bound: &[(u32, CellId)],
) -> Result<Cells, AllocError>
    requires { CanRewrite b.old e.now (record { now = now.now; next = next.now; bound = bound.now }) }
    ensures sort { IfOk result (HasTreeSort b.new e.now) }
    ensures rewrites { IfOk result
        (Rewrites b.new e.now (record { now = now.now; next = next.now; bound = bound.now })) }
    ensures grows { Grows b.old b.new }
{
    match &e.op {
        KerOp::Const(value) => {
            let cells = constant(b, value)?;
            Ok(cells)
        }
        KerOp::Name(i, primed) => {
            let Some(id) = name_at(now, next, *i, *primed) else {
                return Err(AllocError);
            };
            Ok(sure(b, id))
        }
        KerOp::Bound(n) => {
            let Some(id) = last_bound(bound, *n) else {
                return Err(AllocError);
            };
            Ok(sure(b, id))
        }
        KerOp::NoCase => {
            let id = default_cell(b, &e.ty)?;
            let top = b.formula.top();
            Ok(wrong_where(b, id, top))
        }
        _ => Err(AllocError),
    }
}
