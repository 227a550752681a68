//! What binds names to members of sets.

ghost use Rattle.cell_arena.specs.Growth.{Grows};
ghost use Rattle.cell_merge.specs.Picks.{IsSetCell};
ghost use Rattle.expr_rewriter.specs.Rewriting.{HasTreeSort};
ghost use Rattle.expr_rewriter.specs.inner.Binding.{Binds as NodeBinds, BindsSort, CanBind, CanBindNode};
ghost use Rattle.kernel_trees.specs.Trees.{op_of};
ghost use Rattle.member_choices.specs.Binders.{Binds};
ghost use Rattle.member_choices.specs.Choices.{ListsChoices};
ghost use Rattle.std.specs.Prelude.{◌≡◌, All, IfOk, map};

use cell_arena::{Build, CellId};
use kernel_trees::{Ker, KerOp};
use member_choices::{Choice, choices, every, function, images, kept, some};
use outcome_cells::{Cells, strict};
use std::alloc::{AllocError, Global};

// The cells alone.
fn cells_of(alloc: Global, xs: &[Cells]) -> Result<Vec<CellId>, AllocError>
    ensures { IfOk result (λ r. r.items ≡ map (λ x. x.cell) xs.now) }
{
    xs.iter().map(|x| x.cell).collect(alloc)
}

/// One member from each of the sets, in every way.
#[tactic(auto, using(cell_arena::proofs::Growing::growing))]
pub(crate) fn choices_from(b: &mut Build, sets: &[Cells]) -> Result<Vec<Choice>, AllocError>
    requires { All (λ x. IsSetCell b.old x.cell) sets.now }
    ensures lists { IfOk result (λ cs. ListsChoices b.new.arena b.new.formula (map (λ x. x.cell) sets.now) cs.items) }
    ensures grows { Grows b.old b.new }
{
    let ids = cells_of(b.arena.alloc(), sets)?;
    let cs = choices(b, ids.as_slice())?;
    Ok(cs)
}

// The operator over the cells of its body at each choice.
#[tactic(auto, using(cell_arena::proofs::Growing::growing))]
fn over_choices(
    b: &mut Build,
    op: &KerOp,
    cs: &[Choice],
    bodies: &[Cells],
) -> Result<Cells, AllocError>
    requires { CanBind b.old op.now cs.now bodies.now }
    ensures sort { IfOk result (BindsSort b.old b.new op.now cs.now bodies.now) }
    ensures binds { IfOk result (Binds b.old b.new (op_of op.now) cs.now bodies.now) }
    ensures grows { Grows b.old b.new }
{
    match op {
        KerOp::Some => {
            let x = some(b, cs, bodies)?;
            Ok(x)
        }
        KerOp::Every => {
            let x = every(b, cs, bodies)?;
            Ok(x)
        }
        KerOp::Filter => {
            let x = kept(b, cs, bodies)?;
            Ok(x)
        }
        KerOp::MapOver => {
            let x = images(b, cs, bodies)?;
            Ok(x)
        }
        KerOp::FunOf => {
            let x = function(b, cs, bodies)?;
            Ok(x)
        }
        _ => Err(AllocError),
    }
}

/// The binder: the faults of its sets, and where they have none what it gives of the choices.
#[tactic(auto, using(cell_arena::proofs::Growing::growing))]
pub(crate) fn bind_node(
    b: &mut Build,
    e: &Ker,
    sets: &[Cells],
    cs: &[Choice],
    bodies: &[Cells],
) -> Result<Cells, AllocError>
    requires { CanBindNode b.old e.now sets.now cs.now bodies.now }
    ensures sort { IfOk result (HasTreeSort b.new e.now) }
    ensures binds { IfOk result (NodeBinds b.old b.new e.now sets.now cs.now bodies.now) }
    ensures grows { Grows b.old b.new }
{
    let own = over_choices(b, &e.op, cs, bodies)?;
    let x = strict(b.arena.alloc(), &mut b.formula, sets, own)?;
    Ok(x)
}
