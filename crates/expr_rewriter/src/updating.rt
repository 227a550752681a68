//! EXCEPT.

ghost use Rattle.cell_arena.specs.Growth.{Grows};
ghost use Rattle.expr_rewriter.specs.Rewriting.{HasTreeSort};
ghost use Rattle.expr_rewriter.specs.inner.Updating.{CanUpdate, HasIndex, IsIndex, IsOldOf, Updates};
ghost use Rattle.std.specs.Prelude.{◌≡◌, IfOk, IfSome, pos};
ghost use Rattle.kernel_trees.specs.declared.kernel.Ker.{out-Ker};
ghost use Rattle.kernel_trees.specs.Sound.{literal_of};
ghost use Rattle.tla_values.specs.declared.value.Value.TheOpen as layer;

use crate::settings::child;
use cell_arena::{Arena, Build, CellId, CellKind};
use function_operators::{Index, old_at, update};
use kernel_trees::{Ker, KerOp};
use outcome_cells::{Cells, strict};
use sat_formula::Lit;
use std::alloc::AllocError;
use tla_values::{Text, Value};

// The number that is written out there.
fn number_of(e: &Ker) -> Option<usize>
    ensures { IfSome result (λ n. literal_of (out-Ker e.now).op ≡ layer.Int (pos n)) }
{
    match &e.op {
        KerOp::Const(v) => match v {
            Value::Int(n) => match usize::try_from(*n) {
                Ok(place) => Some(place),
                Err(_) => None,
            },
            _ => None,
        },
        _ => None,
    }
}

// The name that is written out there.
fn name_of(e: &Ker) -> Option<&Text>
    ensures { IfSome result (λ x. literal_of (out-Ker e.now).op ≡ layer.Text x.now) }
{
    match &e.op {
        KerOp::Const(v) => match v {
            Value::Text(name) => Some(name),
            _ => None,
        },
        _ => None,
    }
}

// The index as the calls on cells take it: into a tuple a number that is written out, into a record a name, and else
// the value of a cell.
fn index_of<'a>(
    arena: &Arena,
    f: CellId,
    x: CellId,
    index: &'a Ker,
) -> Result<Index<'a>, AllocError>
    requires { HasIndex arena.now.kinds f x index.now }
    ensures { IfOk result (IsIndex arena.now f x index.now) }
{
    match arena.kind(f) {
        CellKind::Tup(_) => match number_of(index) {
            Some(place) => Ok(Index::Number(place)),
            None => Err(AllocError),
        },
        CellKind::Rec(_) => match name_of(index) {
            Some(name) => Ok(Index::Name(name)),
            None => Err(AllocError),
        },
        _ => Ok(Index::Cell(x)),
    }
}

/// What stands at the index, and a literal that is true where this is outside of the domain. `None` where it is outside
/// everywhere.
#[tactic(auto, using(cell_arena::proofs::Growing::growing))]
pub(crate) fn old_value(
    b: &mut Build,
    f: CellId,
    x: CellId,
    index: &Ker,
) -> Result<Option<(CellId, Lit)>, AllocError>
    requires { HasIndex b.old.arena.kinds f x index.now }
    ensures old { IfOk result (IsOldOf b.old b.new f x index.now) }
    ensures grows { Grows b.old b.new }
{
    let place = index_of(&b.arena, f, x, index)?;
    let old = old_at(b, f, place)?;
    Ok(old)
}

/// The update: the faults of the function and of the index, and where they have none what is made of these.
#[tactic(auto, using(cell_arena::proofs::Growing::growing))]
pub(crate) fn update_node(
    b: &mut Build,
    e: &Ker,
    whole: Cells,
    place: Cells,
    change: Option<(Lit, Cells)>,
) -> Result<Cells, AllocError>
    requires { CanUpdate b.old e.now whole place change }
    ensures sort { IfOk result (HasTreeSort b.new e.now) }
    ensures updates { IfOk result (Updates b.old b.new e.now whole place change) }
    ensures grows { Grows b.old b.new }
{
    let index = child(e.args.as_slice(), 1);
    let at = index_of(&b.arena, whole.cell, place.cell, index)?;
    let own = update(b, whole.cell, at, change)?;
    let parts = [whole, place];
    let x = strict(b.arena.alloc(), &mut b.formula, &parts, own)?;
    Ok(x)
}
