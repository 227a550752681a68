//! What stands at an index, and cells for where nothing does.

ghost use Rattle.cell_arena.specs.Growth.{Grows};
ghost use Rattle.cell_merge.specs.Sorts.{OfSort};
ghost use Rattle.function_operators.specs.Parts.{Indexed};
ghost use Rattle.function_operators.specs.inner.Found.{Finds, Gives, IndexedAndPart, Puts};
ghost use Rattle.kernel_trees.specs.TypeKinds.{Kind, kind_of};
ghost use Rattle.outcome_cells.specs.Rows.{ShowsAt};
ghost use Rattle.outcome_cells.specs.Shows.{AreCells};
ghost use Rattle.std.specs.Prelude.{◌<◌, ◌≡◌, Bool, IfOk, IfSome, List as Items, Option, []};
ghost use Rattle.tla_meaning.specs.Operators.{or_wrong};
ghost use Rattle.tla_values.specs.declared.value.Value.{Value};
ghost use Rattle.typed_cells.specs.KindSorts.{sort_of};
ghost use Rattle.typed_cells.specs.Known.{IsTextAmong};

use crate::index::Index;
use cell_arena::{Build, CellId, CellKind};
use function_rewriter::{
    at as function_at, field, item, update as update_function, with_field, with_item,
};
use outcome_cells::{Cells, wrong_where};
use sat_formula::Lit;
use sequence_rewriter::{at_place, update_place};
use snowcat_rows::Ty;
use std::alloc::AllocError;
use typed_cells::default_cell;

// What a function or a sequence gives at the value of a cell.
#[tactic(auto, using(cell_arena::proofs::Growing::growing))]
fn find_at(b: &mut Build, f: CellId, x: CellId) -> Result<Option<(CellId, Lit)>, AllocError>
    requires { Indexed b.old.arena.kinds f (Index.Cell x) }
    ensures finds { IfOk result (Finds b.old b.new f (Index.Cell x)) }
    ensures grows { Grows b.old b.new }
{
    match b.arena.kind(f) {
        CellKind::Seq(_, _) => {
            let found = at_place(b, f, x)?;
            Ok(found)
        }
        _ => {
            let found = function_at(b, f, x)?;
            Ok(found)
        }
    }
}

// What stands at the index, and a literal that is true where nothing does.
#[tactic(auto, using(cell_arena::proofs::Growing::growing))]
pub(crate) fn find(
    b: &mut Build,
    f: CellId,
    index: Index,
) -> Result<Option<(CellId, Lit)>, AllocError>
    requires { Indexed b.old.arena.kinds f index }
    ensures finds { IfOk result (Finds b.old b.new f index.entry) }
    ensures grows { Grows b.old b.new }
{
    match index {
        Index::Cell(x) => {
            let found = find_at(b, f, x)?;
            Ok(found)
        }
        Index::Number(i) => Ok(Some((item(b, f, i), b.formula.top().negated()))),
        Index::Name(name) => Ok(Some((field(b, f, name), b.formula.top().negated()))),
    }
}

// The function or sequence with another cell at the value of a cell.
#[tactic(auto, using(cell_arena::proofs::Growing::growing))]
fn put_at(b: &mut Build, f: CellId, x: CellId, v: CellId) -> Result<CellId, AllocError>
    requires { IndexedAndPart b.old f (Index.Cell x) v }
    ensures puts { IfOk result (Puts b.old b.new f (Index.Cell x) v) }
    ensures grows { Grows b.old b.new }
{
    match b.arena.kind(f) {
        CellKind::Seq(_, _) => {
            let made = update_place(b, f, x, v)?;
            Ok(made)
        }
        _ => {
            let made = update_function(b, f, x, v)?;
            Ok(made)
        }
    }
}

// The whole with another cell at the index, where something stands there.
#[tactic(auto, using(cell_arena::proofs::Growing::growing))]
pub(crate) fn put(b: &mut Build, f: CellId, index: Index, v: CellId) -> Result<CellId, AllocError>
    requires { IndexedAndPart b.old f index v }
    ensures puts { IfOk result (Puts b.old b.new f index.entry v) }
    ensures grows { Grows b.old b.new }
{
    match index {
        Index::Cell(x) => {
            let made = put_at(b, f, x, v)?;
            Ok(made)
        }
        Index::Number(i) => {
            let made = with_item(b, f, i, v)?;
            Ok(made)
        }
        Index::Name(name) => {
            let made = with_field(b, f, name, v)?;
            Ok(made)
        }
    }
}

// What was found, and Wrong where nothing was: there some cell of the type.
#[tactic(auto, using(cell_arena::proofs::Growing::growing))]
pub(crate) fn or_default(
    b: &mut Build,
    found: Option<(CellId, Lit)>,
    ty: &Ty,
) -> Result<Cells, AllocError>
    requires text { IsTextAmong b.old.arena.texts [] }
    requires below { IfSome found (λ o. o.1.var < b.old.formula.vars) }
    ensures shows { IfOk result (λ r. (value : Items Bool → Option Value) → Gives b.old found value →
        ShowsAt b.new r (λ a p. or_wrong p (value a))) }
    ensures cells { IfOk result (λ r. (k : Kind) → kind_of ty.now ≡ Some k →
        IfSome found (λ o. OfSort b.old.arena.kinds (sort_of k) o.0) → AreCells b.new (sort_of k) r) }
    ensures grows { Grows b.old b.new }
{
    match found {
        Some((id, none)) => Ok(wrong_where(b, id, none)),
        None => {
            let id = default_cell(b, ty)?;
            let top = b.formula.top();
            Ok(wrong_where(b, id, top))
        }
    }
}
