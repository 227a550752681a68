//! Members of sets, and arguments of functions with their results, by their places.

ghost use Rattle.cell_arena.specs.Cells.{kind_at};
ghost use Rattle.cell_merge.specs.inner.Items.{head_of, heads_of, tail_of};
ghost use Rattle.std.specs.Prelude.{◌≡◌, ◌<◌, IfSome, length};

use cell_arena::{Arena, CellId, CellKind};
use sat_formula::Lit;

// A member of a set, or an argument of a function with its result, by its place from 0.
#[derive(Clone, Copy)]
pub(crate) struct Item {
    pub(crate) of: CellId,
    pub(crate) place: usize,
}

// How many members or arguments the cell has, with those that are not there.
pub(crate) fn item_count(arena: &Arena, id: CellId) -> usize
    requires { id.index < length arena.now.kinds }
    ensures { result ≡ length (heads_of (kind_at arena.now.kinds id)) }
{
    match arena.kind(id) {
        CellKind::Set(edges) => edges.as_slice().len(),
        CellKind::Fun(arrows) => arrows.as_slice().len(),
        _ => 0,
    }
}

// The literal of the item, and its member or argument.
pub(crate) fn head_at(arena: &Arena, item: Item) -> (Lit, CellId)
    requires there { item.of.index < length arena.now.kinds }
    requires within { item.place < length (heads_of (kind_at arena.now.kinds item.of)) }
    ensures head { (result.0, result.1) ≡ head_of (kind_at arena.now.kinds item.of) item.place }
    ensures older { result.1.index < item.of.index }
    ensures named { result.0.var < arena.now.vars }
{
    match arena.kind(item.of) {
        CellKind::Set(edges) => edges.as_slice()[item.place],
        CellKind::Fun(arrows) => {
            let (l, argument, _) = arrows.as_slice()[item.place];
            (l, argument)
        }
        _ => (Lit { var: 0, neg: false }, item.of),
    }
}

// The result of a function's argument; a member of a set has none.
pub(crate) fn tail_at(arena: &Arena, item: Item) -> Option<CellId>
    requires there { item.of.index < length arena.now.kinds }
    requires within { item.place < length (heads_of (kind_at arena.now.kinds item.of)) }
    ensures tail { result ≡ tail_of (kind_at arena.now.kinds item.of) item.place }
    ensures older { IfSome result (λ r. r.index < item.of.index) }
{
    if let CellKind::Fun(arrows) = arena.kind(item.of) {
        let (_, _, value) = arrows.as_slice()[item.place];
        return Some(value);
    }
    None
}
