// How large a type may be that bindings are put in place in.
ghost use Rattle.std.specs.Prelude.{◌≤◌, ◌<◌, IfSome};

use crate::building::{MOST_DEPTH, MOST_PARTS};
use crate::types::Ty;
use tla_values::Text;

// Whether the type has no more levels and parts than one that a text says may have: whoever walks a type calls itself
// as deep as it has levels.
pub(crate) fn is_small(t: &Ty) -> bool {
    parts_left(t, MOST_DEPTH, MOST_PARTS).is_some()
}

// Whether the types of the fields are so.
pub(crate) fn are_small(fs: &[(Text, Ty)]) -> bool {
    fields_left(fs, MOST_DEPTH, MOST_PARTS).is_some()
}

// How many of these parts are left behind those of the type; none where they do not suffice or it has more levels.
#[cycle(left)]
fn parts_left(t: &Ty, levels: usize, parts: usize) -> Option<usize>
    ensures { IfSome result (λ n. n < parts) }
{
    if levels == 0 || parts == 0 {
        return None;
    }
    match t {
        Ty::Bool => Some(parts - 1),
        Ty::Int => Some(parts - 1),
        Ty::Str => Some(parts - 1),
        Ty::Named(_) => Some(parts - 1),
        Ty::Var(_) => Some(parts - 1),
        Ty::Set(a) => parts_left(a.get(), levels - 1, parts - 1),
        Ty::Seq(a) => parts_left(a.get(), levels - 1, parts - 1),
        Ty::Fun(a, b) => {
            let left = parts_left(a.get(), levels - 1, parts - 1)?;
            parts_left(b.get(), levels - 1, left)
        }
        Ty::Tup(ts) => all_left(ts.as_slice(), levels - 1, parts - 1),
        Ty::Rec(fs, _) => fields_left(fs.as_slice(), levels - 1, parts - 1),
        Ty::Oper(ts, b) => {
            let left = all_left(ts.as_slice(), levels - 1, parts - 1)?;
            parts_left(b.get(), levels - 1, left)
        }
    }
}

#[cycle(left)]
fn all_left(ts: &[Ty], levels: usize, parts: usize) -> Option<usize>
    ensures { IfSome result (λ n. n ≤ parts) }
{
    let mut left = parts;
    for t in ts {
        left = parts_left(t, levels, left)?;
    }
    Some(left)
}

#[cycle(left)]
fn fields_left(fs: &[(Text, Ty)], levels: usize, parts: usize) -> Option<usize>
    ensures { IfSome result (λ n. n ≤ parts) }
{
    let mut left = parts;
    for f in fs {
        left = parts_left(&f.1, levels, left)?;
    }
    Some(left)
}
