// The infinite sets that stand outside a form position.
ghost use Rattle.std.specs.Prelude.{◌≡◌, ◌++◌, ◌&&◌, List, false, flat_map, map, not};
ghost use Rattle.tla_meaning.specs.declared.place.Place.{Place};
ghost use Rattle.kernel_reduction.specs.Infinite.{IsLeastIfAny, form_child, infinite_here, infinite_in, is_infinite};
ghost use Rattle.kernel_reduction.specs.inner.Least.{IsLeast};
ghost use Rattle.snowcat_types.specs.inner.Telling.{earlier};

use tla_meaning::{Expr, Job, Op, Place};
use tla_values::Text;

// Whether the node is an infinite set outside a form position.
fn stands_outside(op: &Op, form: bool) -> bool
    ensures { result ≡ (is_infinite op.now && not form) }
{
    match op {
        Op::IntSet | Op::NatSet | Op::StringSet | Op::SeqSet => !form,
        _ => false,
    }
}

// Whether the child with this number stands in a form position, where the node does or not.
fn form_child(op: &Op, i: usize, form: bool) -> bool
    ensures { result ≡ form_child op.now i form }
{
    match op {
        Op::In | Op::NotIn | Op::SubsetEq => i == 1,
        Op::SeqSet => true,
        Op::Powerset | Op::RecSet(_) | Op::Product | Op::Noted(_) => form,
        Op::FunSet => i == 1 && form,
        _ => false,
    }
}

// The least of what was least so far and one place more.
fn earlier(least: Option<Place>, place: Place) -> Place
    ensures { result ≡ earlier least place }
{
    match least {
        None => place,
        Some(other) => { if place.is_before(other) { place } else { other } }
    }
}

// With the node itself.
fn least_here(op: &Op, place: Place, form: bool, least: Option<Place>) -> Option<Place>
    ensures { (ps : List Place) → IsLeast ps least → IsLeast (ps ++ infinite_here op.now place form) result }
{
    if stands_outside(op, form) {
        Some(earlier(least, place))
    } else {
        least
    }
}

// With those of a tree.
#[cycle(finite)]
fn least_in(e: &Expr, form: bool, least: Option<Place>) -> Option<Place>
    ensures { (ps : List Place) → IsLeast ps least → IsLeast (ps ++ infinite_in e.now form) result }
{
    let mut first = least_here(&e.op, e.place, form, least);
    let trees = e.args.as_slice();
    for i in 0..trees.len() {
        first = least_in(&trees[i], form_child(&e.op, i, form), first);
    }
    first
}

fn least_in_all(invs: &[(Text, Expr)], least: Option<Place>) -> Option<Place>
    ensures { (ps : List Place) → IsLeast ps least
        → IsLeast (ps ++ flat_map (λ e. infinite_in e false) (map (λ v. v.1) invs.now)) result }
{
    let mut first = least;
    for inv in invs {
        first = least_in(&inv.1, false, first);
    }
    first
}

/// The least place of the job's trees at which an infinite set stands outside a form position.
pub fn least_infinite(job: &Job) -> Option<Place>
    ensures { IsLeastIfAny job.now result }
{
    let constants = least_in(&job.cinit, false, None);
    let assumed = least_in(&job.assume, false, constants);
    let start = least_in(&job.init, false, assumed);
    let steps = least_in(&job.next, false, start);
    least_in_all(job.invs.as_slice(), steps)
}
