// Which open name is read first, by places.
ghost use Rattle.std.specs.Prelude.{◌≡◌};
ghost use Rattle.kernel_trees.specs.Assignments.{reads_at};
ghost use Rattle.assignment_finder.specs.inner.Open.{open_by};
ghost use Rattle.assignment_finder.specs.inner.Reads.{IsFirst, Reads, either, own_reads, reads_any, sets_read};

use crate::open_names::OpenNames;
use kernel_trees::{Ker, KerOp};
use tla_meaning::Place;

// A name, and where it is read.
#[derive(Clone, Copy, Drop)]
pub(crate) struct Read {
    pub(crate) name: usize,
    pub(crate) place: Place,
}

// The earlier of the two, the first where they stand at one place.
fn earlier(a: Option<Read>, b: Option<Read>) -> Option<Read>
    ensures { (r s : Reads) → IsFirst r a → IsFirst s b → IsFirst (either r s) result }
{
    let Some(first) = a else {
        return b;
    };
    match b {
        Some(second) if second.place.is_before(first.place) => b,
        _ => a,
    }
}

// What a name reads.
fn own_read(free: &OpenNames, name: usize, primed: bool, place: Place) -> Option<Read>
    ensures { IsFirst (own_reads (open_by free.now name primed) name place) result }
{
    if free.holds(name, primed) {
        Some(Read { name, place })
    } else {
        None
    }
}

// The first open name that the tree reads. A range's bounds are not read.
#[cycle(reading)]
pub(crate) fn first_read(free: &OpenNames, k: &Ker) -> Option<Read>
    ensures { IsFirst (reads_at (open_by free.now) k.now) result }
{
    match &k.op {
        KerOp::Name(name, primed) => own_read(free, *name, *primed, k.place),
        KerOp::Const(_) => None,
        KerOp::NoCase => None,
        KerOp::Range => match k.args.as_slice() {
            [] => None,
            [low] => first_read(free, low),
            [low, high, ..] => earlier(first_read(free, low), first_read(free, high)),
        },
        _ => first_of(free, k.args.as_slice()),
    }
}

// The first that one of the trees reads.
#[cycle(reading)]
fn first_of(free: &OpenNames, ks: &[Ker]) -> Option<Read>
    ensures { IsFirst (reads_any (open_by free.now) ks.now) result }
{
    let mut first = None;
    for k in ks {
        first = earlier(first, first_read(free, k));
    }
    first
}

// The first that one of the sets of a pick reads.
pub(crate) fn first_of_sets(free: &OpenNames, sets: &[(u32, Ker)]) -> Option<Read>
    ensures { IsFirst (sets_read (open_by free.now) sets.now) result }
{
    let mut first = None;
    for (_, set) in sets {
        first = earlier(first, first_read(free, set));
    }
    first
}
