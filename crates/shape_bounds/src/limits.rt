// Numbers past their limits, and which of them comes first.
ghost use Rattle.std.specs.Prelude.{◌-◌, Some, None, min, nat_lt, ◌≡◌, if◌then◌else◌, option_map};
ghost use Rattle.std.specs.Cmp.Lexicographic.{slice_cmp};
ghost use Rattle.std.specs.Ordering.{is_lt, nat_cmp};
ghost use Rattle.kernel_shapes.specs.Codes.{mean};
ghost use Rattle.kernel_shapes.specs.Counts.{count_at, either_rank, first_rank, most_printed, rank};
ghost use Rattle.shape_bounds.specs.Excesses.{rank_of};

use kernel_shapes::Shape;
use std::cmp::Ordering;
use tla_meaning::Place;

const MOST_MEMBERS: u64 = 65_536;

const MOST_PLACES: u64 = 4_096;

// It stands for every greater number.
pub(crate) const MOST_PRINTED: u64 = 1_000_000_000_000;

/// A number of members or arguments, or of places of a sequence, that is past its limit.
#[derive(Clone, Copy, Debug, Drop, PartialEq, Eq)]
pub struct Excess {
    pub place: Place,
    pub of_sequence: bool,
    pub number: u64,
}

impl Excess {
    // By place, members before places of a sequence, the greatest number first.
    fn is_before(self, other: Excess) -> bool
        ensures { result ≡ is_lt (slice_cmp nat_cmp (rank_of self) (rank_of other)) }
    {
        let place = self.place.file.cmp(&other.place.file);
        let place = place.then(self.place.line.cmp(&other.place.line));
        let place = place.then(self.place.col.cmp(&other.place.col));
        place
            .then(self.of_sequence.cmp(&other.of_sequence))
            .then(self.short().cmp(&other.short()))
            == Ordering::Less
    }

    // How far the number is below the greatest that is printed.
    fn short(self) -> u64
        ensures { result ≡ most_printed - min most_printed self.number }
    {
        MOST_PRINTED - self.number.min(MOST_PRINTED)
    }
}

// The number that a node with a shape has itself, where it is past its limit.
pub(crate) fn own_excess(place: Place, a: &Shape) -> Option<Excess>
    ensures { option_map rank_of result ≡ first_rank (count_at place (mean a.now)) }
{
    match a {
        Shape::Set(n, _) | Shape::Fun(n, _, _) => past(place, false, *n, MOST_MEMBERS),
        Shape::Seq(n, _) => past(place, true, *n, MOST_PLACES),
        Shape::Atom | Shape::Num(..) | Shape::Rec(_) | Shape::Tup(_) | Shape::Empty => None,
    }
}

fn past(place: Place, of_sequence: bool, number: u64, limit: u64) -> Option<Excess>
    ensures { option_map rank_of result ≡ (if nat_lt limit number then Some (rank (record { place = place; of_sequence = of_sequence; number = number })) else None) }
{
    if number > limit {
        let number = number.min(MOST_PRINTED);
        Some(Excess {
            place,
            of_sequence,
            number,
        })
    } else {
        None
    }
}

// The one that comes first.
pub(crate) fn first_of(a: Option<Excess>, b: Option<Excess>) -> Option<Excess>
    ensures { option_map rank_of result ≡ either_rank (option_map rank_of a) (option_map rank_of b) }
{
    match (a, b) {
        (Some(a), Some(b)) => Some(if b.is_before(a) { b } else { a }),
        (Some(a), None) => Some(a),
        (None, b) => b,
    }
}
