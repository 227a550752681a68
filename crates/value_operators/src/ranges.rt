//! Ranges of numbers between two known bounds.

ghost use Rattle.cell_arena.specs.Growth.{Grows};
ghost use Rattle.cell_merge.specs.Sorts.{number, set_of};
ghost use Rattle.outcome_cells.specs.Shows.{AreCells};
ghost use Rattle.set_rewriter.specs.Ranges.{AreNumbers};
ghost use Rattle.std.specs.Prelude.{◌-◌, ◌<◌, ◌^◌, ◌≡◌, ◌≤◌, ◌≤ℤ◌, IfOk, IsTrue, pos};
ghost use Rattle.tla_values.specs.Integers.{fits_width};
ghost use Rattle.value_operators.specs.Ranges.{ShowsRange};
ghost use Rattle.value_operators.specs.inner.Nearest.{IsNearest};

use cell_arena::{Build, CellId};
use outcome_cells::{Cells, sure};
use std::alloc::AllocError;

// The least number that is above all of the width.
fn end_of(width: u32) -> i128
    requires from { 0 < width }
    requires to { width ≤ 64 }
    ensures end { result ≡ pos (2 ^ (width - 1)) }
    ensures small { result ≤ℤ pos (2 ^ 63) }
{
    1i128 << (width - 1)
}

// The number of the width that is nearest to this one.
fn into_width(n: i128, width: u32) -> i128
    requires from { 0 < width }
    requires to { width ≤ 64 }
    ensures fits { IsTrue (fits_width width result) }
    ensures nearest { IsNearest width n result }
{
    let end = end_of(width);
    if n < -end {
        -end
    } else if n < end {
        n
    } else {
        end - 1
    }
}

/// The numbers from x to y, where they all lie from `low` to `high`, and elsewhere some set of numbers. The bounds may
/// be any numbers: each number between them that fits the width is a candidate, and want of memory is answered for 2^62
/// or more. (Specifying Systems, section 18.4.)
#[tactic(auto, using(cell_arena::proofs::Growing::growing))]
pub fn range(
    b: &mut Build,
    x: CellId,
    y: CellId,
    low: i128,
    high: i128,
) -> Result<Cells, AllocError>
    requires { AreNumbers b.old.arena.kinds x y }
    ensures cells { IfOk result (AreCells b.new (set_of number)) }
    ensures shows { IfOk result (ShowsRange b.old b.new x y low high) }
    ensures grows { Grows b.old b.new }
{
    let width = b.width();
    let least = into_width(low, width);
    let greatest = into_width(high, width);
    let id = set_rewriter::range(b, x, y, least, greatest)?;
    Ok(sure(b, id))
}
