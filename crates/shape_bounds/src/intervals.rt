// Intervals of integers, whose ends lie within the width.
ghost use Rattle.std.specs.Prelude.{◌-◌, ◌-ℤ◌, ◌≡◌, neg_ℤ, nat_abs, pos};
ghost use Rattle.kernel_shapes.specs.Codes.{mean};
ghost use Rattle.kernel_shapes.specs.Rows.{quotient_shape, remainder_shape};
ghost use Rattle.kernel_shapes.specs.Shape.{hull_of, interval, moved, over_both};
ghost use Rattle.shape_bounds.specs.Kept.{applied, kept};
ghost use Rattle.shape_bounds.specs.Kept.{IsEnds, IsWidth};

use kernel_shapes::Shape;

/// What is computed of two numbers.
#[derive(Clone, Copy, Debug, Drop)]
pub enum Arithmetic {
    Sum,
    Difference,
    Product,
}

// The ends of an interval.
pub(crate) fn ends(a: &Shape) -> Option<(i128, i128)>
    ensures { IsEnds (mean a.now) result }
{
    match a {
        Shape::Num(low, high) => Some((*low, *high)),
        Shape::Atom | Shape::Set(..) | Shape::Fun(..) | Shape::Seq(..) => None,
        Shape::Rec(_) | Shape::Tup(_) | Shape::Empty => None,
    }
}

// The nearest number of the width.
pub(crate) fn moved(a: i128, width: u32) -> i128
    requires sized { IsWidth width }
    ensures { result ≡ moved width a }
{
    let top = 1i128 << (width - 1);
    if a < -top {
        -top
    } else if a < top {
        a
    } else {
        top - 1
    }
}

// The interval between the numbers of the width that are nearest to two ends.
pub(crate) fn interval(low: i128, high: i128, width: u32) -> Shape
    requires sized { IsWidth width }
    ensures { mean result ≡ interval width low high }
{
    Shape::Num(moved(low, width), moved(high, width))
}

// An end of the width for a result, however great it is.
fn end(op: Arithmetic, a: i128, b: i128, width: u32) -> i128
    requires sized { IsWidth width }
    ensures { result ≡ moved width (applied op a b) }
{
    match op {
        Arithmetic::Sum => moved(a.saturating_add(b), width),
        Arithmetic::Difference => moved(a.saturating_sub(b), width),
        Arithmetic::Product => moved(a.saturating_mul(b), width),
    }
}

// The hull of the results over the ends of two intervals.
fn hull(op: Arithmetic, x: (i128, i128), y: (i128, i128), width: u32) -> Shape
    requires sized { IsWidth width }
    ensures { mean result ≡ hull_of width (applied op x.0 y.0) (applied op x.0 y.1)
        (applied op x.1 y.0) (applied op x.1 y.1) }
{
    let a = end(op, x.0, y.0, width);
    let b = end(op, x.0, y.1, width);
    let c = end(op, x.1, y.0, width);
    let d = end(op, x.1, y.1, width);
    Shape::Num(a.min(b).min(c.min(d)), a.max(b).max(c.max(d)))
}

pub(crate) fn over_both(op: Arithmetic, a: &Shape, b: &Shape, width: u32) -> Shape
    requires sized { IsWidth width }
    ensures { mean result ≡ over_both width (applied op) (mean a.now) (mean b.now) }
{
    match (ends(a), ends(b)) {
        (Some(x), Some(y)) => hull(op, x, y, width),
        _ => Shape::Empty,
    }
}

// Of quotients: no greater, and no lower below zero, than the numbers that are divided.
pub(crate) fn quotient(a: &Shape, width: u32) -> Shape
    requires sized { IsWidth width }
    ensures { mean result ≡ quotient_shape width (mean a.now) }
{
    match ends(a) {
        Some((a, b)) => {
            let most = a.saturating_abs().max(b.saturating_abs());
            interval(-most, most, width)
        }
        None => Shape::Empty,
    }
}

// Of remainders: below the greatest divisor.
pub(crate) fn remainder(divisor: &Shape, width: u32) -> Shape
    requires sized { IsWidth width }
    ensures { mean result ≡ remainder_shape width (mean divisor.now) }
{
    match ends(divisor) {
        Some((_, b)) => interval(0, b.saturating_sub(1).max(0), width),
        None => Shape::Empty,
    }
}

// The numbers from 0 to a number that is kept.
pub(crate) fn up_to(count: u64, width: u32) -> Shape
    requires sized { IsWidth width }
    ensures { mean result ≡ interval width (pos 0) (pos count) }
{
    interval(0, i128::from(count), width)
}
