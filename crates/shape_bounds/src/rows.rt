// The table of shapes: a row for each operator that walks all its children.
ghost use Rattle.std.specs.Prelude.{ℕ, [], ◌+◌, ◌-ℤ◌, ◌∷◌, ◌≡◌, IfOk, if◌then◌else◌, int_le, map, nat_abs};
ghost use Rattle.kernel_shapes.specs.Codes.{mean};
ghost use Rattle.kernel_shapes.specs.Rows.{a_big_union, a_choice, a_head, a_merge, a_shorter, an_application, an_enumeration, no_literal, set_of_interval, the_functions, the_subsets};
ghost use Rattle.shape_bounds.specs.Kept.{IsWidth, kept, kept_top};
ghost use Rattle.shape_bounds.specs.inner.Plain.{row_of};
ghost use Rattle.shape_bounds.specs.inner.Table.{literal, row_kept};

use crate::intervals::{Arithmetic, ends, over_both, quotient, remainder, up_to};
use crate::joins::{join, join_all, join_parts};
use crate::making::{function, sequence, set};
use crate::numbers::{power, product, sum};
use crate::parts::{Literal, applied, copy_part, count, inside, result_of};
use crate::records::{record, records, tuples};
use kernel_shapes::Shape;
use kernel_trees::KerOp;
use std::alloc::{AllocError, Global};

// The shape that an operator gives by those of its operands and by the index, if that is written out. No sound tree has
// another number of operands.
pub(crate) fn row(
    alloc: Global,
    op: &KerOp,
    index: Literal,
    operands: &[Shape],
    width: u32,
) -> Result<Shape, AllocError>
    requires sized { IsWidth width }
    ensures { IfOk result (λ r. mean r
        ≡ row_kept width (row_of op.now) (literal index.entry) (map mean operands.now)) }
{
    match op {
        KerOp::Plus | KerOp::Minus | KerOp::Times => number(op, operands, width),
        KerOp::Quotient | KerOp::Remainder => number(op, operands, width),
        KerOp::Count | KerOp::Length => number(op, operands, width),
        KerOp::SetOf => set_of(alloc, operands),
        KerOp::Range | KerOp::Inter | KerOp::Without => part(alloc, op, operands),
        KerOp::Flatten | KerOp::Union => union(alloc, op, operands),
        KerOp::Subsets | KerOp::Functions => sets(alloc, op, operands),
        KerOp::RecForm(names) => records(alloc, names.as_slice(), operands),
        KerOp::TupForm => tuples(alloc, operands),
        KerOp::RecOf(names) => record(alloc, names.as_slice(), operands),
        KerOp::If | KerOp::NoCase => branches(alloc, op, operands),
        KerOp::At | KerOp::Item(_) => applied_first(alloc, index, operands),
        KerOp::FieldOf(name) => applied_first(alloc, Literal::Text(name), operands),
        KerOp::First => first(alloc, operands),
        KerOp::Join => merged(alloc, operands),
        KerOp::Push | KerOp::Glue => longer(alloc, op, operands),
        KerOp::Rest | KerOp::Slice => shorter(alloc, operands),
        _ => Ok(Shape::Atom),
    }
}

fn number(op: &KerOp, operands: &[Shape], width: u32) -> Result<Shape, AllocError>
    requires sized { IsWidth width }
    ensures { IfOk result (λ r. mean r ≡ row_kept width (row_of op.now) no_literal (map mean operands.now)) }
{
    match (op, operands) {
        (KerOp::Plus, [a, b]) => Ok(over_both(Arithmetic::Sum, a, b, width)),
        (KerOp::Minus, [a, b]) => Ok(over_both(Arithmetic::Difference, a, b, width)),
        (KerOp::Times, [a, b]) => Ok(over_both(Arithmetic::Product, a, b, width)),
        (KerOp::Quotient, [a, _]) => Ok(quotient(a, width)),
        (KerOp::Remainder, [_, b]) => Ok(remainder(b, width)),
        (KerOp::Count | KerOp::Length, [a]) => Ok(up_to(count(a), width)),
        _ => Err(AllocError),
    }
}

// An enumeration.
fn set_of(alloc: Global, items: &[Shape]) -> Result<Shape, AllocError>
    ensures { IfOk result (λ r. (w : ℕ) → mean r
        ≡ row_kept w an_enumeration no_literal (map mean items.now)) }
{
    let item = join_all(alloc, items)?;
    set(alloc, items.len() as u64, item)
}

// The numbers from one to another, and a part of a set.
fn part(alloc: Global, op: &KerOp, operands: &[Shape]) -> Result<Shape, AllocError>
    ensures { IfOk result (λ r. (w : ℕ) → mean r
        ≡ row_kept w (row_of op.now) no_literal (map mean operands.now)) }
{
    match (op, operands) {
        (KerOp::Range, [a, b]) => range(alloc, a, b),
        (KerOp::Inter | KerOp::Without, [a, _]) => {
            let member = copy_part(alloc, inside(a))?;
            set(alloc, count(a), member)
        }
        _ => Err(AllocError),
    }
}

// The numbers from the least of one interval to the greatest of another.
pub(crate) fn range(alloc: Global, a: &Shape, b: &Shape) -> Result<Shape, AllocError>
    ensures { IfOk result (λ r. (w : ℕ) → mean r
        ≡ kept_top (set_of_interval w (mean a.now) (mean b.now))) }
{
    match (ends(a), ends(b)) {
        (Some((low, _)), Some((_, high))) => {
            set(alloc, numbers_between(low, high), Shape::Num(low, high))
        }
        _ => set(alloc, 0, Shape::Empty),
    }
}

// How many numbers lie between two.
fn numbers_between(low: i128, high: i128) -> u64
    ensures { result ≡ kept (if int_le low high then nat_abs (high -ℤ low) + 1 else 0) }
{
    if low > high {
        return 0;
    }
    let more = high.saturating_sub(low).min(i128::from(u64::MAX));
    (more as u64).saturating_add(1)
}

// A set of the members of others.
fn union(alloc: Global, op: &KerOp, operands: &[Shape]) -> Result<Shape, AllocError>
    ensures { IfOk result (λ r. (w : ℕ) → mean r
        ≡ row_kept w (row_of op.now) no_literal (map mean operands.now)) }
{
    match (op, operands) {
        (KerOp::Union, [a, b]) => {
            let member = join_parts(alloc, inside(a), inside(b))?;
            set(alloc, sum(count(a), count(b)), member)
        }
        (KerOp::Flatten, [a]) => flattened(alloc, a),
        _ => Err(AllocError),
    }
}

// The members of the members.
fn flattened(alloc: Global, a: &Shape) -> Result<Shape, AllocError>
    ensures { IfOk result (λ r. (w : ℕ) → mean r
        ≡ row_kept w a_big_union no_literal (mean a.now ∷ [])) }
{
    match inside(a) {
        Some(b) => {
            let member = copy_part(alloc, inside(b))?;
            set(alloc, product(count(a), count(b)), member)
        }
        None => set(alloc, 0, Shape::Empty),
    }
}

// The set of all subsets, of all functions.
fn sets(alloc: Global, op: &KerOp, operands: &[Shape]) -> Result<Shape, AllocError>
    ensures { IfOk result (λ r. (w : ℕ) → mean r
        ≡ row_kept w (row_of op.now) no_literal (map mean operands.now)) }
{
    match (op, operands) {
        (KerOp::Subsets, [a]) => subsets_of(alloc, a),
        (KerOp::Functions, [a, b]) => functions_of(alloc, a, b),
        _ => Err(AllocError),
    }
}

// The set of all subsets of a set.
pub(crate) fn subsets_of(alloc: Global, a: &Shape) -> Result<Shape, AllocError>
    ensures { IfOk result (λ r. (w : ℕ) → mean r ≡ row_kept w the_subsets no_literal (mean a.now ∷ [])) }
{
    let most = count(a);
    let inner = copy_part(alloc, inside(a))?;
    let member = set(alloc, most, inner)?;
    set(alloc, power(2, most), member)
}

// The set of all functions from one set to another.
pub(crate) fn functions_of(alloc: Global, a: &Shape, b: &Shape) -> Result<Shape, AllocError>
    ensures { IfOk result (λ r. (w : ℕ) → mean r
        ≡ row_kept w the_functions no_literal (mean a.now ∷ mean b.now ∷ [])) }
{
    let arguments = count(a);
    let argument = copy_part(alloc, inside(a))?;
    let value = copy_part(alloc, inside(b))?;
    let member = function(alloc, arguments, argument, value)?;
    set(alloc, power(count(b), arguments).max(1), member)
}

// The value at an index.
fn applied_first(alloc: Global, index: Literal, operands: &[Shape]) -> Result<Shape, AllocError>
    ensures { IfOk result (λ r. (w : ℕ) → mean r
        ≡ row_kept w an_application (literal index.entry) (map mean operands.now)) }
{
    match operands {
        [a, ..] => copy_part(alloc, applied(a, index)),
        _ => Err(AllocError),
    }
}

// The first item of a sequence.
fn first(alloc: Global, operands: &[Shape]) -> Result<Shape, AllocError>
    ensures { IfOk result (λ r. (w : ℕ) → mean r
        ≡ row_kept w a_head no_literal (map mean operands.now)) }
{
    match operands {
        [a] => copy_part(alloc, result_of(a)),
        _ => Err(AllocError),
    }
}

// A function of the arguments of both.
fn merged(alloc: Global, operands: &[Shape]) -> Result<Shape, AllocError>
    ensures { IfOk result (λ r. (w : ℕ) → mean r
        ≡ row_kept w a_merge no_literal (map mean operands.now)) }
{
    match operands {
        [a, b] => {
            let argument = join_parts(alloc, inside(a), inside(b))?;
            let value = join_parts(alloc, result_of(a), result_of(b))?;
            function(alloc, sum(count(a), count(b)), argument, value)
        }
        _ => Err(AllocError),
    }
}

// A sequence with an item or another sequence behind it.
fn longer(alloc: Global, op: &KerOp, operands: &[Shape]) -> Result<Shape, AllocError>
    ensures { IfOk result (λ r. (w : ℕ) → mean r
        ≡ row_kept w (row_of op.now) no_literal (map mean operands.now)) }
{
    match (op, operands) {
        (KerOp::Push, [a, b]) => {
            let item = join_parts(alloc, inside(a), Some(b))?;
            sequence(alloc, sum(count(a), 1), item)
        }
        (KerOp::Glue, [a, b]) => {
            let item = join_parts(alloc, inside(a), inside(b))?;
            sequence(alloc, sum(count(a), count(b)), item)
        }
        _ => Err(AllocError),
    }
}

// A part of a sequence.
fn shorter(alloc: Global, operands: &[Shape]) -> Result<Shape, AllocError>
    ensures { IfOk result (λ r. (w : ℕ) → mean r
        ≡ row_kept w a_shorter no_literal (map mean operands.now)) }
{
    match operands {
        [a, ..] => {
            let item = copy_part(alloc, inside(a))?;
            sequence(alloc, count(a), item)
        }
        _ => Err(AllocError),
    }
}

// What IF gives by its branches; of a CASE that gives nothing there are none.
fn branches(alloc: Global, op: &KerOp, operands: &[Shape]) -> Result<Shape, AllocError>
    ensures { IfOk result (λ r. (w : ℕ) → mean r
        ≡ row_kept w a_choice no_literal (map mean operands.now)) }
{
    match (op, operands) {
        (KerOp::If, [_, a, b]) => join(alloc, a, b),
        (KerOp::NoCase, []) => Ok(Shape::Empty),
        _ => Err(AllocError),
    }
}
