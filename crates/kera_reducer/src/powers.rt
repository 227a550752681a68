// Powers at a literal exponent.
ghost use Rattle.std.specs.Prelude.{◌≡◌, IfOk, suc};
ghost use Rattle.tla_meaning.specs.declared.op.Op.TheVariants.{Pow as power_op};
ghost use Rattle.snowcat_rows.specs.declared.types.Ty.TheVariants.{Bool as bool_type};
ghost use Rattle.kernel_reduction.specs.Rows.{bound, number, place_of, power_body, product, type_of};
ghost use Rattle.kera_reducer.specs.inner.Standing.{MakesOf, choice, large_power_of, less, once_of, small_body_of, small_power_of, times};

use crate::making::Made;
use crate::naming::{NamedPair, let_in, name_pair};
use crate::nodes::{binary, bound, choice, natural_at, number, two};
use kernel_trees::{Ker, KerOp, copy_ker};
use snowcat_rows::{Ty, copy_type};
use std::alloc::AllocError;

fn less(made: &Made, left: Ker, right: Ker) -> Result<Ker, AllocError>
    ensures { IfOk result (λ k. k ≡ less made.now.place left right) }
{
    binary(made.alloc, made.place, Ty::Bool, KerOp::Less, (left, right))
}

// A value behind a test whose outcome does not count.
fn behind(made: &Made, test: Ker, value: Ker) -> Result<Ker, AllocError>
    ensures { IfOk result (λ k. k ≡ choice made.now.place made.now.ty.now test value) }
{
    let again = copy_ker(made.alloc, &value)?;
    let ty = copy_type(made.alloc, made.ty)?;
    choice(made.alloc, made.place, ty, test, (value, again))
}

fn times(made: &Made, left: Ker, right: Ker) -> Result<Ker, AllocError>
    ensures { IfOk result (λ k. k ≡ times made.now.place made.now.ty.now left right) }
{
    let ty = copy_type(made.alloc, made.ty)?;
    binary(made.alloc, made.place, ty, KerOp::Times, (left, right))
}

// A factor once, and so many times more.
fn product(made: &Made, factor: &Ker, more: usize) -> Result<Ker, AllocError>
    ensures { IfOk result (λ k. k ≡ product made.now.place made.now.ty.now factor.now more) }
{
    let mut result = copy_ker(made.alloc, factor)?;
    for _ in 0..more {
        let again = copy_ker(made.alloc, factor)?;
        result = times(made, result, again)?;
    }
    Ok(result)
}

fn one(made: &Made) -> Result<Ker, AllocError>
    ensures { IfOk result (λ k. k ≡ number made.now.place made.now.ty.now 1) }
{
    let ty = copy_type(made.alloc, made.ty)?;
    Ok(number(made.alloc, made.place, ty, 1))
}

// A power of 0: only that the base is a number is asked.
fn zeroth(made: &Made, base: &Ker) -> Result<Ker, AllocError>
    ensures { IfOk result (λ k. k ≡ power_body made.now.place made.now.ty.now bool_type base.now 0) }
{
    let left = copy_ker(made.alloc, base)?;
    let right = copy_ker(made.alloc, base)?;
    let test = less(made, left, right)?;
    let one = one(made)?;
    behind(made, test, one)
}

// `1 * base`.
fn once(made: &Made, base: &Ker) -> Result<Ker, AllocError>
    ensures { IfOk result (λ k. k ≡ once_of made.now base.now) }
{
    let copied = copy_ker(made.alloc, base)?;
    let one = one(made)?;
    times(made, one, copied)
}

// A power of 1: also that the base is inside the width.
fn first(made: &Made, base: &Ker) -> Result<Ker, AllocError>
    ensures { IfOk result (λ k. k ≡ power_body made.now.place made.now.ty.now bool_type base.now 1) }
{
    let same = once(made, base)?;
    let right = copy_ker(made.alloc, base)?;
    let test = less(made, same, right)?;
    let value = copy_ker(made.alloc, base)?;
    behind(made, test, value)
}

// A power of what is read by a tree.
fn power_body(made: &Made, base: &Ker, exponent: usize) -> Result<Ker, AllocError>
    ensures { IfOk result (λ k. k ≡ power_body made.now.place made.now.ty.now bool_type base.now exponent) }
{
    match exponent {
        0 => zeroth(made, base),
        1 => first(made, base),
        _ => product(made, base, exponent - 1),
    }
}

// What is named, as it stands for the base.
fn named_base(made: &Made, base: &Ker) -> Result<Ker, AllocError>
    ensures { IfOk result (λ k. k ≡ bound (place_of base.now) (type_of base.now) (suc made.now.depth)) }
{
    let number = made.number(1)?;
    let ty = copy_type(made.alloc, &base.ty)?;
    Ok(bound(made.alloc, base.place, ty, number))
}

fn small_body(made: &Made, base: &Ker, exponent: usize) -> Result<Ker, AllocError>
    ensures { IfOk result (λ k. k ≡ small_body_of made.now base.now exponent) }
{
    let named = named_base(made, base)?;
    power_body(made, &named, exponent)
}

// With an exponent that fits each width from 4 on: `LET y == a IN ..`.
fn small_power(made: &Made, base: Ker, exponent: usize) -> Result<Ker, AllocError>
    ensures { IfOk result (λ k. k ≡ small_power_of made.now base exponent) }
{
    let body = small_body(made, &base, exponent)?;
    let items = copy_type(made.alloc, &base.ty)?;
    let whole = copy_type(made.alloc, made.ty)?;
    let_in(made, whole, items, base, body)
}

// With one that may be too big: `LET y == <<a, n>> IN ..`.
fn large_power(made: &Made, base: Ker, exponent: Ker, number: usize) -> Result<Ker, AllocError>
    ensures { IfOk result (λ k. k ≡ large_power_of made.now base exponent number) }
{
    let NamedPair {
        pairs,
        operands,
        first,
        second: _,
    } = name_pair(made, base, exponent)?;
    let body = power_body(made, &first, number)?;
    let whole = copy_type(made.alloc, made.ty)?;
    let_in(made, whole, pairs, operands, body)
}

/// A power.
pub(crate) fn power(made: &Made, kids: Vec<Ker>) -> Result<Ker, AllocError>
    ensures { IfOk result (λ k. MakesOf made.now power_op kids.items k) }
{
    let (base, exponent) = two(kids)?;
    let number = natural_at(&exponent)?;
    if number <= 7 {
        small_power(made, base, number)
    } else {
        large_power(made, base, exponent, number)
    }
}
