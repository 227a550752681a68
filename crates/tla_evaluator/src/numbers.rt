// Whole numbers.
ghost use Rattle.std.specs.Prelude.{◌*ℤ◌, ◌+ℤ◌, ◌<ℤ◌, ◌≡◌, ◌≤ℤ◌, ◌≤◌, IfNone, IfOk, IfSome, None, Some, false, map, negsuc, pos, true};
ghost use Rattle.std.specs.Int.RustNames.{unsigned_abs};
ghost use Rattle.tla_values.specs.declared.value.Value.{out-Value};
ghost use Rattle.tla_meaning.specs.Numbers.{in_width, number, power, power_of, range};
ghost use Rattle.tla_meaning.specs.Operators.{on_numbers, table};
ghost use Rattle.tla_evaluator.specs.inner.Families.{of_numbers};
ghost use Rattle.tla_evaluator.specs.inner.Gives.{Gives};
ghost use Rattle.tla_evaluator.specs.inner.Readings.{IsWidth};

use crate::answers::{Answer, Stop, Stored};
use crate::operators::Row;
use std::alloc::Global;
use tla_meaning::{Op, Place};
use tla_values::{List, Value};

impl Row<'_> {
    // Two numbers.
    pub(crate) fn numbers(&self, op: &Op) -> Answer<Value>
        ensures { Gives (on_numbers self.now.place
            (of_numbers (Some self.now.width) self.now.place op.now)
            (map out-Value self.now.operands.now)) result }
    {
        match self.operands {
            [Value::Int(a), Value::Int(b)] => self.of_numbers(op, *a, *b),
            _ => Err(Stop::Wrong(self.place)),
        }
    }

    fn of_numbers(&self, op: &Op, a: i128, b: i128) -> Answer<Value>
        ensures { Gives (of_numbers (Some self.now.width) self.now.place op.now a b) result }
    {
        if b <= 0 && matches!(op, Op::Div | Op::Mod) {
            return Err(Stop::Wrong(self.place));
        }
        match op {
            Op::Lt => Ok(Value::Bool(a < b)),
            Op::Gt => Ok(Value::Bool(b < a)),
            Op::Le => Ok(Value::Bool(a <= b)),
            Op::Ge => Ok(Value::Bool(b <= a)),
            Op::Add => number(a.saturating_add(b), self.width, self.place),
            Op::Sub => number(a.saturating_sub(b), self.width, self.place),
            Op::Mul => number(a.saturating_mul(b), self.width, self.place),
            Op::Div => number(a.div_euclid(b), self.width, self.place),
            Op::Mod => number(a.rem_euclid(b), self.width, self.place),
            Op::Pow => raised(a, b, self.width, self.place),
            Op::Range => Ok(numbers_between(self.alloc, a, b)?),
            _ => Err(Stop::Wrong(self.place)),
        }
    }

    // `-a`.
    pub(crate) fn negative(&self) -> Answer<Value>
        ensures { Gives (table (Some self.now.width) self.now.place Op.Neg self.now.operands.now)
            result }
    {
        match self.operands {
            [Value::Int(a)] => number(0i128.saturating_sub(*a), self.width, self.place),
            _ => Err(Stop::Wrong(self.place)),
        }
    }
}

// Whether the number is in range.
pub(crate) fn fits(n: i128, width: u32) -> bool
    requires sized { IsWidth width }
    ensures { result ≡ in_width (Some width) n }
{
    let top = 1i128 << (width - 1);
    -top <= n && n < top
}

pub(crate) fn number(n: i128, width: u32, place: Place) -> Answer<Value>
    requires sized { IsWidth width }
    ensures { Gives (number (Some width) place n) result }
{
    if fits(n, width) {
        Ok(Value::Int(n))
    } else {
        Err(Stop::Big(place))
    }
}

fn raised(a: i128, n: i128, width: u32, place: Place) -> Answer<Value>
    requires sized { IsWidth width }
    ensures { Gives (power (Some width) place a n) result }
{
    if n < 0 {
        Err(Stop::Wrong(place))
    } else if -1 <= a && a <= 1 {
        number(small_power(a, n.unsigned_abs()), width, place)
    } else {
        large_power(a, n.unsigned_abs(), width, place)
    }
}

// The power of 0, 1 or -1.
fn small_power(a: i128, n: u128) -> i128
    requires low { negsuc 0 ≤ℤ a }
    requires high { a ≤ℤ pos 1 }
    ensures { result ≡ power_of a n }
{
    if a == 1 {
        1
    } else if a == 0 {
        if n == 0 { 1 } else { 0 }
    } else if n % 2 == 0 {
        1
    } else {
        -1
    }
}

// The power of any other number, which grows with each factor.
fn large_power(a: i128, n: u128, width: u32, place: Place) -> Answer<Value>
    requires sized { IsWidth width }
    requires base { 2 ≤ unsigned_abs a }
    ensures { Gives (number (Some width) place (power_of a n)) result }
{
    let mut power: i128 = 1;
    for _k in 0..n {
        power = a.saturating_mul(power);
        if !fits(power, width) {
            return Err(Stop::Big(place));
        }
    }
    number(power, width, place)
}

// `a..b`.
fn numbers_between(alloc: Global, a: i128, b: i128) -> Stored<Value>
    ensures { IfOk result (λ v. v ≡ Value.Set (range a b)) }
{
    let mut members = Vec::new(alloc);
    while let Some(n) = next_member(a, b, members.len()) {
        members.push(n)?;
    }
    Ok(Value::Set(List::from_vec(members)))
}

// The number that is k above a, where it is at most b.
fn next_member(a: i128, b: i128, k: usize) -> Option<Value>
    ensures some { IfSome result (λ v. (v ≡ Value.Int (a +ℤ pos k)) × ((a +ℤ pos k) ≤ℤ b)) }
    ensures none { IfNone result (b <ℤ (a +ℤ pos k)) }
{
    let n = a.checked_add(k as i128)?;
    (n <= b).then_some(Value::Int(n))
}
