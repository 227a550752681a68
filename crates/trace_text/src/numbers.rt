// Decimal numbers.
ghost use Rattle.std.specs.Prelude.{◌≡◌, ℕ, ℤ, pos, negsuc, suc, ◌-◌, ◌<◌, ◌≤◌, ◌^◌, IsTrue, List, ◌++◌, length, min, IfSome, MatchOption};
ghost use Rattle.std.specs.Fmt.{decimal, signed_decimal};
ghost use Rattle.std.specs.Str.Parse.{AllDigits, digits_value};
ghost use Rattle.tla_values.specs.Integers.{fits_width};
ghost use Rattle.tla_values.specs.Show.{Ends};
ghost use Rattle.trace_text.specs.inner.Reading.{Fits, Gives, IsNoLonger, OfRead};

use crate::bytes::{Class, behind, run};
use crate::faults::Unread;
use tla_values::Value;

// The number in front, where no digit stands behind it.
pub(crate) fn number(bytes: &[u8]) -> Result<(Value, &[u8]), Unread>
    ensures reads { (z : ℤ) (r : List ℕ) → IsTrue (fits_width 128 z) → Ends r
        → bytes.now ≡ signed_decimal z ++ r → Gives result (Value.Int z) r }
    ensures fits { OfRead result Fits }
    ensures shorter { IsNoLonger result bytes.now }
{
    match behind(bytes, b"-") {
        Some(digits) => negative(digits),
        None => positive(bytes),
    }
}

const LIMIT: u128 = 0x8000_0000_0000_0000_0000_0000_0000_0000;

// The number of the digits in front.
fn positive(bytes: &[u8]) -> Result<(Value, &[u8]), Unread>
    ensures reads { (m : ℕ) (r : List ℕ) → m < LIMIT → Ends r
        → bytes.now ≡ decimal m ++ r → Gives result (Value.Int (pos m)) r }
    ensures fits { OfRead result Fits }
    ensures shorter { IsNoLonger result bytes.now }
{
    let (front, rest) = run(Class::Digit, bytes);
    let n = value(front);
    if n < LIMIT {
        Ok((Value::Int(n as i128), rest))
    } else {
        Err(Unread::NoValue)
    }
}

// The number of the digits in front behind a minus.
fn negative(bytes: &[u8]) -> Result<(Value, &[u8]), Unread>
    ensures reads { (m : ℕ) (r : List ℕ) → m < LIMIT → Ends r
        → bytes.now ≡ decimal (suc m) ++ r → Gives result (Value.Int (negsuc m)) r }
    ensures fits { OfRead result Fits }
    ensures shorter { IsNoLonger result bytes.now }
{
    let (front, rest) = run(Class::Digit, bytes);
    let n = value(front);
    if n == 0 || n > LIMIT {
        return Err(Unread::NoValue);
    }
    Ok((Value::Int(-1 - (n - 1) as i128), rest))
}

// The number that the digits write; the greatest one where it is greater.
fn value(digits: &[u8]) -> u128
    requires { AllDigits 10 digits.now }
    ensures { result ≡ min (digits_value 10 digits.now) (2 ^ 128 - 1) }
{
    let mut n: u128 = 0;
    for digit in digits {
        n = n
            .saturating_mul(10)
            .saturating_add(u128::from(*digit - b'0'));
    }
    n
}
