// Numbers of members, arguments and places. The greatest that is kept stands for every greater one.
ghost use Rattle.std.specs.Prelude.{◌*◌, ◌+◌, ◌^◌, ◌≡◌};
ghost use Rattle.shape_bounds.specs.Kept.{kept};

pub(crate) fn sum(a: u64, b: u64) -> u64
    ensures { result ≡ kept (a + b) }
{
    a.saturating_add(b)
}

pub(crate) fn product(a: u64, b: u64) -> u64
    ensures { result ≡ kept (a * b) }
{
    a.saturating_mul(b)
}

// The base raised to the exponent.
pub(crate) fn power(base: u64, exponent: u64) -> u64
    ensures { result ≡ kept (base ^ exponent) }
{
    if exponent == 0 {
        1
    } else if base <= 1 {
        base
    } else if exponent >= 64 {
        u64::MAX
    } else {
        power_step_by_step(base, exponent)
    }
}

fn power_step_by_step(base: u64, exponent: u64) -> u64
    ensures { result ≡ kept (base ^ exponent) }
{
    let mut made = 1u64;
    for _ in 0..exponent {
        made = product(made, base);
    }
    made
}
