//! What fits a width.

ghost use Rattle.std.specs.Prelude.{◌<◌, ◌≡◌, ◌≤◌, pos};
ghost use Rattle.tla_values.specs.Integers.{fits_width};

// Whether the number fits the width, which has numbers up to 2^(w-1) - 1.
pub(crate) fn fits(width: u32, n: usize) -> bool
    requires from { 0 < width }
    requires to { width ≤ 64 }
    ensures { result ≡ fits_width width (pos n) }
{
    n < 1 << (width - 1)
}
