// Which requests may be asked.
ghost use Rattle.std.specs.Prelude.{◌≡◌, ◌≤◌, ℕ, IfSome, IsTrue, true};
ghost use Rattle.std.specs.Str.{IsUtf8};
ghost use Rattle.front_end.specs.Requests.{IsInside, IsRequest};
ghost use Rattle.tla_values.specs.Integers.{fits_width};

use front_end::Request;
use kernel_shapes::Bounds;
use std::str;
use tla_values::Text;

fn is_text(text: &Text) -> bool
    ensures { IsTrue result → IsUtf8 text.now }
{
    match str::from_utf8(text.bytes()) {
        Ok(_) => true,
        Err(_) => false,
    }
}

fn is_text_if_any(text: &Option<Text>) -> bool
    ensures { IsTrue result → IfSome text.now IsUtf8 }
{
    match text {
        None => true,
        Some(text) => is_text(text),
    }
}

// Whether it is an integer of the least width.
fn is_small(n: i128) -> bool
    ensures { IsTrue result → (w : ℕ) → 4 ≤ w → fits_width w n ≡ true }
{
    -8 <= n && n < 8
}

fn are_small(bounds: &Option<Bounds>, width: u32) -> bool
    requires { 4 ≤ width }
    ensures { IsTrue result → IfSome bounds.now (IsInside width) }
{
    match bounds {
        None => true,
        Some(bounds) => is_small(bounds.low) && is_small(bounds.high),
    }
}

fn has_texts(request: &Request) -> bool
    ensures root { IsTrue result → IsUtf8 request.now.root }
    ensures init { IsTrue result → IsUtf8 request.now.init }
    ensures next { IsTrue result → IsUtf8 request.now.next }
    ensures cinit { IsTrue result → IfSome request.now.cinit IsUtf8 }
{
    is_text(&request.root)
        && is_text(&request.init)
        && is_text(&request.next)
        && is_text_if_any(&request.cinit)
}

// It asks more of bounds than a request must.
pub(crate) fn may_be_asked(request: &Request) -> bool
    ensures { IsTrue result → IsRequest request.now }
{
    if request.width < 4 || request.width > 64 || request.length > 1000 {
        return false;
    }
    let inside = are_small(&request.bounds, request.width);
    has_texts(request) && inside
}
