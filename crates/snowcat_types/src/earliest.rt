// The least of places.
ghost use Rattle.std.specs.Prelude.{◌≡◌};
ghost use Rattle.snowcat_types.specs.inner.Telling.{earlier};

use tla_meaning::Place;

/// The least of the place and what was the least so far.
pub fn earlier(worst: Option<Place>, place: Place) -> Place
    ensures { result ≡ earlier worst place }
{
    match worst {
        None => place,
        Some(least) => { if place.is_before(least) { place } else { least } }
    }
}
