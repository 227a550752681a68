// The infinite sets that a form is or has as parts.
ghost use Rattle.std.specs.Prelude.{◌≡◌, ◌∷◌, ◌++◌, [], IfOk, List, OnOk, Some, drop, flat_map};
ghost use Rattle.tla_meaning.specs.declared.place.Place.{Place};
ghost use Rattle.kernel_trees.specs.Sound.{infinite_places};
ghost use Rattle.assignment_finder.specs.inner.Places.{IsEarliest};

use kernel_trees::{Ker, KerOp};
use std::alloc::{AllocError, Global};
use tla_meaning::Place;

// Adds the places of the infinite sets that the form is or has as parts. The domain of a function set is no part.
#[cycle(endless)]
fn push_endless(k: &Ker, out: &mut Vec<Place>) -> Result<(), AllocError>
    ensures { OnOk result (out.new.items ≡ out.old.items ++ infinite_places k.now) }
{
    match &k.op {
        KerOp::IntForm => out.push(k.place)?,
        KerOp::NatForm => out.push(k.place)?,
        KerOp::TextForm => out.push(k.place)?,
        KerOp::SeqForm => {
            out.push(k.place)?;
            push_all(k.args.as_slice(), 0, out)?;
        }
        KerOp::Subsets => push_all(k.args.as_slice(), 0, out)?,
        KerOp::Functions => push_all(k.args.as_slice(), 1, out)?,
        KerOp::RecForm(_) => push_all(k.args.as_slice(), 0, out)?,
        KerOp::TupForm => push_all(k.args.as_slice(), 0, out)?,
        _ => {}
    }
    Ok(())
}

// Adds those of the forms from this number on.
#[cycle(endless)]
fn push_all(ks: &[Ker], from: usize, out: &mut Vec<Place>) -> Result<(), AllocError>
    ensures { OnOk result (out.new.items ≡ out.old.items ++ flat_map infinite_places (drop from ks.now)) }
{
    for i in from..ks.len() {
        push_endless(&ks[i], out)?;
    }
    Ok(())
}

// The earlier of what came first so far and one place more.
fn earlier(first: Option<Place>, place: Place) -> Place
    ensures { (ps : List Place) → IsEarliest ps first → IsEarliest (ps ++ place ∷ []) (Some result) }
{
    let Some(other) = first else {
        return place;
    };
    if place.is_before(other) { place } else { other }
}

fn earliest(places: &[Place]) -> Option<Place>
    ensures { IsEarliest places.now result }
{
    let mut first: Option<Place> = None;
    for place in places {
        first = Some(earlier(first, *place));
    }
    first
}

// The first place of an infinite set that the form is or has as a part.
pub(crate) fn first_endless(alloc: Global, form: &Ker) -> Result<Option<Place>, AllocError>
    ensures { IfOk result (λ p. IsEarliest (infinite_places form.now) p) }
{
    let mut places = Vec::new(alloc);
    push_endless(form, &mut places)?;
    Ok(earliest(places.as_slice()))
}
