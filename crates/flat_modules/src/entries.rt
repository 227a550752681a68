// Names that binders, parameters and LETs bring into scope, and names that repeat others.
ghost use Rattle.std.specs.Prelude.{◌≡◌, ◌∷◌, ◌++◌, [], IfOk, OnOk, Some};
ghost use Rattle.tla_meaning.specs.Resolving.{announced, let_name};
ghost use Rattle.tla_meaning.specs.Symbols.{bound, comes_before, first_in_text, first_of, inner_name, later, least_from, misuse_name, misuse_place, misuse_rank, number_bytes, other_place, origin_over, parameter, place_bytes, repeated, repeats, same_place};
ghost use Rattle.tla_meaning.specs.Outcomes.{before, least};
ghost use Rattle.tla_meaning.specs.Scopes.{same_text};
ghost use Rattle.tla_meaning.specs.declared.symbols.Misuse.TheVariants.{Twice as told_twice};

use std::alloc::{AllocError, Global};
use tla_meaning::{Entry, Form, Kind, Misuse, Op, Place, copy_op};
use tla_values::{Text, copy_text};

// A place as bytes.
pub(crate) fn add_place(place: Place, out: &mut Vec<u8>) -> Result<(), AllocError>
    ensures { OnOk result (out.new.items ≡ out.old.items ++ place_bytes place) }
{
    add_number(place.file, out)?;
    add_number(place.line, out)?;
    add_number(place.col, out)
}

#[tactic(auto, unfolding(tla_meaning::specs::Symbols::number_bytes))]
fn add_number(n: u32, out: &mut Vec<u8>) -> Result<(), AllocError>
    ensures { OnOk result (out.new.items ≡ out.old.items ++ number_bytes n) }
{
    out.extend_from_slice(&n.to_be_bytes())
}

// The origin of what stands at a place over these origins.
pub(crate) fn origin_over(alloc: Global, place: Place, origins: &[u8]) -> Result<Text, AllocError>
    ensures { IfOk result (λ t. t ≡ origin_over place origins.now) }
{
    let mut bytes = Vec::from_slice(alloc, b"(")?;
    add_place(place, &mut bytes)?;
    bytes.extend_from_slice(origins)?;
    bytes.extend_from_slice(b")")?;
    Ok(Text::from_vec(bytes))
}

// ---- names inside an expression

fn inner_name(
    alloc: Global,
    place: Place,
    name: &Text,
    arity: usize,
    stands: Op,
) -> Result<Entry, AllocError>
    ensures { IfOk result (λ e. e ≡ inner_name place name.now arity stands) }
{
    let origin = origin_over(alloc, place, &[])?;
    let name = copy_text(alloc, name)?;
    Ok(Entry {
        name,
        kind: Kind::Inner,
        place,
        origin,
        stands,
        arity,
        exported: false,
    })
}

pub(crate) fn bound(alloc: Global, place: Place, name: &Text) -> Result<Entry, AllocError>
    ensures { IfOk result (λ e. e ≡ bound place name.now) }
{
    let stands = Op::Bound(copy_text(alloc, name)?);
    inner_name(alloc, place, name, 0, stands)
}

pub(crate) fn parameter(alloc: Global, place: Place, name: &Text) -> Result<Entry, AllocError>
    ensures { IfOk result (λ e. e ≡ parameter place name.now) }
{
    let stands = Op::Param(copy_text(alloc, name)?);
    inner_name(alloc, place, name, 0, stands)
}

pub(crate) fn let_name(
    alloc: Global,
    place: Place,
    name: &Text,
    count: usize,
) -> Result<Entry, AllocError>
    ensures { IfOk result (λ e. e ≡ let_name place (name.now, count)) }
{
    let stands = Op::Use(copy_text(alloc, name)?);
    inner_name(alloc, place, name, count, stands)
}

// A name that is announced, before its definition or inside it.
pub(crate) fn announced(
    alloc: Global,
    place: Place,
    name: &Text,
    count: usize,
) -> Result<Entry, AllocError>
    ensures { IfOk result (λ e. e ≡ announced place name.now count) }
{
    let origin = origin_over(alloc, place, &[])?;
    let name = copy_text(alloc, name)?;
    Ok(Entry {
        name,
        kind: Kind::Announcement,
        place,
        origin,
        stands: Op::Outside(Form::Recursive),
        arity: count,
        exported: false,
    })
}

// ---- names that are declared twice

// Whether a new name repeats one in scope.
fn repeats(new: &Entry, entry: &Entry) -> bool
    ensures { result ≡ repeats new.now entry.now }
{
    same(&new.name, &entry.name)
        && new.kind != Kind::Member
        && entry.kind != Kind::Announcement
        && (new.kind == Kind::Inner || !same(&new.origin, &entry.origin))
}

pub(crate) fn same(a: &Text, b: &Text) -> bool
    ensures { result ≡ same_text a.now b.now }
{
    same_bytes(a.bytes(), b.bytes())
}

pub(crate) fn same_bytes(a: &[u8], b: &[u8]) -> bool
    ensures { result ≡ same_text a.now b.now }
{
    a.cmp(b).is_eq()
}

// What is told of a new name that repeats one in scope.
fn twice(alloc: Global, new: &Entry, entry: &Entry) -> Result<Misuse, AllocError>
    ensures { IfOk result (λ m. m ≡ told_twice new.now.name (least entry.now.place new.now.place) (later entry.now.place new.now.place)) }
{
    let name = copy_text(alloc, &new.name)?;
    if new.place.is_before(entry.place) {
        Ok(Misuse::Twice(name, new.place, entry.place))
    } else if entry.place.is_before(new.place) {
        Ok(Misuse::Twice(name, entry.place, new.place))
    } else {
        Ok(Misuse::Twice(name, entry.place, entry.place))
    }
}

// Adds what is told of a new name beside one in scope.
pub(crate) fn add_repeated(
    alloc: Global,
    entry: &Entry,
    new: &Entry,
    out: &mut Vec<Misuse>,
) -> Result<(), AllocError>
    ensures { OnOk result (out.new.items ≡ out.old.items ++ repeated (entry.now ∷ []) new.now) }
{
    if !repeats(new, entry) {
        return Ok(());
    }
    out.push(twice(alloc, new, entry)?)?;
    Ok(())
}

// ---- which misuse is told

// The first of the least.
pub(crate) fn first_of(told: Option<Misuse>, misuse: Misuse) -> Misuse
    ensures { Some result ≡ first_of told misuse }
{
    match told {
        None => misuse,
        Some(before) => {
            if comes_before(&misuse, &before) {
                misuse
            } else {
                before
            }
        }
    }
}

// By place, at one place by kind, and then by the first in the text.
fn comes_before(a: &Misuse, b: &Misuse) -> bool
    ensures { result ≡ comes_before a.now b.now }
{
    place_of(a).is_before(place_of(b))
        || same_place(place_of(a), place_of(b))
            && (rank_of(a) < rank_of(b) || rank_of(a) == rank_of(b) && is_first_in_text(a, b))
}

// Of two of one name the first in the text.
fn is_first_in_text(a: &Misuse, b: &Misuse) -> bool
    ensures { result ≡ first_in_text a.now b.now }
{
    name_of(a).cmp(name_of(b)).is_eq() && other_place(a).is_before(other_place(b))
}

fn name_of(misuse: &Misuse) -> &[u8]
    ensures { result.now ≡ misuse_name misuse.now }
{
    match misuse {
        Misuse::Unknown(name, _) => name.bytes(),
        Misuse::Twice(name, _, _) => name.bytes(),
        Misuse::Arity(_, _, _) => &[],
    }
}

pub(crate) fn same_place(p: Place, q: Place) -> bool
    ensures { result ≡ same_place p q }
{
    p.file == q.file && p.line == q.line && p.col == q.col
}

fn place_of(misuse: &Misuse) -> Place
    ensures { result ≡ misuse_place misuse.now }
{
    match misuse {
        Misuse::Unknown(_, place) => *place,
        Misuse::Twice(_, _, place) => *place,
        Misuse::Arity(place, _, _) => *place,
    }
}

fn rank_of(misuse: &Misuse) -> u8
    ensures { result ≡ misuse_rank misuse.now }
{
    match misuse {
        Misuse::Unknown(_, _) => 0,
        Misuse::Twice(_, _, _) => 1,
        Misuse::Arity(_, _, _) => 2,
    }
}

fn other_place(misuse: &Misuse) -> Place
    ensures { result ≡ other_place misuse.now }
{
    match misuse {
        Misuse::Twice(_, place, _) => *place,
        misuse => place_of(misuse),
    }
}
