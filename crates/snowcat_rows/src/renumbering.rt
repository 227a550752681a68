// Types that are shown together: their variables numbered as they occur.
ghost use Rattle.std.specs.Prelude.{◌≡◌, ◌++◌, IfOk, OnOk, map, option_map};
ghost use Rattle.std.specs.List.{flat_map};
ghost use Rattle.snowcat_rows.specs.declared.occurrences.Unknown.TheVariants.{Row as row_named};
ghost use Rattle.snowcat_rows.specs.declared.types.Ty.{Ty as AnyType};
ghost use Rattle.snowcat_rows.specs.Numbered.{RenamedTogether, each_once, numbered as numbered_by, numbered_together, occurring, place as place_of, row_variable};
ghost use Rattle.snowcat_rows.specs.inner.Meeting.{all_met, met};

use crate::occurrences::{Unknown, same_variable};
use crate::types::Ty;
use std::alloc::{AllocError, Global};
use tla_values::{Boxed, List, Text, copy_text};

/// Both types with their variables numbered from 0 on, in the order in which they occur first, in `a` and then in `b`:
/// type variables and row variables in one count, so that no two of them are shown by one letter
/// ([`show_type`](crate::show_type)). Nothing else of the types changes.
///
/// More variables than a number of 32 bits tells are want of memory.
/// Source: the Apalache manual, "Type System 1.2".
pub fn renumbered(alloc: Global, a: &Ty, b: &Ty) -> Result<(Ty, Ty), AllocError>
    ensures { IfOk result (λ r. r ≡ numbered_together a.now b.now) }
{
    let known = variables(alloc, a, b)?;
    let first = numbered(alloc, a, &known)?;
    let second = numbered(alloc, b, &known)?;
    Ok((first, second))
}

/// The law that two types are the same, up to the numbers of their variables, when they are numbered together: the types
/// that come of it are theirs with the variables renamed, and with other names for the variables these are theirs again.
/// It does nothing.
pub fn renumbered_types_are_the_same()
    ensures there { (a b : AnyType) → RenamedTogether (a, b) (numbered_together a b) }
    ensures back { (a b : AnyType) → RenamedTogether (numbered_together a b) (a, b) }
{}

// The variables of both types, each once.
fn variables(alloc: Global, a: &Ty, b: &Ty) -> Result<Vec<Unknown>, AllocError>
    ensures { IfOk result (λ r. r.items ≡ each_once (occurring a.now ++ occurring b.now)) }
{
    let mut known = Vec::new(alloc);
    meet(a, &mut known)?;
    meet(b, &mut known)?;
    Ok(known)
}

// The variables of the type are known from now on.
#[tactic(auto, using(crate::proofs::NumberedForms::occurrences))]
#[cycle(meet)]
fn meet(t: &Ty, known: &mut Vec<Unknown>) -> Result<(), AllocError>
    ensures { OnOk result (known.new.items ≡ all_met known.old.items (occurring t.now)) }
{
    match t {
        Ty::Bool => Ok(()),
        Ty::Int => Ok(()),
        Ty::Str => Ok(()),
        Ty::Named(_) => Ok(()),
        Ty::Var(v) => note(Unknown::Type(*v), known),
        Ty::Set(a) => meet(a.get(), known),
        Ty::Seq(a) => meet(a.get(), known),
        Ty::Fun(a, b) => {
            meet(a.get(), known)?;
            meet(b.get(), known)?;
            Ok(())
        }
        Ty::Tup(ts) => meet_all(ts.as_slice(), known),
        Ty::Rec(fs, tail) => {
            meet_fields(fs.as_slice(), known)?;
            meet_end(*tail, known)?;
            Ok(())
        }
        Ty::Oper(ts, b) => {
            meet_all(ts.as_slice(), known)?;
            meet(b.get(), known)?;
            Ok(())
        }
    }
}

#[cycle(meet)]
fn meet_all(ts: &[Ty], known: &mut Vec<Unknown>) -> Result<(), AllocError>
    ensures { OnOk result (known.new.items ≡ all_met known.old.items (flat_map occurring ts.now)) }
{
    for t in ts {
        meet(t, known)?;
    }
    Ok(())
}

#[cycle(meet)]
fn meet_fields(fs: &[(Text, Ty)], known: &mut Vec<Unknown>) -> Result<(), AllocError>
    ensures { OnOk result
        (known.new.items ≡ all_met known.old.items (flat_map (λ f. occurring f.1) fs.now)) }
{
    for f in fs {
        meet(&f.1, known)?;
    }
    Ok(())
}

fn meet_end(tail: Option<u32>, known: &mut Vec<Unknown>) -> Result<(), AllocError>
    ensures { OnOk result (known.new.items ≡ all_met known.old.items (row_variable tail)) }
{
    match tail {
        Some(r) => note(Unknown::Row(r), known),
        None => Ok(()),
    }
}

#[tactic(auto, using(crate::proofs::MeetingSteps::met_new, crate::proofs::MeetingSteps::met_old))]
fn note(v: Unknown, known: &mut Vec<Unknown>) -> Result<(), AllocError>
    ensures { OnOk result (known.new.items ≡ met known.old.items v) }
{
    if place(v, known) == known.len() {
        known.push(v)?;
    }
    Ok(())
}

// Where the variable stands, or how many there are.
fn place(v: Unknown, known: &[Unknown]) -> usize
    ensures { result ≡ place_of v known.now }
{
    for i in 0..known.len() {
        if same_variable(known[i], v) {
            return i;
        }
    }
    known.len()
}

fn number(v: Unknown, known: &[Unknown]) -> Result<u32, AllocError>
    ensures { IfOk result (λ n. n ≡ place_of v known.now) }
{
    match u32::try_from(place(v, known)) {
        Ok(number) => Ok(number),
        Err(_) => Err(AllocError),
    }
}

// The type with the place of each variable for its number.
#[tactic(auto, using(crate::proofs::NumberedForms::numbers))]
#[cycle(numbered)]
fn numbered(alloc: Global, t: &Ty, known: &[Unknown]) -> Result<Ty, AllocError>
    ensures { IfOk result (λ r. r ≡ numbered_by known.now t.now) }
{
    match t {
        Ty::Bool => Ok(Ty::Bool),
        Ty::Int => Ok(Ty::Int),
        Ty::Str => Ok(Ty::Str),
        Ty::Named(name) => {
            let name = copy_text(alloc, name)?;
            Ok(Ty::Named(name))
        }
        Ty::Var(v) => {
            let place = number(Unknown::Type(*v), known)?;
            Ok(Ty::Var(place))
        }
        Ty::Set(a) => {
            let item = numbered(alloc, a.get(), known)?;
            Ok(Ty::Set(Boxed::new(alloc, item)?))
        }
        Ty::Seq(a) => {
            let item = numbered(alloc, a.get(), known)?;
            Ok(Ty::Seq(Boxed::new(alloc, item)?))
        }
        Ty::Fun(a, b) => {
            let argument = numbered(alloc, a.get(), known)?;
            let value = numbered(alloc, b.get(), known)?;
            Ok(Ty::Fun(Boxed::new(alloc, argument)?, Boxed::new(alloc, value)?))
        }
        Ty::Tup(ts) => {
            let items = all_numbered(alloc, ts.as_slice(), known)?;
            Ok(Ty::Tup(items))
        }
        Ty::Rec(fs, tail) => {
            let end = end_numbered(*tail, known)?;
            let fields = fields_numbered(alloc, fs.as_slice(), known)?;
            Ok(Ty::Rec(fields, end))
        }
        Ty::Oper(ts, b) => {
            let arguments = all_numbered(alloc, ts.as_slice(), known)?;
            let value = numbered(alloc, b.get(), known)?;
            Ok(Ty::Oper(arguments, Boxed::new(alloc, value)?))
        }
    }
}

#[cycle(numbered)]
fn all_numbered(alloc: Global, ts: &[Ty], known: &[Unknown]) -> Result<List<Ty>, AllocError>
    ensures { IfOk result (λ r. r ≡ map (numbered_by known.now) ts.now) }
{
    let mut items = Vec::new(alloc);
    for t in ts {
        let item = numbered(alloc, t, known)?;
        items.push(item)?;
    }
    Ok(List::from_vec(items))
}

#[cycle(numbered)]
fn fields_numbered(
    alloc: Global,
    fs: &[(Text, Ty)],
    known: &[Unknown],
) -> Result<List<(Text, Ty)>, AllocError>
    ensures { IfOk result (λ r. r ≡ map (λ f. (f.0, numbered_by known.now f.1)) fs.now) }
{
    let mut items = Vec::new(alloc);
    for f in fs {
        let name = copy_text(alloc, &f.0)?;
        let item = numbered(alloc, &f.1, known)?;
        items.push((name, item))?;
    }
    Ok(List::from_vec(items))
}

fn end_numbered(tail: Option<u32>, known: &[Unknown]) -> Result<Option<u32>, AllocError>
    ensures { IfOk result (λ k. k ≡ option_map (λ r. place_of (row_named r) known.now) tail) }
{
    match tail {
        Some(r) => {
            let place = number(Unknown::Row(r), known)?;
            Ok(Some(place))
        }
        None => Ok(None),
    }
}
