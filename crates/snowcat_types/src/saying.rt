// What the text of an annotation says.
ghost use Rattle.std.specs.Bool.{MatchBool};
ghost use Rattle.std.specs.List.{list_all};
ghost use Rattle.std.specs.Prelude.{◌≡◌, [], IfOk, IfSome, MatchOption, map, option_map, true};
ghost use Rattle.snowcat_rows.specs.FieldNames.{names_differ};
ghost use Rattle.snowcat_rows.specs.Operators.{HasNoOperator};
ghost use Rattle.snowcat_rows.specs.Readings.{Knows};
ghost use Rattle.snowcat_rows.specs.Types.{mean, row};
ghost use Rattle.snowcat_rows.specs.Views.{known_by};
ghost use Rattle.snowcat_types.specs.Annotated.{Aliases as Named, Binds, OperatorAtRootAlone, nth_of, part_of};
ghost use Rattle.snowcat_types.specs.inner.Gathered.{IsNamed, NoteNamed};
ghost use Rattle.snowcat_types.specs.inner.Telling.{IsNameRead, IsRead, IsSaid};

use crate::notes::annotation_of;
use crate::numbered::split;
use snowcat_rows::{Aliases, Ty, TypeTextFault, has_no_operator, is_within};
use std::alloc::{AllocError, Global};
use tla_meaning::Decl;
use tla_values::List;

// The type of a text, with the number of its variables; `None` where it says none.
fn read(alloc: Global, aliases: &Aliases, text: &[u8]) -> Result<Option<(Ty, u32)>, AllocError>
    ensures { (al : Named) → Knows [] al (known_by aliases.now) → IfOk result (IsRead al text.now) }
{
    match aliases.read(alloc, text) {
        Ok(read) => Ok(Some(read)),
        Err(TypeTextFault::BadType(_)) => Ok(None),
        Err(TypeTextFault::UnknownAlias(_name)) => Ok(None),
        Err(TypeTextFault::Memory(fault)) => Err(fault),
    }
}

// A type that may be a name's.
fn without_operator(read: (Ty, u32)) -> Option<(Ty, u32)>
    ensures { MatchOption result (HasNoOperator (mean read.0) → ⊥)
        (λ r. (r ≡ read) × HasNoOperator (mean read.0)) }
{
    if has_no_operator(&read.0) {
        Some(read)
    } else {
        None
    }
}

/// The type of the declared name by its annotation, with the number of its variables; `None` where it has none, or
/// where this is no type for a name.
pub fn name_type(
    alloc: Global,
    aliases: &Aliases,
    decl: &Decl,
) -> Result<Option<(Ty, u32)>, AllocError>
    ensures { (al : Named) → Knows [] al (known_by aliases.now)
        → IfOk result (IsNameRead al decl.now) }
{
    let Some(text) = annotation_of(decl.note.bytes()) else {
        return Ok(None);
    };
    match read(alloc, aliases, text)? {
        Some(read) => Ok(without_operator(read)),
        None => Ok(None),
    }
}

// ---- definitions

#[tactic(auto, using(snowcat_rows::proofs::Means::means))]
fn have_no_operator(ts: &[Ty]) -> bool
    ensures { MatchBool result (HasNoOperator (row (map mean ts.now)))
        (HasNoOperator (row (map mean ts.now)) → ⊥) }
{
    for i in 0..ts.len() {
        if !has_no_operator(&ts[i]) {
            return false;
        }
    }
    true
}

// Whether an operator type stands in it as the whole alone.
#[tactic(auto, using(snowcat_rows::proofs::Means::means))]
fn is_whole(t: &Ty) -> bool
    ensures { MatchBool result (OperatorAtRootAlone (mean t.now))
        (OperatorAtRootAlone (mean t.now) → ⊥) }
{
    match t {
        Ty::Oper(ts, b) => have_no_operator(ts.as_slice()) && has_no_operator(b.get()),
        _ => has_no_operator(t),
    }
}

// The item of that number from 0.
fn nth_of(ts: List<Ty>, i: usize) -> Option<Ty>
    ensures item { option_map mean result ≡ nth_of (row (map mean ts)) i }
    ensures named { list_all names_differ ts ≡ true → NoteNamed result }
{
    let mut items = ts.into_vec();
    if i < items.len() {
        Some(items.remove(i))
    } else {
        None
    }
}

// What a definition's type says of its result, 0, or of an argument, from 1.
#[tactic(auto, using(snowcat_rows::proofs::Means::means))]
fn part_of(number: usize, t: Ty) -> Option<Ty>
    ensures part { option_map mean result ≡ part_of number (mean t) }
    ensures named { IsNamed t → NoteNamed result }
{
    match t {
        Ty::Oper(ts, b) => {
            if number > 0 {
                nth_of(ts, number - 1)
            } else {
                Some(b.into_inner())
            }
        }
        t => { if number > 0 { None } else { Some(t) } }
    }
}

// What a definition's type binds there: a type with variables binds nothing.
fn bound_by(number: usize, t: Ty) -> Option<Ty>
    ensures binds { Binds number (mean t) (option_map mean result) }
    ensures named { IsNamed t → NoteNamed result }
{
    if is_within(&t, 0) {
        part_of(number, t)
    } else {
        None
    }
}

// What a definition's type binds there; `None` where an operator type stands within it.
fn bound_by_whole(number: usize, t: Ty) -> Option<Option<Ty>>
    ensures binds { MatchOption result (OperatorAtRootAlone (mean t) → ⊥)
        (λ o. OperatorAtRootAlone (mean t) × Binds number (mean t) (option_map mean o)) }
    ensures named { IsNamed t → IfSome result NoteNamed }
{
    if is_whole(&t) {
        Some(bound_by(number, t))
    } else {
        None
    }
}

/// What the text of a note binds, if it binds anything; `None` where it is no type.
pub fn said(alloc: Global, aliases: &Aliases, text: &[u8]) -> Result<Option<Option<Ty>>, AllocError>
    ensures { (al : Named) → Knows [] al (known_by aliases.now) → IfOk result (IsSaid al text.now) }
{
    let Some((number, annotation)) = split(alloc, text)? else {
        return Ok(None);
    };
    match read(alloc, aliases, annotation)? {
        Some(read) => Ok(bound_by_whole(number, read.0)),
        None => Ok(None),
    }
}
