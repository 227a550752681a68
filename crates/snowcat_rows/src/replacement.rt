// Types once variables are replaced by what they are bound to.
ghost use Rattle.std.specs.Prelude.{◌≡◌, IfOk, IfSome, MatchOption, map, true};
ghost use Rattle.std.specs.List.{list_all};
ghost use Rattle.snowcat_rows.specs.Types.{fields as record_of, mean, row, var};
ghost use Rattle.snowcat_rows.specs.Substitutions.{apply, same_sub};
ghost use Rattle.snowcat_rows.specs.Chains.{solved};
ghost use Rattle.snowcat_rows.specs.Codes.{binding, bindings_of, changed, followed, has, named};
ghost use Rattle.snowcat_rows.specs.FieldNames.{names as names_of, names_differ};
ghost use Rattle.snowcat_rows.specs.inner.Naming.{all_bound_named, bound_named, fields_named, record_named};
ghost use Rattle.snowcat_rows.specs.inner.Places.{Indexed};
ghost use Rattle.snowcat_rows.specs.inner.Lookups.{looked, row_at, type_at};
ghost use Rattle.snowcat_rows.specs.inner.Rounds.{row_of};
ghost use Rattle.snowcat_rows.specs.inner.Settling.{under};

use crate::bindings::{Bound, bound_by};
use crate::limits::{are_small, is_small};
use crate::occurrences::{Unknown, occurs};
use crate::places::Places;
use crate::records::find;
use crate::types::{Ty, copy_type};
use std::alloc::{AllocError, Global};
use tla_values::{Boxed, List, Text, copy_text};

// What the variable is bound to.
pub(crate) fn type_bound<'a>(bindings: &'a [Bound], places: &Places, v: u32) -> Option<&'a Ty>
    requires { Indexed places.now bindings.now }
    ensures mean { MatchOption result (type_at (bindings_of bindings.now) v ≡ var v)
        (λ t. type_at (bindings_of bindings.now) v ≡ mean t.now) }
    ensures named { all_bound_named bindings.now ≡ true → IfSome result (λ t. names_differ t.now ≡ true) }
{
    match bindings.get(places.of(Unknown::Type(v))) {
        Some(Bound::Type(w, t)) => { if *w == v { Some(t) } else { None } }
        Some(Bound::Row(_, _, _)) => None,
        None => None,
    }
}

// The fields that the row variable is bound to, and what follows them.
fn row_bound<'a>(
    bindings: &'a [Bound],
    places: &Places,
    r: u32,
) -> Option<(&'a [(Text, Ty)], Option<u32>)>
    requires { Indexed places.now bindings.now }
    ensures mean { MatchOption result (row_at (bindings_of bindings.now) r ≡ same_sub.row_of r)
        (λ w. row_at (bindings_of bindings.now) r ≡ row_of (has w.0.now) w.1) }
    ensures named { all_bound_named bindings.now ≡ true → IfSome result (λ w. record_named w.0.now ≡ true) }
{
    match bindings.get(places.of(Unknown::Row(r))) {
        Some(Bound::Row(q, fields, tail)) => {
            if *q == r {
                Some((fields.as_slice(), *tail))
            } else {
                None
            }
        }
        Some(Bound::Type(_, _)) => None,
        None => None,
    }
}

// The type with each variable replaced once.
#[tactic(auto, using(crate::proofs::Means::means, crate::proofs::Naming::differs))]
#[cycle(replace)]
fn replace(alloc: Global, t: &Ty, bindings: &[Bound], places: &Places) -> Result<Ty, AllocError>
    requires { Indexed places.now bindings.now }
    ensures mean { IfOk result (λ r. mean r ≡ apply (looked (bindings_of bindings.now)) (mean t.now)) }
    ensures named { all_bound_named bindings.now ≡ true → names_differ t.now ≡ true
        → IfOk result (λ r. names_differ r ≡ true) }
{
    match t {
        Ty::Bool => Ok(Ty::Bool),
        Ty::Int => Ok(Ty::Int),
        Ty::Str => Ok(Ty::Str),
        Ty::Named(name) => {
            let name = copy_text(alloc, name)?;
            Ok(Ty::Named(name))
        }
        Ty::Var(w) => match type_bound(bindings, places, *w) {
            Some(s) => copy_type(alloc, s),
            None => Ok(Ty::Var(*w)),
        },
        Ty::Set(a) => {
            let item = replace(alloc, a.get(), bindings, places)?;
            Ok(Ty::Set(Boxed::new(alloc, item)?))
        }
        Ty::Seq(a) => {
            let item = replace(alloc, a.get(), bindings, places)?;
            Ok(Ty::Seq(Boxed::new(alloc, item)?))
        }
        Ty::Fun(x, y) => {
            let argument = replace(alloc, x.get(), bindings, places)?;
            let value = replace(alloc, y.get(), bindings, places)?;
            Ok(Ty::Fun(Boxed::new(alloc, argument)?, Boxed::new(alloc, value)?))
        }
        Ty::Tup(ts) => {
            let items = replace_all(alloc, ts.as_slice(), bindings, places)?;
            Ok(Ty::Tup(items))
        }
        Ty::Rec(fs, tail) => {
            let fields = replace_fields(alloc, fs.as_slice(), bindings, places)?;
            let whole = follow(alloc, fields, *tail, bindings, places)?;
            Ok(Ty::Rec(whole.0, whole.1))
        }
        Ty::Oper(ts, y) => {
            let arguments = replace_all(alloc, ts.as_slice(), bindings, places)?;
            let value = replace(alloc, y.get(), bindings, places)?;
            Ok(Ty::Oper(arguments, Boxed::new(alloc, value)?))
        }
    }
}

#[tactic(auto, using(crate::proofs::Means::means, crate::proofs::Naming::differs))]
#[cycle(replace)]
fn replace_all(
    alloc: Global,
    ts: &[Ty],
    bindings: &[Bound],
    places: &Places,
) -> Result<List<Ty>, AllocError>
    requires { Indexed places.now bindings.now }
    ensures mean { IfOk result (λ r. row (map mean r) ≡ apply (looked (bindings_of bindings.now)) (row (map mean ts.now))) }
    ensures named { all_bound_named bindings.now ≡ true → list_all names_differ ts.now ≡ true
        → IfOk result (λ r. list_all names_differ r ≡ true) }
{
    let mut items = Vec::new(alloc);
    for t in ts {
        let item = replace(alloc, t, bindings, places)?;
        items.push(item)?;
    }
    Ok(List::from_vec(items))
}

#[tactic(auto, using(crate::proofs::Means::means, crate::proofs::Naming::differs))]
#[cycle(replace)]
pub(crate) fn replace_fields(
    alloc: Global,
    fs: &[(Text, Ty)],
    bindings: &[Bound],
    places: &Places,
) -> Result<Vec<(Text, Ty)>, AllocError>
    requires { Indexed places.now bindings.now }
    ensures mean { IfOk result (λ r. named r.items ≡ changed (looked (bindings_of bindings.now)) fs.now) }
    ensures names { IfOk result (λ r. names_of r.items ≡ names_of fs.now) }
    ensures named { all_bound_named bindings.now ≡ true → fields_named fs.now ≡ true
        → IfOk result (λ r. fields_named r.items ≡ true) }
{
    let mut items = Vec::new(alloc);
    for f in fs {
        let name = copy_text(alloc, &f.0)?;
        let item = replace(alloc, &f.1, bindings, places)?;
        items.push((name, item))?;
    }
    Ok(items)
}

// Fields that were changed, followed by what their row variable stands for, and what follows then. The first field of
// a name counts, so that no name comes twice.
fn follow(
    alloc: Global,
    fields: Vec<(Text, Ty)>,
    tail: Option<u32>,
    bindings: &[Bound],
    places: &Places,
) -> Result<(List<(Text, Ty)>, Option<u32>), AllocError>
    requires { Indexed places.now bindings.now }
    ensures mean { IfOk result (λ r. record_of (has r.0) r.1
        ≡ followed (named fields.items) (looked (bindings_of bindings.now)) tail) }
    ensures named { all_bound_named bindings.now ≡ true → record_named fields.items ≡ true
        → IfOk result (λ r. record_named r.0 ≡ true) }
{
    let mut fields = fields;
    match tail {
        None => Ok((List::from_vec(fields), None)),
        Some(q) => match row_bound(bindings, places, q) {
            None => Ok((List::from_vec(fields), Some(q))),
            Some((rest, end)) => {
                for g in rest {
                    if find(fields.as_slice(), &g.0).is_none() {
                        let name = copy_text(alloc, &g.0)?;
                        let item = copy_type(alloc, &g.1)?;
                        fields.push((name, item))?;
                    }
                }
                Ok((List::from_vec(fields), end))
            }
        },
    }
}

// The type with each variable replaced once; one that is too large then is want of memory.
pub(crate) fn replace_within(
    alloc: Global,
    t: &Ty,
    bindings: &[Bound],
    places: &Places,
) -> Result<Ty, AllocError>
    requires { Indexed places.now bindings.now }
    ensures mean { IfOk result (λ r. mean r ≡ apply (looked (bindings_of bindings.now)) (mean t.now)) }
    ensures named { all_bound_named bindings.now ≡ true → names_differ t.now ≡ true
        → IfOk result (λ r. names_differ r ≡ true) }
{
    let whole = replace(alloc, t, bindings, places)?;
    if is_small(&whole) {
        Ok(whole)
    } else {
        Err(AllocError)
    }
}

// The binding with each variable of what it binds replaced once; one that is too large then is want of memory.
pub(crate) fn replace_bound(
    alloc: Global,
    b: &Bound,
    bindings: &[Bound],
    places: &Places,
) -> Result<Bound, AllocError>
    requires { Indexed places.now bindings.now }
    ensures mean { IfOk result (λ r. binding r ≡ under (looked (bindings_of bindings.now)) (binding b.now)) }
    ensures named { all_bound_named bindings.now ≡ true → bound_named b.now ≡ true
        → IfOk result (λ r. bound_named r ≡ true) }
{
    match b {
        Bound::Type(v, t) => {
            let whole = replace_within(alloc, t, bindings, places)?;
            Ok(Bound::Type(*v, whole))
        }
        Bound::Row(r, fs, tail) => {
            let fields = replace_fields(alloc, fs.as_slice(), bindings, places)?;
            let whole = follow(alloc, fields, *tail, bindings, places)?;
            if are_small(whole.0.as_slice()) {
                Ok(Bound::Row(*r, whole.0, whole.1))
            } else {
                Err(AllocError)
            }
        }
    }
}

// The type once each of the bindings is put in place, one after the other.
pub(crate) fn put_all(alloc: Global, t: &Ty, bindings: &[Bound]) -> Result<Ty, AllocError>
    ensures mean { IfOk result (λ r. mean r ≡ solved (bindings_of bindings.now) (mean t.now)) }
    ensures named { all_bound_named bindings.now ≡ true → names_differ t.now ≡ true
        → IfOk result (λ r. names_differ r ≡ true) }
{
    let places = Places::new(alloc);
    let mut current = copy_type(alloc, t)?;
    for i in 0..bindings.len() {
        if occurs(bound_by(&bindings[i]), &current) {
            current = replace_within(alloc, &current, &bindings[i..i + 1], &places)?;
        }
    }
    Ok(current)
}
