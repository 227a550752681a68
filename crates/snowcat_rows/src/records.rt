// Fields of records by their names.
ghost use Rattle.std.specs.Prelude.{ℕ, ◌≡◌, ◌<◌, List as Items, IfOk, MatchOption, get_or, length, true};
ghost use Rattle.std.specs.Bool.{MatchBool};
ghost use Rattle.std.specs.List.{list_all};
ghost use Rattle.snowcat_rows.specs.Types.{mean, none, some};
ghost use Rattle.snowcat_rows.specs.Codes.{has};
ghost use Rattle.snowcat_rows.specs.FieldNames.{names, names_differ};
ghost use Rattle.snowcat_rows.specs.TypeTexts.{are_distinct};
ghost use Rattle.snowcat_rows.specs.inner.Naming.{fields_named, record_named};
ghost use Rattle.snowcat_rows.specs.inner.Rounds.{Covers, Lacks, SameNames, only};

use crate::types::{Ty, copy_type};
use std::alloc::{AllocError, Global};
use tla_values::{Text, copy_text, same_text};

// The number of the first field of that name.
pub(crate) fn find(fs: &[(Text, Ty)], name: &Text) -> Option<usize>
    ensures { MatchOption result (has fs.now name.now ≡ none)
        (λ i. (i < length fs.now) × ((d : Items ℕ × Ty) →
        has fs.now name.now ≡ some (mean (get_or fs.now i d).1))) }
{
    for i in 0..fs.len() {
        if same_text(&fs[i].0, name) {
            return Some(i);
        }
    }
    None
}

// Whether the first record has each name of the second.
pub(crate) fn covers(fs: &[(Text, Ty)], gs: &[(Text, Ty)]) -> bool
    ensures { MatchBool result (Covers (has fs.now) (has gs.now))
        (Lacks (has fs.now) (has gs.now)) }
{
    for g in gs {
        if find(fs, &g.0).is_none() {
            return false;
        }
    }
    true
}

// The fields of the first record whose names the second lacks.
pub(crate) fn missing(
    alloc: Global,
    fs: &[(Text, Ty)],
    gs: &[(Text, Ty)],
) -> Result<Vec<(Text, Ty)>, AllocError>
    ensures has { IfOk result (λ r. (n : Items ℕ) → has r.items n ≡ only (has fs.now n) (has gs.now n)) }
    ensures named { record_named fs.now ≡ true → IfOk result (λ r. record_named r.items ≡ true) }
{
    let mut items = Vec::new(alloc);
    for f in fs {
        if find(gs, &f.0).is_none() {
            let name = copy_text(alloc, &f.0)?;
            let item = copy_type(alloc, &f.1)?;
            items.push((name, item))?;
        }
    }
    Ok(items)
}

// Whether the records have the same names and end alike.
#[tactic(auto, using(crate::proofs::Fields::not_covered))]
pub(crate) fn is_alike(fs: &[(Text, Ty)], k: Option<u32>, gs: &[(Text, Ty)], j: Option<u32>) -> bool
    ensures { MatchBool result (SameNames (has fs.now) (has gs.now) × (k ≡ j))
        (SameNames (has fs.now) (has gs.now) × (k ≡ j) → ⊥) }
{
    covers(gs, fs) && covers(fs, gs) && is_same_end(k, j)
}

pub(crate) fn is_same_end(k: Option<u32>, j: Option<u32>) -> bool
    ensures { MatchBool result (k ≡ j) (k ≡ j → ⊥) }
{
    match k {
        Some(r) => match j {
            Some(q) => r == q,
            None => false,
        },
        None => j.is_none(),
    }
}

// Whether the names of the fields differ.
fn are_distinct(fs: &[(Text, Ty)]) -> bool
    ensures { result ≡ are_distinct (names fs.now) }
{
    for i in 0..fs.len() {
        if find(&fs[i + 1..], &fs[i].0).is_some() {
            return false;
        }
    }
    true
}

/// Whether in each record of the type the field names differ, as [`Subst::unify`](crate::Subst::unify) asks.
#[tactic(auto, using(crate::proofs::Naming::differs))]
#[cycle(distinct)]
pub fn has_distinct_names(t: &Ty) -> bool
    ensures { result ≡ names_differ t.now }
{
    match t {
        Ty::Bool => true,
        Ty::Int => true,
        Ty::Str => true,
        Ty::Named(_) => true,
        Ty::Var(_) => true,
        Ty::Set(a) => has_distinct_names(a.get()),
        Ty::Seq(a) => has_distinct_names(a.get()),
        Ty::Fun(a, b) => has_distinct_names(a.get()) && has_distinct_names(b.get()),
        Ty::Tup(ts) => all_distinct(ts.as_slice()),
        Ty::Rec(fs, _) => are_distinct(fs.as_slice()) && fields_distinct(fs.as_slice()),
        Ty::Oper(ts, b) => all_distinct(ts.as_slice()) && has_distinct_names(b.get()),
    }
}

#[tactic(auto, using(crate::proofs::Naming::differs))]
#[cycle(distinct)]
fn all_distinct(ts: &[Ty]) -> bool
    ensures { result ≡ list_all names_differ ts.now }
{
    for i in 0..ts.len() {
        if !has_distinct_names(&ts[i]) {
            return false;
        }
    }
    true
}

#[tactic(auto, using(crate::proofs::Naming::differs))]
#[cycle(distinct)]
fn fields_distinct(fs: &[(Text, Ty)]) -> bool
    ensures { result ≡ fields_named fs.now }
{
    for i in 0..fs.len() {
        if !has_distinct_names(&fs[i].1) {
            return false;
        }
    }
    true
}
