// Bindings of variables, and those that make two types more alike.
ghost use Rattle.std.specs.Prelude.{◌≡◌, ◌++◌, ◌∷◌, [], IfOk, OnOk, true};
ghost use Rattle.std.specs.Bool.{MatchBool};
ghost use Rattle.snowcat_rows.specs.Types.{fields, mean, var};
ghost use Rattle.snowcat_rows.specs.Chains.{Occurs, OccursRow, key, row_var, to_row, to_type, type_var};
ghost use Rattle.snowcat_rows.specs.Codes.{Begins, binding, bindings_of, has, variable};
ghost use Rattle.snowcat_rows.specs.FieldNames.{names_differ};
ghost use Rattle.snowcat_rows.specs.inner.Naming.{all_bound_named, record_named};
ghost use Rattle.snowcat_rows.specs.FirstDifferences.{Common};
ghost use Rattle.snowcat_rows.specs.inner.Rounds.{Advances, BothBound, Lacks, NoneBound, Stuck, Unlike, row_of};

use crate::occurrences::{Unknown, is_end, occurs, occurs_fields};
use crate::places::Places;
use crate::records::{covers, is_same_end, missing};
use crate::replacement::replace_fields;
use crate::types::{Ty, copy_type};
use std::alloc::{AllocError, Global};
use tla_values::{List, Text};

/// What a variable stands for.
#[derive(Drop)]
pub(crate) enum Bound {
    Type(u32, Ty),
    Row(u32, List<(Text, Ty)>, Option<u32>),
}

// The variable that is bound.
pub(crate) fn bound_by(b: &Bound) -> Unknown
    ensures { variable result ≡ key (binding b.now) }
{
    match b {
        Bound::Type(v, _) => Unknown::Type(*v),
        Bound::Row(r, _, _) => Unknown::Row(*r),
    }
}

// Binds a type variable, unless it stands in the type.
fn bind_type(alloc: Global, bindings: &mut Vec<Bound>, v: u32, t: &Ty) -> Result<bool, AllocError>
    ensures prefix { Begins bindings.old.items bindings.new.items }
    ensures ok { IfOk result (λ b. MatchBool b
        ((Occurs (type_var v) (mean t.now) → ⊥)
        × (bindings_of bindings.new.items ≡ bindings_of bindings.old.items ++ to_type v (mean t.now) ∷ []))
        (Occurs (type_var v) (mean t.now))) }
    ensures named { all_bound_named bindings.old.items ≡ true → names_differ t.now ≡ true
        → OnOk result (all_bound_named bindings.new.items ≡ true) }
{
    if occurs(Unknown::Type(v), t) {
        return Ok(false);
    }
    let copy = copy_type(alloc, t)?;
    bindings.push(Bound::Type(v, copy))?;
    Ok(true)
}

// Binds the variable that the first type is, or the second type where it is a variable that was issued later: so what
// many variables are made equal to stays one step away from each.
fn bind_later(
    alloc: Global,
    issued: u32,
    bindings: &mut Vec<Bound>,
    v: u32,
    x: &Ty,
    y: &Ty,
) -> Result<bool, AllocError>
    requires first { mean x.now ≡ var v }
    requires unequal { mean x.now ≡ mean y.now → ⊥ }
    ensures prefix { Begins bindings.old.items bindings.new.items }
    ensures ok { IfOk result (λ b. MatchBool b
        (Advances (mean x.now) (mean y.now) issued
        (bindings_of bindings.old.items) (bindings_of bindings.new.items) issued)
        (Stuck (mean x.now) (mean y.now) issued)) }
    ensures named { all_bound_named bindings.old.items ≡ true → names_differ x.now ≡ true → names_differ y.now ≡ true
        → OnOk result (all_bound_named bindings.new.items ≡ true) }
{
    if let Ty::Var(w) = y {
        if v < *w {
            let other = bind_type(alloc, bindings, *w, x)?;
            return Ok(other);
        }
    }
    let bound = bind_type(alloc, bindings, v, y)?;
    Ok(bound)
}

// Binds a row variable, unless it stands in the fields or behind them.
fn bind_row(
    bindings: &mut Vec<Bound>,
    r: u32,
    fields: Vec<(Text, Ty)>,
    tail: Option<u32>,
) -> Result<bool, AllocError>
    ensures prefix { Begins bindings.old.items bindings.new.items }
    ensures ok { IfOk result (λ b. MatchBool b
        ((OccursRow (row_var r) (row_of (has fields.items) tail) → ⊥)
        × (bindings_of bindings.new.items
        ≡ bindings_of bindings.old.items ++ to_row r (row_of (has fields.items) tail) ∷ []))
        (OccursRow (row_var r) (row_of (has fields.items) tail))) }
    ensures named { all_bound_named bindings.old.items ≡ true → record_named fields.items ≡ true
        → OnOk result (all_bound_named bindings.new.items ≡ true) }
{
    if occurs_fields(Unknown::Row(r), fields.as_slice()) || is_end(Unknown::Row(r), tail) {
        return Ok(false);
    }
    bindings.push(Bound::Row(r, List::from_vec(fields), tail))?;
    Ok(true)
}

// Binds the row variables of two records that each lack names of the other, by a new one.
fn bind_both(
    alloc: Global,
    issued: u32,
    bindings: &mut Vec<Bound>,
    r: u32,
    left: Vec<(Text, Ty)>,
    q: u32,
    right: Vec<(Text, Ty)>,
) -> Result<bool, AllocError>
    ensures prefix { Begins bindings.old.items bindings.new.items }
    ensures ok { IfOk result (λ b. MatchBool b
        (BothBound r (has left.items) q (has right.items) issued
        (bindings_of bindings.old.items) (bindings_of bindings.new.items))
        (NoneBound r (has left.items) q (has right.items) issued)) }
    ensures named { all_bound_named bindings.old.items ≡ true → record_named left.items ≡ true → record_named right.items ≡ true
        → OnOk result (all_bound_named bindings.new.items ≡ true) }
{
    if occurs_fields(Unknown::Row(r), left.as_slice()) {
        return Ok(false);
    }
    let mark = bindings.len();
    bindings.push(Bound::Row(r, List::from_vec(left), Some(issued)))?;
    let places = Places::new(alloc);
    let replaced = replace_fields(alloc, right.as_slice(), &bindings[mark..], &places)?;
    if occurs_fields(Unknown::Row(q), replaced.as_slice()) {
        return Ok(false);
    }
    bindings.push(Bound::Row(q, List::from_vec(replaced), Some(issued)))?;
    Ok(true)
}

// Binds the row variables of two records that each lack names of the other, by a new one where one is left.
fn advance_both(
    alloc: Global,
    issued: &mut u32,
    bindings: &mut Vec<Bound>,
    fs: &[(Text, Ty)],
    r: u32,
    gs: &[(Text, Ty)],
    q: u32,
) -> Result<bool, AllocError>
    requires apart { r ≡ q → ⊥ }
    requires left { Lacks (has fs.now) (has gs.now) }
    requires right { Lacks (has gs.now) (has fs.now) }
    ensures prefix { Begins bindings.old.items bindings.new.items }
    ensures ok { IfOk result (λ b. MatchBool b
        (Advances (fields (has fs.now) (Some r)) (fields (has gs.now) (Some q)) issued.old
        (bindings_of bindings.old.items) (bindings_of bindings.new.items) issued.new)
        (Stuck (fields (has fs.now) (Some r)) (fields (has gs.now) (Some q)) issued.old)) }
    ensures named { all_bound_named bindings.old.items ≡ true → record_named fs.now ≡ true → record_named gs.now ≡ true
        → OnOk result (all_bound_named bindings.new.items ≡ true) }
{
    if *issued == 4294967295 {
        return Err(AllocError);
    }
    let m = *issued;
    let left = missing(alloc, gs, fs)?;
    let right = missing(alloc, fs, gs)?;
    let bound = bind_both(alloc, m, bindings, r, left, q, right)?;
    if bound {
        *issued = m + 1;
    }
    Ok(bound)
}

// Binds row variables of two records that agree where both have a name, unless nothing makes them equal.
fn advance_rows(
    alloc: Global,
    issued: &mut u32,
    bindings: &mut Vec<Bound>,
    fs: &[(Text, Ty)],
    k: Option<u32>,
    gs: &[(Text, Ty)],
    j: Option<u32>,
) -> Result<bool, AllocError>
    requires common { Common (has fs.now) (has gs.now) }
    requires unequal { fields (has fs.now) k ≡ fields (has gs.now) j → ⊥ }
    ensures prefix { Begins bindings.old.items bindings.new.items }
    ensures ok { IfOk result (λ b. MatchBool b
        (Advances (fields (has fs.now) k) (fields (has gs.now) j) issued.old
        (bindings_of bindings.old.items) (bindings_of bindings.new.items) issued.new)
        (Stuck (fields (has fs.now) k) (fields (has gs.now) j) issued.old)) }
    ensures named { all_bound_named bindings.old.items ≡ true → record_named fs.now ≡ true → record_named gs.now ≡ true
        → OnOk result (all_bound_named bindings.new.items ≡ true) }
{
    if is_same_end(k, j) {
        return Ok(false);
    }
    if covers(fs, gs) {
        match j {
            Some(q) => {
                let right = missing(alloc, fs, gs)?;
                let bound = bind_row(bindings, q, right, k)?;
                Ok(bound)
            }
            None => match k {
                Some(r) => {
                    if covers(gs, fs) {
                        let left = missing(alloc, gs, fs)?;
                        let bound = bind_row(bindings, r, left, j)?;
                        Ok(bound)
                    } else {
                        Ok(false)
                    }
                }
                None => Ok(false),
            },
        }
    } else {
        match k {
            None => Ok(false),
            Some(r) => {
                if covers(gs, fs) {
                    let left = missing(alloc, gs, fs)?;
                    let bound = bind_row(bindings, r, left, j)?;
                    Ok(bound)
                } else {
                    match j {
                        None => Ok(false),
                        Some(q) => {
                            let bound = advance_both(alloc, issued, bindings, fs, r, gs, q)?;
                            Ok(bound)
                        }
                    }
                }
            }
        }
    }
}

// Binds a variable of two types that differ at once, unless nothing makes them equal.
pub(crate) fn advance(
    alloc: Global,
    issued: &mut u32,
    bindings: &mut Vec<Bound>,
    x: &Ty,
    y: &Ty,
) -> Result<bool, AllocError>
    requires { Unlike (mean x.now) (mean y.now) }
    ensures prefix { Begins bindings.old.items bindings.new.items }
    ensures ok { IfOk result (λ b. MatchBool b
        (Advances (mean x.now) (mean y.now) issued.old
        (bindings_of bindings.old.items) (bindings_of bindings.new.items) issued.new)
        (Stuck (mean x.now) (mean y.now) issued.old)) }
    ensures named { all_bound_named bindings.old.items ≡ true → names_differ x.now ≡ true → names_differ y.now ≡ true
        → OnOk result (all_bound_named bindings.new.items ≡ true) }
{
    match x {
        Ty::Var(v) => {
            let bound = bind_later(alloc, *issued, bindings, *v, x, y)?;
            Ok(bound)
        }
        _ => match y {
            Ty::Var(w) => {
                let bound = bind_type(alloc, bindings, *w, x)?;
                Ok(bound)
            }
            _ => match x {
                Ty::Rec(fs, k) => match y {
                    Ty::Rec(gs, j) => {
                        let bound = advance_rows(
                            alloc,
                            issued,
                            bindings,
                            fs.as_slice(),
                            *k,
                            gs.as_slice(),
                            *j,
                        )?;
                        Ok(bound)
                    }
                    _ => Ok(false),
                },
                _ => Ok(false),
            },
        },
    }
}
