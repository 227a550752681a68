// Where variables stand.
ghost use Rattle.std.specs.Prelude.{ℕ, ◌≡◌, List as Items, map};
ghost use Rattle.std.specs.Bool.{MatchBool};
ghost use Rattle.snowcat_rows.specs.Types.{mean, row};
ghost use Rattle.snowcat_rows.specs.Chains.{Ends, Occurs, OccursSlot, Stands};
ghost use Rattle.snowcat_rows.specs.Codes.{has, variable};
ghost use Rattle.snowcat_rows.specs.Numbered.{same_variable};
ghost use Rattle.snowcat_rows.specs.Sorting.{Within};
ghost use Rattle.snowcat_rows.specs.inner.Below.{Below, EndBelow, FieldsBelow};

use crate::records::find;
use crate::types::Ty;
use tla_values::Text;

/// A variable of types or of rows.
#[derive(Clone, Copy, Drop)]
pub(crate) enum Unknown {
    Type(u32),
    Row(u32),
}

pub(crate) fn same_variable(v: Unknown, w: Unknown) -> bool
    ensures { result ≡ same_variable v w }
{
    match v {
        Unknown::Type(a) => match w {
            Unknown::Type(b) => a == b,
            Unknown::Row(_) => false,
        },
        Unknown::Row(a) => match w {
            Unknown::Type(_) => false,
            Unknown::Row(b) => a == b,
        },
    }
}

// Whether the variable stands in the type.
#[tactic(auto, using(crate::proofs::Means::means))]
#[cycle(occurs)]
pub(crate) fn occurs(x: Unknown, t: &Ty) -> bool
    ensures { MatchBool result (Occurs (variable x) (mean t.now)) (Occurs (variable x) (mean t.now) → ⊥) }
{
    match t {
        Ty::Bool => false,
        Ty::Int => false,
        Ty::Str => false,
        Ty::Named(_) => false,
        Ty::Var(w) => is_type(x, *w),
        Ty::Set(a) => occurs(x, a.get()),
        Ty::Seq(a) => occurs(x, a.get()),
        Ty::Fun(a, b) => occurs(x, a.get()) || occurs(x, b.get()),
        Ty::Tup(ts) => occurs_all(x, ts.as_slice()),
        Ty::Rec(fs, tail) => occurs_fields(x, fs.as_slice()) || is_end(x, *tail),
        Ty::Oper(ts, b) => occurs_all(x, ts.as_slice()) || occurs(x, b.get()),
    }
}

fn is_type(x: Unknown, w: u32) -> bool
    ensures { MatchBool result (Stands (variable x) w) (Stands (variable x) w → ⊥) }
{
    match x {
        Unknown::Type(v) => v == w,
        Unknown::Row(_) => false,
    }
}

pub(crate) fn is_end(x: Unknown, tail: Option<u32>) -> bool
    ensures { MatchBool result (Ends (variable x) tail) (Ends (variable x) tail → ⊥) }
{
    match x {
        Unknown::Type(_) => false,
        Unknown::Row(v) => match tail {
            Some(r) => r == v,
            None => false,
        },
    }
}

#[tactic(auto, using(crate::proofs::Means::means))]
#[cycle(occurs)]
fn occurs_all(x: Unknown, ts: &[Ty]) -> bool
    ensures { MatchBool result (Occurs (variable x) (row (map mean ts.now)))
        (Occurs (variable x) (row (map mean ts.now)) → ⊥) }
{
    for i in 0..ts.len() {
        if occurs(x, &ts[i]) {
            return true;
        }
    }
    false
}

#[tactic(auto, using(crate::proofs::Means::means))]
#[cycle(occurs)]
pub(crate) fn occurs_fields(x: Unknown, fs: &[(Text, Ty)]) -> bool
    ensures { MatchBool result ((n : Items ℕ) × OccursSlot (variable x) (has fs.now n))
        ((n : Items ℕ) → OccursSlot (variable x) (has fs.now n) → ⊥) }
{
    for f in fs {
        if let Some(i) = find(fs, &f.0) {
            if occurs(x, &fs[i].1) {
                return true;
            }
        }
    }
    false
}

/// Whether each variable of the type is numbered below the limit, as [`Subst::unify`](crate::Subst::unify) asks of the
/// number of issued variables.
pub fn is_within(t: &Ty, limit: u32) -> bool
    ensures { MatchBool result (Within limit (mean t.now)) (Within limit (mean t.now) → ⊥) }
{
    is_below(t, limit)
}

#[tactic(auto, using(crate::proofs::Means::means))]
#[cycle(below)]
fn is_below(t: &Ty, limit: u32) -> bool
    ensures { MatchBool result (Below limit (mean t.now)) (Below limit (mean t.now) → ⊥) }
{
    match t {
        Ty::Bool => true,
        Ty::Int => true,
        Ty::Str => true,
        Ty::Named(_) => true,
        Ty::Var(w) => *w < limit,
        Ty::Set(a) => is_below(a.get(), limit),
        Ty::Seq(a) => is_below(a.get(), limit),
        Ty::Fun(a, b) => is_below(a.get(), limit) && is_below(b.get(), limit),
        Ty::Tup(ts) => are_below(ts.as_slice(), limit),
        Ty::Rec(fs, tail) => fields_below(fs.as_slice(), limit) && is_end_below(*tail, limit),
        Ty::Oper(ts, b) => are_below(ts.as_slice(), limit) && is_below(b.get(), limit),
    }
}

fn is_end_below(tail: Option<u32>, limit: u32) -> bool
    ensures { MatchBool result (EndBelow limit tail) (EndBelow limit tail → ⊥) }
{
    match tail {
        Some(r) => r < limit,
        None => true,
    }
}

#[tactic(auto, using(crate::proofs::Means::means))]
#[cycle(below)]
fn are_below(ts: &[Ty], limit: u32) -> bool
    ensures { MatchBool result (Below limit (row (map mean ts.now)))
        (Below limit (row (map mean ts.now)) → ⊥) }
{
    for i in 0..ts.len() {
        if !is_below(&ts[i], limit) {
            return false;
        }
    }
    true
}

#[tactic(auto, using(crate::proofs::Means::means))]
#[cycle(below)]
fn fields_below(fs: &[(Text, Ty)], limit: u32) -> bool
    ensures { MatchBool result (FieldsBelow limit (has fs.now)) (FieldsBelow limit (has fs.now) → ⊥) }
{
    for f in fs {
        if let Some(i) = find(fs, &f.0) {
            if !is_below(&fs[i].1, limit) {
                return false;
            }
        }
    }
    true
}
