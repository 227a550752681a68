// Where two types differ.
ghost use Rattle.std.specs.Prelude.{◌≡◌, IfSome, MatchOption, length, map, true};
ghost use Rattle.std.specs.List.{list_all};
ghost use Rattle.snowcat_rows.specs.Types.{mean, row};
ghost use Rattle.snowcat_rows.specs.Codes.{has};
ghost use Rattle.snowcat_rows.specs.FieldNames.{names_differ};
ghost use Rattle.snowcat_rows.specs.inner.Naming.{are_named, fields_named};
ghost use Rattle.snowcat_rows.specs.FirstDifferences.{Common};
ghost use Rattle.snowcat_rows.specs.inner.Rounds.{Differ, InField};

use crate::records::{find, is_alike};
use crate::types::Ty;
use tla_values::Text;

// The first two parts that differ at once.
#[tactic(auto, using(crate::proofs::Means::means, crate::proofs::Naming::differs))]
#[cycle(difference)]
pub(crate) fn difference<'a>(a: &'a Ty, b: &'a Ty) -> Option<(&'a Ty, &'a Ty)>
    ensures differ { MatchOption result (mean a.now ≡ mean b.now)
        (λ p. Differ (mean a.now) (mean b.now) (mean p.0.now) (mean p.1.now)) }
    ensures named { names_differ a.now ≡ true → names_differ b.now ≡ true
        → IfSome result (λ p. are_named p.0.now p.1.now ≡ true) }
{
    match a {
        Ty::Bool => match b {
            Ty::Bool => None,
            _ => Some((a, b)),
        },
        Ty::Int => match b {
            Ty::Int => None,
            _ => Some((a, b)),
        },
        Ty::Str => match b {
            Ty::Str => None,
            _ => Some((a, b)),
        },
        Ty::Named(x) => match b {
            Ty::Named(y) => {
                if x.bytes() == y.bytes() {
                    None
                } else {
                    Some((a, b))
                }
            }
            _ => Some((a, b)),
        },
        Ty::Var(v) => match b {
            Ty::Var(w) => { if *v == *w { None } else { Some((a, b)) } }
            _ => Some((a, b)),
        },
        Ty::Set(x) => match b {
            Ty::Set(y) => difference(x.get(), y.get()),
            _ => Some((a, b)),
        },
        Ty::Seq(x) => match b {
            Ty::Seq(y) => difference(x.get(), y.get()),
            _ => Some((a, b)),
        },
        Ty::Fun(x, z) => match b {
            Ty::Fun(y, w) => match difference(x.get(), y.get()) {
                Some(p) => Some(p),
                None => difference(z.get(), w.get()),
            },
            _ => Some((a, b)),
        },
        Ty::Tup(xs) => match b {
            Ty::Tup(ys) => {
                if xs.len() == ys.len() {
                    difference_all(xs.as_slice(), ys.as_slice())
                } else {
                    Some((a, b))
                }
            }
            _ => Some((a, b)),
        },
        Ty::Oper(xs, z) => match b {
            Ty::Oper(ys, w) => {
                if xs.len() == ys.len() {
                    match difference_all(xs.as_slice(), ys.as_slice()) {
                        Some(p) => Some(p),
                        None => difference(z.get(), w.get()),
                    }
                } else {
                    Some((a, b))
                }
            }
            _ => Some((a, b)),
        },
        Ty::Rec(fs, k) => match b {
            Ty::Rec(gs, j) => match difference_fields(fs.as_slice(), gs.as_slice()) {
                Some(p) => Some(p),
                None => {
                    if is_alike(fs.as_slice(), *k, gs.as_slice(), *j) {
                        None
                    } else {
                        Some((a, b))
                    }
                }
            },
            _ => Some((a, b)),
        },
    }
}

#[tactic(auto, using(crate::proofs::Means::means, crate::proofs::Naming::differs))]
#[cycle(difference)]
fn difference_all<'a>(xs: &'a [Ty], ys: &'a [Ty]) -> Option<(&'a Ty, &'a Ty)>
    requires { length xs.now ≡ length ys.now }
    ensures differ { MatchOption result (row (map mean xs.now) ≡ row (map mean ys.now))
        (λ p. Differ (row (map mean xs.now)) (row (map mean ys.now)) (mean p.0.now) (mean p.1.now)) }
    ensures named { list_all names_differ xs.now ≡ true → list_all names_differ ys.now ≡ true
        → IfSome result (λ p. are_named p.0.now p.1.now ≡ true) }
{
    for i in 0..xs.len() {
        if let Some(p) = difference(&xs[i], &ys[i]) {
            return Some(p);
        }
    }
    None
}

// The first two parts that differ at once of fields with one name.
#[tactic(auto, using(crate::proofs::Means::means, crate::proofs::Naming::differs))]
#[cycle(difference)]
fn difference_fields<'a>(fs: &'a [(Text, Ty)], gs: &'a [(Text, Ty)]) -> Option<(&'a Ty, &'a Ty)>
    ensures differ { MatchOption result (Common (has fs.now) (has gs.now))
        (λ p. InField (has fs.now) (has gs.now) (mean p.0.now) (mean p.1.now)) }
    ensures named { fields_named fs.now ≡ true → fields_named gs.now ≡ true
        → IfSome result (λ p. are_named p.0.now p.1.now ≡ true) }
{
    for f in fs {
        if let Some(i) = find(fs, &f.0) {
            if let Some(j) = find(gs, &f.0) {
                if let Some(p) = difference(&fs[i].1, &gs[j].1) {
                    return Some(p);
                }
            }
        }
    }
    None
}
