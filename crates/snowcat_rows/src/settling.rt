// Types in which no bound variable is left.
ghost use Rattle.std.specs.Prelude.{◌≡◌, IfOk, map, true};
ghost use Rattle.std.specs.Bool.{MatchBool};
ghost use Rattle.snowcat_rows.specs.Types.{mean, row};
ghost use Rattle.snowcat_rows.specs.Chains.{Chain, solved};
ghost use Rattle.snowcat_rows.specs.Codes.{bindings_of, has, variable};
ghost use Rattle.snowcat_rows.specs.FieldNames.{names_differ};
ghost use Rattle.snowcat_rows.specs.inner.Naming.{all_bound_named};
ghost use Rattle.snowcat_rows.specs.inner.Places.{Indexed};
ghost use Rattle.snowcat_rows.specs.inner.Settling.{AllFree, AreSettled, AreSettled-prop, EndFree, FieldsFree, IsFree};

use crate::bindings::{Bound, bound_by};
use crate::occurrences::{Unknown, same_variable};
use crate::places::Places;
use crate::records::find;
use crate::replacement::{replace_bound, replace_within};
use crate::types::{Ty, copy_type};
use std::alloc::{AllocError, Global};
use tla_values::Text;

// Whether the variable is not bound.
fn is_free(x: Unknown, bindings: &[Bound], places: &Places) -> bool
    requires { Indexed places.now bindings.now }
    ensures { MatchBool result (IsFree (variable x) (bindings_of bindings.now))
        (IsFree (variable x) (bindings_of bindings.now) → ⊥) }
{
    match bindings.get(places.of(x)) {
        Some(b) => !same_variable(x, bound_by(b)),
        None => true,
    }
}

fn is_end_free(tail: Option<u32>, bindings: &[Bound], places: &Places) -> bool
    requires { Indexed places.now bindings.now }
    ensures { MatchBool result (EndFree (bindings_of bindings.now) tail)
        (EndFree (bindings_of bindings.now) tail → ⊥) }
{
    match tail {
        Some(r) => is_free(Unknown::Row(r), bindings, places),
        None => true,
    }
}

// Whether no variable of the type is bound.
#[tactic(auto, using(crate::proofs::Means::means))]
#[cycle(settled)]
fn is_settled(t: &Ty, bindings: &[Bound], places: &Places) -> bool
    requires { Indexed places.now bindings.now }
    ensures { MatchBool result (AllFree (bindings_of bindings.now) (mean t.now))
        (AllFree (bindings_of bindings.now) (mean t.now) → ⊥) }
{
    match t {
        Ty::Bool => true,
        Ty::Int => true,
        Ty::Str => true,
        Ty::Named(_) => true,
        Ty::Var(v) => is_free(Unknown::Type(*v), bindings, places),
        Ty::Set(a) => is_settled(a.get(), bindings, places),
        Ty::Seq(a) => is_settled(a.get(), bindings, places),
        Ty::Fun(a, b) => {
            is_settled(a.get(), bindings, places) && is_settled(b.get(), bindings, places)
        }
        Ty::Tup(ts) => are_settled(ts.as_slice(), bindings, places),
        Ty::Rec(fs, tail) => {
            fields_settled(fs.as_slice(), bindings, places) && is_end_free(*tail, bindings, places)
        }
        Ty::Oper(ts, b) => {
            are_settled(ts.as_slice(), bindings, places) && is_settled(b.get(), bindings, places)
        }
    }
}

#[tactic(auto, using(crate::proofs::Means::means))]
#[cycle(settled)]
fn are_settled(ts: &[Ty], bindings: &[Bound], places: &Places) -> bool
    requires { Indexed places.now bindings.now }
    ensures { MatchBool result (AllFree (bindings_of bindings.now) (row (map mean ts.now)))
        (AllFree (bindings_of bindings.now) (row (map mean ts.now)) → ⊥) }
{
    for i in 0..ts.len() {
        if !is_settled(&ts[i], bindings, places) {
            return false;
        }
    }
    true
}

#[tactic(auto, using(crate::proofs::Means::means))]
#[cycle(settled)]
fn fields_settled(fs: &[(Text, Ty)], bindings: &[Bound], places: &Places) -> bool
    requires { Indexed places.now bindings.now }
    ensures { MatchBool result (FieldsFree (bindings_of bindings.now) (has fs.now))
        (FieldsFree (bindings_of bindings.now) (has fs.now) → ⊥) }
{
    for f in fs {
        if let Some(i) = find(fs, &f.0) {
            if !is_settled(&fs[i].1, bindings, places) {
                return false;
            }
        }
    }
    true
}

// The type once each bound variable is replaced. A pass replaces each variable once, and the bindings are a chain, so
// as many passes as there are bindings suffice.
pub(crate) fn settle(
    alloc: Global,
    t: &Ty,
    bindings: &[Bound],
    places: &Places,
) -> Result<Ty, AllocError>
    requires chain { Chain (bindings_of bindings.now) }
    requires indexed { Indexed places.now bindings.now }
    ensures mean { IfOk result (λ r. mean r ≡ solved (bindings_of bindings.now) (mean t.now)) }
    ensures named { all_bound_named bindings.now ≡ true → names_differ t.now ≡ true
        → IfOk result (λ r. names_differ r ≡ true) }
{
    let mut current = copy_type(alloc, t)?;
    for pass in 0..bindings.len() {
        if is_settled(&current, bindings, places) {
            return Ok(current);
        }
        current = replace_within(alloc, &current, bindings, places)?;
    }
    Ok(current)
}

/// What the variables of a substitution stand for, once and for all: no variable that it binds is left in what it
/// binds. [`Subst::settled`](crate::Subst::settled) makes it.
#[derive(Drop)]
pub struct Settled {
    bindings: Vec<Bound>,
    places: Places,
    pub ghost sound: { AreSettled bindings.items places } by { AreSettled-prop bindings.items places },
}

impl Settled {
    ghost use Rattle.snowcat_rows.specs.Chains.{sub_of};
    ghost use Rattle.snowcat_rows.specs.Substitutions.{apply};
    ghost use Rattle.snowcat_rows.specs.Views.{settled_by};

    // A binding holds no variable that was bound before it, so from the last to the first those that are settled by
    // then are put in place in each.
    pub(crate) fn of(alloc: Global, bindings: &[Bound]) -> Result<Settled, AllocError>
        requires chain { Chain (bindings_of bindings.now) }
        requires named { all_bound_named bindings.now ≡ true }
        ensures { IfOk result (λ s. settled_by s ≡ sub_of (bindings_of bindings.now)) }
    {
        let mut made = Vec::new(alloc);
        let mut places = Places::new(alloc);
        for at in (0..bindings.len()).rev() {
            let bound = &bindings[at];
            let count = made.len();
            let whole = replace_bound(alloc, bound, made.as_slice(), &places)?;
            made.push(whole)?;
            places.set(bound_by(bound), count)?;
        }
        Ok(Settled {
            bindings: made,
            places,
        })
    }

    /// The type under the substitution, in one walk; in each record of it the field names differ where they do so in
    /// the given type. A type of more than 1,000 levels or 1,048,576 parts is want of memory.
    pub fn resolved(&self, alloc: Global, t: &Ty) -> Result<Ty, AllocError>
        ensures mean { IfOk result (λ r. mean r ≡ apply (settled_by self.now) (mean t.now)) }
        ensures named { names_differ t.now ≡ true → IfOk result (λ r. names_differ r ≡ true) }
    {
        let whole = replace_within(alloc, t, self.bindings.as_slice(), &self.places)?;
        Ok(whole)
    }
}
