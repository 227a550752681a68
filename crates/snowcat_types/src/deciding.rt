// How the type that decides a choice is formed.
ghost use Rattle.std.specs.Prelude.{◌≡◌};
ghost use Rattle.snowcat_rows.specs.Substitutions.{apply};
ghost use Rattle.snowcat_rows.specs.Types.{mean};
ghost use Rattle.snowcat_rows.specs.Views.{stands_for};
ghost use Rattle.snowcat_types.specs.Requirements.{kind};
ghost use Rattle.snowcat_types.specs.Typings.{decision};
ghost use Rattle.snowcat_types.specs.Waiting.{deciding};
ghost use Rattle.snowcat_types.specs.inner.Awaited.{IsLead};

use crate::kinds::Kind;
use crate::waiting::Wait;
use snowcat_rows::{Subst, Ty};

// The type that decides.
#[tactic(auto, using(snowcat_rows::proofs::Means::means))]
fn deciding_type(wait: &Wait) -> Ty
    ensures { mean result ≡ deciding wait.now }
{
    match wait {
        Wait::Apply(_, whole, _, _, _) => Ty::Var(*whole),
        Wait::Domain(_, whole, _, _, _) => Ty::Var(*whole),
        Wait::Tuple(_, whole, _, _, _) => Ty::Var(*whole),
    }
}

// How the type is formed under the substitution.
fn decision(subst: &Subst, t: &Ty) -> Kind
    ensures { result ≡ kind (apply (stands_for subst.now) (mean t.now)) }
{
    match subst.root(t) {
        Ty::Var(_) => Kind::NotFormed,
        Ty::Fun(_, _) => Kind::Function,
        Ty::Seq(_) => Kind::Sequence,
        Ty::Tup(_) => Kind::Tuple,
        Ty::Rec(_, _) => Kind::Record,
        Ty::Bool => Kind::Other,
        Ty::Int => Kind::Other,
        Ty::Str => Kind::Other,
        Ty::Named(_) => Kind::Other,
        Ty::Set(_) => Kind::Other,
        Ty::Oper(_, _) => Kind::Other,
    }
}

// How the type that decides is formed.
pub(crate) fn kind_of(subst: &Subst, wait: &Wait) -> Kind
    ensures { result ≡ decision (stands_for subst.now) wait.now }
{
    let deciding = deciding_type(wait);
    decision(subst, &deciding)
}

// The variable to which the type leads; none where it is formed.
fn lead(subst: &Subst, t: &Ty) -> Option<u32>
    ensures { IsLead (stands_for subst.now) (mean t.now) result }
{
    match subst.root(t) {
        Ty::Var(variable) => Some(*variable),
        _ => None,
    }
}

// The variable to which the type that decides leads; none where it is formed.
pub(crate) fn variable_of(subst: &Subst, wait: &Wait) -> Option<u32>
    ensures { IsLead (stands_for subst.now) (deciding wait.now) result }
{
    let deciding = deciding_type(wait);
    lead(subst, &deciding)
}
