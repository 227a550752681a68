// Whether operator types stand in types.
ghost use Rattle.std.specs.Prelude.{ℕ, List as Items, map};
ghost use Rattle.std.specs.Bool.{MatchBool};
ghost use Rattle.snowcat_rows.specs.Types.{mean, row};
ghost use Rattle.snowcat_rows.specs.Codes.{has};
ghost use Rattle.snowcat_rows.specs.Operators.{HasNoOperator};
ghost use Rattle.snowcat_rows.specs.inner.Plain.{FieldsPlain};

use crate::records::find;
use crate::types::Ty;
use tla_values::Text;

/// Whether no operator type stands in the type.
#[tactic(auto, using(crate::proofs::Means::means))]
#[cycle(plain)]
pub fn has_no_operator(t: &Ty) -> bool
    ensures { MatchBool result (HasNoOperator (mean t.now)) (HasNoOperator (mean t.now) → ⊥) }
{
    match t {
        Ty::Bool => true,
        Ty::Int => true,
        Ty::Str => true,
        Ty::Named(_) => true,
        Ty::Var(_) => true,
        Ty::Set(a) => has_no_operator(a.get()),
        Ty::Seq(a) => has_no_operator(a.get()),
        Ty::Fun(a, b) => has_no_operator(a.get()) && has_no_operator(b.get()),
        Ty::Tup(ts) => have_no_operator(ts.as_slice()),
        Ty::Rec(fs, _) => fields_have_no_operator(fs.as_slice()),
        Ty::Oper(_, _) => false,
    }
}

#[tactic(auto, using(crate::proofs::Means::means))]
#[cycle(plain)]
fn have_no_operator(ts: &[Ty]) -> bool
    ensures { MatchBool result (HasNoOperator (row (map mean ts.now))) (HasNoOperator (row (map mean ts.now)) → ⊥) }
{
    for i in 0..ts.len() {
        if !has_no_operator(&ts[i]) {
            return false;
        }
    }
    true
}

#[tactic(auto, using(crate::proofs::Means::means))]
#[cycle(plain)]
fn fields_have_no_operator(fs: &[(Text, Ty)]) -> bool
    ensures { MatchBool result (FieldsPlain (has fs.now)) (FieldsPlain (has fs.now) → ⊥) }
{
    for f in fs {
        if let Some(i) = find(fs, &f.0) {
            if !has_no_operator(&fs[i].1) {
                return false;
            }
        }
    }
    true
}
