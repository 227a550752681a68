// Types that say which values are of them.
ghost use Rattle.std.specs.Prelude.{IfSome, is_some, map};
ghost use Rattle.kernel_shapes.specs.Kernel.{kind_or_truth};
ghost use Rattle.shape_bounds.specs.inner.Forms.{IsForm};
ghost use Rattle.std.specs.Bool.{IsTrue};
ghost use Rattle.kernel_trees.specs.TypeKinds.{all_fields_there, all_there, kind_of};

use snowcat_rows::{Ty, has_distinct_names};
use tla_values::Text;

// Whether a type without variables says which values are of it, as each in a sound tree does.
#[cycle(kinds)]
pub(crate) fn has_kind(t: &Ty) -> bool
    ensures { IsTrue result → IsTrue (is_some (kind_of t.now)) }
{
    match t {
        Ty::Bool => true,
        Ty::Int => true,
        Ty::Str => true,
        Ty::Named(x) => !x.bytes().is_empty(),
        Ty::Var(_) => false,
        Ty::Set(a) => has_kind(a.get()),
        Ty::Seq(a) => has_kind(a.get()),
        Ty::Fun(a, b) => has_kind(a.get()) && has_kind(b.get()),
        Ty::Tup(ts) => have_kinds(ts.as_slice()),
        Ty::Rec(fs, rest) => match rest {
            Some(_) => false,
            None => has_distinct_names(t) && fields_have_kinds(fs.as_slice()),
        },
        Ty::Oper(_, _) => false,
    }
}

#[cycle(kinds)]
fn have_kinds(ts: &[Ty]) -> bool
    ensures { IsTrue result → IsTrue (is_some (all_there (map kind_of ts.now))) }
{
    for i in 0..ts.len() {
        if !has_kind(&ts[i]) {
            return false;
        }
    }
    true
}

#[cycle(kinds)]
fn fields_have_kinds(fs: &[(Text, Ty)]) -> bool
    ensures { IsTrue result → IsTrue (is_some (all_fields_there (map (λ f. (f.0, kind_of f.1)) fs.now))) }
{
    for i in 0..fs.len() {
        let field = &fs[i];
        if !has_kind(&field.1) {
            return false;
        }
    }
    true
}

/// What the type of a node says of the row that the node has.
#[derive(Clone, Copy, Drop)]
pub enum TypeForm {
    Function,
    Record,
    Sequence,
    Other,
}

// Of a type that has a kind, if that is wanted; no node of a sound tree has another.
pub(crate) fn type_form(t: &Ty) -> Option<TypeForm>
    ensures { IfSome result (λ f. IsForm f (kind_or_truth (kind_of t.now))) }
{
    match t {
        Ty::Bool => Some(TypeForm::Other),
        Ty::Int => Some(TypeForm::Other),
        Ty::Str => Some(TypeForm::Other),
        Ty::Named(_) => Some(TypeForm::Other),
        Ty::Var(_) => Some(TypeForm::Other),
        Ty::Set(_) => Some(TypeForm::Other),
        Ty::Tup(_) => Some(TypeForm::Other),
        Ty::Oper(_, _) => Some(TypeForm::Other),
        Ty::Seq(_) => where_known(t, TypeForm::Sequence),
        Ty::Fun(_, _) => where_known(t, TypeForm::Function),
        Ty::Rec(_, _) => where_known(t, TypeForm::Record),
    }
}

fn where_known(t: &Ty, form: TypeForm) -> Option<TypeForm>
    ensures { IfSome result (λ f. (IsTrue (is_some (kind_of t.now)) → IsForm form (kind_or_truth (kind_of t.now))) → IsForm f (kind_or_truth (kind_of t.now))) }
{
    if has_kind(t) { Some(form) } else { None }
}
