// Types that have a kind: no variable, no operator and no open record stands in them, and each name is there.
ghost use Rattle.std.specs.Prelude.{◌≡◌, map};
ghost use Rattle.std.specs.List.{list_all};
ghost use Rattle.snowcat_rows.specs.TypeTexts.{are_distinct, is_among};
ghost use Rattle.kernel_reduction.specs.SoundLaws.{are_kinded, has_kind};

use snowcat_rows::{Ty, Typed};
use tla_values::{List, Text};

// Whether a field has this name.
fn is_among(name: &Text, fields: &[(Text, Ty)]) -> bool
    ensures { result ≡ is_among name.now (map (λ f. f.0) fields.now) }
{
    for field in fields {
        if name.bytes() == field.0.bytes() {
            return true;
        }
    }
    false
}

// Whether the names of the fields differ.
fn are_distinct(fields: &[(Text, Ty)]) -> bool
    ensures { result ≡ are_distinct (map (λ f. f.0) fields.now) }
{
    for i in 0..fields.len() {
        if is_among(&fields[i].0, &fields[i + 1..]) {
            return false;
        }
    }
    true
}

#[tactic(auto, using(crate::proofs::KindTests::kinded))]
#[cycle(kinded)]
fn has_kind(ty: &Ty) -> bool
    ensures { result ≡ has_kind ty.now }
{
    match ty {
        Ty::Bool | Ty::Int | Ty::Str => true,
        Ty::Named(name) => !name.bytes().is_empty(),
        Ty::Var(_) | Ty::Oper(_, _) => false,
        Ty::Set(item) | Ty::Seq(item) => has_kind(item.get()),
        Ty::Fun(argument, value) => has_kind(argument.get()) && has_kind(value.get()),
        Ty::Tup(items) => have_kinds(items.as_slice()),
        Ty::Rec(fields, row) => {
            let fields = fields.as_slice();
            row.is_none() && are_distinct(fields) && are_fields(fields)
        }
    }
}

#[tactic(auto, using(crate::proofs::KindTests::kinded))]
#[cycle(kinded)]
fn have_kinds(types: &[Ty]) -> bool
    ensures { result ≡ list_all has_kind types.now }
{
    for ty in types {
        if !has_kind(ty) {
            return false;
        }
    }
    true
}

#[tactic(auto, using(crate::proofs::KindTests::kinded))]
#[cycle(kinded)]
fn are_fields(fields: &[(Text, Ty)]) -> bool
    ensures { result ≡ list_all (λ f. has_kind f.1) fields.now }
{
    for field in fields {
        if !has_kind(&field.1) {
            return false;
        }
    }
    true
}

fn are_parts_kinded(parts: &[List<Ty>]) -> bool
    ensures { result ≡ list_all (list_all has_kind) parts.now }
{
    for types in parts {
        if !have_kinds(types.as_slice()) {
            return false;
        }
    }
    true
}

/// Whether each type of a name and of a node has a kind.
pub(crate) fn are_kinded(typed: &Typed) -> bool
    ensures { result ≡ are_kinded typed.now }
{
    have_kinds(typed.names.as_slice()) && are_parts_kinded(typed.parts.as_slice())
}
