// One requirement more, over what a substitution solves.
ghost use Rattle.std.specs.Prelude.{ℕ, ◌≡◌, ◌+◌, ◌<◌, ◌∷◌, [], IfOk, List as Items, MatchResult, OnOk, true};
ghost use Rattle.snowcat_rows.specs.FieldNames.{names_differ};
ghost use Rattle.snowcat_rows.specs.Sorting.{Within};
ghost use Rattle.snowcat_rows.specs.Substitutions.{Fronts, apply};
ghost use Rattle.snowcat_rows.specs.Types.{mean, some, var};
ghost use Rattle.snowcat_rows.specs.Unifying.{HasNames};
ghost use Rattle.snowcat_rows.specs.Views.{issued_of, kept_by, stands_for};
ghost use Rattle.snowcat_types.specs.Requirements.{Equal, FieldOf, ItemOf, Requirement, item_at};
ghost use Rattle.snowcat_types.specs.Typings.{with_field};
ghost use Rattle.snowcat_types.specs.inner.Solved.{AreOf, IsFurther, IsMet, IsOpened, IsSolved};

use snowcat_rows::{Subst, Ty, UnifyFault};
use std::alloc::{AllocError, Global};
use tla_values::{List, Text, copy_text};

// The two types are equal besides.
pub(crate) fn equate(subst: &mut Subst, a: &Ty, b: &Ty) -> Result<(), UnifyFault>
    requires within { Within (issued_of subst.old) (mean a.now) × Within (issued_of subst.old) (mean b.now) }
    requires names { (names_differ a.now ≡ true) × (names_differ b.now ≡ true) }
    ensures met { (n : ℕ) (l : Fronts) (rs : Items Requirement) → IsSolved n l rs subst.old → AreOf n l rs
        → AreOf n l (Equal (mean a.now) (mean b.now) ∷ [])
        → IsMet n l rs (Equal (mean a.now) (mean b.now)) (kept_by subst.old) (mean a.now) (mean b.now) subst.new result }
    ensures kept { IsFurther subst.old subst.new }
    ensures names { MatchResult result (λ _. Unit {0}) (λ e. HasNames e) }
{
    subst.unify(a, b)
}

// The record of one field, the unknown type of that number, that is open for others: its row variable is new.
fn open_record(alloc: Global, subst: &mut Subst, name: &Text, field: u32) -> Result<Ty, AllocError>
    ensures opened { IfOk result (λ t. IsOpened name.now field subst.old subst.new t) }
    ensures kept { IsFurther subst.old subst.new }
{
    let row = subst.issued();
    if row == u32::MAX {
        return Err(AllocError);
    }
    let name = copy_text(alloc, name)?;
    let mut fields = Vec::new(alloc);
    fields.push((name, Ty::Var(field)))?;
    let _ = subst.fresh();
    Ok(Ty::Rec(List::from_vec(fields), Some(row)))
}

// The unknown type of that number is besides a record which has this field: that is put first.
pub(crate) fn ask_field(
    alloc: Global,
    subst: &mut Subst,
    whole: u32,
    name: &Text,
    field: u32,
) -> Result<(), UnifyFault>
    requires { whole < issued_of subst.old × field < issued_of subst.old }
    ensures met { (n : ℕ) (l : Fronts) (rs : Items Requirement) → IsSolved n l rs subst.old → AreOf n l rs
        → whole < n → field < n → IsMet n l rs (FieldOf (var whole) name.now (var field)) (kept_by subst.old)
        (with_field name.now (var field) (issued_of subst.old)) (var whole) subst.new result }
    ensures kept { IsFurther subst.old subst.new }
    ensures names { MatchResult result (λ _. Unit {0}) (λ e. HasNames e) }
{
    match open_record(alloc, subst, name, field) {
        Ok(part) => {
            let known = Ty::Var(whole);
            subst.unify(&part, &known)
        }
        Err(fault) => Err(UnifyFault::Memory(fault)),
    }
}

// The same where the record decides, and is put first.
pub(crate) fn choose_field(
    alloc: Global,
    subst: &mut Subst,
    whole: u32,
    name: &Text,
    field: u32,
) -> Result<(), UnifyFault>
    requires { whole < issued_of subst.old × field < issued_of subst.old }
    ensures met { (n : ℕ) (l : Fronts) (rs : Items Requirement) → IsSolved n l rs subst.old → AreOf n l rs
        → whole < n → field < n → IsMet n l rs (FieldOf (var whole) name.now (var field)) (kept_by subst.old)
        (var whole) (with_field name.now (var field) (issued_of subst.old)) subst.new result }
    ensures kept { IsFurther subst.old subst.new }
    ensures names { MatchResult result (λ _. Unit {0}) (λ e. HasNames e) }
{
    match open_record(alloc, subst, name, field) {
        Ok(part) => {
            let known = Ty::Var(whole);
            subst.unify(&known, &part)
        }
        Err(fault) => Err(UnifyFault::Memory(fault)),
    }
}

// The unknown type of the number `whole` is a tuple whose item of this number, from 1, is `item` under the substitution:
// it is besides the unknown type of the number `part`.
pub(crate) fn choose_item(
    subst: &mut Subst,
    whole: u32,
    i: usize,
    item: &Ty,
    part: u32,
) -> Result<(), UnifyFault>
    requires found { item_at (apply (stands_for subst.old) (var whole)) i ≡ some (mean item.now) }
    requires issued { whole < issued_of subst.old × part < issued_of subst.old }
    requires names { names_differ item.now ≡ true }
    ensures met { (n : ℕ) (l : Fronts) (rs : Items Requirement) → IsSolved n l rs subst.old → AreOf n l rs
        → whole < n → part < n → IsMet n l rs (ItemOf (var whole) i (var part)) (kept_by subst.old)
        (mean item.now) (var part) subst.new result }
    ensures kept { IsFurther subst.old subst.new }
    ensures names { MatchResult result (λ _. Unit {0}) (λ e. HasNames e) }
{
    let known = Ty::Var(part);
    subst.unify(item, &known)
}
