// The choice of a waiting node for a kind of the type that decides.
ghost use Rattle.std.specs.Prelude.{ℕ, ◌≡◌, IfOk, List as Items, MatchResult, true};
ghost use Rattle.std.specs.List.{list_all};
ghost use Rattle.snowcat_rows.specs.FieldNames.{names_differ};
ghost use Rattle.snowcat_rows.specs.Substitutions.{apply};
ghost use Rattle.snowcat_rows.specs.Types.{mean, var};
ghost use Rattle.snowcat_rows.specs.Unifying.{HasNames};
ghost use Rattle.snowcat_rows.specs.Views.{issued_of, stands_for};
ghost use Rattle.snowcat_types.specs.TypeForms.{tuple_type};
ghost use Rattle.snowcat_types.specs.declared.kinds.Kind.TheVariants.{Function, Record, Sequence, Tuple};
ghost use Rattle.snowcat_types.specs.Requirements.{Requirement as SpecRequirement, kind};
ghost use Rattle.snowcat_types.specs.Waiting.{choice, deciding, default_type};
ghost use Rattle.snowcat_types.specs.inner.Built.{means};
ghost use Rattle.snowcat_types.specs.inner.Gathered.{requirements_of};
ghost use Rattle.snowcat_types.specs.inner.Solved.{AreEquations, Excludes, IsDue, IsElse, IsFurther, IsItem, Tries, WaitInside};

use crate::asking::ask_each;
use crate::forms::function_of;
use crate::gathered::Requirement;
use crate::kinds::Kind;
use crate::meeting::{choose_field, choose_item, equate};
use crate::tying::{
    function_applied, function_domain, number_domain, sequence_applied, sequence_tied, text_domain,
    tuple_from, tuple_tied,
};
use crate::waiting::{Index, Wait};
use snowcat_rows::{Subst, Ty, UnifyFault, copy_type};
use std::alloc::{AllocError, Global};

// The type that decides, by default.
#[tactic(auto, using(snowcat_rows::proofs::Means::means))]
fn default_of(alloc: Global, wait: &Wait) -> Result<Ty, AllocError>
    ensures { IfOk result (λ t. mean t ≡ default_type wait.now) }
{
    match wait {
        Wait::Apply(_, _, index, part, _) => function_of(alloc, Ty::Var(*index), Ty::Var(*part)),
        Wait::Domain(_, _, _, argument, value) => {
            function_of(alloc, Ty::Var(*argument), Ty::Var(*value))
        }
        Wait::Tuple(_, _, _, first, count) => tuple_from(alloc, *first, *count),
    }
}

// The number of the type that decides.
fn decider(wait: &Wait) -> u32
    ensures { var result ≡ deciding wait.now }
{
    match wait {
        Wait::Apply(_, whole, _, _, _) => *whole,
        Wait::Domain(_, whole, _, _, _) => *whole,
        Wait::Tuple(_, whole, _, _, _) => *whole,
    }
}

// Nothing that is asked fits: the type that decides clashes with its default, since they are formed otherwise.
fn refuse(alloc: Global, subst: &mut Subst, wait: &Wait) -> Result<(), UnifyFault>
    requires within { WaitInside (issued_of subst.old) wait.now }
    requires other { IsElse (stands_for subst.old) wait.now }
    ensures excluded { Excludes wait.now subst.old subst.new result }
    ensures kept { IsFurther subst.old subst.new }
    ensures names { MatchResult result (λ _. Unit {0}) (λ e. HasNames e) }
{
    let default = default_of(alloc, wait)?;
    let known = Ty::Var(decider(wait));
    equate(subst, &known, &default)
}

// The item of that number, from 1.
fn item_in(alloc: Global, items: &[Ty], place: i128) -> Result<Option<(usize, Ty)>, AllocError>
    requires { list_all names_differ items.now ≡ true }
    ensures { IfOk result (λ o. IsItem (tuple_type (means items.now)) place o) }
{
    if place < 1 {
        return Ok(None);
    }
    if place > items.len() as i128 {
        return Ok(None);
    }
    let number = place as usize;
    let of = copy_type(alloc, &items[number - 1])?;
    Ok(Some((number, of)))
}

// The same of the unknown type of the number `whole`, which is a tuple under the substitution. All of the tuple is put in
// place for it.
fn item_under(
    alloc: Global,
    subst: &Subst,
    whole: u32,
    place: i128,
) -> Result<Option<(usize, Ty)>, AllocError>
    requires { kind (apply (stands_for subst.now) (var whole)) ≡ Tuple }
    ensures { IfOk result (λ o. IsItem (apply (stands_for subst.now) (var whole)) place o) }
{
    let known = Ty::Var(whole);
    let tuple = subst.resolved(alloc, &known)?;
    match &tuple {
        Ty::Tup(items) => item_in(alloc, items.as_slice(), place),
        _ => Ok(None),
    }
}

// The equations are met besides. What was built is taken as it comes, so that each choice is one line.
fn tie(
    alloc: Global,
    subst: &mut Subst,
    built: Result<Vec<Requirement>, AllocError>,
) -> Result<(), UnifyFault>
    requires within { IfOk built (λ v. AreEquations (issued_of subst.old) (requirements_of v.items)) }
    ensures tied { (w : Wait) (qs : Items SpecRequirement) → IfOk built (λ v. requirements_of v.items ≡ qs)
        → ((n : ℕ) → WaitInside n w → AreEquations n qs) → Tries w qs subst.old subst.new result }
    ensures kept { IsFurther subst.old subst.new }
    ensures names { MatchResult result (λ _. Unit {0}) (λ e. HasNames e) }
{
    match built {
        Ok(asked) => ask_each(alloc, subst, asked.as_slice()),
        Err(fault) => Err(UnifyFault::Memory(fault)),
    }
}

// What decides is a function.
fn choose_function(alloc: Global, subst: &mut Subst, wait: &Wait) -> Result<(), UnifyFault>
    requires within { WaitInside (issued_of subst.old) wait.now }
    requires due { IsDue (stands_for subst.old) wait.now Function }
    ensures tried { Tries wait.now (choice wait.now Function) subst.old subst.new result }
    ensures kept { IsFurther subst.old subst.new }
    ensures names { MatchResult result (λ _. Unit {0}) (λ e. HasNames e) }
{
    match wait {
        Wait::Apply(_, whole, index, part, _) => {
            tie(alloc, subst, function_applied(alloc, *whole, *index, *part))
        }
        Wait::Domain(_, whole, domain, argument, value) => {
            tie(
                alloc,
                subst,
                function_domain(alloc, *whole, *domain, *argument, *value),
            )
        }
        Wait::Tuple(_, _, _, _, _) => refuse(alloc, subst, wait),
    }
}

// What decides is a sequence.
fn choose_sequence(alloc: Global, subst: &mut Subst, wait: &Wait) -> Result<(), UnifyFault>
    requires within { WaitInside (issued_of subst.old) wait.now }
    requires due { IsDue (stands_for subst.old) wait.now Sequence }
    ensures tried { Tries wait.now (choice wait.now Sequence) subst.old subst.new result }
    ensures kept { IsFurther subst.old subst.new }
    ensures names { MatchResult result (λ _. Unit {0}) (λ e. HasNames e) }
{
    match wait {
        Wait::Apply(_, whole, index, part, _) => {
            tie(alloc, subst, sequence_applied(alloc, *whole, *index, *part))
        }
        Wait::Domain(_, _, domain, _, _) => tie(alloc, subst, number_domain(alloc, *domain)),
        Wait::Tuple(_, whole, item, first, count) => {
            tie(
                alloc,
                subst,
                sequence_tied(alloc, *whole, *item, *first, *count),
            )
        }
    }
}

// What decides is a tuple.
fn choose_tuple(alloc: Global, subst: &mut Subst, wait: &Wait) -> Result<(), UnifyFault>
    requires within { WaitInside (issued_of subst.old) wait.now }
    requires due { IsDue (stands_for subst.old) wait.now Tuple }
    ensures tried { Tries wait.now (choice wait.now Tuple) subst.old subst.new result }
    ensures kept { IsFurther subst.old subst.new }
    ensures names { MatchResult result (λ _. Unit {0}) (λ e. HasNames e) }
{
    match wait {
        Wait::Apply(_, whole, _, part, index) => match index {
            Index::Number(place) => match item_under(alloc, subst, *whole, *place) {
                Ok(Some(found)) => choose_item(subst, *whole, found.0, &found.1, *part),
                Ok(None) => refuse(alloc, subst, wait),
                Err(fault) => Err(UnifyFault::Memory(fault)),
            },
            Index::Word(_) => refuse(alloc, subst, wait),
            Index::NoLiteral => refuse(alloc, subst, wait),
        },
        Wait::Domain(_, _, domain, _, _) => tie(alloc, subst, number_domain(alloc, *domain)),
        Wait::Tuple(_, whole, _, first, count) => {
            tie(alloc, subst, tuple_tied(alloc, *whole, *first, *count))
        }
    }
}

// What decides is a record.
fn choose_record(alloc: Global, subst: &mut Subst, wait: &Wait) -> Result<(), UnifyFault>
    requires within { WaitInside (issued_of subst.old) wait.now }
    requires due { IsDue (stands_for subst.old) wait.now Record }
    ensures tried { Tries wait.now (choice wait.now Record) subst.old subst.new result }
    ensures kept { IsFurther subst.old subst.new }
    ensures names { MatchResult result (λ _. Unit {0}) (λ e. HasNames e) }
{
    match wait {
        Wait::Apply(_, whole, _, part, index) => match index {
            Index::Word(name) => choose_field(alloc, subst, *whole, name, *part),
            Index::Number(_) => refuse(alloc, subst, wait),
            Index::NoLiteral => refuse(alloc, subst, wait),
        },
        Wait::Domain(_, _, domain, _, _) => tie(alloc, subst, text_domain(alloc, *domain)),
        Wait::Tuple(_, _, _, _, _) => refuse(alloc, subst, wait),
    }
}

// What the choice of the waiting node for that kind asks is met besides. The type that decides is so formed under the
// substitution; or the kind is the default.
pub(crate) fn choose(
    alloc: Global,
    subst: &mut Subst,
    wait: &Wait,
    kind: Kind,
) -> Result<(), UnifyFault>
    requires within { WaitInside (issued_of subst.old) wait.now }
    requires due { IsDue (stands_for subst.old) wait.now kind }
    ensures tried { Tries wait.now (choice wait.now kind) subst.old subst.new result }
    ensures kept { IsFurther subst.old subst.new }
    ensures names { MatchResult result (λ _. Unit {0}) (λ e. HasNames e) }
{
    match kind {
        Kind::Function => choose_function(alloc, subst, wait),
        Kind::Sequence => choose_sequence(alloc, subst, wait),
        Kind::Tuple => choose_tuple(alloc, subst, wait),
        Kind::Record => choose_record(alloc, subst, wait),
        Kind::NotFormed => refuse(alloc, subst, wait),
        Kind::Other => refuse(alloc, subst, wait),
    }
}
