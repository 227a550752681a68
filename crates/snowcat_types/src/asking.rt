// Several requirements more, in their order.
ghost use Rattle.std.specs.Prelude.{ℕ, ◌∷◌, [], List as Items, MatchResult};
ghost use Rattle.tla_meaning.specs.declared.place.Place.{Place};
ghost use Rattle.snowcat_rows.specs.Substitutions.{Fronts};
ghost use Rattle.snowcat_rows.specs.Unifying.{HasNames};
ghost use Rattle.snowcat_rows.specs.Views.{issued_of};
ghost use Rattle.snowcat_types.specs.Requirements.{Requirement as SpecRequirement};
ghost use Rattle.snowcat_types.specs.Systems.{Asks};
ghost use Rattle.snowcat_types.specs.inner.Gathered.{AllNamedIn, RequirementNamed, requirement_of, requirements_of};
ghost use Rattle.snowcat_types.specs.inner.Solved.{AllInside, AreOf, IsAsked, IsFurther, IsSolved, IsTried};

use crate::gathered::Requirement;
use crate::meeting::{ask_field, equate};
use snowcat_rows::{Subst, UnifyFault};
use std::alloc::Global;

// What is asked is met besides.
fn ask_one(alloc: Global, subst: &mut Subst, asked: &Requirement) -> Result<(), UnifyFault>
    requires within { AllInside (issued_of subst.old) (requirement_of asked.now ∷ []) }
    requires named { RequirementNamed asked.now }
    ensures tried { IsAsked (requirement_of asked.now ∷ []) subst.old subst.new result }
    ensures kept { IsFurther subst.old subst.new }
    ensures names { MatchResult result (λ _. Unit {0}) (λ e. HasNames e) }
{
    match asked {
        Requirement::Equal(a, b) => equate(subst, a, b),
        Requirement::FieldOf(whole, name, field) => ask_field(alloc, subst, *whole, name, *field),
    }
}

// All that is asked is met besides, whoever asks.
pub(crate) fn ask_each(
    alloc: Global,
    subst: &mut Subst,
    asked: &[Requirement],
) -> Result<(), UnifyFault>
    requires within { AllInside (issued_of subst.old) (requirements_of asked.now) }
    requires named { AllNamedIn asked.now }
    ensures tried { IsAsked (requirements_of asked.now) subst.old subst.new result }
    ensures kept { IsFurther subst.old subst.new }
    ensures names { MatchResult result (λ _. Unit {0}) (λ e. HasNames e) }
{
    for next in asked {
        ask_one(alloc, subst, next)?;
    }
    Ok(())
}

// All that the row of a node asks is met besides.
pub(crate) fn ask_all(
    alloc: Global,
    subst: &mut Subst,
    asked: &[Requirement],
) -> Result<(), UnifyFault>
    requires within { AllInside (issued_of subst.old) (requirements_of asked.now) }
    requires named { AllNamedIn asked.now }
    ensures tried { (n : ℕ) (l : Fronts) (rs : Items SpecRequirement) (p : Place) → IsSolved n l rs subst.old
        → AreOf n l rs → AreOf n l (requirements_of asked.now)
        → IsTried n l rs (Asks p (requirements_of asked.now)) (requirements_of asked.now) subst.new result }
    ensures kept { IsFurther subst.old subst.new }
    ensures names { MatchResult result (λ _. Unit {0}) (λ e. HasNames e) }
{
    ask_each(alloc, subst, asked)
}
