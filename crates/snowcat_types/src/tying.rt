// The equations that a choice asks.
ghost use Rattle.std.specs.Prelude.{◌≡◌, ◌∷◌, [], IfOk};
ghost use Rattle.snowcat_rows.specs.Types.{mean, var};
ghost use Rattle.snowcat_types.specs.Requirements.{Equal};
ghost use Rattle.snowcat_types.specs.TypeForms.{fun_type, int_type, seq_type, set_type, str_type, tuple_type};
ghost use Rattle.snowcat_types.specs.Waiting.{all_equal, items_from};
ghost use Rattle.snowcat_types.specs.inner.Gathered.{requirements_of};

use crate::forms::{function_of, seq_of, set_of, tuple_of, unknown, unknowns};
use crate::gathered::Requirement;
use snowcat_rows::Ty;
use std::alloc::{AllocError, Global};

// The one type is the other.
#[tactic(auto, using(snowcat_rows::proofs::Means::means))]
fn equation(alloc: Global, a: Ty, b: Ty) -> Result<Vec<Requirement>, AllocError>
    ensures { IfOk result (λ v. requirements_of v.items ≡ Equal (mean a) (mean b) ∷ []) }
{
    let mut asked = Vec::new(alloc);
    asked.push(Requirement::Equal(a, b))?;
    Ok(asked)
}

// A function is applied.
#[tactic(auto, using(snowcat_rows::proofs::Means::means))]
pub(crate) fn function_applied(
    alloc: Global,
    whole: u32,
    index: u32,
    part: u32,
) -> Result<Vec<Requirement>, AllocError>
    ensures { IfOk result (λ v. requirements_of v.items
        ≡ Equal (var whole) (fun_type (var index) (var part)) ∷ []) }
{
    let of = function_of(alloc, Ty::Var(index), Ty::Var(part))?;
    equation(alloc, Ty::Var(whole), of)
}

// A sequence is applied.
#[tactic(auto, using(snowcat_rows::proofs::Means::means))]
pub(crate) fn sequence_applied(
    alloc: Global,
    whole: u32,
    index: u32,
    part: u32,
) -> Result<Vec<Requirement>, AllocError>
    ensures { IfOk result (λ v. requirements_of v.items
        ≡ Equal (var whole) (seq_type (var part)) ∷ Equal int_type (var index) ∷ []) }
{
    let of = seq_of(alloc, Ty::Var(part))?;
    let mut asked = equation(alloc, Ty::Var(whole), of)?;
    asked.push(Requirement::Equal(Ty::Int, Ty::Var(index)))?;
    Ok(asked)
}

// The domain of a function.
#[tactic(auto, using(snowcat_rows::proofs::Means::means))]
pub(crate) fn function_domain(
    alloc: Global,
    whole: u32,
    domain: u32,
    argument: u32,
    value: u32,
) -> Result<Vec<Requirement>, AllocError>
    ensures { IfOk result (λ v. requirements_of v.items
        ≡ Equal (var whole) (fun_type (var argument) (var value)) ∷ Equal (set_type (var argument)) (var domain) ∷ []) }
{
    let arguments = set_of(alloc, Ty::Var(argument))?;
    let mut asked = function_applied(alloc, whole, argument, value)?;
    asked.push(Requirement::Equal(arguments, Ty::Var(domain)))?;
    Ok(asked)
}

// The domain is a set of that.
#[tactic(auto, using(snowcat_rows::proofs::Means::means))]
fn domain_of(alloc: Global, item: Ty, domain: u32) -> Result<Vec<Requirement>, AllocError>
    ensures { IfOk result (λ v. requirements_of v.items ≡ Equal (set_type (mean item)) (var domain) ∷ []) }
{
    let arguments = set_of(alloc, item)?;
    equation(alloc, arguments, Ty::Var(domain))
}

// The domain of a sequence or a tuple.
#[tactic(auto, using(snowcat_rows::proofs::Means::means))]
pub(crate) fn number_domain(alloc: Global, domain: u32) -> Result<Vec<Requirement>, AllocError>
    ensures { IfOk result (λ v. requirements_of v.items ≡ Equal (set_type int_type) (var domain) ∷ []) }
{
    domain_of(alloc, Ty::Int, domain)
}

// The domain of a record.
#[tactic(auto, using(snowcat_rows::proofs::Means::means))]
pub(crate) fn text_domain(alloc: Global, domain: u32) -> Result<Vec<Requirement>, AllocError>
    ensures { IfOk result (λ v. requirements_of v.items ≡ Equal (set_type str_type) (var domain) ∷ []) }
{
    domain_of(alloc, Ty::Str, domain)
}

// A tuple of so many items, whose types are numbered from the first on.
#[tactic(auto, using(snowcat_rows::proofs::Means::means))]
pub(crate) fn tuple_from(alloc: Global, first: u32, count: u32) -> Result<Ty, AllocError>
    ensures { IfOk result (λ t. mean t ≡ tuple_type (items_from first count)) }
{
    let items = unknowns(alloc, first, 0, count as usize)?;
    Ok(tuple_of(items))
}

// A tuple that is one.
#[tactic(auto, using(snowcat_rows::proofs::Means::means))]
pub(crate) fn tuple_tied(
    alloc: Global,
    whole: u32,
    first: u32,
    count: u32,
) -> Result<Vec<Requirement>, AllocError>
    ensures { IfOk result (λ v. requirements_of v.items
        ≡ Equal (var whole) (tuple_type (items_from first count)) ∷ []) }
{
    let of = tuple_from(alloc, first, count)?;
    equation(alloc, Ty::Var(whole), of)
}

// A tuple that is a sequence.
#[tactic(auto, using(snowcat_rows::proofs::Means::means))]
pub(crate) fn sequence_tied(
    alloc: Global,
    whole: u32,
    item: u32,
    first: u32,
    count: u32,
) -> Result<Vec<Requirement>, AllocError>
    ensures { IfOk result (λ v. requirements_of v.items
        ≡ Equal (var whole) (seq_type (var item)) ∷ all_equal (var item) (items_from first count)) }
{
    let of = seq_of(alloc, Ty::Var(item))?;
    let mut asked = equation(alloc, Ty::Var(whole), of)?;
    for i in 0..count as usize {
        let part = unknown(first, i)?;
        asked.push(Requirement::Equal(Ty::Var(item), part))?;
    }
    Ok(asked)
}
