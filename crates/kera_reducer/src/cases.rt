// CASE as a value, and where it is split into paths.
ghost use Rattle.std.specs.Prelude.{◌≡◌, ◌++◌, ◌∷◌, Bool, IfOk, OnOk, []};
ghost use Rattle.tla_meaning.specs.declared.op.Op.TheVariants.{Case as case_op};
ghost use Rattle.snowcat_rows.specs.declared.types.Ty.TheVariants.{Bool as bool_type};
ghost use Rattle.kernel_reduction.specs.Builds.{has_arm};
ghost use Rattle.kernel_reduction.specs.Rows.{case_branches};
ghost use Rattle.kera_reducer.specs.inner.Standing.{AreBranches, IsSplitCase, MakesOf, arm_node, flat, nested};

use crate::making::Made;
use crate::nodes::{choice, negations, node, twice_negated};
use kernel_trees::{Ker, KerOp, copy_ker};
use snowcat_rows::{Ty, copy_type};
use std::alloc::{AllocError, Global};

/// The guards of a CASE, each with its branch, and the branch of OTHER.
#[derive(Drop)]
pub(crate) struct Arms {
    pub(crate) arms: Vec<(Ker, Ker)>,
    pub(crate) other: Option<Ker>,
}

fn arms_of(alloc: Global, kids: Vec<Ker>) -> Result<Arms, AllocError>
    ensures { IfOk result (λ a. flat a.arms.items a.other ≡ kids.items) }
{
    let mut arms = Vec::new(alloc);
    let mut guard = None;
    for kid in kids {
        match guard {
            None => guard = Some(kid),
            Some(holds) => {
                arms.push((holds, kid))?;
                guard = None;
            }
        }
    }
    Ok(Arms { arms, other: guard })
}

// IFs around a tree, one for each arm.
fn nested(made: &Made, arms: Vec<(Ker, Ker)>, last: Ker) -> Result<Ker, AllocError>
    ensures { IfOk result (λ k. k ≡ nested made.now.place made.now.ty.now arms.items last) }
{
    let mut arms = arms;
    let mut rest = last;
    while let Some((guard, branch)) = arms.pop() {
        let ty = copy_type(made.alloc, made.ty)?;
        rest = choice(made.alloc, made.place, ty, guard, (branch, rest))?;
    }
    Ok(rest)
}

fn has_arm(kids: &[Ker]) -> bool
    ensures { result ≡ has_arm kids.now }
{
    matches!(kids, [_, _, ..])
}

/// CASE as a value: IFs in order.
pub(crate) fn nested_ifs(made: &Made, kids: Vec<Ker>) -> Result<Ker, AllocError>
    ensures { IfOk result (λ k. (b : Bool) → MakesOf made.now (case_op b) kids.items k) }
{
    if !has_arm(kids.as_slice()) {
        return Err(AllocError);
    }
    let Arms { arms, other } = arms_of(made.alloc, kids)?;
    match other {
        Some(last) => nested(made, arms, last),
        None => {
            let last = made.whole(KerOp::NoCase, Vec::new(made.alloc))?;
            nested(made, arms, last)
        }
    }
}

// The branch of an arm behind guards that are FALSE, with its own guard TRUE.
fn arm(made: &Made, front: &[Ker], guard: Ker, branch: Ker) -> Result<Ker, AllocError>
    ensures { IfOk result (λ k. k ≡ arm_node made.now.place front.now guard branch) }
{
    let place = branch.place;
    let mut kids = negations(made.alloc, made.place, front)?;
    kids.push(twice_negated(made.alloc, made.place, guard)?)?;
    kids.push(branch)?;
    Ok(node(made.alloc, place, Ty::Bool, KerOp::And, kids))
}

// What stands behind all arms: the branch of OTHER, or the end of a path.
fn last_branch(made: &Made, front: &[Ker], other: Option<Ker>) -> Result<Ker, AllocError>
    ensures { IfOk result (λ k. case_branches made.now.place bool_type front.now [] other ≡ k ∷ []) }
{
    let mut kids = negations(made.alloc, made.place, front)?;
    let (place, last) = match other {
        Some(branch) => (branch.place, branch),
        None => {
            let end = node(
                made.alloc,
                made.place,
                Ty::Bool,
                KerOp::NoCase,
                Vec::new(made.alloc),
            );
            (made.place, end)
        }
    };
    kids.push(last)?;
    Ok(node(made.alloc, place, Ty::Bool, KerOp::And, kids))
}

// One arm more: its branch, and its guard among those in front of the next.
fn add_arm(
    made: &Made,
    front: &mut Vec<Ker>,
    branches: &mut Vec<Ker>,
    guard: Ker,
    branch: Ker,
) -> Result<(), AllocError>
    ensures guards { OnOk result (front.new.items ≡ front.old.items ++ guard ∷ []) }
    ensures branches { OnOk result (branches.new.items ≡ branches.old.items ++ arm_node made.now.place front.old.items guard branch ∷ []) }
{
    let copied = copy_ker(made.alloc, &guard)?;
    let split = arm(made, front.as_slice(), guard, branch)?;
    branches.push(split)?;
    front.push(copied)?;
    Ok(())
}

// The guards of all arms, and the branch of each behind those of the arms before it.
#[derive(Drop)]
struct Branches {
    front: Vec<Ker>,
    branches: Vec<Ker>,
}

fn branches_of(made: &Made, arms: Vec<(Ker, Ker)>) -> Result<Branches, AllocError>
    ensures { IfOk result (λ b. AreBranches made.now arms.items b.front.items b.branches.items) }
{
    let mut front = Vec::new(made.alloc);
    let mut branches = Vec::new(made.alloc);
    for (guard, branch) in arms {
        add_arm(made, &mut front, &mut branches, guard, branch)?;
    }
    Ok(Branches { front, branches })
}

// The branches with that behind all guards.
fn with_last(made: &Made, arms: Vec<(Ker, Ker)>, other: Option<Ker>) -> Result<Vec<Ker>, AllocError>
    ensures { IfOk result (λ ks. ks.items ≡ case_branches made.now.place bool_type [] arms.items other) }
{
    let Branches {
        front,
        mut branches,
    } = branches_of(made, arms)?;
    let last = last_branch(made, front.as_slice(), other)?;
    branches.push(last)?;
    Ok(branches)
}

/// A CASE that is split into paths.
pub(crate) fn split_case(made: &Made, kids: Vec<Ker>) -> Result<Ker, AllocError>
    ensures { IfOk result (λ k. IsSplitCase made.now kids.items k) }
{
    let Arms { arms, other } = arms_of(made.alloc, kids)?;
    let branches = with_last(made, arms, other)?;
    Ok(node(made.alloc, made.place, Ty::Bool, KerOp::Or, branches))
}
