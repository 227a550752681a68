// Jobs as kernel trees.
ghost use Rattle.std.specs.Prelude.{◌≡◌, IfOk, [], map};
ghost use Rattle.kernel_reduction.specs.BuildsTyped.{BuildsTyped};
ghost use Rattle.kernel_reduction.specs.BuiltJobs.{IsBuilt};
ghost use Rattle.kernel_reduction.specs.Kernels.{IsKernelOf, IsReduced, IsSoundKernel};
ghost use Rattle.kernel_reduction.specs.WellFormed.{is_well_formed};
ghost use Rattle.kera_reducer.specs.inner.Parts.{ArePartsBuilt};
ghost use Rattle.kernel_trees.specs.Systems.{constants_first};

use crate::finite::least_infinite;
use crate::kinded::are_kinded;
use crate::reducer::Reducer;
use crate::separating::are_apart;
use crate::texts::texts_of;
use crate::wholes::is_whole_job;
use kernel_trees::{ActionKind, Ker, KerFault, KerJob, marks_of};
use snowcat_rows::{Ty, Typed, copy_type};
use std::alloc::{AllocError, Global};
use tla_meaning::{Assignable, Decl, Expr, Job};
use tla_values::{List, Text};

// A part in its position, of all of its types.
fn part(
    alloc: Global,
    e: &Expr,
    types: &List<Ty>,
    position: Option<Assignable>,
) -> Result<Ker, AllocError>
    ensures { IfOk result (λ k. BuildsTyped position [] e.now types.now k []) }
{
    let mut reducer = Reducer {
        alloc,
        types: types.as_slice(),
        names: Vec::new(alloc),
    };
    let tree = reducer.expression(e, position)?;
    if reducer.types.is_empty() {
        Ok(tree)
    } else {
        Err(AllocError)
    }
}

fn invariants(
    alloc: Global,
    invs: &[(Text, Expr)],
    types: &[List<Ty>],
) -> Result<List<Ker>, AllocError>
    ensures { IfOk result (λ ks. ArePartsBuilt (map (λ v. v.1) invs.now) types.now ks) }
{
    if types.len() != invs.len() {
        return Err(AllocError);
    }
    let mut trees = Vec::new(alloc);
    for i in 0..invs.len() {
        trees.push(part(alloc, &invs[i].1, &types[i], None)?)?;
    }
    Ok(List::from_vec(trees))
}

fn copy_types(alloc: Global, types: &[Ty]) -> Result<List<Ty>, AllocError>
    ensures { IfOk result (λ ts. ts ≡ types.now) }
{
    let mut copied = Vec::new(alloc);
    for ty in types {
        copied.push(copy_type(alloc, ty)?)?;
    }
    Ok(List::from_vec(copied))
}

fn constants(alloc: Global, names: &[Decl]) -> Result<List<bool>, AllocError>
    ensures { IfOk result (λ bs. bs ≡ map (λ d. d.constant) names.now) }
{
    let mut fixed = Vec::new(alloc);
    for name in names {
        fixed.push(name.constant)?;
    }
    Ok(List::from_vec(fixed))
}

// Whether no constant stands behind a variable.
fn constants_first(names: &[Decl]) -> bool
    ensures { result ≡ constants_first (map (λ d. d.constant) names.now) }
{
    let mut is_behind = false;
    for name in names {
        if is_behind && name.constant {
            return false;
        }
        is_behind = !name.constant;
    }
    true
}

fn is_well_formed(job: &Job, typed: &Typed) -> bool
    ensures { result ≡ is_well_formed job.now typed.now }
{
    let count = typed.names.as_slice().len();
    let names = job.names.as_slice();
    is_whole_job(count, job)
        && are_kinded(typed)
        && count == names.len()
        && constants_first(names)
        && are_apart(job)
}

fn kernel_of(alloc: Global, job: &Job, typed: &Typed) -> Result<KerJob, AllocError>
    ensures { IfOk result (λ k. IsKernelOf job.now typed.now k) }
{
    if !is_well_formed(job, typed) {
        return Err(AllocError);
    }
    let [of_cinit, of_assume, of_init, of_next, of_invs @ ..] = typed.parts.as_slice() else {
        return Err(AllocError);
    };
    let names = job.names.as_slice();
    let tested = job.invs.as_slice();
    let in_cinit = marks_of(names, ActionKind::Constants).assignable;
    let in_init = marks_of(names, ActionKind::Start).assignable;
    let in_next = marks_of(names, ActionKind::Step).assignable;
    let cinit = part(alloc, &job.cinit, of_cinit, Some(in_cinit))?;
    let assume = part(alloc, &job.assume, of_assume, None)?;
    let init = part(alloc, &job.init, of_init, Some(in_init))?;
    let next = part(alloc, &job.next, of_next, Some(in_next))?;
    let invs = invariants(alloc, tested, of_invs)?;
    let types = copy_types(alloc, typed.names.as_slice())?;
    let fixed = constants(alloc, names)?;
    let texts = texts_of(alloc, job)?;
    Ok(KerJob {
        names: types,
        fixed,
        texts,
        cinit,
        assume,
        init,
        next,
        invs,
    })
}

/// The kernel trees of a job, whose nodes have these types: of the same outcomes, with the same paths of actions. A job
/// in which an infinite set stands outside a form position has none, and the least place of such a set is told. So it is
/// of a job whose trees are whole, whose types have kinds and whose EXCEPTs are apart, as those of modules are; of another one
/// it answers want of memory. Where the types are those of a typing, the kernel is sound.
/// (Konnov, Kukovec and Tran, OOPSLA 2019, on the language KerA+.)
pub fn reduce(alloc: Global, job: &Job, typed: &Typed) -> Result<KerJob, KerFault>
    ensures kernel { IfOk result (λ k. IsKernelOf job.now typed.now k) }
    ensures built { IfOk result (λ k. IsBuilt job.now k) }
    ensures refusal { IsReduced job.now result }
    ensures sound { IfOk result (λ k. IsSoundKernel job.now typed.now k) }
{
    if let Some(place) = least_infinite(job) {
        return Err(KerFault::NotFinite(place));
    }
    let kernel = kernel_of(alloc, job, typed)?;
    Ok(kernel)
}
