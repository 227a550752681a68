//! A job's paths.

ghost use Rattle.kernel_trees.specs.ActionNames.{constants, marks_of};
ghost use Rattle.kernel_trees.specs.Systems.{sound_job};
ghost use Rattle.path_cell_tests.specs.Tested.{ArePaths, AreVariables, IsPathOf, IsTestedSystem};
ghost use Rattle.std.specs.Prelude.{◌≡◌, All, IfOk, IsTrue};

use assignment_finder::{AssignFault, assign};
use kera_reducer::reduce;
use kernel_trees::{ActionKind, Assigned, Ker, KerFault, KerJob, System};
use snowcat_types::{TypeFault, is_typable, typing, typings_meet_rows};
use std::alloc::{AllocError, Global};
use tla_meaning::{Decl, Job};
use tla_values::List;
use transition_splitter::{SplitFault, split};

/// What a job has none of.
#[derive(Clone, Copy, Drop)]
pub(crate) struct Missing(pub(crate) &'static str);

impl From<AllocError> for Missing {
    fn from(_: AllocError) -> Self {
        Missing("no memory")
    }
}

impl From<TypeFault> for Missing {
    fn from(_: TypeFault) -> Self {
        Missing("no types")
    }
}

impl From<KerFault> for Missing {
    fn from(_: KerFault) -> Self {
        Missing("no kernel")
    }
}

impl From<SplitFault> for Missing {
    fn from(_: SplitFault) -> Self {
        Missing("no paths")
    }
}

impl From<AssignFault> for Missing {
    fn from(_: AssignFault) -> Self {
        Missing("no assignments")
    }
}

pub(crate) fn kernel_of(alloc: Global, job: &Job) -> Result<KerJob, Missing>
    ensures { IfOk result (λ k. IsTrue (sound_job k)) }
{
    if !is_typable(alloc, job)? {
        return Err(Missing("names that are not bound"));
    }
    typings_meet_rows();
    let typed = typing(alloc, job)?;
    let kernel = reduce(alloc, job, &typed)?;
    Ok(kernel)
}

// The paths of an action.
fn paths_of(
    alloc: Global,
    names: &List<Decl>,
    part: &Ker,
    kind: ActionKind,
) -> Result<List<Assigned>, Missing>
    ensures { IfOk result (All (IsPathOf (marks_of kind names.now) part.now)) }
{
    let paths = split(alloc, part, names, kind)?;
    let split = paths.as_slice();
    let mut assigned = Vec::new(alloc);
    for i in 0..split.len() {
        let path = &split[i];
        assigned.reserve(1)?;
        let next = assign(alloc, path, names, kind)?;
        assigned.push_reserved(next);
    }
    Ok(List::from_vec(assigned))
}

fn count_of_constants(names: &[Decl]) -> usize
    ensures { result ≡ constants names.now }
{
    names.iter().filter(|name| name.constant).count()
}

fn has_no_constant(names: &[Decl]) -> bool
    ensures { IsTrue result → constants names.now ≡ 0 }
{
    count_of_constants(names) == 0
}

// Whether all names of the kernel are variables.
fn are_variables(names: &[Decl], kernel: &KerJob) -> bool
    ensures { IsTrue result → AreVariables names.now kernel.now }
{
    has_no_constant(names) && names.len() == kernel.names.len()
}

// The paths of Init and Next.
#[derive(Drop)]
struct Paths {
    start: List<Assigned>,
    next: List<Assigned>,
}

fn all_paths(alloc: Global, names: &List<Decl>, kernel: &KerJob) -> Result<Paths, Missing>
    ensures { IfOk result (λ p. ArePaths names.now kernel.now p.start p.next) }
{
    let start = paths_of(alloc, names, &kernel.init, ActionKind::Start)?;
    let next = paths_of(alloc, names, &kernel.next, ActionKind::Step)?;
    Ok(Paths { start, next })
}

/// The system of a kernel whose names are all variables.
pub(crate) fn system_of(
    alloc: Global,
    names: &List<Decl>,
    kernel: KerJob,
) -> Result<System, Missing>
    requires { IsTrue (sound_job kernel) }
    ensures { IfOk result IsTestedSystem }
{
    if !are_variables(names.as_slice(), &kernel) {
        drop(kernel);
        return Err(Missing("no variables"));
    }
    match all_paths(alloc, names, &kernel) {
        Ok(paths) => Ok(System {
            ker: kernel,
            constants: List::new(alloc),
            start: paths.start,
            next: paths.next,
        }),
        Err(missing) => {
            drop(kernel);
            Err(missing)
        }
    }
}
