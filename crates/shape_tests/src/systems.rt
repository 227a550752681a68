// A job's kernel and its system.
use assignment_finder::{AssignFault, assign};
use kera_reducer::reduce;
use kernel_trees::{ActionKind, Assigned, Ker, KerFault, KerJob, System};
use snowcat_types::{TypeFault, is_typable, typing};
use std::alloc::{AllocError, Global};
use tla_meaning::{Decl, Job};
use tla_values::List;
use transition_splitter::{SplitFault, split};

/// What a job has none of.
#[derive(Clone, Copy, Drop)]
pub(crate) struct Missing(pub(crate) &'static str);

impl From<AllocError> for Missing {
    fn from(_: AllocError) -> Self {
        Missing("no memory")
    }
}

impl From<TypeFault> for Missing {
    fn from(_: TypeFault) -> Self {
        Missing("no types")
    }
}

impl From<KerFault> for Missing {
    fn from(_: KerFault) -> Self {
        Missing("no kernel")
    }
}

impl From<SplitFault> for Missing {
    fn from(_: SplitFault) -> Self {
        Missing("no paths")
    }
}

impl From<AssignFault> for Missing {
    fn from(_: AssignFault) -> Self {
        Missing("no assignments")
    }
}

pub(crate) fn kernel_of(alloc: Global, job: &Job) -> Result<KerJob, Missing> {
    if !is_typable(alloc, job)? {
        return Err(Missing("names that are not bound"));
    }
    let typed = typing(alloc, job)?;
    let kernel = reduce(alloc, job, &typed)?;
    Ok(kernel)
}

fn paths_of(
    alloc: Global,
    names: &List<Decl>,
    part: &Ker,
    kind: ActionKind,
) -> Result<List<Assigned>, Missing> {
    let paths = split(alloc, part, names, kind)?;
    let mut assigned = Vec::new(alloc);
    for path in paths.as_slice() {
        assigned.reserve(1)?;
        let next = assign(alloc, path, names, kind)?;
        assigned.push_reserved(next);
    }
    Ok(List::from_vec(assigned))
}

// The paths of CInit, Init and Next.
#[derive(Drop)]
struct Paths {
    constants: List<Assigned>,
    start: List<Assigned>,
    next: List<Assigned>,
}

fn all_paths(alloc: Global, names: &List<Decl>, kernel: &KerJob) -> Result<Paths, Missing> {
    let constants = paths_of(alloc, names, &kernel.cinit, ActionKind::Constants)?;
    let start = paths_of(alloc, names, &kernel.init, ActionKind::Start)?;
    let next = paths_of(alloc, names, &kernel.next, ActionKind::Step)?;
    Ok(Paths {
        constants,
        start,
        next,
    })
}

pub(crate) fn system_of(
    alloc: Global,
    names: &List<Decl>,
    kernel: KerJob,
) -> Result<System, Missing> {
    match all_paths(alloc, names, &kernel) {
        Ok(paths) => Ok(System {
            ker: kernel,
            constants: paths.constants,
            start: paths.start,
            next: paths.next,
        }),
        Err(missing) => {
            drop(kernel);
            Err(missing)
        }
    }
}
