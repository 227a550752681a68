// The paths of CInit, Init and Next, and their assignments.
ghost use Rattle.std.specs.Prelude.{MatchResult};
ghost use Rattle.front_end.specs.Accepted.{AreAssigned, actions};
ghost use Rattle.front_end.specs.Refused.{IsFirstPath, IsFirstSplit};
ghost use Rattle.front_end.specs.inner.Stages.{AreAllAssigned, AreSplit, IsFirstUnassigned};

use assignment_finder::{AssignFault, assign};
use kernel_trees::{ActionKind, Assigned, KerJob, KerPath};
use std::alloc::Global;
use tla_meaning::Decl;
use tla_values::List;
use transition_splitter::{SplitFault, split};

// The paths of CInit, Init and Next.
#[derive(Drop)]
pub(crate) struct Paths {
    pub(crate) constants: List<KerPath>,
    pub(crate) start: List<KerPath>,
    pub(crate) next: List<KerPath>,
}

// The same with their assignments.
#[derive(Drop)]
pub(crate) struct Assignments {
    pub(crate) constants: List<Assigned>,
    pub(crate) start: List<Assigned>,
    pub(crate) next: List<Assigned>,
}

// All three are split before any path is looked at.
pub(crate) fn split_all(
    alloc: Global,
    names: &List<Decl>,
    ker: &KerJob,
) -> Result<Paths, SplitFault>
    ensures { MatchResult result (AreSplit names.now ker.now) (IsFirstSplit names.now (actions ker.now)) }
{
    let constants = split(alloc, &ker.cinit, names, ActionKind::Constants)?;
    let start = split(alloc, &ker.init, names, ActionKind::Start)?;
    let next = split(alloc, &ker.next, names, ActionKind::Step)?;
    Ok(Paths {
        constants,
        start,
        next,
    })
}

// Each path with its assignments.
fn assign_each(
    alloc: Global,
    names: &List<Decl>,
    paths: &List<KerPath>,
    kind: ActionKind,
) -> Result<List<Assigned>, AssignFault>
    ensures { MatchResult result (AreAssigned kind names.now paths.now) (IsFirstPath kind names.now paths.now) }
{
    let given = paths.as_slice();
    let mut found = Vec::new(alloc);
    for path in given {
        found.reserve(1)?;
        let next = assign(alloc, path, names, kind)?;
        found.push_reserved(next);
    }
    Ok(List::from_vec(found))
}

pub(crate) fn assign_all(
    alloc: Global,
    names: &List<Decl>,
    paths: &Paths,
) -> Result<Assignments, AssignFault>
    ensures { MatchResult result (AreAllAssigned names.now paths.now) (IsFirstUnassigned names.now paths.now) }
{
    let constants = assign_each(alloc, names, &paths.constants, ActionKind::Constants)?;
    let start = assign_each(alloc, names, &paths.start, ActionKind::Start)?;
    let next = assign_each(alloc, names, &paths.next, ActionKind::Step)?;
    Ok(Assignments {
        constants,
        start,
        next,
    })
}
