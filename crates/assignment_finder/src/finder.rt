// The assignments on a path.
ghost use Rattle.std.specs.Prelude.{◌≡◌, [], IfErr, IfOk};
ghost use Rattle.kernel_trees.specs.ActionNames.{marks};
ghost use Rattle.kernel_trees.specs.Assignments.{is_ended, path_ended};
ghost use Rattle.assignment_finder.specs.Finding.{IsFound};
ghost use Rattle.assignment_finder.specs.inner.Open.{IsOpen};
ghost use Rattle.assignment_finder.specs.inner.Steps.{IsFirstRefusal, IsWalked};
ghost use Rattle.kernel_trees.specs.Assignments.{marked};
ghost use Rattle.kernel_trees.specs.Paths.{Marks};

use crate::assign_fault::AssignFault;
use crate::marking::mark;
use crate::open_names::{OpenNames, all_open};
use kernel_trees::{ActionKind, Assigned, AssignedStep, KerPath, PathStep, is_end, marks_of};
use std::alloc::Global;
use tla_meaning::Decl;
use tla_values::List;

// Whether a path ends with this step, an operand that is never TRUE.
fn is_ended(step: &PathStep) -> bool
    ensures { result ≡ is_ended step.now }
{
    match step {
        PathStep::Guard(k, wanted) => *wanted && is_end(&k.op),
        PathStep::Pick(_) => false,
    }
}

fn has_ended(steps: &[PathStep]) -> bool
    ensures { result ≡ path_ended steps.now }
{
    match steps.last() {
        Some(step) => is_ended(step),
        None => false,
    }
}

// All steps with their assignments, where no name was assigned before.
fn mark_all(
    alloc: Global,
    free: &mut OpenNames,
    steps: &[PathStep],
) -> Result<Vec<AssignedStep>, AssignFault>
    ensures walked { IfOk result (λ zs. (m : Marks) → IsOpen m [] free.old → IsWalked m steps.now zs.items free.new) }
    ensures refused { IfErr result (λ f. (m : Marks) → IsOpen m [] free.old → IsFirstRefusal m [] (marked m [] steps.now) f) }
{
    let mut found = Vec::new(alloc);
    for step in steps {
        found.reserve(1)?;
        let next = mark(alloc, free, step)?;
        found.push_reserved(next);
    }
    Ok(found)
}

/// The path with its assignments marked: the first `x' = e` or `x' \in S` of each name that the action may assign (of
/// `x`, in CInit and Init). Each such name is assigned, unless the last step is an operand that is never TRUE, and none is
/// read before.
///
/// The names are those of the job, constants first.
///
/// The first step that is not fine decides, and in it the first place: `ReadEarly` where a name is read there before its
/// assignment, and `Infinite` where an infinite set stands there that the form of a membership is or has as a part; the
/// domain of a function set is no part. The end of the path comes last: `Unassigned` with the first name that is lacking.
pub fn assign(
    alloc: Global,
    path: &KerPath,
    names: &List<Decl>,
    kind: ActionKind,
) -> Result<Assigned, AssignFault>
    ensures { IsFound kind names.now path.now result }
{
    let mut free = all_open(alloc, marks_of(names.as_slice(), kind))?;
    let given = path.steps.as_slice();
    let found = mark_all(alloc, &mut free, given)?;
    if !has_ended(given) {
        if let Some(name) = free.first_open() {
            return Err(AssignFault::Unassigned(name, path.place));
        }
    }
    Ok(Assigned {
        place: path.place,
        steps: List::from_vec(found),
    })
}
