// The steps of a path, with their assignments marked.
ghost use Rattle.std.specs.Prelude.{◌≡◌, ℕ, List, true};
ghost use Rattle.kernel_trees.specs.Assignments.{assignment, target};
ghost use Rattle.kernel_trees.specs.Paths.{Marks};
ghost use Rattle.kernel_trees.specs.declared.path.AssignedStep.TheVariants as mark;
ghost use Rattle.kernel_trees.specs.declared.path.PathStep.TheVariants as path;
ghost use Rattle.assignment_finder.specs.inner.Open.{IsOpen};
ghost use Rattle.assignment_finder.specs.inner.Steps.{IsEarlierFault, IsMarking, IsStep, told};

use crate::assign_fault::AssignFault;
use crate::endless::first_endless;
use crate::open_names::OpenNames;
use crate::reading::{Read, first_of_sets, first_read};
use kernel_trees::{AssignedStep, Ker, KerOp, PathStep, copy_ker, copy_sets};
use std::alloc::Global;
use tla_meaning::Place;
use tla_values::List;

// What an operand of the action assigns: nothing, the value of a tree, or a member of a form.
#[derive(Clone, Copy, Drop)]
pub(crate) enum Assignment<'a> {
    Nothing,
    Value(usize, &'a Ker),
    Member(usize, &'a Ker),
}

// The name that an assignment with this left side assigns.
fn target(free: &OpenNames, left: &KerOp) -> Option<usize>
    ensures { (m : Marks) (before : List ℕ) → IsOpen m before free.now → result ≡ target m before left.now }
{
    match left {
        KerOp::Name(name, primed) => {
            if free.holds(*name, *primed) {
                Some(*name)
            } else {
                None
            }
        }
        _ => None,
    }
}

fn assigned_by<'a>(free: &OpenNames, k: &'a Ker) -> Assignment<'a>
    ensures { (m : Marks) (before : List ℕ) → IsOpen m before free.now → told result ≡ assignment m before k.now }
{
    let [left, right] = k.args.as_slice() else {
        return Assignment::Nothing;
    };
    let Some(name) = target(free, &left.op) else {
        return Assignment::Nothing;
    };
    match &k.op {
        KerOp::Equal => Assignment::Value(name, right),
        KerOp::Member => Assignment::Member(name, right),
        _ => Assignment::Nothing,
    }
}

fn guard(
    alloc: Global,
    free: &OpenNames,
    k: &Ker,
    wanted: bool,
) -> Result<AssignedStep, AssignFault>
    ensures { IsStep free.now (mark.Guard k.now wanted) free.now result }
{
    if let Some(read) = first_read(free, k) {
        return Err(AssignFault::ReadEarly(read.name, read.place));
    }
    let copy = copy_ker(alloc, k)?;
    Ok(AssignedStep::Guard(copy, wanted))
}

fn pick(
    alloc: Global,
    free: &OpenNames,
    sets: &List<(u32, Ker)>,
) -> Result<AssignedStep, AssignFault>
    ensures { IsStep free.now (mark.Pick sets.now) free.now result }
{
    if let Some(read) = first_of_sets(free, sets.as_slice()) {
        return Err(AssignFault::ReadEarly(read.name, read.place));
    }
    let copy = copy_sets(alloc, sets)?;
    Ok(AssignedStep::Pick(copy))
}

fn value(
    alloc: Global,
    free: &mut OpenNames,
    name: usize,
    k: &Ker,
) -> Result<AssignedStep, AssignFault>
    ensures { IsStep free.old (mark.Equals name k.now) free.new result }
{
    if let Some(read) = first_read(free, k) {
        return Err(AssignFault::ReadEarly(read.name, read.place));
    }
    let copy = copy_ker(alloc, k)?;
    free.close(name);
    Ok(AssignedStep::Equals(name, copy))
}

// What is wrong with a form: the earlier place counts, and of two at one place the name.
fn form_fault(read: Option<Read>, place: Option<Place>) -> Option<AssignFault>
    ensures { IsEarlierFault read place result }
{
    match read {
        Some(read) => match place {
            Some(place) => {
                if place.is_before(read.place) {
                    Some(AssignFault::Infinite(place))
                } else {
                    Some(AssignFault::ReadEarly(read.name, read.place))
                }
            }
            None => Some(AssignFault::ReadEarly(read.name, read.place)),
        },
        None => match place {
            Some(place) => Some(AssignFault::Infinite(place)),
            None => None,
        },
    }
}

fn member(
    alloc: Global,
    free: &mut OpenNames,
    name: usize,
    form: &Ker,
) -> Result<AssignedStep, AssignFault>
    ensures { IsStep free.old (mark.Among name form.now) free.new result }
{
    let place = first_endless(alloc, form)?;
    if let Some(fault) = form_fault(first_read(free, form), place) {
        return Err(fault);
    }
    let copy = copy_ker(alloc, form)?;
    free.close(name);
    Ok(AssignedStep::Among(name, copy))
}

// An operand that is to be TRUE.
fn operand(alloc: Global, free: &mut OpenNames, k: &Ker) -> Result<AssignedStep, AssignFault>
    ensures { IsMarking (path.Guard k.now true) free.old free.new result }
{
    match assigned_by(free, k) {
        Assignment::Nothing => guard(alloc, free, k, true),
        Assignment::Value(name, right) => value(alloc, free, name, right),
        Assignment::Member(name, form) => member(alloc, free, name, form),
    }
}

// The step with its assignment, if it is one.
pub(crate) fn mark(
    alloc: Global,
    free: &mut OpenNames,
    step: &PathStep,
) -> Result<AssignedStep, AssignFault>
    ensures { IsMarking step.now free.old free.new result }
{
    match step {
        PathStep::Guard(k, wanted) => {
            if *wanted {
                operand(alloc, free, k)
            } else {
                guard(alloc, free, k, false)
            }
        }
        PathStep::Pick(sets) => pick(alloc, free, sets),
    }
}
