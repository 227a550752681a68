// What is made of a job: its types, its kernel, the kernel's paths and shapes.
ghost use Rattle.std.specs.Prelude.{◌≡◌, IsTrue, List as Items, MatchResult};
ghost use Rattle.front_end.specs.Accepted.{IsInFiles, IsSystem};
ghost use Rattle.front_end.specs.Refused.{IsJobRefusal, IsKernelRefusal, IsTypedRefusal};
ghost use Rattle.front_end.specs.Requests.{IsRequest};
ghost use Rattle.front_end.specs.inner.Stages.{AreSplit, IsBounded, IsKernelBounded, IsMade, IsMadeBy};
ghost use Rattle.snowcat_types.specs.Answers.{IsTypedAs, is_typable};
ghost use Rattle.tla_meaning.specs.declared.expr.Decl.{Decl as Name};

use crate::bounding::{Bounded, shapes_of};
use crate::fault::{FrontFault, of_assign, of_ker, of_shape, of_split, of_type};
use crate::request::Request;
use crate::splitting::{Paths, assign_all, split_all};
use fault_places::are_places_below;
use kera_reducer::reduce;
use kernel_trees::{KerJob, System};
use snowcat_rows::Typed;
use snowcat_types::{is_typable, typing, typings_meet_rows};
use std::alloc::{AllocError, Global};
use tla_meaning::{Decl, Job};
use tla_values::List;

// What is made of a job.
#[derive(Drop)]
pub(crate) struct Made {
    pub(crate) typed: Typed,
    pub(crate) bounded: Bounded,
}

// Of a system.
fn of_system(alloc: Global, request: &Request, system: System) -> Result<Bounded, FrontFault>
    requires { IsRequest request.now }
    ensures { MatchResult result (λ b. (b.system ≡ system) × IsBounded request.now system b.shapes)
        (λ f. (names : Items Name) → IsSystem names system → IsKernelRefusal request.now names system.ker f) }
{
    match shapes_of(alloc, request, &system) {
        Ok(shapes) => Ok(Bounded { system, shapes }),
        Err(fault) => Err(of_shape(fault)),
    }
}

// Of a kernel with these paths.
fn of_paths(
    alloc: Global,
    request: &Request,
    names: &List<Decl>,
    ker: KerJob,
    paths: &Paths,
) -> Result<Bounded, FrontFault>
    requires request { IsRequest request.now }
    requires split { AreSplit names.now ker paths.now }
    ensures { MatchResult result (IsKernelBounded request.now names.now ker)
        (IsKernelRefusal request.now names.now ker) }
{
    match assign_all(alloc, names, paths) {
        Ok(assigned) => {
            let system = System {
                ker,
                constants: assigned.constants,
                start: assigned.start,
                next: assigned.next,
            };
            of_system(alloc, request, system)
        }
        Err(fault) => Err(of_assign(fault)),
    }
}

// Of a kernel.
fn of_kernel(
    alloc: Global,
    request: &Request,
    names: &List<Decl>,
    ker: KerJob,
) -> Result<Bounded, FrontFault>
    requires { IsRequest request.now }
    ensures { MatchResult result (IsKernelBounded request.now names.now ker)
        (IsKernelRefusal request.now names.now ker) }
{
    match split_all(alloc, names, &ker) {
        Ok(paths) => of_paths(alloc, request, names, ker, &paths),
        Err(fault) => Err(of_split(fault)),
    }
}

// Of a job with these types.
fn of_typed(
    alloc: Global,
    request: &Request,
    job: &Job,
    typed: &Typed,
) -> Result<Bounded, FrontFault>
    requires request { IsRequest request.now }
    requires bound { IsTrue (is_typable job.now) }
    requires typed { IsTypedAs job.now typed.now }
    ensures { MatchResult result (IsMadeBy request.now job.now typed.now)
        (IsTypedRefusal request.now job.now typed.now) }
{
    typings_meet_rows();
    match reduce(alloc, job, typed) {
        Ok(ker) => of_kernel(alloc, request, &job.names, ker),
        Err(fault) => Err(of_ker(fault)),
    }
}

// The same with the types.
fn with_types(alloc: Global, request: &Request, job: &Job, typed: Typed) -> Result<Made, FrontFault>
    requires request { IsRequest request.now }
    requires placed { IsInFiles job.now }
    requires bound { IsTrue (is_typable job.now) }
    requires typed { IsTypedAs job.now typed }
    ensures { MatchResult result (IsMade request.now job.now) (IsJobRefusal request.now job.now) }
{
    match of_typed(alloc, request, job, &typed) {
        Ok(bounded) => Ok(Made { typed, bounded }),
        Err(fault) => Err(fault),
    }
}

// What is made of a job. Where modules are read, each place of its trees and names is in one of its files, and each name
// in the trees is bound. Both are asked, since no law says so yet; want of memory is answered, as the kernel does of trees
// that no module spells.
pub(crate) fn make(alloc: Global, request: &Request, job: &Job) -> Result<Made, FrontFault>
    requires { IsRequest request.now }
    ensures { MatchResult result (IsMade request.now job.now) (IsJobRefusal request.now job.now) }
{
    if !are_places_below(job, job.files.len()) {
        return Err(FrontFault::Memory(AllocError));
    }
    if !is_typable(alloc, job)? {
        return Err(FrontFault::Memory(AllocError));
    }
    match typing(alloc, job) {
        Ok(typed) => with_types(alloc, request, job, typed),
        Err(fault) => Err(of_type(fault)),
    }
}
