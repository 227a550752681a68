// What the annotations of a job say.
ghost use Rattle.std.specs.Prelude.{All, IfOk};
ghost use Rattle.snowcat_types.specs.Annotated.{IsAnnotated};
ghost use Rattle.snowcat_types.specs.inner.Gathered.{ToldNamed};
ghost use Rattle.snowcat_types.specs.inner.Telling.{IsNotAnnotated, IsTold};

use crate::faults::TypeFault;
use crate::hearing::hear_job;
use crate::names::{first_without, read_names};
use crate::told::Told;
use snowcat_rows::Aliases;
use std::alloc::Global;
use tla_meaning::{Decl, Job};
use tla_values::{List, copy_text};

fn not_annotated(alloc: Global, decl: &Decl) -> TypeFault
    ensures { IsNotAnnotated decl.now result }
{
    match copy_text(alloc, &decl.name) {
        Ok(name) => TypeFault::NotAnnotated(name, decl.place),
        Err(fault) => TypeFault::Memory(fault),
    }
}

// What they say where each name has one.
fn told_by_all(alloc: Global, job: &Job) -> Result<Told, TypeFault>
    requires annotated { All IsAnnotated job.now.names }
    ensures told { IsTold job.now result }
    ensures named { IfOk result ToldNamed }
{
    let aliases = Aliases::of(alloc, &job.aliases)?;
    let names = read_names(alloc, &aliases, job.names.as_slice())?;
    let heard = hear_job(alloc, &aliases, job, names.worst)?;
    match heard.worst {
        Some(place) => Err(TypeFault::BadAnnotation(place)),
        None => Ok(Told {
            declared: List::from_vec(names.types),
            notes: List::from_vec(heard.known),
        }),
    }
}

/// What the annotations of a job say; or the first name without one; or the least place at which one is no type.
pub(crate) fn told(alloc: Global, job: &Job) -> Result<Told, TypeFault>
    ensures told { IsTold job.now result }
    ensures named { IfOk result ToldNamed }
{
    match first_without(job.names.as_slice()) {
        Some(decl) => Err(not_annotated(alloc, decl)),
        None => told_by_all(alloc, job),
    }
}
