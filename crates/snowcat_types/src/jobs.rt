// The types of a job.
ghost use Rattle.std.specs.Prelude.{◌≡◌, IfOk, IsTrue, map};
ghost use Rattle.snowcat_rows.specs.Closing.{closing};
ghost use Rattle.snowcat_rows.specs.Substitutions.{apply, then_sub};
ghost use Rattle.snowcat_rows.specs.Views.{settled_by};
ghost use Rattle.snowcat_types.specs.Answers.{HaveDistinctNames, IsAnswered, is_typable};
ghost use Rattle.snowcat_types.specs.inner.Built.{means};
ghost use Rattle.snowcat_types.specs.inner.Gathered.{IsNamed, PartsNamed, SystemNamed, TypesNamed, system_of_built};
ghost use Rattle.snowcat_types.specs.inner.Runs.{IsFitting, IsOutcome};
ghost use Rattle.snowcat_rows.specs.Types.{mean};

use crate::annotations::told;
use crate::faults::TypeFault;
use crate::gathered::System;
use crate::gathering::gather;
use crate::solving::solve;
use snowcat_rows::{Settled, Ty, Typed, closed};
use std::alloc::{AllocError, Global};
use tla_meaning::Job;
use tla_values::List;

// What stands for the type, closed.
fn closed_type(alloc: Global, settled: &Settled, t: &Ty) -> Result<Ty, AllocError>
    requires { IsNamed t.now }
    ensures mean { IfOk result (λ r. mean r ≡ apply (then_sub closing (settled_by settled.now)) (mean t.now)) }
    ensures named { IfOk result (λ r. IsNamed r) }
{
    let solved = settled.resolved(alloc, t)?;
    let whole = closed(alloc, &solved)?;
    Ok(whole)
}

fn closed_types(alloc: Global, settled: &Settled, types: &[Ty]) -> Result<List<Ty>, AllocError>
    requires { TypesNamed types.now }
    ensures mean { IfOk result (λ rs. means rs ≡ map (apply (then_sub closing (settled_by settled.now))) (means types.now)) }
    ensures named { IfOk result (λ rs. TypesNamed rs) }
{
    let mut whole = Vec::new(alloc);
    for t in types {
        whole.push(closed_type(alloc, settled, t)?)?;
    }
    Ok(List::from_vec(whole))
}

fn closed_parts(
    alloc: Global,
    settled: &Settled,
    parts: &[List<Ty>],
) -> Result<List<List<Ty>>, AllocError>
    requires { PartsNamed parts.now }
    ensures mean { IfOk result (λ rs. map means rs ≡ map (map (apply (then_sub closing (settled_by settled.now)))) (map means parts.now)) }
    ensures named { IfOk result (λ rs. PartsNamed rs) }
{
    let mut whole = Vec::new(alloc);
    for part in parts {
        whole.push(closed_types(alloc, settled, part.as_slice())?)?;
    }
    Ok(List::from_vec(whole))
}

// A typing of what the system asks.
fn types_of(alloc: Global, system: &System) -> Result<Typed, TypeFault>
    requires named { SystemNamed system.now }
    requires fitting { IsFitting (system_of_built system.now) }
    ensures outcome { IsOutcome (system_of_built system.now) result }
    ensures names { HaveDistinctNames result }
{
    let subst = solve(alloc, system)?;
    let settled = subst.settled(alloc)?;
    let names = closed_types(alloc, &settled, system.names.as_slice())?;
    let parts = closed_parts(alloc, &settled, system.parts.as_slice())?;
    Ok(Typed { names, parts })
}

/// A type for each declared name and each node of the job: a typing, where overloaded nodes whose types nothing decides
/// took their default, the first in the order of places first; or why there is none.
pub fn typing(alloc: Global, job: &Job) -> Result<Typed, TypeFault>
    requires typable { IsTrue (is_typable job.now) }
    ensures answer { IsAnswered job.now result }
    ensures names { HaveDistinctNames result }
{
    let told = told(alloc, job)?;
    let system = gather(alloc, told, job)?;
    types_of(alloc, &system)
}
