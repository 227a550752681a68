// Paths with trees of their own, from routes.
ghost use Rattle.std.specs.Prelude.{◌≡◌, IfOk, map, zip};
ghost use Rattle.kernel_trees.specs.Paths.{path_of, place_or, step_of};
ghost use Rattle.transition_splitter.specs.inner.Routes.{step_lent, way, ways_by};

use crate::routes::{LentStep, Route};
use kernel_trees::{Ker, KerPath, PathStep, copy_ker};
use std::alloc::{AllocError, Global};
use tla_values::List;

fn copy_choice(alloc: Global, numbers: &[u32], sets: &[Ker]) -> Result<List<(u32, Ker)>, AllocError>
    ensures { IfOk result (λ ps. ps ≡ zip numbers.now sets.now) }
{
    let mut picks = Vec::new(alloc);
    for (number, set) in numbers.iter().zip(sets) {
        let copied = copy_ker(alloc, set)?;
        picks.push((*number, copied))?;
    }
    Ok(List::from_vec(picks))
}

fn copy_lent(alloc: Global, step: &LentStep) -> Result<PathStep, AllocError>
    ensures { IfOk result (λ s. s ≡ step_of (step_lent step.now)) }
{
    match step {
        LentStep::Holds(k) => Ok(PathStep::Guard(copy_ker(alloc, k)?, true)),
        LentStep::Branch(_, guard, wanted) => Ok(PathStep::Guard(copy_ker(alloc, guard)?, *wanted)),
        LentStep::Choice(k) => {
            let picks = copy_choice(alloc, k.binds.as_slice(), k.args.as_slice())?;
            Ok(PathStep::Pick(picks))
        }
    }
}

fn copy_steps(alloc: Global, steps: &[LentStep]) -> Result<List<PathStep>, AllocError>
    ensures { IfOk result (λ ss. ss ≡ map step_of (map step_lent steps.now)) }
{
    let mut copied = Vec::new(alloc);
    for step in steps {
        let item = copy_lent(alloc, step)?;
        copied.push(item)?;
    }
    Ok(List::from_vec(copied))
}

// The path by this route through an action.
fn path_by(alloc: Global, action: &Ker, route: &Route) -> Result<KerPath, AllocError>
    ensures { IfOk result (λ p. p ≡ path_of action.now (way route.now)) }
{
    let steps = copy_steps(alloc, route.steps.as_slice())?;
    Ok(KerPath {
        place: route.taken.unwrap_or(action.place),
        steps,
    })
}

// The paths by these routes.
pub(crate) fn tell_all(
    alloc: Global,
    action: &Ker,
    routes: &[Route],
) -> Result<List<KerPath>, AllocError>
    ensures { IfOk result (λ ps. ps ≡ map (path_of action.now) (ways_by routes.now)) }
{
    let mut paths = Vec::new(alloc);
    for route in routes {
        let path = path_by(alloc, action, route)?;
        paths.push(path)?;
    }
    Ok(List::from_vec(paths))
}
