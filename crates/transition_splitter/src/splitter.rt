// Taking an action apart into its paths.
ghost use Rattle.transition_splitter.specs.Splitting.{IsSplit};

use crate::counts::count;
use crate::routes::routes;
use crate::split_fault::SplitFault;
use crate::telling::tell_all;
use kernel_trees::{ActionKind, Ker, KerPath, marks_of};
use std::alloc::Global;
use tla_meaning::Decl;
use tla_values::List;

const MOST_PATHS: u64 = 4096;

/// The paths of CInit, Init or Next, from left to right: 1 to 4,096, each at the root of the last branch that it takes
/// or, where it takes none, of `part`.
///
/// The names are those of the job: constants first, then variables. Only how many there are counts, and how many of
/// these are constants.
///
/// `TooManyPaths` comes exactly where there are more than 4,096. The paths are counted first, without memory; `Memory`
/// comes where none was left to make them.
pub fn split(
    alloc: Global,
    part: &Ker,
    names: &List<Decl>,
    kind: ActionKind,
) -> Result<List<KerPath>, SplitFault>
    ensures { IsSplit kind names.now part.now result }
{
    let declared = names.as_slice();
    let marked = marks_of(declared, kind);
    let number = count(marked, part).total();
    if number > MOST_PATHS {
        return Err(SplitFault::TooManyPaths(number));
    }
    let made = routes(alloc, marked, part)?;
    let found = made.as_slice();
    let paths = tell_all(alloc, part, found)?;
    Ok(paths)
}
