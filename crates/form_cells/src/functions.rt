//! The arguments and results of functions.

ghost use Rattle.cell_arena.specs.Growth.{Grows};
ghost use Rattle.cell_merge.specs.Edges.{OneSort};
ghost use Rattle.form_cells.specs.inner.Listed.{AreArguments, FunctionAndSet, GivesResults, IsParted, ListsMembers};
ghost use Rattle.std.specs.Prelude.{IfOk};

use crate::parts::members_of;
use cell_arena::{Build, CellId};
use cell_merge::{known, same};
use function_rewriter::{at, domain};
use sat_formula::Lit;
use std::alloc::AllocError;

// For each argument that may be there the result. An arrow behind another one of its argument counts nowhere, since
// the function is applied.
#[tactic(auto, using(cell_arena::proofs::Growing::growing))]
fn results_at(
    b: &mut Build,
    f: CellId,
    arguments: &[(Lit, CellId)],
) -> Result<Vec<(Lit, CellId)>, AllocError>
    requires { AreArguments b.old f arguments.now }
    ensures gives { IfOk result (λ es. GivesResults b.old b.new f arguments.now es.items) }
    ensures grows { Grows b.old b.new }
{
    let mut results = Vec::new(b.arena.alloc());
    for i in 0..arguments.len() {
        let argument = arguments[i];
        if let Some(false) = known(&b.formula, argument.0) {
            continue;
        }
        if let Some((cell, _)) = at(b, f, argument.1)? {
            results.push((argument.0, cell))?;
        }
    }
    Ok(results)
}

/// A literal that is true exactly where the set is the domain of the function, and the results of its arguments.
#[tactic(auto, using(cell_arena::proofs::Growing::growing))]
pub(crate) fn domain_and_results(
    b: &mut Build,
    f: CellId,
    s: CellId,
) -> Result<(Lit, Vec<(Lit, CellId)>), AllocError>
    requires { FunctionAndSet b.old.arena.kinds f s }
    ensures parted { IfOk result (λ r. IsParted b.old b.new f s (r.0, r.1.items)) }
    ensures grows { Grows b.old b.new }
{
    let arguments = domain(b, f)?;
    let agrees = same(b, arguments, s)?;
    let edges = members_of(b, arguments)?;
    let results = results_at(b, f, edges.as_slice())?;
    Ok((agrees, results))
}
