//! Two functions joined.

ghost use Rattle.cell_arena.specs.Decode.{decode};
ghost use Rattle.cell_arena.specs.Growth.{Grows};
ghost use Rattle.cell_merge.specs.Sorts.{FunctionsOfOneType, OfSort, function_of as function_sort};
ghost use Rattle.function_rewriter.specs.Arrows.{MakesFunction};
ghost use Rattle.function_rewriter.specs.Functions.{pairs_of};
ghost use Rattle.function_rewriter.specs.inner.Arrows.{Hides, JoinsArrows};
ghost use Rattle.std.specs.Prelude.{◌++◌, ◌≡◌, Bool, IfOk, IsTrue, List};
ghost use Rattle.tla_values.specs.Sets.{function_of};

use cell_arena::{Arena, Build, CellId, CellKind};
use cell_merge::known;
use sat_formula::{Formula, Lit};
use std::alloc::{AllocError, Global};
use tla_values::List;

// Whether an arrow that is always there leads from the cell.
fn is_hidden(formula: &Formula, arrows: &[(Lit, CellId, CellId)], cell: CellId) -> bool
    ensures { IsTrue result → Hides formula.now arrows.now cell }
{
    for (l, a, _) in arrows {
        if *a == cell {
            if let Some(true) = known(formula, *l) {
                return true;
            }
        }
    }
    false
}

// The arrows of the first function, and those of the second that are not hidden by one of these.
fn join_arrows(
    alloc: Global,
    formula: &Formula,
    es: &[(Lit, CellId, CellId)],
    fs: &[(Lit, CellId, CellId)],
) -> Result<Vec<(Lit, CellId, CellId)>, AllocError>
    ensures { IfOk result (λ out. JoinsArrows formula.now es.now fs.now fs.now out.items) }
{
    let mut out = Vec::from_slice(alloc, es)?;
    for f in fs {
        if is_hidden(formula, es, f.1) {
            continue;
        }
        out.push(*f)?;
    }
    Ok(out)
}

/// The function of both: where both have an argument, the first gives the result. An argument of the
/// second that is always one of the first is left out. It makes one cell, and adds nothing to the
/// formula.
#[tactic(auto, using(cell_arena::proofs::Growing::growing))]
pub fn join(b: &mut Build, f: CellId, g: CellId) -> Result<CellId, AllocError>
    requires { FunctionsOfOneType b.old.arena.kinds f g }
    ensures made { IfOk result (λ id. MakesFunction b.new id
        (λ a. function_of (pairs_of (decode b.old.arena a f) ++ pairs_of (decode b.old.arena a g)))
        (λ s t. OfSort b.old.arena.kinds (function_sort s t) f × OfSort b.old.arena.kinds (function_sort s t) g)) }
    ensures grows { Grows b.old b.new }
{
    let left = b.arena.kind(f);
    let CellKind::Fun(es) = left else {
        return Ok(f);
    };
    let right = b.arena.kind(g);
    let CellKind::Fun(fs) = right else {
        return Ok(g);
    };
    let front = es.as_slice();
    let rest = fs.as_slice();
    let arrows = join_arrows(b.arena.alloc(), &b.formula, front, rest)?;
    let id = b.fun(List::from_vec(arrows))?;
    Ok(id)
}
