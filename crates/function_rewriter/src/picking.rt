//! Functions by free choice.

ghost use Rattle.cell_arena.specs.Cells.{kind_at};
ghost use Rattle.cell_arena.specs.Growth.{Grows};
ghost use Rattle.cell_merge.specs.Edges.{OneSort};
ghost use Rattle.cell_merge.specs.Picks.{IsSetCell};
ghost use Rattle.function_rewriter.specs.FunctionSets.{AreSetCells, PicksFunction};
ghost use Rattle.function_rewriter.specs.inner.Choices.{PicksArrows, PicksOver, PicksWhere};
ghost use Rattle.std.specs.Prelude.{◌<◌, ◌≡◌, IfOk, IfSome, []};

use crate::members::{joined_members, joined_set};
use cell_arena::{Build, CellId, CellKind};
use cell_merge::pick;
use sat_formula::Lit;
use std::alloc::AllocError;
use tla_values::List;

// A pick from the set that is asked for where the literal is true alone.
#[tactic(auto, using(cell_arena::proofs::Growing::growing))]
fn pick_where(b: &mut Build, l: Lit, set: CellId) -> Result<Option<(CellId, Lit)>, AllocError>
    requires set { IsSetCell b.old set }
    requires below { l.var < b.old.formula.vars }
    ensures none { IfOk result (λ r. r ≡ None → kind_at b.old.arena.kinds set ≡ CellKind.Set []) }
    ensures picks { IfOk result (λ r. IfSome r (PicksWhere b.old b.new l set)) }
    ensures grows { Grows b.old b.new }
{
    let Some(picked) = pick(b, set)? else {
        return Ok(None);
    };
    let there = b.formula.or(l.negated(), picked.1)?;
    Ok(Some((picked.0, there)))
}

// An arrow from each of the edges to a pick from the set, and literals that say that the picks of the
// arrows that are there are members. Where the set has no edge there is no arrow.
#[tactic(auto, using(cell_arena::proofs::Growing::growing))]
fn pick_arrows(
    b: &mut Build,
    edges: &[(Lit, CellId)],
    set: CellId,
) -> Result<(Vec<(Lit, CellId, CellId)>, Vec<Lit>), AllocError>
    requires edges { OneSort b.old.arena.kinds b.old.formula.vars edges.now }
    requires set { IsSetCell b.old set }
    ensures picks { IfOk result (λ r. PicksArrows b.old b.new edges.now set r.0.items r.1.items) }
    ensures grows { Grows b.old b.new }
{
    let mut arrows = Vec::new(b.arena.alloc());
    let mut tests = Vec::new(b.arena.alloc());
    for edge in edges {
        let (l, x) = *edge;
        let Some(picked) = pick_where(b, l, set)? else {
            tests.push(l.negated())?;
            continue;
        };
        arrows.push((l, x, picked.0))?;
        tests.push(picked.1)?;
    }
    Ok((arrows, tests))
}

// A function from the members of the edges to the set.
#[tactic(auto, using(cell_arena::proofs::Growing::growing))]
fn pick_over(
    b: &mut Build,
    edges: &[(Lit, CellId)],
    set: CellId,
) -> Result<(CellId, Lit), AllocError>
    requires edges { OneSort b.old.arena.kinds b.old.formula.vars edges.now }
    requires set { IsSetCell b.old set }
    ensures picks { IfOk result (PicksOver b.old b.new edges.now set) }
    ensures grows { Grows b.old b.new }
{
    let (arrows, tests) = pick_arrows(b, edges, set)?;
    let all = b.formula.and_all(b.arena.alloc(), tests.as_slice())?;
    let id = b.fun(List::from_vec(arrows))?;
    Ok((id, all))
}

/// A cell and a literal: where the literal is true, the value of the cell is a function from the one set
/// to the other, and each is its value under some extension of an older assignment. Where the first set
/// is empty this is the empty function; else the literal is false where the second is. It takes one pick
/// for each argument, so it is linear in their number.
#[tactic(auto, using(cell_arena::proofs::Growing::growing))]
pub fn pick_function(b: &mut Build, from: CellId, to: CellId) -> Result<(CellId, Lit), AllocError>
    requires { AreSetCells b.old from to }
    ensures picks { IfOk result (PicksFunction b.old b.new from to) }
    ensures grows { Grows b.old b.new }
{
    let edges = joined_members(&b.arena, &mut b.formula, from)?;
    let set = joined_set(b, to)?;
    let picked = pick_over(b, edges.as_slice(), set)?;
    Ok(picked)
}
