//! Functions by their arrows.

ghost use Rattle.cell_arena.specs.Cells.{kind_at};
ghost use Rattle.cell_arena.specs.declared.kinds.CellId.{CellId as AnyCell};
ghost use Rattle.cell_merge.specs.Arrows.{ArrowsNamed, arrows_of};
ghost use Rattle.cell_merge.specs.inner.Fronts.{GuardsArrows, GuardsBoth, IsFront};
ghost use Rattle.sat_formula.specs.Formula.{Grows};
ghost use Rattle.sat_formula.specs.declared.lit.Lit.{Lit as AnyLit};
ghost use Rattle.std.specs.Prelude.{◌<◌, ◌≡◌, OnOk, length, slice_index_or};

use crate::likeness::alike;
use cell_arena::{Arena, CellId, CellKind};
use sat_formula::{Formula, Lit};
use std::alloc::AllocError;

/// How many arrows the function has. It takes no memory.
pub fn arrow_count(arena: &Arena, f: CellId) -> usize
    requires { f.index < length arena.now.kinds }
    ensures { result ≡ length (arrows_of (kind_at arena.now.kinds f)) }
{
    match arena.kind(f) {
        CellKind::Fun(arrows) => arrows.as_slice().len(),
        _ => 0,
    }
}

/// The arrow of the function at a place, from 0: its literal, its argument and its result. It takes
/// no memory.
pub fn arrow_at(arena: &Arena, f: CellId, place: usize) -> (Lit, CellId, CellId)
    requires there { f.index < length arena.now.kinds }
    requires within { place < length (arrows_of (kind_at arena.now.kinds f)) }
    ensures arrow { (d : AnyLit × AnyCell × AnyCell) → result ≡ slice_index_or (arrows_of (kind_at arena.now.kinds f)) place d }
    ensures named { result.0.var < arena.now.vars }
    ensures older { (result.1.index < f.index) × (result.2.index < f.index) }
{
    match arena.kind(f) {
        CellKind::Fun(arrows) => arrows.as_slice()[place],
        _ => (Lit { var: 0, neg: false }, f, f),
    }
}

/// How many arguments from the first on are alike in the two functions.
pub(crate) fn common_front(arena: &Arena, x: CellId, y: CellId) -> usize
    requires x_there { x.index < length arena.now.kinds }
    requires y_there { y.index < length arena.now.kinds }
    ensures { IsFront arena.now x y result }
{
    let left = arrow_count(arena, x);
    let right = arrow_count(arena, y);
    let most = if left < right { left } else { right };
    for i in 0..most {
        let mine = arrow_at(arena, x, i);
        let theirs = arrow_at(arena, y, i);
        if !alike(arena, mine.1, theirs.1) {
            return i;
        }
    }
    most
}

// More arrows, each there only where the literal is true.
#[tactic(auto, using(sat_formula::proofs::Extension::gates))]
fn guard_arrows(
    formula: &mut Formula,
    l: Lit,
    arrows: &[(Lit, CellId, CellId)],
    out: &mut Vec<(Lit, CellId, CellId)>,
) -> Result<(), AllocError>
    requires below { l.var < formula.old.vars }
    requires named { ArrowsNamed formula.old.vars arrows.now }
    requires out_named { ArrowsNamed formula.old.vars out.old.items }
    ensures guards { OnOk result (GuardsArrows formula.new l arrows.now arrows.now out.old.items out.new.items) }
    ensures grows { Grows formula.old formula.new }
{
    for (m, argument, value) in arrows {
        let both = formula.and(l, *m)?;
        out.push((both, *argument, *value))?;
    }
    Ok(())
}

/// More arrows, the first ones where the literal is true, and else the second ones.
#[tactic(auto, using(sat_formula::proofs::Extension::gates))]
pub(crate) fn guard_both(
    formula: &mut Formula,
    l: Lit,
    first: &[(Lit, CellId, CellId)],
    second: &[(Lit, CellId, CellId)],
    out: &mut Vec<(Lit, CellId, CellId)>,
) -> Result<(), AllocError>
    requires below { l.var < formula.old.vars }
    requires first_named { ArrowsNamed formula.old.vars first.now }
    requires second_named { ArrowsNamed formula.old.vars second.now }
    requires out_named { ArrowsNamed formula.old.vars out.old.items }
    ensures guards { OnOk result (GuardsBoth formula.new l first.now second.now out.old.items out.new.items) }
    ensures grows { Grows formula.old formula.new }
{
    guard_arrows(formula, l, first, out)?;
    guard_arrows(formula, l.negated(), second, out)?;
    Ok(())
}
