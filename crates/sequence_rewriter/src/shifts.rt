//! Cells moved to later or earlier places, as far as some bits say: one choice a cell for each bit.

ghost use Rattle.cell_arena.specs.Growth.{Grows as BuildGrows};
ghost use Rattle.sequence_rewriter.specs.inner.Shifts.{AreAlike, AreLists, ChoosesList, ShiftsLeft, ShiftsRight};
ghost use Rattle.std.specs.Prelude.{◌++◌, ◌+◌, ◌-◌, ◌<◌, ◌≤◌, ◌≡◌, IfOk, drop, length, take};
ghost use Rattle.word_blaster.specs.Word.{WordBelow};

use cell_arena::{Build, CellId};
use cell_merge::choose_cell;
use sat_formula::Lit;
use std::alloc::AllocError;

// Each cell of the first list where the literal is true, and else that of the second.
#[tactic(auto, using(cell_arena::proofs::Growing::growing))]
fn choose_list(
    b: &mut Build,
    l: Lit,
    xs: &[CellId],
    ys: &[CellId],
) -> Result<Vec<CellId>, AllocError>
    requires below { l.var < b.old.formula.vars }
    requires types { AreLists b.old.arena.kinds xs.now ys.now }
    requires count { length xs.now ≡ length ys.now }
    ensures chosen { IfOk result (λ out. ChoosesList b.old b.new l xs.now ys.now (length xs.now) out.items) }
    ensures grows { BuildGrows b.old b.new }
{
    let mut out = Vec::new(b.arena.alloc());
    for i in 0..xs.len() {
        let cell = choose_cell(b, l, xs[i], ys[i])?;
        out.push(cell)?;
    }
    Ok(out)
}

// The cells, those so many places behind in their stead where the literal is true.
#[tactic(auto, using(cell_arena::proofs::Growing::growing))]
fn step_left(b: &mut Build, l: Lit, by: usize, cells: &[CellId]) -> Result<Vec<CellId>, AllocError>
    requires below { l.var < b.old.formula.vars }
    requires types { AreAlike b.old.arena.kinds cells.now }
    requires within { by ≤ length cells.now }
    ensures moved { IfOk result (λ out. ChoosesList b.old b.new l
        (drop by cells.now ++ drop (length cells.now - by) cells.now) cells.now (length cells.now) out.items) }
    ensures grows { BuildGrows b.old b.new }
{
    let (_, behind) = cells.split_at(by);
    let (_, end) = cells.split_at(cells.len() - by);
    let mut moved = Vec::from_slice(b.arena.alloc(), behind)?;
    moved.extend_from_slice(end)?;
    let out = choose_list(b, l, moved.as_slice(), cells)?;
    Ok(out)
}

// So many cells and then the cells where the literal is true, and else the cells and then so many.
#[tactic(auto, using(cell_arena::proofs::Growing::growing))]
fn step_right(b: &mut Build, l: Lit, by: usize, cells: &[CellId]) -> Result<Vec<CellId>, AllocError>
    requires below { l.var < b.old.formula.vars }
    requires types { AreAlike b.old.arena.kinds cells.now }
    requires within { by ≤ length cells.now }
    ensures moved { IfOk result (λ out. ChoosesList b.old b.new l (take by cells.now ++ cells.now)
        (cells.now ++ drop (length cells.now - by) cells.now) (length cells.now + by) out.items) }
    ensures grows { BuildGrows b.old b.new }
{
    let (front, _) = cells.split_at(by);
    let (_, end) = cells.split_at(cells.len() - by);
    let mut moved = Vec::from_slice(b.arena.alloc(), front)?;
    moved.extend_from_slice(cells)?;
    let mut stayed = Vec::from_slice(b.arena.alloc(), cells)?;
    stayed.extend_from_slice(end)?;
    let out = choose_list(b, l, moved.as_slice(), stayed.as_slice())?;
    Ok(out)
}

/// The cells, moved to the front by the number of the bits, lowest first. What moves past the front
/// is gone; at the end stands anything.
#[tactic(auto, using(cell_arena::proofs::Growing::growing))]
pub(crate) fn shift_left(
    b: &mut Build,
    bits: &[Lit],
    cells: Vec<CellId>,
) -> Result<Vec<CellId>, AllocError>
    requires below { WordBelow b.old.formula.vars bits.now }
    requires types { AreAlike b.old.arena.kinds cells.items }
    ensures shifts { IfOk result (λ out. ShiftsLeft b.old b.new bits.now cells.items out.items) }
    ensures grows { BuildGrows b.old b.new }
{
    let mut out = cells;
    let mut by = 1;
    for bit in bits {
        if by >= out.as_slice().len() {
            return Ok(out);
        }
        let moved = step_left(b, *bit, by, out.as_slice())?;
        out = moved;
        by *= 2;
    }
    Ok(out)
}

/// The cells, moved behind by the number of the bits, lowest first; in front of them stands anything.
#[tactic(auto, using(cell_arena::proofs::Growing::growing))]
pub(crate) fn shift_right(
    b: &mut Build,
    bits: &[Lit],
    cells: Vec<CellId>,
) -> Result<Vec<CellId>, AllocError>
    requires below { WordBelow b.old.formula.vars bits.now }
    requires types { AreAlike b.old.arena.kinds cells.items }
    requires some { 0 < length cells.items }
    ensures shifts { IfOk result (λ out. ShiftsRight b.old b.new bits.now cells.items out.items) }
    ensures grows { BuildGrows b.old b.new }
{
    let mut out = cells;
    let mut by = 1;
    for bit in bits {
        let moved = step_right(b, *bit, by, out.as_slice())?;
        out = moved;
        by *= 2;
    }
    Ok(out)
}
