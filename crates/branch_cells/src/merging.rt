//! One of several, chosen by free bits: a chain of up to 8, and a tree above, with one bit for each layer.

ghost use Rattle.branch_cells.specs.Branches.{AreOfEither, AreOfKinds, IsChoice, IsWhole};
ghost use Rattle.branch_cells.specs.Ends.{EndsBelow, end_of, ends_at};
ghost use Rattle.branch_cells.specs.declared.branch.BranchCells.{BranchCells as AnyPart};
ghost use Rattle.branch_cells.specs.inner.Layers.{AreCellsOfEither, AreChosen, IsCellOfEither, IsEither, Narrows, can_end, partner};
ghost use Rattle.cell_arena.specs.Decode.{decode};
ghost use Rattle.cell_arena.specs.Growth.{Decodes, Grows};
ghost use Rattle.cell_merge.specs.Sorts.{OneType};
ghost use Rattle.kernel_trees.specs.TypeKinds.{Kind};
ghost use Rattle.level_laws.specs.Branches.{Ending};
ghost use Rattle.sat_formula.specs.Formula.{Grows as FormulaGrows, HasValue};
ghost use Rattle.sat_formula.specs.Lit.{lit_value};
ghost use Rattle.std.specs.Prelude.{◌≡◌, ◌≤◌, ◌<◌, ◌+◌, ◌*◌, ◌∷◌, All, IfOk, List as Items, [], filter, if◌then◌else◌, length, true};

use crate::branch::{BranchCells, Ends};
use crate::ends::can_be;
use cell_arena::{Build, CellId};
use cell_merge::choose_cell;
use sat_formula::{Formula, Lit};
use std::alloc::{AllocError, Global};
use tla_values::List;

// Up to how many are chosen among by a chain of bits.
const CHAIN: usize = 8;

fn copy_part(alloc: Global, x: &BranchCells) -> Result<BranchCells, AllocError>
    ensures { IfOk result (λ r. r ≡ x.now) }
{
    Ok(BranchCells {
        ends: x.ends,
        next: List::from_vec(Vec::from_slice(alloc, x.next.as_slice())?),
    })
}

// Whether some literal is not the negation of `top`.
fn can_end(x: Ends) -> bool
    ensures { result ≡ can_end x }
{
    can_be(x.holds) || can_be(x.wrong) || can_be(x.big)
}

// The parts that end at all.
fn ending(alloc: Global, parts: &[BranchCells]) -> Result<Vec<BranchCells>, AllocError>
    ensures { IfOk result (λ r. r.items ≡ filter (λ p. can_end p.ends) parts.now) }
{
    let mut some = Vec::new(alloc);
    for part in parts {
        if can_end(part.ends) {
            some.push(copy_part(alloc, part)?)?;
        }
    }
    Ok(some)
}

// Each literal of the first where the bit is true, and else of the second.
#[tactic(auto, using(sat_formula::proofs::Extension::gates))]
fn choose_ends(f: &mut Formula, bit: Lit, x: Ends, y: Ends) -> Result<Ends, AllocError>
    requires bit_below { bit.var < f.old.vars }
    requires first { EndsBelow f.old.vars x }
    requires second { EndsBelow f.old.vars y }
    ensures ends { IfOk result (λ r. (k : Ending) → HasValue f.new (end_of r k)
        (λ a. if lit_value bit a then ends_at x k a else ends_at y k a)) }
    ensures grows { FormulaGrows f.old f.new }
{
    let holds = f.mux(bit, x.holds, y.holds)?;
    let wrong = f.mux(bit, x.wrong, y.wrong)?;
    let big = f.mux(bit, x.big, y.big)?;
    Ok(Ends { holds, wrong, big })
}

// The first cell where the bit is true, and else the second; one that is both stays.
#[tactic(auto, using(cell_arena::proofs::Growing::growing))]
fn choose_name(b: &mut Build, bit: Lit, x: CellId, y: CellId) -> Result<CellId, AllocError>
    requires below { bit.var < b.old.formula.vars }
    requires types { OneType b.old.arena.kinds x y }
    ensures chosen { IfOk result (IsCellOfEither b.old b.new bit x y) }
    ensures grows { Grows b.old b.new }
{
    if x == y {
        return Ok(x);
    }
    let id = choose_cell(b, bit, x, y)?;
    Ok(id)
}

// Of each name the first cell where the bit is true, and else the second.
#[tactic(auto, using(cell_arena::proofs::Growing::growing))]
fn choose_names(
    b: &mut Build,
    bit: Lit,
    xs: &[CellId],
    ys: &[CellId],
) -> Result<Vec<CellId>, AllocError>
    ghost names: { Items Kind }
    requires below { bit.var < b.old.formula.vars }
    requires first { AreOfKinds b.old.arena.kinds names xs.now }
    requires second { AreOfKinds b.old.arena.kinds names ys.now }
    ensures chosen { IfOk result (λ r.
        AreCellsOfEither b.old b.new bit xs.now ys.now (length xs.now) r.items) }
    ensures grows { Grows b.old b.new }
{
    let mut ids = Vec::new(b.arena.alloc());
    for i in 0..xs.len() {
        let id = choose_name(b, bit, xs[i], ys[i])?;
        ids.push(id)?;
    }
    Ok(ids)
}

/// Of each name the first cell where the literal is true, and else the second. Where it is `top` these are the first ones,
/// and nothing is added.
#[tactic(auto, using(cell_arena::proofs::Growing::growing))]
pub fn choose_cells(
    b: &mut Build,
    l: Lit,
    xs: &[CellId],
    ys: &[CellId],
) -> Result<List<CellId>, AllocError>
    ghost names: { Items Kind }
    requires below { l.var < b.old.formula.vars }
    requires first { AreOfKinds b.old.arena.kinds names xs.now }
    requires second { AreOfKinds b.old.arena.kinds names ys.now }
    ensures either { IfOk result (AreOfEither b.new l xs.now ys.now) }
    ensures kinds { IfOk result (AreOfKinds b.new.arena.kinds names) }
    ensures grows { Grows b.old b.new }
{
    let cells = choose_names(b, l, xs, ys)?;
    Ok(List::from_vec(cells))
}

// The first part where the bit is true, and else the second.
#[tactic(auto, using(cell_arena::proofs::Growing::growing))]
fn choose_part(
    b: &mut Build,
    bit: Lit,
    x: &BranchCells,
    y: &BranchCells,
) -> Result<BranchCells, AllocError>
    ghost names: { Items Kind }
    requires below { bit.var < b.old.formula.vars }
    requires first { IsWhole b.old names x.now }
    requires second { IsWhole b.old names y.now }
    ensures either { IfOk result (IsEither b.new bit x.now y.now) }
    ensures whole { IfOk result (IsWhole b.new names) }
    ensures grows { Grows b.old b.new }
{
    let xs = x.next.as_slice();
    let ys = y.next.as_slice();
    let ends = choose_ends(&mut b.formula, bit, x.ends, y.ends)?;
    let next = choose_names(b, bit, xs, ys)?;
    Ok(BranchCells {
        ends,
        next: List::from_vec(next),
    })
}

// The part that stands so many places behind, or the one that stands here.
fn partner(parts: &[BranchCells], i: usize, half: usize) -> &BranchCells
    requires { i < length parts.now }
    ensures { (d : AnyPart) → result.now ≡ partner parts.now i half d }
{
    if half < parts.len() - i {
        return &parts[i + half];
    }
    &parts[i]
}

// The first half of the parts, each of them or its partner.
#[tactic(auto, using(cell_arena::proofs::Growing::growing))]
fn choose_each(
    b: &mut Build,
    bit: Lit,
    parts: &[BranchCells],
    half: usize,
) -> Result<Vec<BranchCells>, AllocError>
    ghost names: { Items Kind }
    requires below { bit.var < b.old.formula.vars }
    requires parts { All (IsWhole b.old names) parts.now }
    requires half { half ≤ length parts.now }
    ensures each { IfOk result (λ out. AreChosen b.new bit parts.now half half out.items) }
    ensures whole { IfOk result (λ out. All (IsWhole b.new names) out.items) }
    ensures grows { Grows b.old b.new }
{
    let mut out = Vec::new(b.arena.alloc());
    for i in 0..half {
        let first = &parts[i];
        let other = partner(parts, i, half);
        let part = choose_part(b, bit, first, other)?;
        out.push(part)?;
    }
    Ok(out)
}

// As many parts, by one free bit.
#[tactic(auto, using(cell_arena::proofs::Growing::growing))]
fn layer(b: &mut Build, parts: &[BranchCells], half: usize) -> Result<Vec<BranchCells>, AllocError>
    ghost names: { Items Kind }
    requires parts { All (IsWhole b.old names) parts.now }
    requires half { half ≤ length parts.now × (length parts.now ≤ 2 * half) }
    ensures narrows { IfOk result (λ out. Narrows b.old b.new parts.now out.items) }
    ensures whole { IfOk result (λ out.
        All (IsWhole b.new names) out.items × (length out.items ≡ half)) }
    ensures grows { Grows b.old b.new }
{
    let bit = b.formula.fresh()?;
    let out = choose_each(b, bit, parts, half)?;
    Ok(out)
}

// How many of several parts one layer leaves: all but one where a chain is asked for, and else half of them.
fn half_of(count: usize, chain: bool) -> usize
    requires { 1 < count }
    ensures some { 0 < result }
    ensures fewer { result < count }
    ensures enough { count ≤ 2 * result }
{
    if chain { count - 1 } else { count - count / 2 }
}

// One of the parts, by free bits.
#[tactic(auto, using(cell_arena::proofs::Growing::growing))]
fn narrow(b: &mut Build, parts: Vec<BranchCells>) -> Result<BranchCells, AllocError>
    ghost names: { Items Kind }
    requires parts { All (IsWhole b.old names) parts.items }
    requires some { 0 < length parts.items }
    ensures narrows { IfOk result (λ r. Narrows b.old b.new parts.items (r ∷ [])) }
    ensures whole { IfOk result (IsWhole b.new names) }
    ensures grows { Grows b.old b.new }
{
    let chain = parts.len() <= CHAIN;
    let mut rest = parts;
    while rest.len() > 1 {
        let half = half_of(rest.len(), chain);
        rest = layer(b, rest.as_slice(), half)?;
    }
    let part = copy_part(b.arena.alloc(), &rest[0])?;
    Ok(part)
}

// A part that never ends, with these cells.
fn never(b: &Build, rest: &[CellId]) -> Result<BranchCells, AllocError>
    ensures { IfOk result (λ r. (r.next ≡ rest.now)
        × ((k : Ending) → end_of r.ends k ≡ record { var = 0; neg = true })) }
{
    let bottom = b.formula.top().negated();
    Ok(BranchCells {
        ends: Ends {
            holds: bottom,
            wrong: bottom,
            big: bottom,
        },
        next: List::from_vec(Vec::from_slice(b.arena.alloc(), rest)?),
    })
}

/// One of the parts, chosen by free bits. Parts that never end are left out; where all are, the names have the rest's
/// cells.
#[tactic(auto, using(cell_arena::proofs::Growing::growing))]
pub fn choose(
    b: &mut Build,
    parts: &[BranchCells],
    rest: &[CellId],
) -> Result<BranchCells, AllocError>
    ghost names: { Items Kind }
    requires parts { All (IsWhole b.old names) parts.now }
    requires rest { AreOfKinds b.old.arena.kinds names rest.now }
    ensures choice { IfOk result (IsChoice b.old b.new rest.entry.now parts.entry.now) }
    ensures whole { IfOk result (IsWhole b.new names) }
    ensures grows { Grows b.old b.new }
{
    // Read for its promise: it is true under each satisfying assignment.
    let _ = b.formula.top();
    let some = ending(b.arena.alloc(), parts)?;
    if some.len() == 0 {
        let part = never(b, rest)?;
        return Ok(part);
    }
    let part = narrow(b, some)?;
    Ok(part)
}
