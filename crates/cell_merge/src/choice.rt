//! Choices between cells.

ghost use Rattle.cell_arena.specs.Cells.{kind_at};
ghost use Rattle.cell_arena.specs.Growth.{Grows};
ghost use Rattle.cell_merge.specs.Choices.{Chooses};
ghost use Rattle.cell_merge.specs.Composites.{parts_of};
ghost use Rattle.cell_merge.specs.Sorts.{FunctionsOfOneType, OneType, SequencesOfOneType, SetsOfOneType};
ghost use Rattle.cell_merge.specs.Arrows.{arrows_of};
ghost use Rattle.cell_merge.specs.inner.Fronts.{BeginsBoth, BeginsPlaces, ChoosesArrowAt, ChoosesArrows, EndsChoice, EndsSequence, FrontOfOneType};
ghost use Rattle.cell_merge.specs.inner.Composites.{ChoosesAt, ChoosesParts, CompositesOfOneType, PartsOfOneType};
ghost use Rattle.std.specs.Prelude.{◌+◌, ◌<◌, ◌≡◌, IfOk, drop, length};

use crate::arrows::{arrow_at, common_front, guard_both};
use crate::composites::{common_count, part_at, part_count, with_parts};
use crate::likeness::{alike, known};
use crate::merging::{Join, merge_edges};
use cell_arena::{Build, CellId, CellKind};
use sat_formula::Lit;
use std::alloc::AllocError;
use tla_values::List;
use word_blaster::choose_word;

// The items behind the first ones.
fn behind<T>(items: &[T], done: usize) -> &[T]
    ensures { result.now ≡ drop done items.now }
{
    if done < items.len() {
        return &items[done..];
    }
    &items[items.len()..]
}

// A set with the edges of x and of y, one for a member of each of the two where these are alike.
#[tactic(auto, using(cell_arena::proofs::Growing::growing))]
fn choose_set(b: &mut Build, l: Lit, x: CellId, y: CellId) -> Result<CellId, AllocError>
    requires below { l.var < b.old.formula.vars }
    requires types { SetsOfOneType b.old.arena.kinds x y }
    ensures chosen { IfOk result (Chooses b.old b.new l x y) }
    ensures grows { Grows b.old b.new }
{
    let CellKind::Set(es) = b.arena.kind(x) else {
        return Ok(x);
    };
    let CellKind::Set(fs) = b.arena.kind(y) else {
        return Ok(y);
    };
    let edges = merge_edges(
        &b.arena,
        &mut b.formula,
        Join::Chosen(l),
        es.as_slice(),
        fs.as_slice(),
    )?;
    let id = b.set(List::from_vec(edges))?;
    Ok(id)
}

// The function of the arrows that were chosen so far, and of those of x or of y behind as many, each
// there only where its function is chosen.
#[tactic(auto, using(cell_arena::proofs::Growing::growing))]
fn end_function(
    b: &mut Build,
    l: Lit,
    x: CellId,
    y: CellId,
    front: Vec<(Lit, CellId, CellId)>,
) -> Result<CellId, AllocError>
    requires below { l.var < b.old.formula.vars }
    requires begins { BeginsBoth b.old x y front.items }
    ensures ends { IfOk result (EndsChoice b.old b.new l x y front.items) }
    ensures grows { Grows b.old b.new }
{
    let CellKind::Fun(es) = b.arena.kind(x) else {
        return Ok(x);
    };
    let CellKind::Fun(fs) = b.arena.kind(y) else {
        return Ok(y);
    };
    let done = front.as_slice().len();
    let mut all = front;
    guard_both(
        &mut b.formula,
        l,
        behind(es.as_slice(), done),
        behind(fs.as_slice(), done),
        &mut all,
    )?;
    let id = b.fun(List::from_vec(all))?;
    Ok(id)
}

// The arrow at a place of x or that of y; their arguments are alike.
#[cycle(choose)]
#[tactic(auto, using(cell_arena::proofs::Growing::growing))]
fn choose_arrow(
    b: &mut Build,
    l: Lit,
    x: CellId,
    y: CellId,
    place: usize,
) -> Result<(Lit, CellId, CellId), AllocError>
    requires below { l.var < b.old.formula.vars }
    requires front { FrontOfOneType b.old.arena x y (place + 1) }
    ensures chosen { IfOk result (ChoosesArrowAt b.old b.new l (arrows_of (kind_at b.old.arena.kinds x))
        (arrows_of (kind_at b.old.arena.kinds y)) place) }
    ensures grows { Grows b.old b.new }
{
    let left = arrow_at(&b.arena, x, place);
    let right = arrow_at(&b.arena, y, place);
    let value = choose_cell(b, l, left.2, right.2)?;
    let there = b.formula.mux(l, left.0, right.0)?;
    Ok((there, left.1, value))
}

// Each of the first arrows of x or that of y; their arguments are alike.
#[cycle(choose)]
#[tactic(auto, using(cell_arena::proofs::Growing::growing))]
fn choose_arrows(
    b: &mut Build,
    l: Lit,
    x: CellId,
    y: CellId,
    count: usize,
) -> Result<Vec<(Lit, CellId, CellId)>, AllocError>
    requires below { l.var < b.old.formula.vars }
    requires front { FrontOfOneType b.old.arena x y count }
    ensures chosen { IfOk result (λ out. ChoosesArrows b.old b.new l (arrows_of (kind_at b.old.arena.kinds x))
        (arrows_of (kind_at b.old.arena.kinds y)) count out.items) }
    ensures grows { Grows b.old b.new }
{
    let mut out = Vec::new(b.arena.alloc());
    for i in 0..count {
        let arrow = choose_arrow(b, l, x, y, i)?;
        out.push(arrow)?;
    }
    Ok(out)
}

// A function with an arrow for each of the first ones whose arguments are alike, and with the others
// of both.
#[cycle(choose)]
#[tactic(auto, using(cell_arena::proofs::Growing::growing))]
fn choose_function(b: &mut Build, l: Lit, x: CellId, y: CellId) -> Result<CellId, AllocError>
    requires below { l.var < b.old.formula.vars }
    requires types { FunctionsOfOneType b.old.arena.kinds x y }
    ensures chosen { IfOk result (Chooses b.old b.new l x y) }
    ensures grows { Grows b.old b.new }
{
    let count = common_front(&b.arena, x, y);
    let front = choose_arrows(b, l, x, y, count)?;
    let id = end_function(b, l, x, y, front)?;
    Ok(id)
}

// The sequence of the places that were chosen so far, and of those of the longer one of x and y
// behind as many, of the length of x or of y.
#[tactic(auto, using(cell_arena::proofs::Growing::growing))]
fn end_sequence(
    b: &mut Build,
    l: Lit,
    x: CellId,
    y: CellId,
    front: Vec<CellId>,
) -> Result<CellId, AllocError>
    requires below { l.var < b.old.formula.vars }
    requires begins { BeginsPlaces b.old x y front.items }
    ensures ends { IfOk result (EndsSequence b.old b.new l x y front.items) }
    ensures grows { Grows b.old b.new }
{
    let CellKind::Seq(v, ps) = b.arena.kind(x) else {
        return Ok(x);
    };
    let CellKind::Seq(w, qs) = b.arena.kind(y) else {
        return Ok(y);
    };
    let done = front.as_slice().len();
    let mut places = front;
    places.extend_from_slice(behind(ps.as_slice(), done))?;
    places.extend_from_slice(behind(qs.as_slice(), done))?;
    let count = choose_word(b.arena.alloc(), &mut b.formula, l, v, w)?;
    let id = b.seq(count, List::from_vec(places))?;
    Ok(id)
}

// A sequence of the length of x or of y, with a place for each that both have and the others of the
// longer one.
#[cycle(choose)]
#[tactic(auto, using(cell_arena::proofs::Growing::growing))]
fn choose_sequence(b: &mut Build, l: Lit, x: CellId, y: CellId) -> Result<CellId, AllocError>
    requires below { l.var < b.old.formula.vars }
    requires types { SequencesOfOneType b.old.arena.kinds x y }
    ensures chosen { IfOk result (Chooses b.old b.new l x y) }
    ensures grows { Grows b.old b.new }
{
    let count = common_count(&b.arena, x, y);
    let front = choose_parts(b, l, x, y, count)?;
    let id = end_sequence(b, l, x, y, front)?;
    Ok(id)
}

// A record or a tuple of chosen parts.
#[cycle(choose)]
#[tactic(auto, using(cell_arena::proofs::Growing::growing))]
fn choose_composite(b: &mut Build, l: Lit, x: CellId, y: CellId) -> Result<CellId, AllocError>
    requires below { l.var < b.old.formula.vars }
    requires types { CompositesOfOneType b.old.arena.kinds x y }
    ensures chosen { IfOk result (Chooses b.old b.new l x y) }
    ensures grows { Grows b.old b.new }
{
    let count = part_count(&b.arena, x);
    let parts = choose_parts(b, l, x, y, count)?;
    let id = with_parts(b, x, parts)?;
    Ok(id)
}

// Each of the first parts of x or that of y.
#[cycle(choose)]
#[tactic(auto, using(cell_arena::proofs::Growing::growing))]
fn choose_parts(
    b: &mut Build,
    l: Lit,
    x: CellId,
    y: CellId,
    count: usize,
) -> Result<Vec<CellId>, AllocError>
    requires below { l.var < b.old.formula.vars }
    requires types { PartsOfOneType b.old.arena.kinds x y count }
    ensures chosen { IfOk result (λ out. ChoosesParts b.old b.new l (parts_of (kind_at b.old.arena.kinds x))
        (parts_of (kind_at b.old.arena.kinds y)) count out.items) }
    ensures grows { Grows b.old b.new }
{
    let mut out = Vec::new(b.arena.alloc());
    for i in 0..count {
        let part = choose_at(b, l, x, y, i)?;
        out.push(part)?;
    }
    Ok(out)
}

// The part at a place of the first cell or of the second.
#[cycle(choose)]
#[tactic(auto, using(cell_arena::proofs::Growing::growing))]
fn choose_at(
    b: &mut Build,
    l: Lit,
    x: CellId,
    y: CellId,
    place: usize,
) -> Result<CellId, AllocError>
    requires below { l.var < b.old.formula.vars }
    requires types { PartsOfOneType b.old.arena.kinds x y (place + 1) }
    ensures chosen { IfOk result (ChoosesAt b.old b.new l (parts_of (kind_at b.old.arena.kinds x))
        (parts_of (kind_at b.old.arena.kinds y)) place) }
    ensures grows { Grows b.old b.new }
{
    let left = part_at(&b.arena, x, place);
    let right = part_at(&b.arena, y, place);
    let part = choose_cell(b, l, left, right)?;
    Ok(part)
}

// A new cell with the value of x where the literal is true, and else that of y.
#[cycle(choose)]
#[tactic(auto, using(cell_arena::proofs::Growing::growing))]
fn choose_part(b: &mut Build, l: Lit, x: CellId, y: CellId) -> Result<CellId, AllocError>
    requires below { l.var < b.old.formula.vars }
    requires types { OneType b.old.arena.kinds x y }
    ensures chosen { IfOk result (Chooses b.old b.new l x y) }
    ensures grows { Grows b.old b.new }
{
    match b.arena.kind(x) {
        CellKind::Bit(m) => {
            if let CellKind::Bit(n) = b.arena.kind(y) {
                let bit = b.formula.mux(l, *m, *n)?;
                let id = b.bit(bit)?;
                return Ok(id);
            }
        }
        CellKind::Word(v) => {
            if let CellKind::Word(w) = b.arena.kind(y) {
                let word = choose_word(b.arena.alloc(), &mut b.formula, l, v, w)?;
                let id = b.word(word)?;
                return Ok(id);
            }
        }
        CellKind::Text(v) => {
            if let CellKind::Text(w) = b.arena.kind(y) {
                let code = choose_word(b.arena.alloc(), &mut b.formula, l, v, w)?;
                let id = b.text(code)?;
                return Ok(id);
            }
        }
        CellKind::Set(_) => {
            let set = choose_set(b, l, x, y)?;
            return Ok(set);
        }
        CellKind::Fun(_) => {
            let function = choose_function(b, l, x, y)?;
            return Ok(function);
        }
        CellKind::Seq(_, _) => {
            let sequence = choose_sequence(b, l, x, y)?;
            return Ok(sequence);
        }
        CellKind::Rec(_) | CellKind::Tup(_) => {
            let composite = choose_composite(b, l, x, y)?;
            return Ok(composite);
        }
    }
    Ok(x)
}

/// A cell with the value of x where the literal is true, and else that of y. It is one of the two
/// where they are alike, or the literal is `top` or its negation. A set has one edge for a member
/// of each of the two, where these are alike; a function has one arrow for each of the first ones
/// whose arguments are alike; a record, a tuple or a sequence has chosen parts.
#[cycle(choose)]
#[tactic(auto, using(cell_arena::proofs::Growing::growing))]
pub fn choose_cell(b: &mut Build, l: Lit, x: CellId, y: CellId) -> Result<CellId, AllocError>
    requires below { l.var < b.old.formula.vars }
    requires types { OneType b.old.arena.kinds x y }
    ensures chosen { IfOk result (Chooses b.old b.new l x y) }
    ensures grows { Grows b.old b.new }
{
    match known(&b.formula, l) {
        Some(true) => return Ok(x),
        Some(false) => return Ok(y),
        None => {}
    }
    if alike(&b.arena, x, y) {
        return Ok(x);
    }
    let id = choose_part(b, l, x, y)?;
    Ok(id)
}
