//! Whether cells have one value.

ghost use Rattle.cell_arena.specs.Cells.{kind_at};
ghost use Rattle.cell_arena.specs.Decode.{decode};
ghost use Rattle.cell_arena.specs.Growth.{Grows as BuildGrows};
ghost use Rattle.cell_merge.specs.Arrows.{length_word};
ghost use Rattle.cell_merge.specs.Composites.{parts_of};
ghost use Rattle.cell_merge.specs.Edges.{TestsEach, edges_of};
ghost use Rattle.cell_merge.specs.Sorts.{IsOver, MemberType, OneType, SequencesOfOneType, SetsOfOneType};
ghost use Rattle.cell_merge.specs.inner.Composites.{CompositesOfOneType, TestsParts};
ghost use Rattle.cell_merge.specs.inner.Items.{AreFor, AreSides, ComparesItems, IsRow, ItemAndCell, ItemsAlike, ItemsOfOneType, TellStanding, heads_of, item_at, stands_at};
ghost use Rattle.cell_merge.specs.inner.Places.{reaches};
ghost use Rattle.sat_formula.specs.Formula.{Grows, HasValue};
ghost use Rattle.std.specs.Ordering.{int_eq};
ghost use Rattle.std.specs.Prelude.{IfOk, length, map, ◌<◌, ◌≡◌};
ghost use Rattle.tla_values.specs.Order.{same_value};
ghost use Rattle.tla_values.specs.Sets.{elements, member, subset};
ghost use Rattle.word_blaster.specs.Word.{word_value};

use crate::composites::{common_count, part_at, part_count};
use crate::crosses::{Sides, cover, implied, meets, mutual};
use crate::items::{Item, head_at, item_count, tail_at};
use crate::likeness::{alike, known};
use cell_arena::{Arena, Build, CellId, CellKind};
use sat_formula::{Formula, Lit};
use std::alloc::{AllocError, Global};
use word_blaster::{equal, is_above, low_bits};

/// A literal that is true exactly where the two cells have one value. It is `top` where they are
/// alike.
#[cycle(same)]
#[tactic(auto, using(sat_formula::proofs::Extension::gates, crate::proofs::Names::over))]
pub fn same_in(
    arena: &Arena,
    formula: &mut Formula,
    x: CellId,
    y: CellId,
) -> Result<Lit, AllocError>
    requires over { IsOver arena.now formula.old }
    requires types { OneType arena.now.kinds x y }
    ensures value { IfOk result (λ l. HasValue formula.new l (λ a. same_value (decode arena.now a x) (decode arena.now a y))) }
    ensures grows { Grows formula.old formula.new }
{
    if alike(arena, x, y) {
        let top = formula.top();
        return Ok(top);
    }
    match arena.kind(x) {
        CellKind::Bit(l) => {
            if let CellKind::Bit(m) = arena.kind(y) {
                let bits = formula.iff(*l, *m)?;
                return Ok(bits);
            }
        }
        CellKind::Word(v) => {
            if let CellKind::Word(w) = arena.kind(y) {
                let words = equal(arena.alloc(), formula, v, w)?;
                return Ok(words);
            }
        }
        CellKind::Text(v) => {
            if let CellKind::Text(w) = arena.kind(y) {
                let codes = equal(arena.alloc(), formula, v, w)?;
                return Ok(codes);
            }
        }
        CellKind::Set(_) | CellKind::Fun(_) => return same_items(arena, formula, x, y),
        CellKind::Seq(_, _) => return same_sequences(arena, formula, x, y),
        CellKind::Rec(_) | CellKind::Tup(_) => return same_parts(arena, formula, x, y),
    }
    Ok(formula.top())
}

// A literal that is true exactly where the lengths of two sequences are equal.
#[tactic(auto, using(sat_formula::proofs::Extension::gates))]
fn same_lengths(
    arena: &Arena,
    formula: &mut Formula,
    x: CellId,
    y: CellId,
) -> Result<Lit, AllocError>
    requires over { IsOver arena.now formula.old }
    requires types { SequencesOfOneType arena.now.kinds x y }
    ensures value { IfOk result (λ l. HasValue formula.new l (λ a.
        int_eq (word_value (length_word (kind_at arena.now.kinds x)) a) (word_value (length_word (kind_at arena.now.kinds y)) a))) }
    ensures grows { Grows formula.old formula.new }
{
    let CellKind::Seq(v, _) = arena.kind(x) else {
        return Ok(formula.top());
    };
    let CellKind::Seq(w, _) = arena.kind(y) else {
        return Ok(formula.top());
    };
    let lengths = equal(arena.alloc(), formula, v, w)?;
    Ok(lengths)
}

// A literal that is true exactly where the sequence has the place.
#[tactic(auto, using(sat_formula::proofs::Extension::gates))]
fn has_place(
    arena: &Arena,
    formula: &mut Formula,
    x: CellId,
    place: usize,
) -> Result<Lit, AllocError>
    requires over { IsOver arena.now formula.old }
    requires sequence { SequencesOfOneType arena.now.kinds x x }
    ensures value { IfOk result (λ l. HasValue formula.new l (λ a. reaches (word_value (length_word (kind_at arena.now.kinds x)) a) place)) }
    ensures grows { Grows formula.old formula.new }
{
    let CellKind::Seq(w, places) = arena.kind(x) else {
        return Ok(formula.top());
    };
    let bits = low_bits(arena.alloc(), w, places.as_slice().len())?;
    let above = is_above(formula, bits.as_slice(), place)?;
    Ok(above)
}

// A literal that is true exactly where two sequences have one value: one length, and the same at each
// place within it.
#[cycle(same)]
#[tactic(auto, using(sat_formula::proofs::Extension::gates, crate::proofs::Names::over))]
fn same_sequences(
    arena: &Arena,
    formula: &mut Formula,
    x: CellId,
    y: CellId,
) -> Result<Lit, AllocError>
    requires over { IsOver arena.now formula.old }
    requires types { SequencesOfOneType arena.now.kinds x y }
    ensures value { IfOk result (λ l. HasValue formula.new l (λ a. same_value (decode arena.now a x) (decode arena.now a y))) }
    ensures grows { Grows formula.old formula.new }
{
    let lengths = same_lengths(arena, formula, x, y)?;
    let mut tests = Vec::new(arena.alloc());
    tests.push(lengths)?;
    let common = common_count(arena, x, y);
    for i in 0..common {
        let here = has_place(arena, formula, x, i)?;
        if let Some(false) = known(formula, here) {
            continue;
        }
        let one = same_in(arena, formula, part_at(arena, x, i), part_at(arena, y, i))?;
        let holds = formula.or(here.negated(), one)?;
        tests.push(holds)?;
    }
    let all = formula.and_all(arena.alloc(), tests.as_slice())?;
    Ok(all)
}

// A literal that is true exactly where two records, or two tuples, have one value.
#[cycle(same)]
#[tactic(auto, using(sat_formula::proofs::Extension::gates, crate::proofs::Names::over))]
fn same_parts(arena: &Arena, formula: &mut Formula, x: CellId, y: CellId) -> Result<Lit, AllocError>
    requires over { IsOver arena.now formula.old }
    requires types { CompositesOfOneType arena.now.kinds x y }
    ensures value { IfOk result (λ l. HasValue formula.new l (λ a. same_value (decode arena.now a x) (decode arena.now a y))) }
    ensures grows { Grows formula.old formula.new }
{
    let tests = part_tests(arena, formula, x, y)?;
    let all = formula.and_all(arena.alloc(), tests.as_slice())?;
    Ok(all)
}

// Whether each part of the first has the value of the second's.
#[cycle(same)]
#[tactic(auto, using(sat_formula::proofs::Extension::gates, crate::proofs::Names::over))]
fn part_tests(
    arena: &Arena,
    formula: &mut Formula,
    x: CellId,
    y: CellId,
) -> Result<Vec<Lit>, AllocError>
    requires over { IsOver arena.now formula.old }
    requires types { CompositesOfOneType arena.now.kinds x y }
    ensures tests { IfOk result (λ ls. let ps = parts_of (kind_at arena.now.kinds x) in
        TestsParts arena.now formula.new ps (parts_of (kind_at arena.now.kinds y)) (length ps) ls.items) }
    ensures grows { Grows formula.old formula.new }
{
    let count = part_count(arena, x);
    let mut tests = Vec::new(arena.alloc());
    for i in 0..count {
        let left = part_at(arena, x, i);
        let right = part_at(arena, y, i);
        let one = same_in(arena, formula, left, right)?;
        tests.push(one)?;
    }
    Ok(tests)
}

// A literal that is true exactly where two sets, or two functions, have one value. Each item of the one
// is compared once with each of the other.
#[cycle(same)]
#[tactic(auto, using(sat_formula::proofs::Extension::gates, crate::proofs::Names::over))]
fn same_items(arena: &Arena, formula: &mut Formula, x: CellId, y: CellId) -> Result<Lit, AllocError>
    requires over { IsOver arena.now formula.old }
    requires types { ItemsOfOneType arena.now.kinds x y }
    ensures value { IfOk result (λ l. HasValue formula.new l (λ a. same_value (decode arena.now a x) (decode arena.now a y))) }
    ensures grows { Grows formula.old formula.new }
{
    let left = standing(arena, formula, x)?;
    let right = standing(arena, formula, y)?;
    let items = Sides { left, right };
    let tests = compare(arena, formula, x, y, &items)?;
    let all = mutual(arena.alloc(), formula, &items, &tests)?;
    Ok(all)
}

// For each item of the first whether it is among the second's, and for each of the second whether it is
// among the first's. Items that never stand are not compared.
#[cycle(same)]
#[tactic(auto, using(sat_formula::proofs::Extension::gates, crate::proofs::Names::over))]
fn compare(
    arena: &Arena,
    formula: &mut Formula,
    x: CellId,
    y: CellId,
    items: &Sides,
) -> Result<Sides, AllocError>
    requires over { IsOver arena.now formula.old }
    requires types { ItemsOfOneType arena.now.kinds x y }
    requires items { AreSides arena.now formula.old x y items.now.left.items items.now.right.items }
    ensures compares { IfOk result (λ r. let k = kind_at arena.now.kinds x in
        ComparesItems arena.now formula.new k (kind_at arena.now.kinds y) items.now.left.items items.now.right.items (length (heads_of k)) r.left.items r.right.items) }
    ensures grows { Grows formula.old formula.new }
{
    let none = formula.top().negated();
    let ours = items.left.as_slice();
    let theirs = items.right.as_slice();
    let mut found = Vec::new(arena.alloc());
    let mut covered = never(arena.alloc(), theirs, none)?;
    for i in 0..ours.len() {
        if let Some(false) = known(formula, ours[i]) {
            found.push(none)?;
            continue;
        }
        let row = row(arena, formula, Item { of: x, place: i }, y, theirs)?;
        let one = meets(formula, theirs, row.as_slice())?;
        found.push(one)?;
        covered = cover(
            arena.alloc(),
            formula,
            ours[i],
            row.as_slice(),
            covered.as_slice(),
        )?;
    }
    Ok(Sides {
        left: found,
        right: covered,
    })
}

// The literal for each of the others.
fn never(alloc: Global, others: &[Lit], none: Lit) -> Result<Vec<Lit>, AllocError>
    ensures { IfOk result (λ v. v.items ≡ map (λ e. none) others.now) }
{
    others.iter().map(|_l| none).collect(alloc)
}

// For each item of the other cell that may stand, whether it has the value of this one.
#[cycle(same)]
#[tactic(auto, using(sat_formula::proofs::Extension::gates, crate::proofs::Names::over))]
fn row(
    arena: &Arena,
    formula: &mut Formula,
    x: Item,
    y: CellId,
    theirs: &[Lit],
) -> Result<Vec<Lit>, AllocError>
    requires over { IsOver arena.now formula.old }
    requires types { ItemAndCell arena.now.kinds x.of x.place y }
    requires theirs { AreFor formula.old (kind_at arena.now.kinds y) theirs.now }
    ensures row { IfOk result (λ r. IsRow arena.now formula.new (λ a. item_at (decode arena.now a) (kind_at arena.now.kinds x.of) x.place)
        (kind_at arena.now.kinds y) theirs.now (length theirs.now) r.items) }
    ensures grows { Grows formula.old formula.new }
{
    let none = formula.top().negated();
    let mut row = Vec::new(arena.alloc());
    for j in 0..theirs.len() {
        if let Some(false) = known(formula, theirs[j]) {
            row.push(none)?;
            continue;
        }
        let one = same_item(arena, formula, x, Item { of: y, place: j })?;
        row.push(one)?;
    }
    Ok(row)
}

// A literal that is true exactly where the two items have one value. Results are compared only where
// the arguments may be equal.
#[cycle(same)]
#[tactic(auto, using(sat_formula::proofs::Extension::gates, crate::proofs::Names::over))]
fn same_item(arena: &Arena, formula: &mut Formula, x: Item, y: Item) -> Result<Lit, AllocError>
    requires over { IsOver arena.now formula.old }
    requires types { ItemsAlike arena.now.kinds x.of y.of x.place y.place }
    ensures value { IfOk result (λ l. HasValue formula.new l (λ a. same_value
        (item_at (decode arena.now a) (kind_at arena.now.kinds x.of) x.place) (item_at (decode arena.now a) (kind_at arena.now.kinds y.of) y.place))) }
    ensures grows { Grows formula.old formula.new }
{
    let left = head_at(arena, x);
    let right = head_at(arena, y);
    let heads = same_in(arena, formula, left.1, right.1)?;
    let Some(result) = tail_at(arena, x) else {
        return Ok(heads);
    };
    let Some(other) = tail_at(arena, y) else {
        return Ok(heads);
    };
    if let Some(false) = known(formula, heads) {
        return Ok(heads);
    }
    let tails = same_in(arena, formula, result, other)?;
    let both = formula.and(heads, tails)?;
    Ok(both)
}

// A literal for each item that is true exactly where it stands.
#[cycle(same)]
#[tactic(auto, using(sat_formula::proofs::Extension::gates, crate::proofs::Names::over))]
fn standing(arena: &Arena, formula: &mut Formula, x: CellId) -> Result<Vec<Lit>, AllocError>
    requires over { IsOver arena.now formula.old }
    requires types { ItemsOfOneType arena.now.kinds x x }
    ensures tells { IfOk result (λ ls. let k = kind_at arena.now.kinds x in TellStanding arena.now formula.new k (length (heads_of k)) ls.items) }
    ensures grows { Grows formula.old formula.new }
{
    let total = item_count(arena, x);
    let mut all = Vec::new(arena.alloc());
    for i in 0..total {
        let one = stands(arena, formula, Item { of: x, place: i })?;
        all.push(one)?;
    }
    Ok(all)
}

// A literal that is true exactly where the item stands: a member that is there, or an arrow that is there
// and no earlier one that is there has its argument.
#[cycle(same)]
#[tactic(auto, using(sat_formula::proofs::Extension::gates, crate::proofs::Names::over))]
fn stands(arena: &Arena, formula: &mut Formula, x: Item) -> Result<Lit, AllocError>
    requires over { IsOver arena.now formula.old }
    requires item { ItemsAlike arena.now.kinds x.of x.of x.place x.place }
    ensures value { IfOk result (λ l. HasValue formula.new l (λ a. stands_at a (decode arena.now a) (kind_at arena.now.kinds x.of) x.place)) }
    ensures grows { Grows formula.old formula.new }
{
    let (l, argument) = head_at(arena, x);
    if let Some(false) = known(formula, l) {
        return Ok(l);
    }
    let CellKind::Fun(_) = arena.kind(x.of) else {
        return Ok(l);
    };
    let mut hidden = formula.top().negated();
    for i in 0..x.place {
        let (m, earlier) = head_at(arena, Item { of: x.of, place: i });
        if let Some(false) = known(formula, m) {
            continue;
        }
        let one = same_in(arena, formula, argument, earlier)?;
        let here = formula.and(m, one)?;
        hidden = formula.or(hidden, here)?;
    }
    let first = formula.and(l, hidden.negated())?;
    Ok(first)
}

/// A literal that is true exactly where the value of the cell is a member of the set. Edges that
/// are never there are not compared.
#[tactic(auto, using(sat_formula::proofs::Extension::gates, crate::proofs::Names::over))]
pub fn member_in(
    arena: &Arena,
    formula: &mut Formula,
    x: CellId,
    set: CellId,
) -> Result<Lit, AllocError>
    requires over { IsOver arena.now formula.old }
    requires types { MemberType arena.now.kinds x set }
    ensures value { IfOk result (λ l. HasValue formula.new l (λ a. member (decode arena.now a x) (elements (decode arena.now a set)))) }
    ensures grows { Grows formula.old formula.new }
{
    let mut any = formula.top().negated();
    if let CellKind::Set(edges) = arena.kind(set) {
        for (l, e) in edges.as_slice() {
            if let Some(false) = known(formula, *l) {
                continue;
            }
            let one = same_in(arena, formula, x, *e)?;
            let holds = formula.and(*l, one)?;
            any = formula.or(any, holds)?;
        }
    }
    Ok(any)
}

/// For each edge of the first set a literal: where the edge is there, whether its value is a member
/// of the second. Edges that are never there are not compared.
#[tactic(auto, using(sat_formula::proofs::Extension::gates, crate::proofs::Names::over))]
pub fn members_in(
    arena: &Arena,
    formula: &mut Formula,
    x: CellId,
    y: CellId,
) -> Result<Vec<Lit>, AllocError>
    requires over { IsOver arena.now formula.old }
    requires types { SetsOfOneType arena.now.kinds x y }
    ensures tests { IfOk result (λ ls. let es = edges_of (kind_at arena.now.kinds x) in
        TestsEach arena.now formula.new es (length es) (λ a v. member v (elements (decode arena.now a y))) ls.items) }
    ensures grows { Grows formula.old formula.new }
{
    let none = formula.top().negated();
    let mut tests = Vec::new(arena.alloc());
    if let CellKind::Set(edges) = arena.kind(x) {
        for (l, e) in edges.as_slice() {
            if let Some(false) = known(formula, *l) {
                tests.push(none)?;
                continue;
            }
            let found = member_in(arena, formula, *e, y)?;
            tests.push(found)?;
        }
    }
    Ok(tests)
}

// The literals of the set's edges.
fn literals(arena: &Arena, set: CellId) -> Result<Vec<Lit>, AllocError>
    requires { set.index < length arena.now.kinds }
    ensures { IfOk result (λ v. v.items ≡ map (λ e. e.0) (edges_of (kind_at arena.now.kinds set))) }
{
    let CellKind::Set(edges) = arena.kind(set) else {
        return Ok(Vec::new(arena.alloc()));
    };
    edges.as_slice().iter().map(|e| e.0).collect(arena.alloc())
}

/// A literal that is true exactly where each member of the first set is one of the second.
#[tactic(auto, using(sat_formula::proofs::Extension::gates, crate::proofs::Names::over))]
pub fn subset_in(
    arena: &Arena,
    formula: &mut Formula,
    x: CellId,
    y: CellId,
) -> Result<Lit, AllocError>
    requires over { IsOver arena.now formula.old }
    requires types { SetsOfOneType arena.now.kinds x y }
    ensures value { IfOk result (λ l. HasValue formula.new l (λ a. subset (elements (decode arena.now a x)) (elements (decode arena.now a y)))) }
    ensures grows { Grows formula.old formula.new }
{
    let tests = members_in(arena, formula, x, y)?;
    let edges = literals(arena, x)?;
    let holds = implied(arena.alloc(), formula, edges.as_slice(), tests.as_slice())?;
    let all = formula.and_all(arena.alloc(), holds.as_slice())?;
    Ok(all)
}

/// A literal that is true exactly where the two cells have one value.
#[tactic(auto, using(cell_arena::proofs::Growing::growing))]
pub fn same(b: &mut Build, x: CellId, y: CellId) -> Result<Lit, AllocError>
    requires { OneType b.old.arena.kinds x y }
    ensures value { IfOk result (λ l. HasValue b.new.formula l (λ a. same_value (decode b.old.arena a x) (decode b.old.arena a y))) }
    ensures arena { b.new.arena ≡ b.old.arena }
    ensures grows { BuildGrows b.old b.new }
{
    let l = same_in(&b.arena, &mut b.formula, x, y)?;
    Ok(l)
}
