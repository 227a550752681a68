//! The operators on sets, choice and equality, against sets of values.

ghost use Rattle.cell_arena.specs.Cells.{kind_at};
ghost use Rattle.cell_arena.specs.Growth.{Grows};
ghost use Rattle.cell_merge.specs.Edges.{edges_of};
ghost use Rattle.cell_merge.specs.Picks.{IsSetCell};
ghost use Rattle.cell_merge.specs.Sorts.{OfSort, OneType, Sort, SetsOfOneType, name, number, set_of as set_sort, truth};
ghost use Rattle.cell_tests.specs.Kinds.{sort_of};
ghost use Rattle.sat_formula.specs.Lit.{IsBelow};
ghost use Rattle.std.specs.Prelude.{◌<◌, ◌≡◌, All, IfOk, length};

use crate::arena::free;
use crate::cases::{CASES, DEEP, TEXTS, TRUTHS};
use crate::decoding::shown_at;
use crate::equality::{extended, int};
use cell_arena::{Build, CellId, CellKind, all_differ};
use cell_merge::{choose_cell, pick, same};
use sat_formula::Lit;
use set_rewriter::{
    big_union, cardinality, filter, inter, map, member, minus, pick_subset, subset, subsets, union,
};
use std::alloc::{AllocError, Global};
use std::test::Fail;
use tla_values::{List, Text};
use word_blaster::literal;

// `top` and 8 free bits.
#[tactic(auto, using(cell_arena::proofs::Growing::growing))]
pub fn free_bits(alloc: Global, b: &mut Build) -> Result<Vec<Lit>, AllocError>
    ensures bits { IfOk result (λ v. All (IsBelow b.new.formula.vars) v.items) }
    ensures grows { Grows b.old b.new }
{
    let mut bits = Vec::new(alloc);
    bits.push(b.formula.top())?;
    for _i in 0..8 {
        let bit = free(b)?;
        bits.push(bit)?;
    }
    Ok(bits)
}

// The literal with this letter.
pub fn literal_of(b: &Build, bits: &[Lit], code: u8) -> Lit
    requires { All (IsBelow b.now.formula.vars) bits.now }
    ensures { result.var < b.now.formula.vars }
{
    let top = b.formula.top();
    match code {
        b'F' => top.negated(),
        b'a'..=b'h' => match bits.get((code - b'a') as usize + 1) {
            Some(l) => *l,
            None => top,
        },
        b'A'..=b'H' => match bits.get((code - b'A') as usize + 1) {
            Some(l) => l.negated(),
            None => top,
        },
        _ => top,
    }
}

// One number or another.
#[tactic(auto, using(cell_arena::proofs::Growing::growing, cell_merge::proofs::SortLaws::sorts))]
fn one_of(alloc: Global, b: &mut Build, l: Lit, m: i128, n: i128) -> Result<CellId, AllocError>
    requires { l.var < b.old.formula.vars }
    ensures sort { IfOk result (OfSort b.new.arena.kinds number) }
    ensures grows { Grows b.old b.new }
{
    let x = int(alloc, b, m)?;
    let y = int(alloc, b, n)?;
    let cell = choose_cell(b, l, x, y)?;
    Ok(cell)
}

// The number with this letter.
#[tactic(auto, using(cell_arena::proofs::Growing::growing))]
fn number(alloc: Global, b: &mut Build, bits: &[Lit], code: u8) -> Result<CellId, AllocError>
    requires { All (IsBelow b.old.formula.vars) bits.now }
    ensures sort { IfOk result (OfSort b.new.arena.kinds number) }
    ensures grows { Grows b.old b.new }
{
    let g = literal_of(b, bits, b'g');
    let h = literal_of(b, bits, b'h');
    let cell = match code {
        b'm' => one_of(alloc, b, g, 1, 0)?,
        b'n' => one_of(alloc, b, h, 3, 2)?,
        b'k' => one_of(alloc, b, g, 2, 1)?,
        _ => int(alloc, b, code as i128 - 48)?,
    };
    Ok(cell)
}

// The text with this index.
#[tactic(auto, using(cell_arena::proofs::Growing::growing, cell_merge::proofs::SortLaws::sorts))]
fn name(alloc: Global, b: &mut Build, index: usize) -> Result<CellId, AllocError>
    ensures sort { IfOk result (OfSort b.new.arena.kinds name) }
    ensures grows { Grows b.old b.new }
{
    if index >= b.texts().len() {
        return Err(AllocError);
    }
    let (code, _) = literal(alloc, &mut b.formula, index as i128, 32)?;
    let id = b.text(code)?;
    Ok(id)
}

// One text or another.
#[tactic(auto, using(cell_arena::proofs::Growing::growing, cell_merge::proofs::SortLaws::sorts))]
fn name_of(alloc: Global, b: &mut Build, l: Lit, m: usize, n: usize) -> Result<CellId, AllocError>
    requires { l.var < b.old.formula.vars }
    ensures sort { IfOk result (OfSort b.new.arena.kinds name) }
    ensures grows { Grows b.old b.new }
{
    let x = name(alloc, b, m)?;
    let y = name(alloc, b, n)?;
    let cell = choose_cell(b, l, x, y)?;
    Ok(cell)
}

// The text with this letter.
#[tactic(auto, using(cell_arena::proofs::Growing::growing))]
fn text(alloc: Global, b: &mut Build, bits: &[Lit], code: u8) -> Result<CellId, AllocError>
    requires { All (IsBelow b.old.formula.vars) bits.now }
    ensures sort { IfOk result (OfSort b.new.arena.kinds name) }
    ensures grows { Grows b.old b.new }
{
    let g = literal_of(b, bits, b'g');
    let cell = match code {
        b'p' => name(alloc, b, 0)?,
        b'q' => name(alloc, b, 1)?,
        b'r' => name(alloc, b, 2)?,
        _ => name_of(alloc, b, g, 0, 1)?,
    };
    Ok(cell)
}

// The truth value of the literal with this letter.
#[tactic(auto, using(cell_arena::proofs::Growing::growing, cell_merge::proofs::SortLaws::sorts))]
fn truth(b: &mut Build, bits: &[Lit], code: u8) -> Result<CellId, AllocError>
    requires { All (IsBelow b.old.formula.vars) bits.now }
    ensures sort { IfOk result (OfSort b.new.arena.kinds truth) }
    ensures grows { Grows b.old b.new }
{
    let l = literal_of(b, bits, code);
    let id = b.bit(l)?;
    Ok(id)
}

// The member of the kind with this letter.
#[tactic(auto, using(cell_arena::proofs::Growing::growing))]
fn element(
    alloc: Global,
    b: &mut Build,
    kind: usize,
    bits: &[Lit],
    code: u8,
) -> Result<CellId, AllocError>
    requires { All (IsBelow b.old.formula.vars) bits.now }
    ensures sort { IfOk result (OfSort b.new.arena.kinds (sort_of kind)) }
    ensures grows { Grows b.old b.new }
{
    if kind == 0 {
        let bit = truth(b, bits, code)?;
        return Ok(bit);
    }
    if kind == 1 {
        let name = text(alloc, b, bits, code)?;
        return Ok(name);
    }
    let cell = number(alloc, b, bits, code)?;
    Ok(cell)
}

// A set by its edges.
#[tactic(auto, using(cell_arena::proofs::Growing::growing))]
pub fn set(
    alloc: Global,
    b: &mut Build,
    kind: usize,
    bits: &[Lit],
    edges: &[u8],
) -> Result<CellId, AllocError>
    requires { All (IsBelow b.old.formula.vars) bits.now }
    ensures sort { IfOk result (OfSort b.new.arena.kinds (set_sort (sort_of kind))) }
    ensures grows { Grows b.old b.new }
{
    let mut list = Vec::new(alloc);
    for i in 0..edges.len() / 2 {
        let cell = element(alloc, b, kind, bits, edges[2 * i])?;
        let l = literal_of(b, bits, edges[2 * i + 1]);
        list.push((l, cell))?;
    }
    let id = b.set(List::from_vec(list))?;
    Ok(id)
}

// The cells with these letters.
#[tactic(auto, using(cell_arena::proofs::Growing::growing))]
fn elements(
    alloc: Global,
    b: &mut Build,
    kind: usize,
    bits: &[Lit],
    letters: &[u8],
) -> Result<Vec<CellId>, AllocError>
    requires { All (IsBelow b.old.formula.vars) bits.now }
    ensures sorts { IfOk result (λ v. All (OfSort b.new.arena.kinds (sort_of kind)) v.items) }
    ensures grows { Grows b.old b.new }
{
    let mut list = Vec::new(alloc);
    for code in letters {
        let cell = element(alloc, b, kind, bits, *code)?;
        list.push(cell)?;
    }
    Ok(list)
}

// The literals with these letters.
fn literals(alloc: Global, b: &Build, bits: &[Lit], letters: &[u8]) -> Result<Vec<Lit>, AllocError>
    requires { All (IsBelow b.now.formula.vars) bits.now }
    ensures { IfOk result (λ v. All (IsBelow b.now.formula.vars) v.items) }
{
    let mut list = Vec::new(alloc);
    for code in letters {
        list.push(literal_of(b, bits, *code))?;
    }
    Ok(list)
}

fn edge_count(b: &Build, id: CellId) -> usize
    requires { id.index < length b.now.arena.kinds }
    ensures { result ≡ length (edges_of (kind_at b.now.arena.kinds id)) }
{
    if let CellKind::Set(edges) = b.arena.kind(id) {
        return edges.len();
    }
    0
}

// The members that are kept by the literals with these letters.
#[tactic(auto, using(cell_arena::proofs::Growing::growing))]
fn filtered(
    alloc: Global,
    b: &mut Build,
    kind: usize,
    bits: &[Lit],
    x: CellId,
    letters: &[u8],
) -> Result<CellId, AllocError>
    requires bits { All (IsBelow b.old.formula.vars) bits.now }
    requires sort { OfSort b.old.arena.kinds (set_sort (sort_of kind)) x }
{
    let keep = literals(alloc, b, bits, letters)?;
    if keep.len() != edge_count(b, x) {
        return Ok(x);
    }
    filter(b, x, keep.as_slice())
}

// The images with these letters.
#[tactic(auto, using(cell_arena::proofs::Growing::growing))]
fn mapped(
    alloc: Global,
    b: &mut Build,
    kind: usize,
    bits: &[Lit],
    x: CellId,
    letters: &[u8],
) -> Result<CellId, AllocError>
    requires bits { All (IsBelow b.old.formula.vars) bits.now }
    requires sort { OfSort b.old.arena.kinds (set_sort (sort_of kind)) x }
{
    let images = elements(alloc, b, kind, bits, letters)?;
    if images.len() != edge_count(b, x) {
        return Ok(x);
    }
    map(b, x, images.as_slice())
}

// Whether k, or p or the first bit, is a member.
#[tactic(auto, using(cell_arena::proofs::Growing::growing))]
fn found(
    alloc: Global,
    b: &mut Build,
    kind: usize,
    bits: &[Lit],
    x: CellId,
) -> Result<CellId, AllocError>
    requires bits { All (IsBelow b.old.formula.vars) bits.now }
    requires sort { OfSort b.old.arena.kinds (set_sort (sort_of kind)) x }
{
    let letter = match kind {
        0 => b'a',
        1 => b't',
        _ => b'k',
    };
    let k = element(alloc, b, kind, bits, letter)?;
    let l = member(b, k, x)?;
    b.bit(l)
}

// The set of the two cells, each where its literal is true.
#[tactic(auto, using(cell_arena::proofs::Growing::growing))]
fn two_edges(
    alloc: Global,
    b: &mut Build,
    x: (Lit, CellId),
    y: (Lit, CellId),
) -> Result<CellId, AllocError>
    requires x_below { x.0.var < b.old.formula.vars }
    requires y_below { y.0.var < b.old.formula.vars }
    requires types { OneType b.old.arena.kinds x.1 y.1 }
    ensures sort { IfOk result (λ id. (s : Sort) → OfSort b.old.arena.kinds s x.1 → OfSort b.old.arena.kinds s y.1 → OfSort b.new.arena.kinds (set_sort s) id) }
    ensures grows { Grows b.old b.new }
{
    let edges = Vec::from_slice(alloc, &[x, y])?;
    let id = b.set(List::from_vec(edges))?;
    Ok(id)
}

// Whether the operator, equality or inclusion, holds.
#[tactic(auto, using(cell_arena::proofs::Growing::growing))]
fn holds_of(b: &mut Build, op: &str, x: CellId, y: CellId) -> Result<CellId, AllocError>
    requires types { SetsOfOneType b.old.arena.kinds x y }
{
    let l = if op == "same" {
        same(b, x, y)?
    } else {
        subset(b, x, y)?
    };
    b.bit(l)
}

// What an operator on one set gives.
#[tactic(auto, using(cell_arena::proofs::Growing::growing))]
fn answer_of_one(b: &mut Build, op: &str, x: CellId) -> Result<CellId, AllocError>
    requires { IsSetCell b.old x }
{
    if op == "size" {
        let (id, _) = cardinality(b, x)?;
        return Ok(id);
    }
    if op == "subsets" {
        return subsets(b, x);
    }
    if op == "part" {
        return pick_subset(b, x);
    }
    match pick(b, x)? {
        Some((id, _)) => Ok(id),
        None => Ok(x),
    }
}

// What the operator gives.
#[tactic(auto, using(cell_arena::proofs::Growing::growing))]
fn answer(
    alloc: Global,
    b: &mut Build,
    op: &str,
    bits: &[Lit],
    x: CellId,
    y: CellId,
) -> Result<CellId, AllocError>
    requires bits { All (IsBelow b.old.formula.vars) bits.now }
    requires types { SetsOfOneType b.old.arena.kinds x y }
{
    let p = literal_of(b, bits, b'a');
    let q = literal_of(b, bits, b'b');
    if op == "union" {
        return union(b, x, y);
    }
    if op == "inter" {
        return inter(b, x, y);
    }
    if op == "minus" {
        return minus(b, x, y);
    }
    if op == "choose" {
        return choose_cell(b, p, x, y);
    }
    if op == "big" {
        let sets = two_edges(alloc, b, (p, x), (q, y))?;
        return big_union(b, sets);
    }
    if op == "same" || op == "subset" {
        return holds_of(b, op, x, y);
    }
    answer_of_one(b, op, x)
}

// The texts p, q and r.
fn texts(alloc: Global) -> Result<List<Text>, AllocError> {
    let mut list = List::new(alloc);
    for code in b"pqr" {
        let mut text = Vec::new(alloc);
        text.push(*code)?;
        list.push(Text::from_vec(text))?;
    }
    Ok(list)
}

// The operator on sets of all subsets.
#[tactic(auto, using(cell_arena::proofs::Growing::growing))]
fn deep_answer(
    alloc: Global,
    b: &mut Build,
    op: &str,
    bits: &[Lit],
    x: CellId,
    y: CellId,
) -> Result<CellId, AllocError>
    requires bits { All (IsBelow b.old.formula.vars) bits.now }
    requires types { SetsOfOneType b.old.arena.kinds x y }
{
    let left = subsets(b, x)?;
    let right = subsets(b, y)?;
    answer(alloc, b, op, bits, left, right)
}

// What the operator gives on two sets of the kind, or on the first one and the letters: of truth
// values, texts, numbers, or sets of numbers.
#[tactic(auto, using(cell_arena::proofs::Growing::growing))]
pub fn solved(
    alloc: Global,
    b: &mut Build,
    kind: usize,
    op: &str,
    bits: &[Lit],
    sets: (CellId, CellId),
    letters: &str,
) -> Result<CellId, AllocError>
    requires bits { All (IsBelow b.old.formula.vars) bits.now }
    requires left { OfSort b.old.arena.kinds (set_sort (sort_of kind)) sets.0 }
    requires right { OfSort b.old.arena.kinds (set_sort (sort_of kind)) sets.1 }
{
    if op == "filter" {
        return filtered(alloc, b, kind, bits, sets.0, letters.as_bytes());
    }
    if op == "map" {
        return mapped(alloc, b, kind, bits, sets.0, letters.as_bytes());
    }
    if op == "member" {
        return found(alloc, b, kind, bits, sets.1);
    }
    if kind > 2 {
        return deep_answer(alloc, b, op, bits, sets.0, sets.1);
    }
    answer(alloc, b, op, bits, sets.0, sets.1)
}

// The text of what the operator gives where the bits have these values.
#[tactic(auto, using(cell_arena::proofs::Growing::growing))]
fn text_of(
    alloc: Global,
    kind: usize,
    op: &str,
    x: &str,
    y: &str,
    given: &str,
) -> Result<Vec<u8>, AllocError> {
    let names = texts(alloc)?;
    if !all_differ(names.as_slice()) {
        return Err(AllocError);
    }
    let mut b = Build::new(alloc, &names, 5)?;
    let bits = free_bits(alloc, &mut b)?;
    let left = set(alloc, &mut b, kind, bits.as_slice(), x.as_bytes())?;
    let right = set(alloc, &mut b, kind, bits.as_slice(), y.as_bytes())?;
    let id = solved(alloc, &mut b, kind, op, bits.as_slice(), (left, right), y)?;
    let mut a = Vec::new(alloc);
    a.push(true)?;
    for c in given.as_bytes() {
        a.push(*c == b'1')?;
    }
    let values = extended(alloc, &b.formula, a.as_slice())?;
    shown_at(alloc, &b, values.as_slice(), id)
}

// Whether the line gives what it says.
fn holds(alloc: Global, kind: usize, line: &str) -> Result<bool, AllocError> {
    let (head, want) = line.split_once(" => ").unwrap_or((line, ""));
    let (op, rest) = head.split_once(" ").unwrap_or((head, ""));
    let (x, sets) = rest.split_once(" ").unwrap_or((rest, ""));
    let (y, given) = sets.split_once(" ").unwrap_or((sets, ""));
    let text = text_of(alloc, kind, op, x, y, given)?;
    Ok(text.as_slice() == want.as_bytes())
}

#[test]
fn operators_agree_with_sets_of_numbers(rt: HostRuntime) -> Result<(), Fail> {
    for line in CASES.lines() {
        assert!(rt; holds(rt.alloc(), 2, line)?, "{line}");
    }
    Ok(())
}

#[test]
fn operators_agree_with_sets_of_other_values(rt: HostRuntime) -> Result<(), Fail> {
    for (kind, lines) in [(0, TRUTHS), (1, TEXTS), (3, DEEP)] {
        for line in lines.lines() {
            assert!(rt; holds(rt.alloc(), kind, line)?, "{line}");
        }
    }
    Ok(())
}
