//! What the calls give on cells by letters.

ghost use Rattle.cell_arena.specs.Growth.{Grows};
ghost use Rattle.cell_merge.specs.Sorts.{OfSort, OneType};
ghost use Rattle.function_tests.specs.Shapes.{entry_sort, pair_sort};
ghost use Rattle.sat_formula.specs.Lit.{IsBelow};
ghost use Rattle.std.specs.Prelude.{◌<◌, All, IfOk};

use crate::building::{boxed, entry, free_bits, literal_of, name, pair};
use crate::decoding::{extended, shown_at};
use cell_arena::{Build, CellId};
use cell_merge::{choose_cell, same};
use function_rewriter::{field, item, with_field, with_item};
use sat_formula::Lit;
use std::alloc::{AllocError, Global};
use tla_values::List;

// Whether the two are equal, or a choice between them.
#[tactic(auto, using(cell_arena::proofs::Growing::growing))]
fn of_two(b: &mut Build, op: &str, l: Lit, x: CellId, y: CellId) -> Result<CellId, AllocError>
    requires below { l.var < b.old.formula.vars }
    requires types { OneType b.old.arena.kinds x y }
{
    if op == "choose" {
        return choose_cell(b, l, x, y);
    }
    let equal = same(b, x, y)?;
    b.bit(equal)
}

// An item of the first pair, or that pair with an item of the second.
#[tactic(auto, using(cell_arena::proofs::Growing::growing))]
fn of_pairs(b: &mut Build, op: &str, l: Lit, x: CellId, y: CellId) -> Result<CellId, AllocError>
    requires below { l.var < b.old.formula.vars }
    requires left { OfSort b.old.arena.kinds pair_sort x }
    requires right { OfSort b.old.arena.kinds pair_sort y }
{
    let first = item(b, y, 1);
    let second = item(b, y, 2);
    match op {
        "item1" => Ok(item(b, x, 1)),
        "item2" => Ok(item(b, x, 2)),
        "with1" => with_item(b, x, 1, first),
        "with2" => with_item(b, x, 2, second),
        _ => of_two(b, op, l, x, y),
    }
}

// A field of the first record, or that record with a field of the second.
#[tactic(auto, using(cell_arena::proofs::Growing::growing))]
fn of_entries(
    alloc: Global,
    b: &mut Build,
    op: &str,
    l: Lit,
    cells: (CellId, CellId),
) -> Result<CellId, AllocError>
    requires below { l.var < b.old.formula.vars }
    requires left { OfSort b.old.arena.kinds entry_sort cells.0 }
    requires right { OfSort b.old.arena.kinds entry_sort cells.1 }
{
    let (x, y) = cells;
    let n = name(alloc, b'n')?;
    let p = name(alloc, b'p')?;
    let first = field(b, y, &n);
    let second = field(b, y, &p);
    match op {
        "n" => Ok(field(b, x, &n)),
        "p" => Ok(field(b, x, &p)),
        "withn" => with_field(b, x, &n, first),
        "withp" => with_field(b, x, &p, second),
        _ => of_two(b, op, l, x, y),
    }
}

/// What the call gives on two pairs, two records or two pairs of a truth value and a set of
/// records, and the numbers of variables, clauses and cells that it adds.
#[tactic(auto, using(cell_arena::proofs::Growing::growing))]
pub fn solved(
    alloc: Global,
    b: &mut Build,
    op: &str,
    bits: &[Lit],
    letters: (&[u8], &[u8]),
) -> Result<(CellId, [usize; 3]), AllocError>
    requires { All (IsBelow b.old.formula.vars) bits.now }
{
    let l = literal_of(b, bits, b'c');
    let (left, right) = letters;
    if left.len() == 2 {
        let first_pair = pair(alloc, b, bits, left)?;
        let second_pair = pair(alloc, b, bits, right)?;
        let before = counts(b);
        let id = of_pairs(b, op, l, first_pair, second_pair)?;
        return Ok((id, differences(counts(b), before)));
    }
    if left.len() == 3 {
        let first_entry = entry(alloc, b, bits, left)?;
        let second_entry = entry(alloc, b, bits, right)?;
        let before = counts(b);
        let id = of_entries(alloc, b, op, l, (first_entry, second_entry))?;
        return Ok((id, differences(counts(b), before)));
    }
    let first_box = boxed(alloc, b, bits, left)?;
    let second_box = boxed(alloc, b, bits, right)?;
    let before = counts(b);
    let id = of_two(b, op, l, first_box, second_box)?;
    Ok((id, differences(counts(b), before)))
}

/// The numbers of variables, clauses and cells.
pub fn counts(b: &Build) -> [usize; 3] {
    let clauses = b.formula.clauses().clauses().len();
    [b.formula.vars(), clauses, b.arena.len()]
}

/// What the later numbers are above the earlier ones.
pub fn differences(after: [usize; 3], before: [usize; 3]) -> [usize; 3] {
    let [vars, clauses, cells] = before;
    let [v, c, n] = after;
    [
        v.saturating_sub(vars),
        c.saturating_sub(clauses),
        n.saturating_sub(cells),
    ]
}

/// The text of what the call gives where the bits have these values.
#[tactic(auto, using(cell_arena::proofs::Growing::growing))]
pub fn text_of(
    alloc: Global,
    op: &str,
    left: &str,
    right: &str,
    given: &str,
) -> Result<Vec<u8>, AllocError> {
    let mut b = Build::new(alloc, &List::new(alloc), 4)?;
    let bits = free_bits(alloc, &mut b)?;
    let letters = (left.as_bytes(), right.as_bytes());
    let (id, _) = solved(alloc, &mut b, op, bits.as_slice(), letters)?;
    let mut a = Vec::new(alloc);
    a.push(true)?;
    for c in given.as_bytes() {
        a.push(*c == b'1')?;
    }
    let values = extended(alloc, &b.formula, a.as_slice())?;
    shown_at(alloc, &b, values.as_slice(), id)
}

/// The numbers of variables, clauses and cells that the call adds.
#[tactic(auto, using(cell_arena::proofs::Growing::growing))]
pub fn size_of(alloc: Global, op: &str, left: &str, right: &str) -> Result<[usize; 3], AllocError> {
    let mut b = Build::new(alloc, &List::new(alloc), 4)?;
    let bits = free_bits(alloc, &mut b)?;
    let letters = (left.as_bytes(), right.as_bytes());
    let (_, size) = solved(alloc, &mut b, op, bits.as_slice(), letters)?;
    Ok(size)
}
