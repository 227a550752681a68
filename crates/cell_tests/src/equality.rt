//! Equality of cells, against what it should be.

ghost use Rattle.cell_arena.specs.Growth.{Grows};
ghost use Rattle.cell_merge.specs.Sorts.{OfSort, number, set_of as set_sort};
ghost use Rattle.std.specs.Prelude.{◌<◌, ◌≡◌, All, IfOk};

use crate::arena::free;
use cell_arena::{Build, CellId};
use cell_merge::same;
use sat_formula::{Formula, Lit};
use std::alloc::{AllocError, Global};
use std::test::Fail;
use tla_values::List;
use word_blaster::literal;

// Whether the clause has a true literal, or one of a later variable.
pub fn is_met(lits: &[Lit], a: &[bool]) -> bool {
    for l in lits {
        match a.get(l.var) {
            Some(b) => {
                if *b != l.neg {
                    return true;
                }
            }
            None => return true,
        }
    }
    false
}

pub fn are_met(f: &Formula, a: &[bool]) -> bool {
    for c in f.clauses().clauses() {
        if !is_met(c.lits(), a) {
            return false;
        }
    }
    true
}

// The assignment with values of the further variables that the gates fix.
pub fn extended(alloc: Global, f: &Formula, a: &[bool]) -> Result<Vec<bool>, AllocError> {
    let mut values = Vec::from_slice(alloc, a)?;
    for _i in a.len()..f.vars() {
        values.push(true)?;
        if !are_met(f, values.as_slice()) {
            let _ = values.pop();
            values.push(false)?;
        }
    }
    Ok(values)
}

#[tactic(auto, using(cell_arena::proofs::Growing::growing, cell_merge::proofs::SortLaws::sorts))]
pub fn int(alloc: Global, b: &mut Build, n: i128) -> Result<CellId, AllocError>
    ensures sort { IfOk result (OfSort b.new.arena.kinds number) }
    ensures grows { Grows b.old b.new }
{
    let width = b.width();
    let (word, _) = literal(alloc, &mut b.formula, n, width)?;
    let id = b.word(word)?;
    Ok(id)
}

// The literal's value where the first variables have these values.
fn answer(alloc: Global, b: &Build, l: Lit, a: &[bool]) -> Result<bool, AllocError> {
    let values = extended(alloc, &b.formula, a)?;
    Ok(!is_met(&[l.negated()], values.as_slice()))
}

#[tactic(auto, using(cell_arena::proofs::Growing::growing, cell_merge::proofs::SortLaws::sorts))]
fn numbers_agree(alloc: Global, m: i128, n: i128) -> Result<bool, AllocError> {
    let mut b = Build::new(alloc, &List::new(alloc), 8)?;
    let x = int(alloc, &mut b, m)?;
    let y = int(alloc, &mut b, n)?;
    let l = same(&mut b, x, y)?;
    answer(alloc, &b, l, &[true])
}

#[test]
fn numbers_are_equal_by_value(rt: HostRuntime) -> Result<(), Fail> {
    for (m, n, want) in [
        (3, 3, true),
        (3, -3, false),
        (-128, -128, true),
        (1, 0, false),
    ] {
        assert_eq!(rt; numbers_agree(rt.alloc(), m, n)?, want, "{m} {n}");
    }
    Ok(())
}

// The set of 1 where p and of 2 where q.
#[tactic(auto, using(cell_arena::proofs::Growing::growing, cell_merge::proofs::SortLaws::sorts))]
fn pair(alloc: Global, b: &mut Build, p: Lit, q: Lit) -> Result<CellId, AllocError>
    requires p_below { p.var < b.old.formula.vars }
    requires q_below { q.var < b.old.formula.vars }
    ensures sort { IfOk result (OfSort b.new.arena.kinds (set_sort number)) }
    ensures grows { Grows b.old b.new }
{
    let x = int(alloc, b, 1)?;
    let y = int(alloc, b, 2)?;
    let edges = Vec::from_slice(alloc, &[(p, x), (q, y)])?;
    let id = b.set(List::from_vec(edges))?;
    Ok(id)
}

// Whether {1 where p, 2 where q} is {1 where r, 2}, which is so where q, and p is r. In both orders.
#[tactic(auto, using(cell_arena::proofs::Growing::growing, cell_merge::proofs::SortLaws::sorts))]
fn sets_agree(alloc: Global, p: bool, q: bool, r: bool) -> Result<[bool; 2], AllocError> {
    let mut b = Build::new(alloc, &List::new(alloc), 4)?;
    let k = free(&mut b)?;
    let l = free(&mut b)?;
    let m = free(&mut b)?;
    let top = b.formula.top();
    let x = pair(alloc, &mut b, k, l)?;
    let y = pair(alloc, &mut b, m, top)?;
    let there = same(&mut b, x, y)?;
    let back = same(&mut b, y, x)?;
    let a = [true, p, q, r];
    Ok([answer(alloc, &b, there, &a)?, answer(alloc, &b, back, &a)?])
}

#[test]
fn sets_are_equal_by_their_members(rt: HostRuntime) -> Result<(), Fail> {
    for i in 0..8u8 {
        let (p, q, r) = (i & 1 == 1, i & 2 == 2, i & 4 == 4);
        let want = q && p == r;
        assert_eq!(rt; sets_agree(rt.alloc(), p, q, r)?, [want, want], "{i}");
    }
    Ok(())
}
