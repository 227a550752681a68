//! Functions and sets of numbers by letters.

ghost use Rattle.cell_arena.specs.Cells.{kind_at};
ghost use Rattle.cell_arena.specs.Growth.{Grows};
ghost use Rattle.cell_merge.specs.Edges.{edges_of};
ghost use Rattle.cell_merge.specs.Sorts.{OfSort, function_of as function_sort, number as number_sort, set_of as set_sort};
ghost use Rattle.sat_formula.specs.Lit.{IsBelow};
ghost use Rattle.std.specs.Prelude.{◌≡◌, All, IfOk, length};

use crate::building::{literal_of, number};
use cell_arena::{Build, CellId};
use sat_formula::Lit;
use std::alloc::{AllocError, Global};
use tla_values::List;

/// A function by its arrows: an argument, a literal and a result.
#[tactic(auto, using(cell_arena::proofs::Growing::growing))]
pub fn function(
    alloc: Global,
    b: &mut Build,
    bits: &[Lit],
    letters: &[u8],
) -> Result<CellId, AllocError>
    requires { All (IsBelow b.old.formula.vars) bits.now }
    ensures sort { IfOk result (OfSort b.new.arena.kinds (function_sort number_sort number_sort)) }
    ensures grows { Grows b.old b.new }
{
    let mut list = Vec::new(alloc);
    for i in 0..letters.len() / 3 {
        let x = number(alloc, b, bits, letters[3 * i])?;
        let y = number(alloc, b, bits, letters[3 * i + 2])?;
        let l = literal_of(b, bits, letters[3 * i + 1]);
        list.push((l, x, y))?;
    }
    let id = b.fun(List::from_vec(list))?;
    Ok(id)
}

/// A set by its edges: a member and a literal.
#[tactic(auto, using(cell_arena::proofs::Growing::growing))]
pub fn set(alloc: Global, b: &mut Build, bits: &[Lit], letters: &[u8]) -> Result<CellId, AllocError>
    requires { All (IsBelow b.old.formula.vars) bits.now }
    ensures sort { IfOk result (OfSort b.new.arena.kinds (set_sort number_sort)) }
    ensures grows { Grows b.old b.new }
{
    let mut list = Vec::new(alloc);
    for i in 0..letters.len() / 2 {
        let cell = number(alloc, b, bits, letters[2 * i])?;
        let l = literal_of(b, bits, letters[2 * i + 1]);
        list.push((l, cell))?;
    }
    let id = b.set(List::from_vec(list))?;
    Ok(id)
}

/// A set of two members, each with its literal, and their results: six letters.
#[tactic(auto, using(cell_arena::proofs::Growing::growing))]
pub fn images(
    alloc: Global,
    b: &mut Build,
    bits: &[Lit],
    letters: &[u8],
) -> Result<(CellId, Vec<CellId>), AllocError>
    requires { All (IsBelow b.old.formula.vars) bits.now }
    ensures set { IfOk result (λ r. OfSort b.new.arena.kinds (set_sort number_sort) r.0) }
    ensures count { IfOk result (λ r. length (edges_of (kind_at b.new.arena.kinds r.0)) ≡ length r.1.items) }
    ensures results { IfOk result (λ r. All (OfSort b.new.arena.kinds number_sort) r.1.items) }
    ensures grows { Grows b.old b.new }
{
    let [first, _, to, second, _, last, ..] = letters else {
        return Err(AllocError);
    };
    let x = number(alloc, b, bits, *first)?;
    let y = number(alloc, b, bits, *second)?;
    let v = number(alloc, b, bits, *to)?;
    let w = number(alloc, b, bits, *last)?;
    let l = literal_of(b, bits, letters[1]);
    let m = literal_of(b, bits, letters[4]);
    let edges = Vec::from_slice(alloc, &[(l, x), (m, y)])?;
    let results = Vec::from_slice(alloc, &[v, w])?;
    let id = b.set(List::from_vec(edges))?;
    Ok((id, results))
}
