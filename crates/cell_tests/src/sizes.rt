//! What a call adds: variables, clauses and cells, on sets of constants with free literals.

ghost use Rattle.cell_arena.specs.Growth.{Grows};
ghost use Rattle.cell_merge.specs.Sorts.{OfSort, number, set_of as set_sort};
ghost use Rattle.std.specs.Prelude.{IfOk};

use crate::arena::free;
use crate::sets::{free_bits, set, solved};
use cell_arena::{Build, CellId, CellKind};
use cell_merge::choose_cell;
use set_rewriter::union;
use std::alloc::{AllocError, Global};
use std::test::Fail;
use tla_values::List;

/// The numbers of variables, clauses and cells.
pub fn counts(b: &Build) -> [usize; 3] {
    let clauses = b.formula.clauses().clauses().len();
    [b.formula.vars(), clauses, b.arena.len()]
}

/// What the later numbers are above the earlier ones.
pub fn differences(after: [usize; 3], before: [usize; 3]) -> [usize; 3] {
    let [vars, clauses, cells] = before;
    let [v, c, n] = after;
    [
        v.saturating_sub(vars),
        c.saturating_sub(clauses),
        n.saturating_sub(cells),
    ]
}

// What the operator adds on the two sets, or on the one set and the letters.
#[tactic(auto, using(cell_arena::proofs::Growing::growing))]
fn added(alloc: Global, op: &str, x: &str, y: &str) -> Result<[usize; 3], AllocError> {
    let mut b = Build::new(alloc, &List::new(alloc), 5)?;
    let bits = free_bits(alloc, &mut b)?;
    let left = set(alloc, &mut b, 2, bits.as_slice(), x.as_bytes())?;
    let right = set(alloc, &mut b, 2, bits.as_slice(), y.as_bytes())?;
    let before = counts(&b);
    let _ = solved(alloc, &mut b, 2, op, bits.as_slice(), (left, right), y)?;
    Ok(differences(counts(&b), before))
}

// By a model of the gates: on 4 and on 8 edges, those of the two sets to equal members.
const SIZES: [(&str, [usize; 3], [usize; 3]); 12] = [
    ("union", [4, 12, 1], [7, 21, 1]),
    ("inter", [4, 12, 1], [7, 21, 1]),
    ("minus", [4, 12, 1], [7, 21, 1]),
    ("choose", [4, 16, 1], [7, 28, 1]),
    ("same", [9, 33, 1], [15, 59, 1]),
    ("subset", [5, 17, 1], [8, 30, 1]),
    ("member", [11, 33, 2], [11, 33, 2]),
    ("big", [12, 36, 2], [20, 60, 2]),
    ("pick", [10, 24, 3], [30, 75, 7]),
    ("part", [8, 12, 1], [16, 24, 1]),
    ("size", [10, 35, 1], [34, 119, 1]),
    ("subsets", [0, 0, 16], [0, 0, 256]),
];

#[test]
fn calls_add_no_more_than_they_need(rt: HostRuntime) -> Result<(), Fail> {
    let alloc = rt.alloc();
    for (op, four, eight) in SIZES {
        assert_eq!(rt; added(alloc, op, "0b1c2d3e", "0c1d2e3f")?, four, "{op}");
        let left = "0b1c2d3e4f5g6h7b";
        let right = "0c1d2e3f4g5h6b7c";
        assert_eq!(rt; added(alloc, op, left, right)?, eight, "{op}");
    }
    Ok(())
}

// Calls on other sets: literals and images, members that are not known, edges that are never there,
// alike members of one set, and a pick above 8 edges.
const OTHER_SIZES: [(&str, &str, &str, [usize; 3]); 15] = [
    ("filter", "0b1c2d3e", "cdef", [4, 12, 1]),
    ("filter", "0b1c2d3e4f5g6h7b", "cdefghbc", [7, 21, 1]),
    ("map", "0b1c2d3e", "1122", [2, 6, 1]),
    ("map", "0b1c2d3e4f5g6h7b", "11223344", [4, 12, 1]),
    ("same", "mbkcndke", "kbmcndme", [22, 73, 1]),
    ("subset", "mbkcndke", "kbmcndme", [12, 39, 1]),
    ("size", "mbkcndke", "-", [11, 37, 1]),
    ("same", "mFkcnFke", "kbmFndmF", [13, 42, 1]),
    ("subset", "mFkcnFke", "kbmFndmF", [7, 22, 1]),
    ("inter", "mFkcnFke", "kbmFndmF", [6, 19, 1]),
    ("size", "mFkcnFke", "-", [1, 3, 1]),
    ("pick", "mFkcnFke", "-", [1, 3, 0]),
    ("union", "1b1c2d", "2e2f1g", [4, 12, 1]),
    ("subsets", "1b1c2F", "-", [1, 3, 2]),
    ("pick", "0b1c2d3e4f5g6h7b8c9d", "-", [25, 79, 9]),
];

#[test]
fn calls_on_other_sets_add_no_more_than_they_need(rt: HostRuntime) -> Result<(), Fail> {
    for (op, left, right, size) in OTHER_SIZES {
        assert_eq!(rt; added(rt.alloc(), op, left, right)?, size, "{op} {left}");
    }
    Ok(())
}

#[test]
fn sixteen_edges_have_all_their_subsets(rt: HostRuntime) -> Result<(), Fail> {
    let edges = "0a1b2c3d4e5f6g7h8a9b:c;d<e=f>g?h";
    assert_eq!(rt; added(rt.alloc(), "subsets", edges, "-")?, [0, 0, 65535]);
    Ok(())
}

fn edge_count(b: &Build, id: CellId) -> usize {
    if id.index < b.arena.len() {
        if let CellKind::Set(edges) = b.arena.kind(id) {
            return edges.len();
        }
    }
    0
}

// Twenty choices in a row between a set and itself with one member more: the edges that are left.
#[tactic(auto, using(cell_arena::proofs::Growing::growing))]
fn chosen_often(alloc: Global) -> Result<usize, AllocError> {
    let mut b = Build::new(alloc, &List::new(alloc), 5)?;
    let bits = free_bits(alloc, &mut b)?;
    let x = set(alloc, &mut b, 2, bits.as_slice(), b"0a1b2c3d")?;
    let one = set(alloc, &mut b, 2, bits.as_slice(), b"4T")?;
    let mut y = union(&mut b, x, one)?;
    for _i in 0..20 {
        let l = free(&mut b)?;
        y = choose_cell(&mut b, l, y, x)?;
    }
    Ok(edge_count(&b, y))
}

#[test]
fn choices_leave_the_edges_where_they_were(rt: HostRuntime) -> Result<(), Fail> {
    assert_eq!(rt; chosen_often(rt.alloc())?, 5);
    Ok(())
}
