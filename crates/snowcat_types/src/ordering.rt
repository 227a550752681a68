// The order in which waiting nodes take their default: that of their places, and at one place that of their visits.
ghost use Rattle.std.specs.Prelude.{◌≡◌, IfOk, length, map, slice_index_or, false};
ghost use Rattle.snowcat_types.specs.inner.Awaited.{AreOrdered, AreTurns, ArePassed, IsMovedOn, IsNow, turn_of};

use crate::waiting::{Wait, place_of};
use std::alloc::{AllocError, Global};

// When a node's turn comes: its place and its number.
#[derive(Clone, Copy, PartialEq, Eq, PartialOrd, Ord, Drop)]
pub(crate) struct Turn {
    file: u32,
    line: u32,
    col: u32,
    node: usize,
}

fn turn_of(node: usize, wait: &Wait) -> Turn
    ensures { result ≡ turn_of node wait.now }
{
    let place = place_of(wait);
    Turn {
        file: place.file,
        line: place.line,
        col: place.col,
        node,
    }
}

fn turns_of(alloc: Global, waits: &[&Wait]) -> Result<Vec<Turn>, AllocError>
    ensures { IfOk result (λ v. AreTurns (map (λ w. w.now) waits.now) (length waits.now) v.items) }
{
    let mut all = Vec::new(alloc);
    for i in 0..waits.len() {
        all.push(turn_of(i, waits[i]))?;
    }
    Ok(all)
}

// Whether the mark of that number stands.
pub(crate) fn is_marked(marks: &[bool], node: usize) -> bool
    ensures { result ≡ slice_index_or marks.now node false }
{
    match marks.get(node) {
        Some(mark) => *mark,
        None => false,
    }
}

#[derive(Drop)]
pub(crate) struct Turns {
    // In their order.
    all: Vec<Turn>,
    // So many of them are of nodes that wait no more.
    passed: usize,
}

impl Turns {
    pub(crate) fn new(alloc: Global, waits: &[&Wait]) -> Result<Turns, AllocError>
        ensures ordered { IfOk result (λ t. AreOrdered (map (λ w. w.now) waits.now) t.all.items) }
        ensures none { IfOk result (λ t. t.passed ≡ 0) }
    {
        let mut all = turns_of(alloc, waits)?;
        all.sort_unstable();
        Ok(Turns { all, passed: 0 })
    }

    // The first node whose mark stands. Marks are only taken away, so what was passed stays so.
    pub(crate) fn first(&mut self, marks: &[bool]) -> Option<usize>
        requires { ArePassed marks.now self.old.all.items self.old.passed }
        ensures moved { IsMovedOn marks.now self.old self.new }
        ensures now { IsNow marks.now self.new result }
    {
        'cursor: while self.passed < self.all.len() {
            let node = self.all[self.passed].node;
            if is_marked(marks, node) {
                return Some(node);
            }
            self.passed += 1;
        }
        None
    }
}
