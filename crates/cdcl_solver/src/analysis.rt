//! Proposes a clause to learn. Nothing is promised of it: `acceptance` and `checking` test it.

ghost use Rattle.std.specs.Prelude.{◌≡◌, ℕ, ◌+◌, ◌<◌, ◌≤◌, length};

use crate::marks::Marks;
use sat_formula::Lit;
use std::alloc::{AllocError, Global};
use watched_search::{Entry, Search};

/// A clause, the clauses that make it follow, the literal that it forces, the level whose decision
/// gives way, and how many levels its literals are of. The forced literal stands first and the one
/// that became false last stands second, since these two watch the clause at first.
#[derive(Drop)]
pub struct Candidate {
    pub lits: Vec<Lit>,
    pub hints: Vec<u64>,
    pub forced: Lit,
    pub level: usize,
    pub spread: u64,
}

// What a conflict comes from: how many marked literals of the last level, which begins at `last`, are
// still to be resolved, where the others stand, and the clauses that lead from there to the conflict,
// the conflict first.
#[derive(Drop)]
struct Causes {
    alloc: Global,
    last: usize,
    open: usize,
    earlier: Vec<usize>,
    hints: Vec<u64>,
    lits: Vec<Lit>,
}

/// The clause of the first unique point: the negation of the first literal of the last level that
/// all causes of the conflict pass through, with the negations of the earlier literals that they
/// begin at. A literal is left out where what it comes from are causes too in the end, and mostly each
/// one that is true before the first decision. The variables that were seen are marked, the causes
/// first. (Zhang, Madigan, Moskewicz and Malik, "Efficient Conflict Driven Learning in a Boolean
/// Satisfiability Solver", 2001; Sörensson and Biere, "Minimizing Learned Clauses", 2009.)
pub fn first_unique_point(
    alloc: Global,
    search: &Search,
    levels: &[usize],
    marks: &mut Marks,
    conflict: usize,
) -> Result<Option<Candidate>, AllocError> {
    let (Some(first), Some(last)) = (levels.first(), levels.last()) else {
        return Ok(None);
    };
    let mut causes = Causes {
        alloc,
        last: *last,
        open: 0,
        earlier: Vec::with_capacity(alloc, ROOM_FOR_CAUSES)?,
        hints: Vec::with_capacity(alloc, ROOM_FOR_CAUSES)?,
        lits: Vec::with_capacity(alloc, ROOM_FOR_LITERALS)?,
    };
    causes.resolve(search, marks, conflict)?;
    let Some(point) = unique_point(search, marks, &mut causes)? else {
        return Ok(None);
    };
    marks.note_causes();
    causes.follow_reasons(search, marks, *first)?;
    causes.follow_roots(search, marks, *first)?;
    Ok(Some(candidate_of(search, levels, marks, causes, point)?))
}

// How many literals are followed to find that one is not wanted.
const FEW: usize = 100;

// Room for what most conflicts come from, so that these lists are not grown step by step.
const ROOM_FOR_CAUSES: usize = 64;

// Room for the literals of most clauses that are learned.
const ROOM_FOR_LITERALS: usize = 32;

impl Causes {
    // Notes the clause, and marks its variables.
    fn resolve(&mut self, search: &Search, marks: &mut Marks, c: usize) -> Result<(), AllocError> {
        if c >= search.count() {
            return Ok(());
        }
        self.hints.push(c as u64 + 1)?;
        self.see_all(search, marks, c)
    }

    // Marks the variables of the clause.
    fn see_all(&mut self, search: &Search, marks: &mut Marks, c: usize) -> Result<(), AllocError> {
        if c >= search.count() {
            return Ok(());
        }
        for code in search.codes(c) {
            self.see(search, marks, (*code / 2) as usize)?;
        }
        Ok(())
    }

    // Marks the variable, if it has a value and no mark.
    fn see(&mut self, search: &Search, marks: &mut Marks, v: usize) -> Result<(), AllocError> {
        if v >= search.vars() {
            return Ok(());
        }
        if let Some(place) = search.place(v) {
            if marks.mark(v)? {
                if place < self.last {
                    self.earlier.push(place)?;
                } else {
                    self.open = self.open.saturating_add(1);
                }
            }
        }
        Ok(())
    }

    // Marks what the earlier literals come from, where no other decision is behind it, so that they
    // are not wanted in the clause.
    fn follow_reasons(
        &mut self,
        search: &Search,
        marks: &mut Marks,
        first: usize,
    ) -> Result<(), AllocError> {
        for k in 0..self.earlier.len() {
            let Some(place) = self.earlier.get(k).copied() else {
                return Ok(());
            };
            let marked = marks.list().len();
            let earlier = self.earlier.len();
            if place >= first && !self.is_implied(search, marks, place, first)? {
                marks.cut(marked);
                self.earlier.truncate(earlier);
            }
        }
        Ok(())
    }

    // Marks what the literal at this place comes from, until a decision is met that was not marked, or
    // more than a few literals. Answers whether none was met.
    fn is_implied(
        &mut self,
        search: &Search,
        marks: &mut Marks,
        place: usize,
        first: usize,
    ) -> Result<bool, AllocError> {
        let Some(c) = reason_at(search, place) else {
            return Ok(false);
        };
        let from = self.earlier.len();
        self.see_all(search, marks, c)?;
        for next in from..from.saturating_add(FEW) {
            let Some(at) = self.earlier.get(next).copied() else {
                return Ok(true);
            };
            if at >= first {
                let Some(c) = reason_at(search, at) else {
                    return Ok(false);
                };
                self.see_all(search, marks, c)?;
            }
        }
        Ok(false)
    }

    // Marks all that the marked literals before the first decision come from, so that none of them
    // is wanted in the clause. Where that is far more than what was marked, it leaves all as it is,
    // since each needs a hint.
    fn follow_roots(
        &mut self,
        search: &Search,
        marks: &mut Marks,
        first: usize,
    ) -> Result<(), AllocError> {
        let marked = marks.list().len();
        let earlier = self.earlier.len();
        for next in 0..search.vars() {
            if next >= self.earlier.len() {
                return Ok(());
            }
            if marks.list().len() / 8 > marked.saturating_add(8) {
                marks.cut(marked);
                self.earlier.truncate(earlier);
                return Ok(());
            }
            let place = self.earlier[next];
            self.follow_root(search, marks, place, first)?;
        }
        Ok(())
    }

    // Marks what the literal at this place comes from, if it is before the first decision.
    fn follow_root(
        &mut self,
        search: &Search,
        marks: &mut Marks,
        place: usize,
        first: usize,
    ) -> Result<(), AllocError> {
        if place < first {
            if let Some(c) = reason_at(search, place) {
                self.see_all(search, marks, c)?;
            }
        }
        Ok(())
    }
}

// Resolves backwards along the last level, up to the literal that all causes pass through.
fn unique_point(
    search: &Search,
    marks: &mut Marks,
    causes: &mut Causes,
) -> Result<Option<Lit>, AllocError> {
    let entries = search.entries();
    if causes.last > entries.len() {
        return Ok(None);
    }
    for e in entries[causes.last..].iter().rev() {
        if marks.has(e.lit.var) {
            if causes.open <= 1 {
                return Ok(Some(e.lit));
            }
            if let Some(c) = e.reason {
                causes.open -= 1;
                causes.resolve(search, marks, c)?;
            }
        }
    }
    Ok(None)
}

// Leaves out each earlier literal whose reason's other literals are causes too.
fn candidate_of(
    search: &Search,
    levels: &[usize],
    marks: &Marks,
    causes: Causes,
    point: Lit,
) -> Result<Candidate, AllocError> {
    let Causes {
        alloc,
        mut earlier,
        mut hints,
        mut lits,
        ..
    } = causes;
    earlier.sort_unstable();
    lits.push(point.negated())?;
    let mut level = 0;
    for place in earlier.iter().rev() {
        match needless(search, marks, *place) {
            Some(c) => hints.push(c)?,
            None => {
                if lits.len() == 1 {
                    level = level_behind(levels, *place);
                }
                if let Some(e) = search.entries().get(*place) {
                    lits.push(e.lit.negated())?;
                }
            }
        }
    }
    hints.reverse();
    let spread = spread_of(search, levels, &lits);
    // The log keeps both, so they are to have no room to spare.
    Ok(Candidate {
        lits: Vec::from_slice(alloc, lits.as_slice())?,
        hints: Vec::from_slice(alloc, hints.as_slice())?,
        forced: point.negated(),
        level,
        spread,
    })
}

// How many levels the literals are of, which stand in the order of their levels.
fn spread_of(search: &Search, levels: &[usize], lits: &[Lit]) -> u64 {
    let mut spread: u64 = 0;
    let mut last = None;
    for l in lits {
        if l.var < search.vars() {
            let level = search.place(l.var).map(|place| level_behind(levels, place));
            if level != last {
                spread = spread.saturating_add(1);
                last = level;
            }
        }
    }
    spread
}

// The first level that begins behind this place.
fn level_behind(levels: &[usize], place: usize) -> usize {
    levels.partition_point(|start| *start <= place)
}

// The reason of the entry at this place.
fn reason_at(search: &Search, place: usize) -> Option<usize> {
    search.entries().get(place)?.reason
}

// The number, in a log, of the reason of the entry at this place, where all its variables are marked.
fn needless(search: &Search, marks: &Marks, place: usize) -> Option<u64> {
    let c = reason_at(search, place)?;
    if c >= search.count() {
        return None;
    }
    for code in search.codes(c) {
        if !marks.has((*code / 2) as usize) {
            return None;
        }
    }
    Some(c as u64 + 1)
}
