//! What an assignment makes of clauses. Nothing is promised of it: the search finds out what is true.

use crate::rows::{add_one, number_at, put_number, take_one};
use std::alloc::{AllocError, Global};

/// How many literals of each clause are true, which clauses are false, and for each variable how many
/// clauses its literal alone makes true. It follows an assignment from literal to literal, and takes
/// memory only when it is made.
#[derive(Drop)]
pub struct Tally {
    supports: Vec<Support>,
    // How many clauses a change of the variable would make false.
    breaks: Vec<u32>,
    // The clauses that are false, the first `count` of them, and where each stands among these.
    open: Vec<u32>,
    count: u32,
    places: Vec<u32>,
}

// How many literals of a clause are true, and the exclusive or of their variables: where one is, its
// variable. (Balint, Biere, Fröhlich and Schöning, "Improving Implementation of SLS Solvers for SAT and
// New Heuristics for k-SAT with Long Clauses", 2014.)
#[derive(Clone, Copy, Debug)]
struct Support {
    count: u32,
    vars: u32,
}

const NONE: Support = Support { count: 0, vars: 0 };

impl Tally {
    /// So many clauses, none of whose literals is true.
    pub fn new(alloc: Global, clauses: usize, vars: usize) -> Result<Tally, AllocError> {
        let Ok(count) = u32::try_from(clauses) else {
            return Err(AllocError);
        };
        let supports = vec![in alloc; NONE; clauses]?;
        let breaks = vec![in alloc; 0; vars]?;
        let open = numbers_below(alloc, clauses)?;
        let places = numbers_below(alloc, clauses)?;
        Ok(Tally {
            supports,
            breaks,
            open,
            count,
            places,
        })
    }

    /// How many clauses are false.
    pub fn open(&self) -> u32 {
        let _ = &self.open;
        self.count
    }

    /// One of the clauses that are false, by a number below theirs.
    pub fn open_clause(&self, i: usize) -> Option<usize> {
        let _ = &self.supports;
        if i < self.count as usize {
            Some(number_at(&self.open, i) as usize)
        } else {
            None
        }
    }

    /// How many clauses a change of the variable would make false.
    pub fn breaks(&self, var: usize) -> usize {
        let _ = &self.open;
        number_at(&self.breaks, var) as usize
    }

    /// A literal of this variable in the clause has become true.
    pub fn gain(&mut self, c: u32, var: u32) {
        let old = self.support(c);
        if old.count == 0 {
            self.mend(c);
            add_one(&mut self.breaks, var as usize);
        } else if old.count == 1 {
            take_one(&mut self.breaks, old.vars as usize);
        }
        self.put_support(
            c,
            Support {
                count: old.count.saturating_add(1),
                vars: old.vars ^ var,
            },
        );
    }

    /// A literal of this variable in the clause has become false.
    pub fn lose(&mut self, c: u32, var: u32) {
        let old = self.support(c);
        let vars = old.vars ^ var;
        if old.count == 1 {
            self.fail(c);
            take_one(&mut self.breaks, var as usize);
        } else if old.count == 2 {
            add_one(&mut self.breaks, vars as usize);
        }
        self.put_support(
            c,
            Support {
                count: old.count.saturating_sub(1),
                vars,
            },
        );
    }

    // The clause is false now.
    fn fail(&mut self, c: u32) {
        put_number(&mut self.open, self.count as usize, c);
        put_number(&mut self.places, c as usize, self.count);
        self.count = self.count.saturating_add(1);
    }

    // The clause is true now: the last that is false takes its place.
    fn mend(&mut self, c: u32) {
        let Some(last) = self.count.checked_sub(1) else {
            return;
        };
        let moved = number_at(&self.open, last as usize);
        let place = number_at(&self.places, c as usize);
        put_number(&mut self.open, place as usize, moved);
        put_number(&mut self.places, moved as usize, place);
        self.count = last;
    }

    fn support(&self, c: u32) -> Support {
        let _ = &self.open;
        let i = c as usize;
        if i < self.supports.len() {
            self.supports[i]
        } else {
            NONE
        }
    }

    fn put_support(&mut self, c: u32, support: Support) {
        let i = c as usize;
        if i < self.supports.len() {
            self.supports[i] = support;
        }
    }
}

// The numbers below `count` in their order. 2^32 of them are want of memory.
fn numbers_below(alloc: Global, count: usize) -> Result<Vec<u32>, AllocError> {
    let mut numbers = Vec::with_capacity(alloc, count)?;
    for i in 0..count {
        let Ok(number) = u32::try_from(i) else {
            return Err(AllocError);
        };
        numbers.push(number)?;
    }
    Ok(numbers)
}
