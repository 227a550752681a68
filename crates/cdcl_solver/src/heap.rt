//! Proposes the variable that is decided next. Nothing is promised of it: `deciding` tests it.

ghost use Rattle.std.specs.Prelude.{◌+◌, ◌*◌, ◌^◌, ◌<◌, IfSome};

use crate::scores::Scores;
use std::alloc::{AllocError, Global};

/// Variables below a fixed number as a binary heap: none has a greater score than the one above it,
/// at half its place. The numbers have 32 bits, since each variable that is taken back asks for its
/// place.
#[derive(Drop)]
pub struct Heap {
    // The first `count` of them are the heap.
    items: Vec<u32>,
    count: usize,
    // Where each variable of the heap stands; `NOWHERE` for the others.
    places: Vec<u32>,
}

const NOWHERE: u32 = 4_294_967_295;

impl Heap {
    /// All variables below `vars`, whose scores are the same. 2^32 variables are want of memory.
    pub fn new(alloc: Global, vars: usize) -> Result<Heap, AllocError> {
        let mut items = Vec::with_capacity(alloc, vars)?;
        let mut places = Vec::with_capacity(alloc, vars)?;
        for v in 0..vars {
            let Ok(number) = u32::try_from(v) else {
                return Err(AllocError);
            };
            items.push(number)?;
            places.push(number)?;
        }
        Ok(Heap {
            items,
            count: vars,
            places,
        })
    }

    /// Takes out a variable that has the greatest score.
    pub fn pop(&mut self, scores: &Scores) -> Option<usize> {
        let end = self.count.checked_sub(1)?;
        let first = self.item(0)?;
        let last = self.item(end)?;
        self.count = end;
        self.sink(scores, last);
        if first < self.places.len() {
            self.places[first] = NOWHERE;
        }
        Some(first)
    }

    /// Puts the variable in, if it is not there.
    pub fn insert(&mut self, scores: &Scores, v: usize) {
        if self.place(v).is_none() && self.count < self.items.len() {
            let end = self.count;
            self.count = end + 1;
            self.rise(scores, v, end);
        }
    }

    /// The score of the variable has risen.
    pub fn lift(&mut self, scores: &Scores, v: usize) {
        if let Some(at) = self.place(v) {
            self.rise(scores, v, at);
        }
    }

    // Puts the variable to this place, or above it where its score is greater than those that
    // stand there.
    fn rise(&mut self, scores: &Scores, v: usize, from: usize) {
        let mut at = from;
        while at > 0 {
            let above = (at - 1) / 2;
            let Some(other) = self.item(above) else {
                break;
            };
            if !scores.is_greater(v, other) {
                break;
            }
            self.put(other, at);
            at = above;
        }
        self.put(v, at);
    }

    // Puts the variable to the top, or below it where its score is less than those that stand there.
    fn sink(&mut self, scores: &Scores, v: usize) {
        let inner = self.count / 2;
        let mut at = 0;
        while at < inner {
            let Some((below, other)) = self.child(scores, at) else {
                break;
            };
            if !scores.is_greater(other, v) {
                break;
            }
            self.put(other, at);
            at = below;
        }
        self.put(v, at);
    }

    // The place below this one whose variable has the greater score.
    fn child(&self, scores: &Scores, at: usize) -> Option<(usize, usize)>
        requires { 2 * at + 2 < 2 ^ 64 }
        ensures { IfSome result (λ r. at < r.0) }
    {
        let left = 2 * at + 1;
        let v = self.item(left)?;
        if left + 1 < self.count {
            let w = self.item(left + 1)?;
            if scores.is_greater(w, v) {
                return Some((left + 1, w));
            }
        }
        Some((left, v))
    }

    fn item(&self, at: usize) -> Option<usize> {
        match self.items.get(at) {
            Some(v) => Some(*v as usize),
            None => None,
        }
    }

    fn place(&self, v: usize) -> Option<usize> {
        if v < self.places.len() && self.places[v] != NOWHERE {
            Some(self.places[v] as usize)
        } else {
            None
        }
    }

    fn put(&mut self, v: usize, at: usize) {
        if v < self.places.len() && at < self.items.len() {
            if let (Ok(var), Ok(place)) = (u32::try_from(v), u32::try_from(at)) {
                self.items[at] = var;
                self.places[v] = place;
            }
        }
    }
}
