//! Which variables conflicts came from of late.

use std::alloc::{AllocError, Global};

/// A score for each variable, which gains at each conflict that the variable was seen in, and falls
/// with those that it was not seen in. (Moskewicz and others, "Chaff: Engineering an Efficient SAT
/// Solver", 2001; Eén and Sörensson, "An Extensible SAT-solver", 2003; Audemard and Simon, "Glucose
/// 2.1", 2012, on scores that fall slower in time.)
#[derive(Drop)]
pub struct Scores {
    scores: Vec<u64>,
    // What a score gains at a conflict. It grows, in place of every score's falling.
    gain: u64,
    conflicts: u64,
}

const LEAST_GAIN: u64 = 1 << 16;

const GREATEST_GAIN: u64 = 1 << 48;

// The part of itself by which the gain grows, at first and at the end, and the number of conflicts
// that make it less by one step.
const FIRST_PART: u64 = 16;

const LAST_PART: u64 = 64;

const SLOWER_EVERY: u64 = 256;

impl Scores {
    /// No variable below `vars` has been seen.
    pub fn new(alloc: Global, vars: usize) -> Result<Scores, AllocError> {
        let scores = vec![in alloc; 0; vars]?;
        Ok(Scores {
            scores,
            gain: LEAST_GAIN,
            conflicts: 0,
        })
    }

    /// Whether the score of `v` is greater than that of `w`.
    pub fn is_greater(&self, v: usize, w: usize) -> bool {
        self.score(v) > self.score(w)
    }

    /// The variable was seen in this conflict.
    pub fn raise(&mut self, v: usize) {
        if v < self.scores.len() {
            self.scores[v] = self.scores[v].saturating_add(self.gain);
        }
    }

    /// Goes on to the next conflict. The order of the scores stays, but that some become the same.
    /// Scores fall fast at first and slower with each conflict, since no clause is forgotten.
    pub fn age(&mut self) {
        self.conflicts = self.conflicts.saturating_add(1);
        let part = LAST_PART.min(FIRST_PART + self.conflicts / SLOWER_EVERY);
        self.gain = self.gain.saturating_add(self.gain / part);
        if self.gain > GREATEST_GAIN {
            self.gain = LEAST_GAIN;
            for score in self.scores.iter_mut() {
                *score >>= 32;
            }
        }
    }

    fn score(&self, v: usize) -> u64 {
        if v < self.scores.len() {
            self.scores[v]
        } else {
            0
        }
    }
}
