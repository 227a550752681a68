//! Marked variables.

use std::alloc::{AllocError, Global};

/// Which variables below a fixed number are marked, with a list of them, so that taking the marks
/// away costs no more than setting them.
#[derive(Drop)]
pub struct Marks {
    marked: Vec<bool>,
    list: Vec<usize>,
    // How many of these are the causes of a conflict.
    causes: usize,
}

impl Marks {
    /// No marks, for the variables below `vars`.
    pub fn new(alloc: Global, vars: usize) -> Result<Marks, AllocError> {
        let marked = vec![in alloc; false; vars]?;
        Ok(Marks {
            marked,
            list: Vec::new(alloc),
            causes: 0,
        })
    }

    /// Whether the variable is marked.
    pub fn has(&self, v: usize) -> bool {
        v < self.marked.len() && self.marked[v]
    }

    /// Marks a variable, and answers whether it had no mark before.
    pub fn mark(&mut self, v: usize) -> Result<bool, AllocError> {
        if v >= self.marked.len() || self.marked[v] {
            return Ok(false);
        }
        self.list.push(v)?;
        self.marked[v] = true;
        Ok(true)
    }

    /// The marked variables, in the order in which they were marked.
    pub fn list(&self) -> &[usize] {
        self.list.as_slice()
    }

    /// What is marked by now are the causes of a conflict.
    pub fn note_causes(&mut self) {
        self.causes = self.list.len();
    }

    /// Those of them that are still marked, in the order in which they were.
    pub fn causes(&self) -> &[usize] {
        let count = self.causes.min(self.list.len());
        &self.list.as_slice()[..count]
    }

    /// Takes away all marks but the first `keep`.
    pub fn cut(&mut self, keep: usize) {
        for v in self.list.as_slice().iter().skip(keep) {
            if *v < self.marked.len() {
                self.marked[*v] = false;
            }
        }
        self.list.truncate(keep);
    }
}
