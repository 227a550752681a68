//! A literal of the trail.

use sat_formula::Lit;

/// A literal that is true. With no reason it was decided; else the clause of that number, counted
/// from 0, forced it.
#[derive(Clone, Copy, Debug)]
pub struct Entry {
    pub lit: Lit,
    pub reason: Option<usize>,
}
