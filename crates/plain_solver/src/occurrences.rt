//! Which clauses name a literal.

ghost use Rattle.std.specs.Prelude.{◌≡◌, ℕ, ◌+◌, ◌*◌, ◌^◌, ◌<◌, [], length, replicate, IfOk, OnOk, All};
ghost use Rattle.plain_solver.specs.inner.Occurrences.{Adds, code_of, places_at};

use sat_formula::Lit;
use std::alloc::{AllocError, Global};
use std::marker::Model;
use tla_values::List;

/// For each literal a list of places of clauses.
#[derive(Drop)]
pub struct Occurrences {
    lists: Vec<List<usize>>,
}

impl Model for Occurrences {
    ghost use Rattle.std.specs.Prelude.{ℕ, List as Items};

    ghost Value = { Items (Items ℕ) };

    ghost view = { λ t. t.lists.items };
}

impl Occurrences {
    /// Empty lists for the literals of the variables below `room`.
    pub fn new(alloc: Global, room: usize) -> Result<Occurrences, AllocError>
        ensures { IfOk result (λ t. t ≡ replicate (2 * room) []) }
    {
        let Some(codes) = room.checked_mul(2) else {
            return Err(AllocError);
        };
        let mut lists = Vec::with_capacity(alloc, codes)?;
        for _ in 0..codes {
            lists.push(List::new(alloc))?;
        }
        Ok(Occurrences { lists })
    }

    /// The places that are listed for the literal.
    pub fn places(&self, l: Lit) -> &[usize]
        requires { 2 * l.var + 1 < length self.now }
        ensures { result.now ≡ places_at self.now l }
    {
        self.lists[code(l)].as_slice()
    }

    /// Puts the place into the list of each of the clause's literals.
    pub fn add(&mut self, lits: &[Lit], place: usize) -> Result<(), AllocError>
        requires { All (λ l. 2 * l.var + 1 < length self.old) lits.now }
        ensures { OnOk result (Adds self.old self.new lits.now place) }
    {
        for l in lits {
            self.lists[code(*l)].push(place)?;
        }
        Ok(())
    }
}

// Two numbers for each variable.
fn code(l: Lit) -> usize
    requires { 2 * l.var + 1 < 2 ^ 64 }
    ensures { result ≡ code_of l }
{
    if l.neg { 2 * l.var + 1 } else { 2 * l.var }
}
