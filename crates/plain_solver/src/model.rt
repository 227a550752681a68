//! Values of variables.

ghost use Rattle.std.specs.Prelude.{◌≡◌, ℕ, ◌<◌, length, IfOk, All, true};
ghost use Rattle.sat_formula.specs.Lit.{lit_value};
ghost use Rattle.watched_search.specs.Trail.{lits_of};
ghost use Rattle.plain_solver.specs.inner.Trail.{IsFirstFree};

use sat_formula::{Assignment, Lit};
use std::alloc::{AllocError, Global};
use watched_search::Trail;

/// The least variable without a value.
pub fn first_free(trail: &Trail) -> Option<usize>
    ensures { IsFirstFree trail.now.room (lits_of trail.now.entries) result }
{
    for var in 0..trail.room() {
        if trail.value(Lit { var, neg: false }).is_none() {
            return Some(var);
        }
    }
    None
}

/// Each variable's value; a variable without one is false.
pub fn assignment_of(alloc: Global, trail: &Trail) -> Result<Assignment, AllocError>
    ensures length { IfOk result (λ a. length a ≡ trail.now.room) }
    ensures agrees { IfOk result (λ a. All (λ l. lit_value l a ≡ true) (lits_of trail.now.entries)) }
{
    let _ = trail.entries();
    let mut values = Vec::new(alloc);
    for var in 0..trail.room() {
        let value = trail.value(Lit { var, neg: false });
        values.push(value.unwrap_or(false))?;
    }
    Ok(Assignment::from_vec(values))
}
