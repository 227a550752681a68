//! The assignment that a search has found.

ghost use Rattle.std.specs.Prelude.{◌≡◌, ℕ, ◌<◌, length, IfOk, All, Contains, List, true};
ghost use Rattle.sat_formula.specs.Lit.{lit_value};
ghost use Rattle.watched_search.specs.Trail.{lits_of};

use sat_formula::{Assignment, Lit};
use std::alloc::{AllocError, Global};
use watched_search::Search;

/// Each variable's value; a variable without one is false.
pub fn assignment_of(alloc: Global, search: &Search) -> Result<Assignment, AllocError>
    ensures length { IfOk result (λ a. length a ≡ search.now.vars) }
    ensures agrees { IfOk result (λ a. All (λ l. lit_value l a ≡ true) (lits_of search.now.entries)) }
{
    let _ = search.entries();
    let mut values = Vec::new(alloc);
    for var in 0..search.vars() {
        let value = search.value(Lit { var, neg: false });
        values.push(value.unwrap_or(false))?;
    }
    Ok(Assignment::from_vec(values))
}
