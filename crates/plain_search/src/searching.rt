// A plain complete search for an assignment.
ghost use Rattle.std.specs.Prelude.{◌≡◌, ◌<◌, ◌≤◌, ℕ, [], All, Bool, List, true, false, length, slice_index_or, IfOk, IfSome, IfNone};
ghost use Rattle.std.specs.Bool.{OnTrue, OnFalse};
ghost use Rattle.std.specs.List.{list_any};
ghost use Rattle.sat_formula.specs.Clause.{AllTrue, NamesBelow};
ghost use Rattle.plain_search.specs.inner.Index.{IsIndex};
ghost use Rattle.plain_search.specs.inner.Search.{is_false, has_false, IsTurn, WasCalm};

use crate::index::by_greatest;
use sat_formula::{Assignment, Clause, Cnf};
use std::alloc::{AllocError, Global};
use tla_values::List;

/// An assignment that satisfies the clauses, if there is one. The least variable without a value is taken, first as
/// false and then as true, and a branch ends at a false clause.
pub fn search(alloc: Global, cnf: &Cnf) -> Result<Option<Assignment>, AllocError>
    requires { NamesBelow cnf.now.vars cnf.now.clauses }
    ensures fills { IfOk result (λ found. IfSome found (λ a. length a ≡ cnf.now.vars)) }
    ensures satisfies { IfOk result (λ found. IfSome found (λ a. AllTrue a cnf.now.clauses)) }
    ensures none { IfOk result (λ found. IfNone found
        ((a : List Bool) → length a ≡ cnf.now.vars → AllTrue a cnf.now.clauses → ⊥)) }
{
    let index = by_greatest(alloc, cnf)?;
    let mut values = Vec::new(alloc);
    'values: loop {
        if conflicts(cnf, &index, &values) {
            if !turn(&mut values) {
                return Ok(None);
            }
        } else if values.len() == cnf.vars {
            return Ok(Some(Assignment::from_vec(values)));
        } else {
            values.push(false)?;
        }
    }
}

// Whether some clause is false, where none was before the last value: such a clause ends with the last variable.
fn conflicts(cnf: &Cnf, index: &[List<usize>], values: &[bool]) -> bool
    requires index { IsIndex cnf.now.clauses index.now }
    requires within { length values.now ≤ length index.now }
    requires calm { WasCalm values.now cnf.now.clauses }
    ensures { result ≡ has_false values.now cnf.now.clauses }
{
    match values.len() {
        0 => has_false(cnf, values),
        count => has_false_among(cnf, index[count - 1].as_slice(), values),
    }
}

// Whether one of the clauses with these numbers is false already.
fn has_false_among(cnf: &Cnf, numbers: &[usize], values: &[bool]) -> bool
    requires { All (λ k. k < length cnf.now.clauses) numbers.now }
    ensures { result ≡ list_any (λ k. is_false values.now (slice_index_or cnf.now.clauses k [])) numbers.now }
{
    let clauses = cnf.clauses.clauses();
    for number in numbers {
        if is_false(&clauses[*number], values) {
            return true;
        }
    }
    false
}

// Whether some clause is false already.
fn has_false(cnf: &Cnf, values: &[bool]) -> bool
    ensures { result ≡ has_false values.now cnf.now.clauses }
{
    cnf.clauses
        .clauses()
        .iter()
        .any(|clause| is_false(clause, values))
}

// Whether each literal has a value, and is false.
fn is_false(clause: &Clause, values: &[bool]) -> bool
    ensures { result ≡ is_false values.now clause.now }
{
    clause
        .lits()
        .iter()
        .all(|lit| lit.var < values.len() && values[lit.var] == lit.neg)
}

// Goes on to the next values in order, if there are any.
fn turn(values: &mut Vec<bool>) -> bool
    ensures turned { OnTrue result (IsTurn values.old.items values.new.items) }
    ensures ended { OnFalse result (All (λ b. b ≡ true) values.old.items) }
{
    match last_false(values) {
        Some(at) => {
            values.truncate(at + 1);
            values[at] = true;
            true
        }
        None => false,
    }
}

// The last place of a false value.
fn last_false(values: &[bool]) -> Option<usize>
    ensures within { IfSome result (λ at. at < length values.now) }
    ensures is_false { IfSome result (λ at. slice_index_or values.now at true ≡ false) }
    ensures last { IfSome result (λ at. (k : ℕ) → at < k → k < length values.now → slice_index_or values.now k true ≡ true) }
    ensures none { IfNone result (All (λ b. b ≡ true) values.now) }
{
    for at in (0..values.len()).rev() {
        if !values[at] {
            return Some(at);
        }
    }
    None
}
