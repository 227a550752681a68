// The clauses of a formula by the greatest of their variables.
ghost use Rattle.std.specs.Prelude.{◌≡◌, ◌<◌, ◌≤◌, All, ℕ, length, replicate, [], IfOk, OnOk};
ghost use Rattle.plain_search.specs.inner.Index.{IsGreatest, IsIndex};

use sat_formula::{Clause, Cnf};
use std::alloc::{AllocError, Global};
use tla_values::List;

/// For each variable the numbers of the clauses of which it is the greatest.
pub(crate) fn by_greatest(alloc: Global, cnf: &Cnf) -> Result<Vec<List<usize>>, AllocError>
    ensures size { IfOk result (λ index. length index.items ≡ cnf.now.vars) }
    ensures index { IfOk result (λ index. IsIndex cnf.now.clauses index.items) }
{
    let mut index = empty_lists(alloc, cnf.vars)?;
    for (number, clause) in cnf.clauses.clauses().iter().enumerate() {
        let variable = greatest(clause);
        if variable < index.len() {
            index[variable].push(number)?;
        }
    }
    Ok(index)
}

fn empty_lists(alloc: Global, count: usize) -> Result<Vec<List<usize>>, AllocError>
    ensures { IfOk result (λ lists. lists.items ≡ replicate count []) }
{
    let mut lists = Vec::new(alloc);
    for _made in 0..count {
        lists.push(List::new(alloc))?;
    }
    Ok(lists)
}

// The greatest variable of a clause, if it has one.
fn greatest(clause: &Clause) -> usize
    ensures { (v : ℕ) → IsGreatest clause.now v → result ≡ v }
{
    let mut greatest = 0;
    for lit in clause.lits() {
        if greatest < lit.var {
            greatest = lit.var;
        }
    }
    greatest
}
