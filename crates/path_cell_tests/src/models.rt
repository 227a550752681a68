//! The assignments that satisfy a formula, one behind the other.
use cdcl_solver::{Answer, solve};
use sat_formula::{Assignment, Formula, Lit};
use std::alloc::{AllocError, Global};

/// The value of a literal, which is false past the end.
pub(crate) fn is_true(l: Lit, a: &Assignment) -> bool {
    match a.values().get(l.var) {
        Some(b) => *b != l.neg,
        None => false,
    }
}

/// An equal formula.
pub(crate) fn copy_formula(alloc: Global, f: &Formula) -> Result<Formula, AllocError> {
    let mut copy = Formula::new(alloc)?;
    for _i in 1..f.vars() {
        let _ = copy.fresh()?;
    }
    for clause in f.clauses().clauses() {
        add(&mut copy, clause.lits())?;
    }
    Ok(copy)
}

// A clause more, of variables that are there.
fn add(f: &mut Formula, lits: &[Lit]) -> Result<(), AllocError> {
    let count = f.vars();
    if !lits.iter().all(|l| l.var < count) {
        return Err(AllocError);
    }
    f.add(lits)
}

/// An assignment that makes the literal true.
pub(crate) fn found(alloc: Global, f: &Formula, l: Lit) -> Result<Option<Assignment>, AllocError> {
    if l.var >= f.vars() {
        return Err(AllocError);
    }
    match solve(alloc, f, l, None)? {
        Answer::Sat(a) => Ok(Some(a)),
        _ => Ok(None),
    }
}

/// Leaves the assignment out.
pub(crate) fn leave_out(alloc: Global, f: &mut Formula, a: &Assignment) -> Result<(), AllocError> {
    let mut lits = Vec::new(alloc);
    let values = a.values();
    for var in 0..values.len() {
        lits.push(Lit {
            var,
            neg: values[var],
        })?;
    }
    add(f, lits.as_slice())
}
