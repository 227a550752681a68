//! Clauses in DIMACS form.

ghost use Rattle.std.specs.Prelude.{◌≡◌, ◌<◌};

use sat_formula::{Formula, Lit};
use std::alloc::{AllocError, Global};

/// The clauses of a text. Its variables keep their numbers, since variable 0 of a formula is one of
/// its own. Lines of other forms are passed over.
pub fn read(alloc: Global, text: &str) -> Result<Formula, AllocError> {
    let mut formula = Formula::new(alloc)?;
    let mut clause = Vec::new(alloc);
    for line in text.lines() {
        if line.starts_with("c") || line.starts_with("p") {
            continue;
        }
        for word in line.split_whitespace() {
            match word.parse::<i64>() {
                Ok(0) => {
                    add(&mut formula, clause.as_slice())?;
                    clause.clear();
                }
                Ok(number) => clause.push(literal(number))?,
                Err(_) => {}
            }
        }
    }
    Ok(formula)
}

fn literal(number: i64) -> Lit {
    Lit {
        var: number.unsigned_abs() as usize,
        neg: number < 0,
    }
}

// Adds the clause, and the variables that it names.
fn add(formula: &mut Formula, clause: &[Lit]) -> Result<(), AllocError> {
    for l in clause {
        for _ in formula.vars()..l.var.saturating_add(1) {
            let _ = formula.fresh()?;
        }
    }
    let vars = formula.vars();
    if clause.iter().all(|l| l.var < vars) {
        formula.add(clause)?;
    }
    Ok(())
}
