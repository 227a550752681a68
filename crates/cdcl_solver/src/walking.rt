//! Looks for an assignment from one to the next. Nothing is promised of it: its values are decided, and
//! the search finds out whether they satisfy the clauses.

use crate::chance::Chance;
use crate::rows::Rows;
use crate::tally::Tally;
use sat_formula::{Clause, Lit};
use std::alloc::{AllocError, Global};

/// A walk through the assignments: each step changes one variable of a clause that is false, mostly
/// one by whose change few other clauses become false. (Selman, Kautz and Cohen, "Noise Strategies for
/// Improving Local Search", 1994; Balint and Schöning, "Choosing Probability Distributions for
/// Stochastic Local Search and the Role of Make versus Break", 2012.)
#[derive(Drop)]
pub struct Walk {
    // The codes of each clause's literals, and the clauses of each code.
    clauses: Rows,
    lists: Rows,
    // Whether each literal is true, by its code.
    truths: Vec<bool>,
    tally: Tally,
    chance: Chance,
}

// How often a variable is chosen by whose change so many clauses become false, to 2^20 where none does:
// the power -2.06 of the number and 0.9, which that paper found best for clauses of three literals.
const WEIGHTS: [u64; 16] = [
    1048576, 224961, 94146, 51138, 31955, 21796, 15787, 11946, 9345, 7505, 6155, 5137, 4350, 3730,
    3233, 2828,
];

// A choice costs as much as so many clauses.
const CHOICE: usize = 5;

impl Walk {
    /// The assignment that makes all variables below `vars` false. 2^31 of them are want of memory.
    pub fn new(alloc: Global, clauses: &[Clause], vars: usize) -> Result<Walk, AllocError> {
        let Some(codes) = vars.checked_mul(2) else {
            return Err(AllocError);
        };
        let clauses = codes_of(alloc, clauses)?;
        let lists = clauses.turned(alloc, codes)?;
        let truths = vec![in alloc; false; codes]?;
        let tally = Tally::new(alloc, clauses.len(), vars)?;
        let mut walk = Walk {
            clauses,
            lists,
            truths,
            tally,
            chance: Chance::new(),
        };
        walk.begin(vars)?;
        Ok(walk)
    }

    /// Whether no clause is false.
    pub fn is_done(&self) -> bool {
        let _ = &self.truths;
        self.tally.open() == 0
    }

    /// Whether the variable is false.
    pub fn is_false(&self, var: usize) -> bool {
        let _ = &self.tally;
        var < self.truths.len() / 2 && self.truths[2 * var + 1]
    }

    /// Goes on until no clause is false or about so many clauses were visited.
    pub fn go_on(&mut self, visits: usize) {
        let mut left = visits;
        for _ in 0..visits {
            let Some(code) = self.choose() else {
                return;
            };
            left = left.saturating_sub(self.flip(code));
            if left == 0 {
                return;
            }
        }
    }

    // Makes each variable false.
    fn begin(&mut self, vars: usize) -> Result<(), AllocError> {
        for var in 0..vars {
            let _ = self.gain(code_of(Lit { var, neg: true })?);
        }
        Ok(())
    }

    // A literal of one of the clauses that are false, unless none is.
    fn choose(&mut self) -> Option<u32> {
        let open = self.tally.open() as u64;
        let place = self.chance.below(open);
        let clause = self.tally.open_clause(place as usize)?;
        let all = self.weight_of_all(clause);
        let weight = self.chance.below(all);
        self.chosen(clause, weight)
    }

    // The literal of the clause at which the weights of those up to it come to be more than this.
    fn chosen(&self, clause: usize, weight: u64) -> Option<u32> {
        let mut left = weight;
        for code in self.clauses.row(clause) {
            match left.checked_sub(self.weight(*code)) {
                Some(less) => left = less,
                None => return Some(*code),
            }
        }
        None
    }

    fn weight_of_all(&self, clause: usize) -> u64 {
        let mut sum: u64 = 0;
        for code in self.clauses.row(clause) {
            sum = sum.saturating_add(self.weight(*code));
        }
        sum
    }

    fn weight(&self, code: u32) -> u64 {
        let _ = &self.truths;
        let breaks = self.tally.breaks((code / 2) as usize);
        WEIGHTS[breaks.min(WEIGHTS.len() - 1)]
    }

    // Makes a literal true that is false. Answers about how many clauses were visited.
    fn flip(&mut self, code: u32) -> usize {
        let gained = self.gain(code);
        let lost = self.lose(code ^ 1);
        gained.saturating_add(lost).saturating_add(CHOICE)
    }

    fn gain(&mut self, code: u32) -> usize {
        self.note(code, true);
        let clauses = self.lists.row(code as usize);
        for c in clauses {
            self.tally.gain(*c, code / 2);
        }
        clauses.len()
    }

    fn lose(&mut self, code: u32) -> usize {
        self.note(code, false);
        let clauses = self.lists.row(code as usize);
        for c in clauses {
            self.tally.lose(*c, code / 2);
        }
        clauses.len()
    }

    fn note(&mut self, code: u32, value: bool) {
        let i = code as usize;
        if i < self.truths.len() {
            self.truths[i] = value;
        }
    }
}

// The codes of each clause's literals.
fn codes_of(alloc: Global, clauses: &[Clause]) -> Result<Rows, AllocError> {
    let mut rows = Rows::new(alloc);
    for clause in clauses {
        add_clause(&mut rows, clause.lits())?;
    }
    Ok(rows)
}

fn add_clause(rows: &mut Rows, lits: &[Lit]) -> Result<(), AllocError> {
    for l in lits {
        rows.push(code_of(*l)?)?;
    }
    rows.end_row()
}

// The literal's code, where it has at most 32 bits.
fn code_of(l: Lit) -> Result<u32, AllocError> {
    let code = l.var.saturating_mul(2).saturating_add(l.neg as usize);
    match u32::try_from(code) {
        Ok(number) => Ok(number),
        Err(_) => Err(AllocError),
    }
}
