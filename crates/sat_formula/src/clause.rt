//! Clauses and lists of clauses.

ghost use Rattle.std.specs.Prelude.{◌≡◌, ◌++◌, ◌∷◌, [], OnOk, OnErr, All, length};
ghost use Rattle.sat_formula.specs.Lit.{IsBelow};
ghost use Rattle.sat_formula.specs.Clause.{clause_true};

use crate::assignment::{Assignment, value};
use crate::lit::Lit;
use std::alloc::{AllocError, Global};
use std::marker::Model;

/// A list of literals, which is true where one of them is. Contracts see it as that list.
#[derive(Drop)]
pub struct Clause {
    lits: Vec<Lit>,
}

impl Model for Clause {
    ghost use Rattle.std.specs.Prelude.{List};
    ghost use Rattle.sat_formula.specs.declared.lit.Lit.{Lit};

    ghost Value = { List Lit };

    ghost view = { λ c. c.lits.items };
}

impl Clause {
    /// The clause of these literals, which takes no memory.
    pub fn from_vec(lits: Vec<Lit>) -> Clause
        ensures { result ≡ lits.items }
    {
        Clause { lits }
    }

    /// The literals, which takes no memory.
    pub fn into_vec(self) -> Vec<Lit>
        ensures { result.items ≡ self }
    {
        let Clause { lits } = self;
        lits
    }

    /// The literals.
    pub fn lits(&self) -> &[Lit]
        ensures { result.now ≡ self.now }
    {
        self.lits.as_slice()
    }

    /// Whether some literal is true.
    pub fn is_true(&self, a: &Assignment) -> bool
        requires { All (IsBelow (length a.now)) self.now }
        ensures { result ≡ clause_true a.now self.now }
    {
        self.lits.iter().any(|l| value(*l, a))
    }
}

/// A list of clauses. Contracts see it as a list of lists of literals.
#[derive(Drop)]
pub struct Clauses {
    clauses: Vec<Clause>,
}

impl Model for Clauses {
    ghost use Rattle.std.specs.Prelude.{List};
    ghost use Rattle.sat_formula.specs.declared.lit.Lit.{Lit};

    ghost Value = { List (List Lit) };

    ghost view = { λ c. c.clauses.items };
}

impl Clauses {
    /// No clauses yet. The list keeps the allocator.
    pub fn new(alloc: Global) -> Clauses
        ensures { result ≡ [] }
    {
        Clauses {
            clauses: Vec::new(alloc),
        }
    }

    /// The clauses, in the order in which they were added.
    pub fn clauses(&self) -> &[Clause]
        ensures { result.now ≡ self.now }
    {
        self.clauses.as_slice()
    }

    /// Adds a clause at the end. After a refusal the list is as before.
    pub fn push(&mut self, clause: Clause) -> Result<(), AllocError>
        ensures ok { OnOk result (self.new ≡ self.old ++ clause ∷ []) }
        ensures err { OnErr result (self.new ≡ self.old) }
    {
        self.clauses.push(clause)?;
        Ok(())
    }
}
