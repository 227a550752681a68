//! Formulas that grow.

ghost use Rattle.std.specs.Prelude.{◌≡◌, ◌+◌, ◌*◌, ◌^◌, ◌<◌, ◌≤◌, ◌↔◌, ◌++◌, ◌∷◌, [], Bool, true, false, length, IsTrue, IfSome, IfOk, OnOk, OnErr, All, List};
ghost use Rattle.sat_formula.specs.Lit.{lit_value, IsBelow, top_lit};
ghost use Rattle.sat_formula.specs.Clause.{NamesBelow};
ghost use Rattle.sat_formula.specs.Formula.{Satisfies, WellFormed, Grows, EitherExtends, HasValue};
ghost use Rattle.sat_formula.specs.inner.Gates.{gate_value};

use crate::assignment::Assignment;
use crate::clause::{Clause, Clauses};
use crate::cnf::Cnf;
use crate::gate::Gate;
use crate::lit::Lit;
use std::alloc::{AllocError, Global};
use std::collections::HashMap;
use std::marker::Model;

/// Variables and clauses that grow by gates. Variable 0 is true under each assignment that
/// satisfies the clauses. Contracts see a formula as its `Cnf`.
#[derive(Drop)]
pub struct Formula {
    alloc: Global,
    // One entry for each variable: its length is the number of variables.
    marks: Vec<bool>,
    clauses: Clauses,
    // The gates so far, each with its literal.
    gates: HashMap<Gate, Lit>,
}

impl Model for Formula {
    ghost use Rattle.std.specs.Prelude.{vec_len};
    ghost use Rattle.sat_formula.specs.declared.cnf.Cnf.{Cnf};

    ghost Value = { Cnf };

    ghost use Rattle.sat_formula.specs.inner.Gates.{IsKept};

    ghost view = { λ f. record { vars = vec_len f.marks; clauses = f.clauses } };

    ghost invariant = { λ f. IsKept (record { vars = vec_len f.marks; clauses = f.clauses }) f.gates };
}

impl Formula {
    /// The formula with variable 0 alone, and the one clause that it is true. It keeps the
    /// allocator.
    #[tactic(auto, unfolding(crate::specs::Formula::Satisfies))]
    pub fn new(alloc: Global) -> Result<Formula, AllocError>
        ensures vars { IfOk result (λ f. f.vars ≡ 1) }
        ensures clauses { IfOk result (λ f. f.clauses ≡ (top_lit ∷ []) ∷ []) }
        ensures satisfiable { IfOk result (λ f. Satisfies (true ∷ []) f) }
    {
        let mut marks = Vec::new(alloc);
        marks.push(false)?;
        let mut clauses = Clauses::new(alloc);
        let top = Lit { var: 0, neg: false };
        clauses.push(Clause::from_vec(Vec::from_slice(alloc, &[top])?))?;
        Ok(Formula {
            alloc,
            marks,
            clauses,
            gates: HashMap::new(alloc),
        })
    }

    /// How many variables there are. Twice that number, and one more, fits a `usize`.
    pub fn vars(&self) -> usize
        ensures same { result ≡ self.now.vars }
        ensures small { 2 * result + 1 < 2 ^ 64 }
        ensures well_formed { WellFormed self.now }
    {
        self.marks.len()
    }

    /// The clauses, in the order in which they were added.
    pub fn clauses(&self) -> &Clauses
        ensures same { result.now ≡ self.now.clauses }
        ensures well_formed { WellFormed self.now }
    {
        &self.clauses
    }

    /// The literal of variable 0, which is true under each satisfying assignment.
    #[tactic(auto, unfolding(crate::specs::Formula::Satisfies))]
    pub fn top(&self) -> Lit
        ensures same { result ≡ top_lit }
        ensures below { result.var < self.now.vars }
        ensures forced { (a : List Bool) → Satisfies a self.now → lit_value result a ≡ true }
    {
        let _ = &self.marks;
        Lit { var: 0, neg: false }
    }

    /// A new variable that no clause names, so either value of it extends an assignment. After a
    /// refusal the formula is as before.
    pub fn fresh(&mut self) -> Result<Lit, AllocError>
        ensures lit { IfOk result (λ l. l ≡ record { var = self.old.vars; neg = false }) }
        ensures longer { OnOk result (self.new ≡ record self.old { vars = self.old.vars + 1 }) }
        ensures free { OnOk result (EitherExtends self.old self.new) }
        ensures err { OnErr result (self.new ≡ self.old) }
        ensures grows { Grows self.old self.new }
    {
        let var = self.marks.len();
        self.marks.push(false)?;
        Ok(Lit { var, neg: false })
    }

    /// Adds a clause of older variables at the end. This is the one call after which an
    /// assignment need not extend. After a refusal the formula is as before.
    pub fn add(&mut self, clause: &[Lit]) -> Result<(), AllocError>
        requires { All (IsBelow self.old.vars) clause.now }
        ensures ok { OnOk result (self.new ≡ record self.old { clauses = self.old.clauses ++ clause.now ∷ [] }) }
        ensures err { OnErr result (self.new ≡ self.old) }
    {
        let lits = Vec::from_slice(self.alloc, clause)?;
        self.clauses.push(Clause::from_vec(lits))?;
        Ok(())
    }

    // The literal that was kept for this gate.
    pub(crate) fn kept(&self, gate: &Gate) -> Option<Lit>
        ensures { IfSome result (λ l. HasValue self.now l (gate_value gate.now)) }
    {
        self.gates.get(gate).copied()
    }

    // Keeps the literal of a gate for whoever asks for it again.
    pub(crate) fn keep(&mut self, gate: Gate, l: Lit) -> Result<(), AllocError>
        requires { HasValue self.old l (gate_value gate) }
        ensures { self.new ≡ self.old }
    {
        self.gates.insert(gate, l)?;
        Ok(())
    }

    /// Whether an assignment of all variables makes each clause true. It takes no memory.
    #[tactic(auto, unfolding(crate::specs::Formula::Satisfies))]
    pub fn satisfies(&self, a: &Assignment) -> bool
        requires { length a.now ≡ self.now.vars }
        ensures { IsTrue result ↔ Satisfies a.now self.now }
    {
        let _ = &self.alloc;
        self.clauses.clauses().iter().all(|c| c.is_true(a))
    }

    /// The variables and clauses of the formula, with the clause of this one literal last.
    pub fn with_unit(&self, alloc: Global, l: Lit) -> Result<Cnf, AllocError>
        requires { l.var < self.now.vars }
        ensures same { IfOk result (λ c. c ≡ record self.now { clauses = self.now.clauses ++ (l ∷ []) ∷ [] }) }
        ensures within { IfOk result (λ c. NamesBelow c.vars c.clauses) }
    {
        let mut clauses = Clauses::new(alloc);
        for c in self.clauses.clauses() {
            clauses.push(Clause::from_vec(Vec::from_slice(alloc, c.lits())?))?;
        }
        clauses.push(Clause::from_vec(Vec::from_slice(alloc, &[l])?))?;
        Ok(Cnf {
            vars: self.vars(),
            clauses,
        })
    }
}
