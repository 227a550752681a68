//! The literals that are true, in the order in which they became so.

ghost use Rattle.std.specs.Prelude.{◌≡◌, ◌↔◌, ◌++◌, ◌∷◌, [], IsTrue, IfOk, OnOk, OnErr, Contains};
ghost use Rattle.refutation_checker.specs.Follows.{negation};
ghost use Rattle.refutation_checker.specs.Marks.{AreMarks, TellsValue};

use crate::marks::Marks;
use sat_formula::Lit;
use std::alloc::{AllocError, Global};
use std::marker::Model;

/// True literals of any variables, with each variable's value at hand. Contracts see them as a
/// list, in the order in which they became true.
#[derive(Drop)]
pub struct Trail {
    marks: Marks,
    lits: Vec<Lit>,
}

impl Model for Trail {
    ghost use Rattle.std.specs.Prelude.{List};
    ghost use Rattle.sat_formula.specs.declared.lit.Lit.{Lit};
    ghost use Rattle.refutation_checker.specs.Marks.{AreMarks};

    ghost Value = { List Lit };

    ghost view = { λ t. t.lits.items };

    ghost invariant = { λ t. AreMarks t.marks t.lits.items };
}

impl Trail {
    /// The empty trail, with a table for the variables below `near`; values of others take longer
    /// to look up. It keeps the allocator.
    pub fn new(alloc: Global, near: usize) -> Result<Trail, AllocError>
        ensures { IfOk result (λ t. t ≡ []) }
    {
        Ok(Trail {
            marks: Marks::new(alloc, near)?,
            lits: Vec::new(alloc),
        })
    }

    /// The value of a literal; `None` where neither it nor its negation is on the trail.
    pub fn value(&self, l: Lit) -> Option<bool>
        ensures { TellsValue self.now l result }
    {
        match self.marks.get(l.var) {
            None => None,
            Some(b) => Some(b != l.neg),
        }
    }

    /// Whether the literal is on the trail.
    pub fn is_true(&self, l: Lit) -> bool
        ensures { IsTrue result ↔ Contains self.now l }
    {
        match self.value(l) {
            Some(b) => b,
            None => false,
        }
    }

    /// Makes a literal true that is not false. After a refusal the trail is as before.
    pub fn push(&mut self, l: Lit) -> Result<(), AllocError>
        requires { Contains self.old (negation l) → ⊥ }
        ensures ok { OnOk result (self.new ≡ self.old ++ l ∷ []) }
        ensures err { OnErr result (self.new ≡ self.old) }
    {
        self.lits.reserve(1)?;
        self.marks.set(l.var, !l.neg)?;
        self.lits.push_reserved(l);
        Ok(())
    }

    /// Takes every literal back, in time that goes by their number.
    pub fn clear(&mut self)
        ensures { self.new ≡ [] }
    {
        take_back(&mut self.marks, &self.lits);
        self.lits.clear();
    }
}

// Forgets the values of the listed literals' variables.
fn take_back(marks: &mut Marks, lits: &[Lit])
    requires { AreMarks marks.old lits.now }
    ensures { AreMarks marks.new [] }
{
    for l in lits {
        marks.unset(l.var);
    }
}
