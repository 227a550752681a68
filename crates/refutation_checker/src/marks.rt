//! Truth values of variables.

ghost use Rattle.std.specs.Prelude.{◌≡◌, ℕ, OnOk, OnErr, Some, None, IfOk};
ghost use Rattle.refutation_checker.specs.Marks.{Updates, mark_of};

use std::alloc::{AllocError, Global};
use std::collections::BTreeMap;
use std::marker::Model;

/// A truth value for some variables. Those below a fixed number have a place in a table and the
/// others stand in a map, so that neither time nor memory goes by the greatest variable. Contracts
/// see the value of each variable that has one.
#[derive(Drop)]
pub(crate) struct Marks {
    near: Vec<Option<bool>>,
    far: BTreeMap<usize, bool>,
}

impl Model for Marks {
    ghost use Rattle.refutation_checker.specs.Marks.{MarksView};

    ghost Value = { MarksView };

    ghost view = { λ m. record { near = m.near.items; far = m.far.entries } };
}

impl Marks {
    /// No values yet, and a table for the variables below `near`.
    pub(crate) fn new(alloc: Global, near: usize) -> Result<Marks, AllocError>
        ensures { IfOk result (λ m. (v : ℕ) → mark_of m v ≡ None) }
    {
        Ok(Marks {
            near: vec![in alloc; None; near]?,
            far: BTreeMap::new(alloc),
        })
    }

    /// The value of a variable.
    pub(crate) fn get(&self, var: usize) -> Option<bool>
        ensures { result ≡ mark_of self.now var }
    {
        if var < self.near.len() {
            self.near[var]
        } else {
            self.far.get(&var).copied()
        }
    }

    /// Gives a variable a value. After a refusal each variable has the value that it had.
    pub(crate) fn set(&mut self, var: usize, value: bool) -> Result<(), AllocError>
        ensures ok { OnOk result (Updates self.old var (Some value) self.new) }
        ensures err { OnErr result ((v : ℕ) → mark_of self.new v ≡ mark_of self.old v) }
    {
        if var < self.near.len() {
            self.near[var] = Some(value);
            return Ok(());
        }
        self.far.insert(var, value)?;
        Ok(())
    }

    /// Takes a variable's value back.
    pub(crate) fn unset(&mut self, var: usize)
        ensures { Updates self.old var None self.new }
    {
        if var < self.near.len() {
            self.near[var] = None;
        } else {
            self.far.remove(&var);
        }
    }
}
