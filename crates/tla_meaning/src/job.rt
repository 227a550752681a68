// What is checked, and its states.
ghost use Rattle.std.specs.Prelude.{◌≡◌, IfOk};

use crate::copy::{copy_aliases, copy_decls, copy_expr, copy_named};
use crate::expr::{Decl, Expr};
use std::alloc::{AllocError, Global};
use tla_values::{List, Text, Value, copy_texts, copy_value};

/// What is checked.
#[derive(Drop)]
pub struct Job {
    pub files: List<Text>,
    pub names: List<Decl>,
    pub aliases: List<(Text, Text)>,
    pub cinit: Expr,
    pub assume: Expr,
    pub init: Expr,
    pub next: Expr,
    pub invs: List<(Text, Expr)>,
}

/// A value for each constant and variable.
#[derive(Drop)]
pub struct State {
    pub vals: List<Value>,
}

/// The values of bound names.
#[derive(Drop)]
pub struct Env {
    pub vals: List<(Text, Value)>,
}

impl Job {
    /// An equal job.
    pub fn copy(&self, alloc: Global) -> Result<Job, AllocError>
        ensures { IfOk result (λ job. job ≡ self.now) }
    {
        let files = copy_texts(alloc, &self.files)?;
        let names = copy_decls(alloc, &self.names)?;
        let aliases = copy_aliases(alloc, &self.aliases)?;
        let cinit = copy_expr(alloc, &self.cinit)?;
        let assume = copy_expr(alloc, &self.assume)?;
        let init = copy_expr(alloc, &self.init)?;
        let next = copy_expr(alloc, &self.next)?;
        let invs = copy_named(alloc, &self.invs)?;
        Ok(Job {
            files,
            names,
            aliases,
            cinit,
            assume,
            init,
            next,
            invs,
        })
    }
}

impl State {
    /// An equal state.
    pub fn copy(&self, alloc: Global) -> Result<State, AllocError>
        ensures { IfOk result (λ s. s ≡ self.now) }
    {
        let mut vals = Vec::new(alloc);
        for v in self.vals.as_slice() {
            vals.push(copy_value(alloc, v)?)?;
        }
        Ok(State {
            vals: List::from_vec(vals),
        })
    }
}
