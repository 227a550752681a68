// Trees of typed expressions.
ghost use Rattle.std.specs.Prelude.{◌≡◌, ◌++◌, ◌∷◌, IfOk, OnOk, Some, replicate};
ghost use Rattle.tla_meaning.specs.Scopes.{find_last};
ghost use Rattle.tla_meaning.specs.declared.expr.Expr.{out-Expr};
ghost use Rattle.kernel_reduction.specs.inner.Settings.{counted, names_at, updated_names};
ghost use Rattle.kera_reducer.specs.inner.Standing.{ReducesChildren, ReducesNode, Reduces, IsBoundName, names_of};

use crate::making::{Made, as_number, make};
use crate::nodes::bound;
use crate::positions::{binds_behind, numbers_at, passing, position_at};
use kernel_trees::Ker;
use snowcat_rows::{Ty, copy_type};
use std::alloc::{AllocError, Global};
use tla_meaning::{Assignable, Expr, Op};
use tla_values::{Text, same_text};

/// What travels through an expression: the types of the nodes that are not reduced yet, and the bound names. The number of
/// a name is how many are bound before it.
#[derive(Drop)]
pub(crate) struct Reducer<'a> {
    pub(crate) alloc: Global,
    pub(crate) types: &'a [Ty],
    pub(crate) names: Vec<&'a Text>,
}

impl<'a> Reducer<'a> {
    fn next_type(&mut self) -> Result<&'a Ty, AllocError>
        ensures types { IfOk result (λ t. self.old.types.now ≡ t.now ∷ self.new.types.now) }
        ensures names { OnOk result (names_of self.new ≡ names_of self.old) }
    {
        match self.types {
            [ty, rest @ ..] => {
                self.types = rest;
                Ok(ty)
            }
            [] => Err(AllocError),
        }
    }

    // The number of a bound name.
    fn number_of(&self, name: &Text) -> Result<u32, AllocError>
        ensures { IfOk result (λ n. find_last name.now (counted (names_of self.now)) ≡ Some n) }
    {
        let names = self.names.as_slice();
        let mut found = None;
        for i in 0..names.len() {
            if same_text(name, names[i]) {
                found = Some(i);
            }
        }
        match found {
            Some(number) => as_number(number),
            None => Err(AllocError),
        }
    }

    // Binds each of several names.
    fn bind(&mut self, names: &'a [Text]) -> Result<(), AllocError>
        ensures names { OnOk result (names_of self.new ≡ names_of self.old ++ names.now) }
        ensures types { OnOk result (self.new.types ≡ self.old.types) }
    {
        for name in names {
            self.names.push(name)?;
        }
        Ok(())
    }

    // Binds a name so many times.
    fn repeat(&mut self, name: &'a Text, count: usize) -> Result<(), AllocError>
        ensures names { OnOk result (names_of self.new ≡ names_of self.old ++ replicate count name.now) }
        ensures types { OnOk result (self.new.types ≡ self.old.types) }
    {
        for _ in 0..count {
            self.names.push(name)?;
        }
        Ok(())
    }

    // Binds what an EXCEPT binds in a child.
    fn enter_update(
        &mut self,
        counts: &[usize],
        names: &'a [Text],
        child: usize,
    ) -> Result<(), AllocError>
        ensures names { OnOk result (names_of self.new ≡ names_of self.old ++ updated_names counts.now names.now child) }
        ensures types { OnOk result (self.new.types ≡ self.old.types) }
    {
        match names {
            [name] if 0 < child => self.repeat(name, numbers_at(counts, child - 1)?),
            _ => Ok(()),
        }
    }

    // Binds what a node binds in the child at a number.
    fn enter(&mut self, e: &'a Expr, child: usize) -> Result<(), AllocError>
        ensures names { OnOk result (names_of self.new ≡ names_of self.old ++ names_at (out-Expr e.now).op (out-Expr e.now).binds child) }
        ensures types { OnOk result (self.new.types ≡ self.old.types) }
    {
        let names = e.binds.as_slice();
        match &e.op {
            Op::Fold if child == 0 => self.bind(names),
            Op::Except(counts) => self.enter_update(counts.as_slice(), names, child),
            op if binds_behind(op) && names.len() <= child => self.bind(names),
            _ => Ok(()),
        }
    }

    // The trees of a node's children, each in its setting, where this position is passed on.
    #[cycle(reduce)]
    fn children(&mut self, e: &'a Expr, passed: Option<Assignable>) -> Result<Vec<Ker>, AllocError>
        ensures built { IfOk result (λ ks. ReducesChildren passed self.old self.new e.now ks.items) }
        ensures names { OnOk result (names_of self.new ≡ names_of self.old) }
    {
        let args = e.args.as_slice();
        let around = self.names.len();
        let mut kids = Vec::new(self.alloc);
        for i in 0..args.len() {
            self.enter(e, i)?;
            let position = position_at(passed, &e.op, e.binds.len(), args.len(), i);
            let kid = self.expression(&args[i], position)?;
            self.names.truncate(around);
            kids.push(kid)?;
        }
        Ok(kids)
    }

    // A bound name.
    fn bound_name(&self, e: &Expr, name: &Text, ty: &Ty) -> Result<Ker, AllocError>
        ensures { IfOk result (λ k. IsBoundName name.now e.now (names_of self.now) ty.now k) }
    {
        if !e.args.is_empty() {
            return Err(AllocError);
        }
        let number = self.number_of(name)?;
        let ty = copy_type(self.alloc, ty)?;
        Ok(bound(self.alloc, e.place, ty, number))
    }

    // A node of another operator, of this type.
    #[cycle(reduce)]
    fn node(
        &mut self,
        e: &'a Expr,
        position: Option<Assignable>,
        ty: &Ty,
    ) -> Result<Ker, AllocError>
        ensures built { IfOk result (λ k. ReducesNode position self.old self.new ty.now e.now k) }
        ensures names { OnOk result (names_of self.new ≡ names_of self.old) }
    {
        let passed = passing(position, &e.op, e.args.as_slice());
        let kids = self.children(e, passed)?;
        let made = Made {
            alloc: self.alloc,
            place: e.place,
            ty,
            depth: as_number(self.names.len())?,
            bound: e.binds.len(),
        };
        make(&made, &e.op, passed, kids)
    }

    /// The tree of an expression in a position.
    #[cycle(reduce)]
    pub(crate) fn expression(
        &mut self,
        e: &'a Expr,
        position: Option<Assignable>,
    ) -> Result<Ker, AllocError>
        ensures built { IfOk result (λ k. Reduces position self.old self.new e.now k) }
        ensures names { OnOk result (names_of self.new ≡ names_of self.old) }
    {
        let ty = self.next_type()?;
        match &e.op {
            Op::Bound(name) => self.bound_name(e, name, ty),
            _ => self.node(e, position, ty),
        }
    }
}
