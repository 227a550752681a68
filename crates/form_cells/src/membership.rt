//! Whether values belong to forms.

ghost use Rattle.cell_arena.specs.Decode.{decode, present};
ghost use Rattle.cell_arena.specs.Growth.{Grows};
ghost use Rattle.form_cells.specs.FormSorts.{MemberAndForm, SetAndForm};
ghost use Rattle.form_cells.specs.FormValues.{form_value};
ghost use Rattle.form_cells.specs.inner.Listed.{EdgesAndForm, FunctionAndForm, PartsAndForms};
ghost use Rattle.form_cells.specs.inner.Listed.{function_belongs as function_meets};
ghost use Rattle.sat_formula.specs.Formula.{HasValue};
ghost use Rattle.sat_formula.specs.Lit.{IsBelow, lit_value};
ghost use Rattle.std.specs.List.{list_all};
ghost use Rattle.std.specs.Prelude.{◌≡◌, ◌<◌, ◌&&◌, ◌||◌, All, IfOk, map, not};
ghost use Rattle.tla_meaning.specs.Forms.{all_belong as all_meet, belongs};
ghost use Rattle.tla_values.specs.Sets.{elements};

use crate::form::Form;
use crate::functions::domain_and_results;
use crate::parts::{fields_of, is_not_negative, items_of, members_of, places_of};
use cell_arena::{Build, CellId};
use cell_merge::known;
use sat_formula::Lit;
use set_rewriter::member;
use std::alloc::AllocError;

// A literal that is true exactly where the first is false or the second is true.
#[tactic(auto, using(cell_arena::proofs::Growing::growing))]
fn implies(b: &mut Build, l: Lit, m: Lit) -> Result<Lit, AllocError>
    requires first { l.var < b.old.formula.vars }
    requires second { m.var < b.old.formula.vars }
    ensures value { IfOk result (λ r. HasValue b.new.formula r (λ a. not (lit_value l a) || lit_value m a)) }
    ensures arena { b.new.arena ≡ b.old.arena }
    ensures grows { Grows b.old b.new }
{
    let either = b.formula.or(l.negated(), m)?;
    Ok(either)
}

// A literal that is true exactly where both are.
#[tactic(auto, using(cell_arena::proofs::Growing::growing))]
fn both(b: &mut Build, l: Lit, m: Lit) -> Result<Lit, AllocError>
    requires first { l.var < b.old.formula.vars }
    requires second { m.var < b.old.formula.vars }
    ensures value { IfOk result (λ r. HasValue b.new.formula r (λ a. lit_value l a && lit_value m a)) }
    ensures grows { Grows b.old b.new }
{
    let both = b.formula.and(l, m)?;
    Ok(both)
}

// A literal that is true exactly where all are.
#[tactic(auto, using(cell_arena::proofs::Growing::growing))]
fn all_of(b: &mut Build, lits: &[Lit]) -> Result<Lit, AllocError>
    requires { All (IsBelow b.old.formula.vars) lits.now }
    ensures value { IfOk result (λ r. HasValue b.new.formula r (λ a. list_all (λ l. lit_value l a) lits.now)) }
    ensures grows { Grows b.old b.new }
{
    let all = b.formula.and_all(b.arena.alloc(), lits)?;
    Ok(all)
}

/// A literal that is true exactly where the value of the cell belongs to the form. (Specifying Systems, section 16.1.)
#[cycle(belongs)]
#[tactic(auto, using(cell_arena::proofs::Growing::growing))]
pub fn belongs(b: &mut Build, x: CellId, form: &Form) -> Result<Lit, AllocError>
    requires { MemberAndForm b.old.arena.kinds x form.now }
    ensures value { IfOk result (λ l. HasValue b.new.formula l
        (λ a. belongs (form_value b.old.arena a form.now) (decode b.old.arena a x))) }
    ensures grows { Grows b.old b.new }
{
    match form {
        Form::Plain(s) => {
            let l = member(b, x, *s)?;
            Ok(l)
        }
        Form::Ints | Form::Texts => Ok(b.formula.top()),
        Form::Nats => Ok(is_not_negative(b, x)),
        Form::Sequences(items) => {
            let places = places_of(b, x)?;
            let l = all_belong(b, places.as_slice(), items.get())?;
            Ok(l)
        }
        Form::Subsets(members) => {
            let l = included(b, x, members.get())?;
            Ok(l)
        }
        Form::Functions(s, results) => {
            let l = function_belongs(b, x, *s, results.get())?;
            Ok(l)
        }
        Form::Records(names, forms) => {
            let cells = fields_of(b, x, names.as_slice())?;
            let l = each_belongs(b, cells.as_slice(), forms.as_slice())?;
            Ok(l)
        }
        Form::Tuples(forms) => {
            let cells = items_of(b, x)?;
            let l = each_belongs(b, cells.as_slice(), forms.as_slice())?;
            Ok(l)
        }
    }
}

/// A literal that is true exactly where each member of the set belongs to the form. (Specifying Systems, section 16.1.)
#[cycle(belongs)]
#[tactic(auto, using(cell_arena::proofs::Growing::growing))]
pub fn included(b: &mut Build, x: CellId, form: &Form) -> Result<Lit, AllocError>
    requires { SetAndForm b.old.arena.kinds x form.now }
    ensures value { IfOk result (λ l. HasValue b.new.formula l
        (λ a. list_all (belongs (form_value b.old.arena a form.now)) (elements (decode b.old.arena a x)))) }
    ensures grows { Grows b.old b.new }
{
    let edges = members_of(b, x)?;
    let l = all_belong(b, edges.as_slice(), form)?;
    Ok(l)
}

// A literal that is true exactly where the function has the domain, and each of its results belongs to the form.
#[cycle(belongs)]
#[tactic(auto, using(cell_arena::proofs::Growing::growing))]
fn function_belongs(b: &mut Build, f: CellId, s: CellId, form: &Form) -> Result<Lit, AllocError>
    requires { FunctionAndForm b.old.arena.kinds f s form.now }
    ensures value { IfOk result (λ l. HasValue b.new.formula l
        (λ a. function_meets b.old.arena a f s (form_value b.old.arena a form.now))) }
    ensures grows { Grows b.old b.new }
{
    let (agrees, results) = domain_and_results(b, f, s)?;
    let all = all_belong(b, results.as_slice(), form)?;
    let l = both(b, agrees, all)?;
    Ok(l)
}

// A literal that is true exactly where each edge that is there leads to what belongs to the form.
#[cycle(belongs)]
#[tactic(auto, using(cell_arena::proofs::Growing::growing))]
fn all_belong(b: &mut Build, edges: &[(Lit, CellId)], form: &Form) -> Result<Lit, AllocError>
    requires { EdgesAndForm b.old edges.now form.now }
    ensures value { IfOk result (λ l. HasValue b.new.formula l
        (λ a. list_all (belongs (form_value b.old.arena a form.now)) (present a (decode b.old.arena a) edges.now))) }
    ensures grows { Grows b.old b.new }
{
    let mut tests = Vec::new(b.arena.alloc());
    for i in 0..edges.len() {
        let edge = edges[i];
        if let Some(false) = known(&b.formula, edge.0) {
            continue;
        }
        let one = belongs(b, edge.1, form)?;
        let test = implies(b, edge.0, one)?;
        tests.push(test)?;
    }
    let l = all_of(b, tests.as_slice())?;
    Ok(l)
}

// A literal that is true exactly where each cell's value belongs to its form.
#[cycle(belongs)]
#[tactic(auto, using(cell_arena::proofs::Growing::growing))]
fn each_belongs(b: &mut Build, cells: &[CellId], forms: &[Form]) -> Result<Lit, AllocError>
    requires { PartsAndForms b.old.arena.kinds cells.now forms.now }
    ensures value { IfOk result (λ l. HasValue b.new.formula l
        (λ a. all_meet (map (form_value b.old.arena a) forms.now) (map (decode b.old.arena a) cells.now))) }
    ensures grows { Grows b.old b.new }
{
    let mut tests = Vec::new(b.arena.alloc());
    for i in 0..forms.len() {
        let cell = cells[i];
        let test = belongs(b, cell, &forms[i])?;
        tests.push(test)?;
    }
    let l = all_of(b, tests.as_slice())?;
    Ok(l)
}
