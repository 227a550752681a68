//! Trees in form positions, over the cells and forms of their parts.

ghost use Rattle.cell_arena.specs.Growth.{Grows};
ghost use Rattle.expr_rewriter.specs.Forming.{HasFormSort};
ghost use Rattle.expr_rewriter.specs.inner.Forming.{CanForm, JoinsForms, MakesForm};
ghost use Rattle.expr_rewriter.specs.inner.Forming.{form_over, form_parts, form_sets, literals_of, makes_form};
ghost use Rattle.form_cells.specs.declared.form.Form.{out-Form};
ghost use Rattle.kernel_trees.specs.declared.kernel.Ker.{Ker as AnyKer, out-Ker};
ghost use Rattle.outcome_cells.specs.Shows.{FaultsBelow, faults_of};
ghost use Rattle.sat_formula.specs.Formula.{Grows as FormulaGrows};
ghost use Rattle.std.specs.Prelude.{◌∷◌, ◌≡◌, ◌≤◌, [], All, IfOk, Some, drop, length, map, take, ℕ};
ghost use denote.Param.Weighed.{most};

use cell_arena::{Build, CellId};
use form_cells::{Form, FormCells};
use kernel_trees::{Ker, KerOp};
use outcome_cells::{Cells, Faults, join, join_all};
use sat_formula::Formula;
use std::alloc::{AllocError, Global};
use tla_values::{Boxed, List, copy_texts};

/// Whether a tree of the operator is a form in a form position. Any other is a set.
pub(crate) fn is_form(op: &KerOp) -> bool
    ensures { result ≡ makes_form op.now }
{
    match op {
        KerOp::IntForm
        | KerOp::NatForm
        | KerOp::TextForm
        | KerOp::SeqForm
        | KerOp::Subsets
        | KerOp::Functions
        | KerOp::RecForm(_)
        | KerOp::TupForm => true,
        _ => false,
    }
}

/// How many of the children are sets: the domain of functions. Those behind them are forms.
pub(crate) fn sets_of_form(e: &Ker) -> usize
    ensures within { result ≤ length (out-Ker e.now).args }
    ensures sets { take result (out-Ker e.now).args ≡ form_sets e.now }
    ensures parts { drop result (out-Ker e.now).args ≡ form_parts e.now }
{
    match &e.op {
        KerOp::Functions if !e.args.is_empty() => 1,
        _ => 0,
    }
}

/// The children from a place on.
pub(crate) fn behind(es: &[Ker], place: usize) -> &[Ker]
    requires { place ≤ length es.now }
    ensures rest { result.now ≡ drop place es.now }
    ensures deep { (f : AnyKer → ℕ) → most f result.now ≤ most f es.now }
{
    &es[place..]
}

// The faults of the sets and the forms, all of which are evaluated.
#[tactic(auto, using(sat_formula::proofs::Extension::gates))]
fn all_faults(
    alloc: Global,
    f: &mut Formula,
    sets: &[Cells],
    parts: &[FormCells],
) -> Result<Faults, AllocError>
    requires sets { All (λ x. FaultsBelow f.old.vars (faults_of x)) sets.now }
    requires parts { All (λ x. FaultsBelow f.old.vars (literals_of x)) parts.now }
    ensures joins { IfOk result (JoinsForms f.new sets.now parts.now) }
    ensures grows { FormulaGrows f.old f.new }
{
    let mut all = join_all(alloc, f, sets)?;
    for i in 0..parts.len() {
        let part = &parts[i];
        let own = Faults {
            wrong: part.wrong,
            big: part.big,
        };
        all = join(f, all, own)?;
    }
    Ok(all)
}

// The forms without their faults.
fn forms_alone(alloc: Global, parts: Vec<FormCells>) -> Result<Vec<Form>, AllocError>
    ensures { IfOk result (λ r. r.items ≡ map (λ x. x.form) parts.items) }
{
    let mut forms = Vec::new(alloc);
    for part in parts {
        forms.push(part.form)?;
    }
    Ok(forms)
}

// The form of a list of one.
fn only(alloc: Global, forms: Vec<Form>) -> Result<Boxed<Form>, AllocError>
    ensures { IfOk result (λ f. forms.items ≡ f ∷ []) }
{
    let mut rest = forms;
    let Some(last) = rest.pop() else {
        return Err(AllocError);
    };
    if !rest.is_empty() {
        return Err(AllocError);
    }
    Boxed::new(alloc, last)
}

// The form of the operator over the sets and the forms.
fn made_form(
    alloc: Global,
    op: &KerOp,
    sets: &[Cells],
    forms: Vec<Form>,
) -> Result<Form, AllocError>
    ensures { IfOk result (λ r. form_over op.now (map (λ x. x.cell) sets.now) forms.items ≡ Some (out-Form r)) }
{
    match op {
        KerOp::IntForm => Ok(Form::Ints),
        KerOp::NatForm => Ok(Form::Nats),
        KerOp::TextForm => Ok(Form::Texts),
        KerOp::SeqForm => Ok(Form::Sequences(only(alloc, forms)?)),
        KerOp::Subsets => Ok(Form::Subsets(only(alloc, forms)?)),
        KerOp::Functions => match sets {
            [set] => Ok(Form::Functions(set.cell, only(alloc, forms)?)),
            _ => Err(AllocError),
        },
        KerOp::RecForm(names) => Ok(Form::Records(
            copy_texts(alloc, names)?,
            List::from_vec(forms),
        )),
        KerOp::TupForm => Ok(Form::Tuples(List::from_vec(forms))),
        _ => Err(AllocError),
    }
}

/// The form over the cells of its sets and the forms of its parts, with the faults of all of them.
#[tactic(auto, using(cell_arena::proofs::Growing::growing))]
pub(crate) fn form_node(
    b: &mut Build,
    e: &Ker,
    sets: &[Cells],
    parts: Vec<FormCells>,
) -> Result<FormCells, AllocError>
    requires { CanForm b.old e.now sets.now parts.items }
    ensures sort { IfOk result (HasFormSort b.new e.now) }
    ensures makes { IfOk result (MakesForm b.old b.new e.now sets.now parts.items) }
    ensures grows { Grows b.old b.new }
{
    let alloc = b.arena.alloc();
    let faults = all_faults(alloc, &mut b.formula, sets, parts.as_slice())?;
    let forms = forms_alone(alloc, parts)?;
    let form = made_form(alloc, &e.op, sets, forms)?;
    Ok(FormCells {
        form,
        wrong: faults.wrong,
        big: faults.big,
    })
}
