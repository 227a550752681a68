// Nodes that have their type at once: names and notes.
ghost use Rattle.std.specs.Prelude.{◌≡◌, [], IfOk, option_map};
ghost use Rattle.tla_meaning.specs.Scopes.{find_last};
ghost use Rattle.snowcat_rows.specs.Types.{mean, var};
ghost use Rattle.snowcat_types.specs.TypeForms.{bool_type};
ghost use Rattle.snowcat_types.specs.Rows.{gives, noted_row, or_type};
ghost use Rattle.snowcat_types.specs.inner.Built.{context_of, note_of, row_at, scope_of, signature_of, unknown_from};
ghost use Rattle.snowcat_types.specs.inner.Gathered.{IsNamed, NoteNamed, NotesNamed};
ghost use Rattle.snowcat_types.specs.inner.Named.{AroundNamed, RowNamed, ScopeNamed};

use crate::counts::type_count;
use crate::forms::{Row, gives, one, unknown};
use crate::rows::{leaf_row, type_row};
use crate::typable::same_name;
use snowcat_rows::{Ty, copy_type};
use std::alloc::{AllocError, Global};
use tla_meaning::{Expr, Op};
use tla_values::{List, Text};

/// What is known around a node: what the texts of notes bind, and the types of bound names. A declared name has the
/// unknown type of its number.
#[derive(Drop)]
pub struct Around {
    pub notes: List<(Text, Option<Ty>)>,
    pub bound: Vec<(Text, Ty)>,
}

#[tactic(auto, using(snowcat_rows::proofs::Means::means))]
fn bound_type(alloc: Global, name: &Text, bound: &[(Text, Ty)]) -> Result<Ty, AllocError>
    ensures mean { IfOk result (λ t. mean t
        ≡ or_type (find_last name.now (scope_of bound.now)) bool_type) }
    ensures named { ScopeNamed bound.now → IfOk result (λ t. IsNamed t) }
{
    let mut i = bound.len();
    while i > 0 {
        i -= 1;
        let entry = &bound[i];
        if same_name(name, &entry.0) {
            let of = copy_type(alloc, &entry.1)?;
            return Ok(of);
        }
    }
    Ok(Ty::Bool)
}

#[tactic(auto, using(snowcat_rows::proofs::Means::means))]
fn note_row(alloc: Global, of: &Option<Ty>, first: u32) -> Result<Row, AllocError>
    ensures mean { IfOk result (λ r. signature_of r
        ≡ (noted_row (option_map mean of.now)).says (unknown_from first)) }
    ensures named { NoteNamed of.now → IfOk result (λ r. RowNamed r) }
{
    match of {
        None => {
            let types = one(alloc, unknown(first, 0)?)?;
            let whole = unknown(first, 0)?;
            gives(alloc, types, whole)
        }
        Some(of) => {
            let types = one(alloc, copy_type(alloc, of)?)?;
            let whole = copy_type(alloc, of)?;
            gives(alloc, types, whole)
        }
    }
}

fn noted_row(
    alloc: Global,
    text: &Text,
    notes: &[(Text, Option<Ty>)],
    first: u32,
) -> Result<Row, AllocError>
    ensures mean { IfOk result (λ r. signature_of r
        ≡ (noted_row (note_of notes.now text.now)).says (unknown_from first)) }
    ensures named { NotesNamed notes.now → IfOk result (λ r. RowNamed r) }
{
    for i in 0..notes.len() {
        let note = &notes[i];
        if same_name(text, &note.0) {
            let row = note_row(alloc, &note.1, first)?;
            return Ok(row);
        }
    }
    let row = note_row(alloc, &None, first)?;
    Ok(row)
}

fn name_row(alloc: Global, i: usize) -> Result<Row, AllocError>
    ensures mean { IfOk result (λ r. signature_of r ≡ gives [] (var i)) }
    ensures named { IfOk result (λ r. RowNamed r) }
{
    let of = unknown(0, i)?;
    leaf_row(alloc, of)
}

fn bound_row(alloc: Global, name: &Text, bound: &[(Text, Ty)]) -> Result<Row, AllocError>
    ensures mean { IfOk result (λ r. signature_of r
        ≡ gives [] (or_type (find_last name.now (scope_of bound.now)) bool_type)) }
    ensures named { ScopeNamed bound.now → IfOk result (λ r. RowNamed r) }
{
    let of = bound_type(alloc, name, bound)?;
    leaf_row(alloc, of)
}

/// The row of the node, whose unknown types begin with that number.
pub fn row_of(alloc: Global, around: &Around, e: &Expr, first: u32) -> Result<Row, AllocError>
    ensures mean { IfOk result (λ r. signature_of r
        ≡ (row_at (context_of around.now) e.now).says (unknown_from first)) }
    ensures named { AroundNamed around.now → IfOk result (λ r. RowNamed r) }
{
    let n = e.args.as_slice().len();
    match &e.op {
        Op::Name(i, _) => name_row(alloc, *i),
        Op::Bound(name) => bound_row(alloc, name, around.bound.as_slice()),
        Op::Noted(text) => noted_row(alloc, text, around.notes.as_slice(), first),
        _ => type_row(alloc, &e.op, e.binds.as_slice(), n, first),
    }
}

fn note_count(of: &Option<Ty>) -> usize
    ensures { result ≡ (noted_row (option_map mean of.now)).unknowns }
{
    match of {
        None => 1,
        Some(_) => 0,
    }
}

fn noted_count(text: &Text, notes: &[(Text, Option<Ty>)]) -> usize
    ensures { result ≡ (noted_row (note_of notes.now text.now)).unknowns }
{
    for i in 0..notes.len() {
        let note = &notes[i];
        if same_name(text, &note.0) {
            return note_count(&note.1);
        }
    }
    1
}

/// How many unknown types that row speaks of.
pub fn row_count(around: &Around, e: &Expr) -> Result<usize, AllocError>
    ensures { IfOk result (λ k. k ≡ (row_at (context_of around.now) e.now).unknowns) }
{
    let n = e.args.as_slice().len();
    match &e.op {
        Op::Name(_, _) => Ok(0),
        Op::Bound(_) => Ok(0),
        Op::Noted(text) => Ok(noted_count(text, around.notes.as_slice())),
        _ => type_count(&e.op, e.binds.as_slice(), n),
    }
}
