//! The default of each type as a cell.

ghost use Rattle.cell_arena.specs.Growth.{Grows};
ghost use Rattle.std.specs.Prelude.{◌≡◌, [], IfOk, map};
ghost use Rattle.typed_cells.specs.Defaults.{IsDefault};
ghost use Rattle.typed_cells.specs.KindSorts.{OfType};
ghost use Rattle.typed_cells.specs.Known.{IsTextAmong};
ghost use Rattle.typed_cells.specs.inner.Defaulted.{AreDefaults};

use crate::composites::{record_of_fields, sequence_of_cells, tuple_of_cells};
use crate::constants::{known_number, known_text, known_truth};
use crate::edge_sets::set_of_edges;
use cell_arena::{Build, CellId, all_differ};
use snowcat_rows::Ty;
use std::alloc::{AllocError, Global};
use tla_values::{List, Text, copy_text};

// The default of a type that is no tuple and no record.
#[tactic(auto, using(cell_arena::proofs::Growing::growing))]
fn plain_cell(b: &mut Build, ty: &Ty) -> Result<CellId, AllocError>
    requires { IsTextAmong b.old.arena.texts [] }
    ensures cell { IfOk result (OfType b.new.arena.kinds ty.now) }
    ensures value { IfOk result (IsDefault b.new ty.now) }
    ensures grows { Grows b.old b.new }
{
    let alloc = b.arena.alloc();
    match ty {
        Ty::Bool => {
            let id = known_truth(b, false)?;
            Ok(id)
        }
        Ty::Int => {
            let (id, _) = known_number(b, 0)?;
            Ok(id)
        }
        Ty::Str | Ty::Named(_) => {
            let id = known_text(b, &Text::from_vec(Vec::new(alloc)))?;
            Ok(id)
        }
        Ty::Set(_) => {
            let id = set_of_edges(b, Vec::new(alloc))?;
            Ok(id)
        }
        Ty::Seq(_) => {
            let id = sequence_of_cells(b, Vec::new(alloc))?;
            Ok(id)
        }
        Ty::Fun(_, _) => {
            let id = b.fun(List::new(alloc))?;
            Ok(id)
        }
        Ty::Var(_) | Ty::Oper(_, _) | Ty::Tup(_) | Ty::Rec(_, _) => Err(AllocError),
    }
}

// The names of fields.
fn field_names(alloc: Global, fields: &[(Text, Ty)]) -> Result<Vec<Text>, AllocError>
    ensures { IfOk result (λ names. names.items ≡ map (λ f. f.0) fields.now) }
{
    let mut names = Vec::new(alloc);
    for field in fields {
        let name = copy_text(alloc, &field.0)?;
        names.push(name)?;
    }
    Ok(names)
}

/// The default of a type as a cell of its sort, for where there is no value: FALSE, 0, the empty text,
/// set, function or sequence, and for a tuple or record the defaults of its parts. The empty text is
/// one of the build's. Want of memory is answered for a type without a kind: one with a variable, an
/// open record, one that has a name twice, or an operator's. It adds nothing to the formula.
#[cycle(defaults)]
#[tactic(auto, using(cell_arena::proofs::Growing::growing))]
pub fn default_cell(b: &mut Build, ty: &Ty) -> Result<CellId, AllocError>
    requires { IsTextAmong b.old.arena.texts [] }
    ensures cell { IfOk result (OfType b.new.arena.kinds ty.now) }
    ensures value { IfOk result (IsDefault b.new ty.now) }
    ensures grows { Grows b.old b.new }
{
    match ty {
        Ty::Tup(types) => {
            let cells = item_cells(b, types.as_slice())?;
            let id = tuple_of_cells(b, cells)?;
            Ok(id)
        }
        Ty::Rec(fields, rest) => match rest {
            Some(_) => Err(AllocError),
            None => {
                let list = fields.as_slice();
                let names = field_names(b.arena.alloc(), list)?;
                let texts = names.as_slice();
                if !all_differ(texts) {
                    return Err(AllocError);
                }
                let cells = field_cells(b, list)?;
                let parts = cells.as_slice();
                let id = record_of_fields(b, texts, parts)?;
                Ok(id)
            }
        },
        _ => {
            let id = plain_cell(b, ty)?;
            Ok(id)
        }
    }
}

// The default of each type.
#[cycle(defaults)]
#[tactic(auto, using(cell_arena::proofs::Growing::growing))]
fn item_cells(b: &mut Build, types: &[Ty]) -> Result<Vec<CellId>, AllocError>
    requires { IsTextAmong b.old.arena.texts [] }
    ensures cells { IfOk result (λ cs. AreDefaults b.new types.now cs.items) }
    ensures grows { Grows b.old b.new }
{
    let mut cells = Vec::new(b.arena.alloc());
    for i in 0..types.len() {
        let id = default_cell(b, &types[i])?;
        cells.push(id)?;
    }
    Ok(cells)
}

// The default of the type of each field.
#[cycle(defaults)]
#[tactic(auto, using(cell_arena::proofs::Growing::growing))]
fn field_cells(b: &mut Build, fields: &[(Text, Ty)]) -> Result<Vec<CellId>, AllocError>
    requires { IsTextAmong b.old.arena.texts [] }
    ensures cells { IfOk result (λ cs. AreDefaults b.new (map (λ f. f.1) fields.now) cs.items) }
    ensures grows { Grows b.old b.new }
{
    let mut cells = Vec::new(b.arena.alloc());
    for i in 0..fields.len() {
        let field = &fields[i];
        let id = default_cell(b, &field.1)?;
        cells.push(id)?;
    }
    Ok(cells)
}
