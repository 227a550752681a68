//! The sets of tuples and of records.

ghost use Rattle.cell_arena.specs.Cells.{AllDiffer};
ghost use Rattle.cell_arena.specs.Growth.{Grows};
ghost use Rattle.cell_merge.specs.Picks.{IsSetCell};
ghost use Rattle.member_choices.specs.Binders.{MakesProduct, fields_sort};
ghost use Rattle.member_choices.specs.inner.Tests.{AreWholes, ChoicesOfCount, ChoicesOver, MakesOfChoices};
ghost use Rattle.std.specs.Prelude.{◌≡◌, All, IfOk, length};
ghost use Rattle.tla_meaning.specs.Shapes.{record_of, sequence};
ghost use Rattle.tla_meaning.specs.declared.op.Op.TheVariants as op;
ghost use Rattle.typed_cells.specs.KindSorts.{tuple_sort};

use crate::choice::Choice;
use crate::edges::set_of_cells;
use crate::listing::choices;
use crate::wholes::wholes;
use cell_arena::{Build, CellId};
use outcome_cells::{Cells, sure};
use std::alloc::AllocError;
use tla_values::Text;
use typed_cells::record_of_fields;

// The set of the tuples of the choices.
#[tactic(auto, using(cell_arena::proofs::Growing::growing))]
fn tuples_of(b: &mut Build, cs: &[Choice]) -> Result<CellId, AllocError>
    requires { ChoicesOver b.old cs.now }
    ensures makes { IfOk result (MakesOfChoices b.old b.new sequence tuple_sort cs.now) }
    ensures grows { Grows b.old b.new }
{
    let ids = wholes(b, cs, false)?;
    let id = set_of_cells(b, cs, ids.as_slice())?;
    Ok(id)
}

/// `S \X T`: the set of the tuples of members of the sets, with one edge for those that are alike. Of no set it is
/// the set of the tuple without parts.
#[tactic(auto, using(cell_arena::proofs::Growing::growing))]
pub fn tuples(b: &mut Build, sets: &[CellId]) -> Result<Cells, AllocError>
    requires { All (IsSetCell b.old) sets.now }
    ensures makes { IfOk result (MakesProduct b.old b.new op.Product tuple_sort sets.now) }
    ensures grows { Grows b.old b.new }
{
    let cs = choices(b, sets)?;
    let id = tuples_of(b, cs.as_slice())?;
    Ok(sure(b, id))
}

// The record of each choice, whose cells are those of the names.
#[tactic(auto, using(cell_arena::proofs::Growing::growing))]
fn record_cells(b: &mut Build, names: &[Text], cs: &[Choice]) -> Result<Vec<CellId>, AllocError>
    requires differ { AllDiffer names.now }
    requires choices { ChoicesOfCount b.old (length names.now) cs.now }
    ensures wholes { IfOk result (λ ids.
        AreWholes b.old b.new (record_of names.now) (fields_sort names.now) cs.now (length cs.now) ids.items) }
    ensures grows { Grows b.old b.new }
{
    let mut out = Vec::new(b.arena.alloc());
    for i in 0..cs.len() {
        let id = record_of_fields(b, names, cs[i].cells.as_slice())?;
        out.push(id)?;
    }
    Ok(out)
}

// The set of the records of the choices.
#[tactic(auto, using(cell_arena::proofs::Growing::growing))]
fn records_of(b: &mut Build, names: &[Text], cs: &[Choice]) -> Result<CellId, AllocError>
    requires differ { AllDiffer names.now }
    requires choices { ChoicesOfCount b.old (length names.now) cs.now }
    ensures makes { IfOk result (MakesOfChoices b.old b.new (record_of names.now) (fields_sort names.now) cs.now) }
    ensures grows { Grows b.old b.new }
{
    let ids = record_cells(b, names, cs)?;
    let id = set_of_cells(b, cs, ids.as_slice())?;
    Ok(id)
}

/// `[a: S, b: T]`: the set of the records that have at each name a member of its set, with one edge for those that are
/// alike. The names differ. Of no name it is the set of the record without fields.
#[tactic(auto, using(cell_arena::proofs::Growing::growing))]
pub fn records(b: &mut Build, names: &[Text], sets: &[CellId]) -> Result<Cells, AllocError>
    requires sets { All (IsSetCell b.old) sets.now }
    requires differ { AllDiffer names.now }
    requires one_each { length sets.now ≡ length names.now }
    ensures makes { IfOk result (MakesProduct b.old b.new (op.RecSet names.now) (fields_sort names.now) sets.now) }
    ensures grows { Grows b.old b.new }
{
    let cs = choices(b, sets)?;
    let id = records_of(b, names, cs.as_slice())?;
    Ok(sure(b, id))
}
