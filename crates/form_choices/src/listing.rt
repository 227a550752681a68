//! The members of forms as sets of cells.

ghost use Rattle.cell_arena.specs.Growth.{Grows};
ghost use Rattle.form_choices.specs.FormPicks.{HasMemberSort};
ghost use Rattle.form_choices.specs.inner.Parts.{AreFields, HaveMemberSorts};
ghost use Rattle.form_choices.specs.inner.Parts.{ListsEach, ListsForm, ListsRecords, ListsTuples};
ghost use Rattle.std.specs.Prelude.{IfOk};

use crate::making::empty_set;
use cell_arena::{Build, CellId, all_differ};
use form_cells::Form;
use function_rewriter::functions;
use member_choices::{records, tuples};
use set_rewriter::subsets;
use std::alloc::AllocError;
use tla_values::Text;

/// The set of the members of the form, if no infinite set stands in it. Want of memory is answered for fields of which
/// two have one name. Of n members of F, `SUBSET F` takes 2^n cells.
#[cycle(lists)]
#[tactic(auto, using(cell_arena::proofs::Growing::growing))]
pub(crate) fn list_form(b: &mut Build, form: &Form) -> Result<CellId, AllocError>
    requires { HasMemberSort b.old.arena.kinds form.now }
    ensures lists { IfOk result (ListsForm b.old b.new form.now) }
    ensures grows { Grows b.old b.new }
{
    match form {
        Form::Plain(s) => Ok(*s),
        Form::Ints | Form::Nats | Form::Texts | Form::Sequences(_) => {
            let none = empty_set(b)?;
            Ok(none)
        }
        Form::Subsets(members) => {
            let set = list_form(b, members.get())?;
            let id = subsets(b, set)?;
            Ok(id)
        }
        Form::Functions(s, results) => {
            let set = list_form(b, results.get())?;
            let id = functions(b, *s, set)?;
            Ok(id)
        }
        Form::Records(names, forms) => {
            let id = list_records(b, names.as_slice(), forms.as_slice())?;
            Ok(id)
        }
        Form::Tuples(forms) => {
            let id = list_tuples(b, forms.as_slice())?;
            Ok(id)
        }
    }
}

// The set of the records that have at each name a member of its form.
#[cycle(lists)]
#[tactic(auto, using(cell_arena::proofs::Growing::growing))]
fn list_records(b: &mut Build, names: &[Text], forms: &[Form]) -> Result<CellId, AllocError>
    requires { AreFields b.old.arena.kinds names.now forms.now }
    ensures lists { IfOk result (ListsRecords b.old b.new names.now forms.now) }
    ensures grows { Grows b.old b.new }
{
    if !all_differ(names) {
        return Err(AllocError);
    }
    let sets = list_each(b, forms)?;
    let all = records(b, names, sets.as_slice())?;
    Ok(all.cell)
}

// The set of the tuples that have at each place a member of its form.
#[cycle(lists)]
#[tactic(auto, using(cell_arena::proofs::Growing::growing))]
fn list_tuples(b: &mut Build, forms: &[Form]) -> Result<CellId, AllocError>
    requires { HaveMemberSorts b.old.arena.kinds forms.now }
    ensures lists { IfOk result (ListsTuples b.old b.new forms.now) }
    ensures grows { Grows b.old b.new }
{
    let sets = list_each(b, forms)?;
    let all = tuples(b, sets.as_slice())?;
    Ok(all.cell)
}

// The sets of the members of the forms.
#[cycle(lists)]
#[tactic(auto, using(cell_arena::proofs::Growing::growing))]
fn list_each(b: &mut Build, forms: &[Form]) -> Result<Vec<CellId>, AllocError>
    requires { HaveMemberSorts b.old.arena.kinds forms.now }
    ensures lists { IfOk result (λ ids. ListsEach b.old b.new forms.now ids.items) }
    ensures grows { Grows b.old b.new }
{
    let mut sets = Vec::new(b.arena.alloc());
    for i in 0..forms.len() {
        let set = list_form(b, &forms[i])?;
        sets.push(set)?;
    }
    Ok(sets)
}
