//! Members by free choice.

ghost use Rattle.cell_arena.specs.Growth.{Grows};
ghost use Rattle.cell_merge.specs.Picks.{IsSetCell};
ghost use Rattle.form_choices.specs.FormPicks.{HasMemberSort, HasNoMember, PicksMember};
ghost use Rattle.form_choices.specs.inner.Parts.{AreFields, AreFunctions, AreFunctionsOver, HaveMemberSorts};
ghost use Rattle.form_choices.specs.inner.Parts.{HaveNoMembers, PicksEach, PicksFunction, PicksRecord, PicksSubset};
ghost use Rattle.form_choices.specs.inner.Parts.{PicksToNone, PicksTuple, repeated};
ghost use Rattle.std.specs.Prelude.{◌≡◌, IfOk, IfSome, length};

use crate::listing::list_form;
use crate::making::{arguments_of, empty_set, function_from, record_from, tuple_from};
use cell_arena::{Build, CellId};
use cell_merge::pick;
use form_cells::Form;
use function_rewriter::pick_function;
use sat_formula::Lit;
use set_rewriter::pick_subset;
use std::alloc::AllocError;
use tla_values::Text;

/// A cell and a literal: where the literal is true, the value of the cell belongs to the form, and each normal value
/// that belongs to it is its value under some extension of an older assignment. `None` only where nothing belongs to
/// the form under any assignment. From a form in which an infinite set stands not every member is picked, and `None`
/// may be answered. Want of memory is answered for fields of which two have one name.
///
/// What is picked of functions takes one pick for each argument, of records and tuples one for each part. Of `SUBSET F`
/// all members of F are listed.
#[cycle(picks)]
#[tactic(auto, using(cell_arena::proofs::Growing::growing))]
pub fn pick_form(b: &mut Build, form: &Form) -> Result<Option<(CellId, Lit)>, AllocError>
    requires { HasMemberSort b.old.arena.kinds form.now }
    ensures none { IfOk result (λ r. r ≡ None → HasNoMember b.old form.now) }
    ensures picks { IfOk result (λ r. IfSome r (PicksMember b.old b.new form.now)) }
    ensures grows { Grows b.old b.new }
{
    match form {
        Form::Plain(s) => {
            let r = pick(b, *s)?;
            Ok(r)
        }
        Form::Ints | Form::Nats | Form::Texts | Form::Sequences(_) => {
            let r = nothing();
            Ok(r)
        }
        Form::Subsets(members) => {
            let r = pick_some(b, members.get())?;
            Ok(Some(r))
        }
        Form::Functions(s, results) => {
            let r = pick_rule(b, *s, results.get())?;
            Ok(Some(r))
        }
        Form::Records(names, forms) => {
            let r = pick_record(b, names.as_slice(), forms.as_slice())?;
            Ok(r)
        }
        Form::Tuples(forms) => {
            let r = pick_tuple(b, forms.as_slice())?;
            Ok(r)
        }
    }
}

// Of an infinite set nothing is picked.
fn nothing() -> Option<(CellId, Lit)>
    ensures { result ≡ None }
{
    None
}

// A subset of the form's members, which are listed.
#[tactic(auto, using(cell_arena::proofs::Growing::growing))]
fn pick_some(b: &mut Build, form: &Form) -> Result<(CellId, Lit), AllocError>
    requires { HasMemberSort b.old.arena.kinds form.now }
    ensures picks { IfOk result (PicksSubset b.old b.new form.now) }
    ensures grows { Grows b.old b.new }
{
    let set = list_form(b, form)?;
    let id = pick_subset(b, set)?;
    Ok((id, b.formula.top()))
}

// A function from the members of the set to the form.
#[cycle(picks)]
#[tactic(auto, using(cell_arena::proofs::Growing::growing))]
fn pick_rule(b: &mut Build, s: CellId, form: &Form) -> Result<(CellId, Lit), AllocError>
    requires { AreFunctions b.old.arena.kinds s form.now }
    ensures picks { IfOk result (PicksFunction b.old b.new s form.now) }
    ensures grows { Grows b.old b.new }
{
    if let Form::Plain(t) = form {
        let plain = pick_function(b, s, *t)?;
        return Ok(plain);
    }
    let edges = arguments_of(b, s)?;
    let made = pick_over(b, s, edges.as_slice(), form)?;
    Ok(made)
}

// The same over the edges to the members of the set.
#[cycle(picks)]
#[tactic(auto, using(cell_arena::proofs::Growing::growing))]
fn pick_over(
    b: &mut Build,
    s: CellId,
    edges: &[(Lit, CellId)],
    form: &Form,
) -> Result<(CellId, Lit), AllocError>
    requires { AreFunctionsOver b.old s edges.now form.now }
    ensures picks { IfOk result (PicksFunction b.old b.new s form.now) }
    ensures grows { Grows b.old b.new }
{
    let Some(picked) = pick_many(b, edges, form)? else {
        let empty = pick_empty(b, s)?;
        return Ok(empty);
    };
    let (cells, lits) = picked;
    let ids = cells.as_slice();
    let oks = lits.as_slice();
    let made = function_from(b, edges, ids, oks)?;
    Ok(made)
}

// The empty function, where the set has no members.
#[tactic(auto, using(cell_arena::proofs::Growing::growing))]
fn pick_empty(b: &mut Build, s: CellId) -> Result<(CellId, Lit), AllocError>
    requires { IsSetCell b.old s }
    ensures picks { IfOk result (PicksToNone b.old b.new s) }
    ensures grows { Grows b.old b.new }
{
    let none = empty_set(b)?;
    let r = pick_function(b, s, none)?;
    Ok(r)
}

// A record with a member of its form at each name.
#[cycle(picks)]
#[tactic(auto, using(cell_arena::proofs::Growing::growing))]
fn pick_record(
    b: &mut Build,
    names: &[Text],
    forms: &[Form],
) -> Result<Option<(CellId, Lit)>, AllocError>
    requires { AreFields b.old.arena.kinds names.now forms.now }
    ensures none { IfOk result (λ r. r ≡ None → HaveNoMembers b.old forms.now) }
    ensures picks { IfOk result (λ r. IfSome r (PicksRecord b.old b.new names.now forms.now)) }
    ensures grows { Grows b.old b.new }
{
    let Some(picked) = pick_each(b, forms)? else {
        return Ok(None);
    };
    let (cells, lits) = picked;
    let ids = cells.as_slice();
    let oks = lits.as_slice();
    let r = record_from(b, names, ids, oks)?;
    Ok(Some(r))
}

// A tuple with a member of its form at each place.
#[cycle(picks)]
#[tactic(auto, using(cell_arena::proofs::Growing::growing))]
fn pick_tuple(b: &mut Build, forms: &[Form]) -> Result<Option<(CellId, Lit)>, AllocError>
    requires { HaveMemberSorts b.old.arena.kinds forms.now }
    ensures none { IfOk result (λ r. r ≡ None → HaveNoMembers b.old forms.now) }
    ensures picks { IfOk result (λ r. IfSome r (PicksTuple b.old b.new forms.now)) }
    ensures grows { Grows b.old b.new }
{
    let Some(picked) = pick_each(b, forms)? else {
        return Ok(None);
    };
    let (cells, lits) = picked;
    let oks = lits.as_slice();
    let r = tuple_from(b, cells, oks)?;
    Ok(Some(r))
}

// A member of each of the forms.
#[cycle(picks)]
#[tactic(auto, using(cell_arena::proofs::Growing::growing))]
fn pick_each(b: &mut Build, forms: &[Form]) -> Result<Option<(Vec<CellId>, Vec<Lit>)>, AllocError>
    requires { HaveMemberSorts b.old.arena.kinds forms.now }
    ensures none { IfOk result (λ r. r ≡ None → HaveNoMembers b.old forms.now) }
    ensures picks { IfOk result (λ r. IfSome r (λ p. PicksEach b.old b.new forms.now p.0.items p.1.items)) }
    ensures grows { Grows b.old b.new }
{
    let mut cells = Vec::new(b.arena.alloc());
    let mut lits = Vec::new(b.arena.alloc());
    for i in 0..forms.len() {
        let Some(picked) = pick_form(b, &forms[i])? else {
            return Ok(None);
        };
        cells.push(picked.0)?;
        lits.push(picked.1)?;
    }
    Ok(Some((cells, lits)))
}

// A member of the form for each of the edges.
#[cycle(picks)]
#[tactic(auto, using(cell_arena::proofs::Growing::growing))]
fn pick_many(
    b: &mut Build,
    edges: &[(Lit, CellId)],
    form: &Form,
) -> Result<Option<(Vec<CellId>, Vec<Lit>)>, AllocError>
    requires { HasMemberSort b.old.arena.kinds form.now }
    ensures none { IfOk result (λ r. r ≡ None → HasNoMember b.old form.now) }
    ensures picks { IfOk result (λ r. IfSome r (λ p.
        PicksEach b.old b.new (repeated (length edges.now) form.now) p.0.items p.1.items)) }
    ensures grows { Grows b.old b.new }
{
    let mut cells = Vec::new(b.arena.alloc());
    let mut lits = Vec::new(b.arena.alloc());
    for _i in 0..edges.len() {
        let Some(picked) = pick_form(b, form)? else {
            return Ok(None);
        };
        cells.push(picked.0)?;
        lits.push(picked.1)?;
    }
    Ok(Some((cells, lits)))
}
