//! Cells of values by their types, with free literals.

ghost use Rattle.cell_arena.specs.Growth.{Grows};
ghost use Rattle.cell_merge.specs.Sorts.{OfSort, name, number, truth};
ghost use Rattle.snowcat_rows.specs.declared.types.Ty.{Fun, Rec, Seq, Set};
ghost use Rattle.std.specs.Prelude.{◌<◌, ◌≡◌, IfOk, IfSome, None, length, map};
ghost use Rattle.typed_cells.specs.KindSorts.{OfType};
ghost use Rattle.rewriting_tests.specs.OfTypes.{OfTypes};

use crate::given::Freedom;
use cell_arena::{Build, CellId, all_differ};
use function_rewriter::index_of;
use sat_formula::{Lit, Word};
use snowcat_rows::Ty;
use std::alloc::{AllocError, Global};
use tla_values::{List, Text, Value, copy_text, same_text};
use typed_cells::{
    known_number, known_text, known_truth, record_of_fields, sequence_of_cells, tuple_of_cells,
};
use word_blaster::literal;

// What is free of a member or an argument.
fn inside(free: Freedom) -> Freedom {
    match free {
        Freedom::Nothing => Freedom::Nothing,
        Freedom::Lowest => Freedom::Lowest,
        Freedom::Results => Freedom::Nothing,
    }
}

// How many of the lowest bits of a number are free.
fn free_bits(free: Freedom) -> usize {
    match free {
        Freedom::Nothing => 0,
        Freedom::Lowest => 1,
        Freedom::Results => 64,
    }
}

// A free literal, or the known one.
#[tactic(auto, using(cell_arena::proofs::Growing::growing))]
fn literal_of(b: &mut Build, known: Lit, is_free: bool) -> Result<Lit, AllocError>
    requires { known.var < b.old.formula.vars }
    ensures below { IfOk result (λ l. l.var < b.new.formula.vars) }
    ensures grows { Grows b.old b.new }
{
    if !is_free {
        return Ok(known);
    }
    let l = b.formula.fresh()?;
    Ok(l)
}

// Whether a member or an argument is there: a free literal, or `top`.
#[tactic(auto, using(cell_arena::proofs::Growing::growing))]
fn presence(b: &mut Build, free: Freedom) -> Result<Lit, AllocError>
    ensures below { IfOk result (λ l. l.var < b.new.formula.vars) }
    ensures grows { Grows b.old b.new }
{
    let top = b.formula.top();
    let l = literal_of(b, top, free_bits(free) > 0)?;
    Ok(l)
}

#[tactic(auto, using(cell_arena::proofs::Growing::growing))]
fn truth_cell(b: &mut Build, v: &Value, free: Freedom) -> Result<CellId, AllocError>
    ensures sort { IfOk result (OfSort b.new.arena.kinds truth) }
    ensures grows { Grows b.old b.new }
{
    let top = b.formula.top();
    let known = match v {
        Value::Bool(true) => top,
        _ => top.negated(),
    };
    let l = literal_of(b, known, free_bits(free) > 0)?;
    let id = b.bit(l)?;
    Ok(id)
}

// The bits of a number, of which so many of the lowest are free.
#[tactic(auto, using(cell_arena::proofs::Growing::growing))]
fn bits_of(b: &mut Build, n: i128, free: usize) -> Result<Vec<Lit>, AllocError>
    ensures { Grows b.old b.new }
{
    let known = known_bits(b, n)?;
    let mut lits = Vec::new(b.arena.alloc());
    for i in 0..known.lits().len() {
        let l = bit_at(b, &known, i, i < free)?;
        lits.push(l)?;
    }
    Ok(lits)
}

#[tactic(auto, using(cell_arena::proofs::Growing::growing))]
fn known_bits(b: &mut Build, n: i128) -> Result<Word, AllocError>
    ensures { Grows b.old b.new }
{
    let width = b.width();
    let (word, _) = literal(b.arena.alloc(), &mut b.formula, n, width)?;
    Ok(word)
}

#[tactic(auto, using(cell_arena::proofs::Growing::growing))]
fn bit_at(b: &mut Build, known: &Word, place: usize, is_free: bool) -> Result<Lit, AllocError>
    ensures { Grows b.old b.new }
{
    if is_free {
        let l = b.formula.fresh()?;
        return Ok(l);
    }
    match known.lits().get(place) {
        Some(l) => Ok(*l),
        None => Err(AllocError),
    }
}

#[tactic(auto, using(cell_arena::proofs::Growing::growing), unfolding(word_blaster::specs::Word::WordBelow))]
fn number_cell(b: &mut Build, v: &Value, free: Freedom) -> Result<CellId, AllocError>
    ensures sort { IfOk result (OfSort b.new.arena.kinds number) }
    ensures grows { Grows b.old b.new }
{
    let n = match v {
        Value::Int(n) => *n,
        _ => 0,
    };
    let lits = bits_of(b, n, free_bits(free))?;
    let vars = b.formula.vars();
    let count = lits.as_slice().len();
    if count != b.width() as usize || !lits.as_slice().iter().all(|l| l.var < vars) {
        return Err(AllocError);
    }
    let id = b.word(Word::from_vec(lits))?;
    Ok(id)
}

// The text, which is one of the build's.
#[tactic(auto, using(cell_arena::proofs::Growing::growing))]
fn text_cell(b: &mut Build, v: &Value) -> Result<CellId, AllocError>
    ensures sort { IfOk result (OfSort b.new.arena.kinds name) }
    ensures grows { Grows b.old b.new }
{
    let Value::Text(text) = v else {
        return Err(AllocError);
    };
    if index_of(b.texts().as_slice(), text).is_none() {
        return Err(AllocError);
    }
    let id = known_text(b, text)?;
    Ok(id)
}

// A truth value, a number or a text.
#[tactic(auto, using(cell_arena::proofs::Growing::growing))]
fn plain_cell(b: &mut Build, v: &Value, ty: &Ty, free: Freedom) -> Result<CellId, AllocError>
    ensures cell { IfOk result (OfType b.new.arena.kinds ty.now) }
    ensures grows { Grows b.old b.new }
{
    match ty {
        Ty::Bool => {
            let id = truth_cell(b, v, free)?;
            Ok(id)
        }
        Ty::Int => {
            let id = number_cell(b, v, free)?;
            Ok(id)
        }
        Ty::Str | Ty::Named(_) => {
            let id = text_cell(b, v)?;
            Ok(id)
        }
        _ => Err(AllocError),
    }
}

fn field_names(alloc: Global, fields: &[(Text, Ty)]) -> Result<Vec<Text>, AllocError>
    ensures { IfOk result (λ names. names.items ≡ map (λ f. f.0) fields.now) }
{
    let mut names = Vec::new(alloc);
    for field in fields {
        let name = copy_text(alloc, &field.0)?;
        names.push(name)?;
    }
    Ok(names)
}

// A record of these fields.
#[tactic(auto, using(cell_arena::proofs::Growing::growing))]
fn record_cell(b: &mut Build, fields: &[(Text, Ty)], cells: &[CellId]) -> Result<CellId, AllocError>
    requires { OfTypes b.old.arena.kinds (map (λ f. f.1) fields.now) cells.now }
    ensures cell { IfOk result (OfType b.new.arena.kinds (Rec fields.now None)) }
    ensures grows { Grows b.old b.new }
{
    let names = field_names(b.arena.alloc(), fields)?;
    let texts = names.as_slice();
    if !all_differ(texts) {
        return Err(AllocError);
    }
    let id = record_of_fields(b, texts, cells)?;
    Ok(id)
}

// Where the field of this name stands in a record's value.
fn place_of(pairs: &[(Value, Value)], name: &Text) -> Option<usize>
    ensures { IfSome result (λ i. i < length pairs.now) }
{
    for i in 0..pairs.len() {
        if is_text(&pairs[i].0, name) {
            return Some(i);
        }
    }
    None
}

fn is_text(v: &Value, text: &Text) -> bool {
    match v {
        Value::Text(t) => same_text(t, text),
        _ => false,
    }
}

/// A cell of a type: of the value where nothing is free, and else of its form. Of a text, which is one of the build's,
/// and of the length of a sequence nothing is free. Want of memory stands also for a value of another type.
#[cycle(values)]
#[tactic(auto, using(cell_arena::proofs::Growing::growing))]
pub fn value_cell(b: &mut Build, v: &Value, ty: &Ty, free: Freedom) -> Result<CellId, AllocError>
    ensures cell { IfOk result (OfType b.new.arena.kinds ty.now) }
    ensures grows { Grows b.old b.new }
{
    match v {
        Value::Set(members) => match ty {
            Ty::Set(a) => {
                let id = set_cell(b, members.as_slice(), a.get(), free)?;
                Ok(id)
            }
            _ => Err(AllocError),
        },
        Value::Fun(list) => {
            let pairs = list.as_slice();
            match ty {
                Ty::Seq(a) => {
                    let id = sequence_cell(b, pairs, a.get(), free)?;
                    Ok(id)
                }
                Ty::Fun(a, r) => {
                    let id = function_cell(b, pairs, a.get(), r.get(), free)?;
                    Ok(id)
                }
                Ty::Tup(types) => {
                    let cells = item_cells(b, pairs, types.as_slice(), free)?;
                    let id = tuple_of_cells(b, cells)?;
                    Ok(id)
                }
                Ty::Rec(fields, None) => {
                    let cells = field_cells(b, pairs, fields.as_slice(), free)?;
                    let id = record_cell(b, fields.as_slice(), cells.as_slice())?;
                    Ok(id)
                }
                _ => Err(AllocError),
            }
        }
        _ => {
            let id = plain_cell(b, v, ty, free)?;
            Ok(id)
        }
    }
}

#[cycle(values)]
#[tactic(auto, using(cell_arena::proofs::Growing::growing))]
fn set_cell(b: &mut Build, members: &[Value], ty: &Ty, free: Freedom) -> Result<CellId, AllocError>
    ensures cell { IfOk result (OfType b.new.arena.kinds (Set ty.now)) }
    ensures grows { Grows b.old b.new }
{
    let mut edges = Vec::new(b.arena.alloc());
    for i in 0..members.len() {
        let id = value_cell(b, &members[i], ty, inside(free))?;
        let l = presence(b, free)?;
        edges.push((l, id))?;
    }
    let id = b.set(List::from_vec(edges))?;
    Ok(id)
}

#[cycle(values)]
#[tactic(auto, using(cell_arena::proofs::Growing::growing))]
fn function_cell(
    b: &mut Build,
    pairs: &[(Value, Value)],
    from: &Ty,
    to: &Ty,
    free: Freedom,
) -> Result<CellId, AllocError>
    ensures cell { IfOk result (OfType b.new.arena.kinds (Fun from.now to.now)) }
    ensures grows { Grows b.old b.new }
{
    let mut arrows = Vec::new(b.arena.alloc());
    for i in 0..pairs.len() {
        let argument = value_cell(b, &pairs[i].0, from, inside(free))?;
        let value = value_cell(b, &pairs[i].1, to, free)?;
        let l = presence(b, free)?;
        arrows.push((l, argument, value))?;
    }
    let id = b.fun(List::from_vec(arrows))?;
    Ok(id)
}

// The results of a function whose arguments are the numbers from 1 on.
#[cycle(values)]
#[tactic(auto, using(cell_arena::proofs::Growing::growing))]
fn sequence_cell(
    b: &mut Build,
    pairs: &[(Value, Value)],
    ty: &Ty,
    free: Freedom,
) -> Result<CellId, AllocError>
    ensures cell { IfOk result (OfType b.new.arena.kinds (Seq ty.now)) }
    ensures grows { Grows b.old b.new }
{
    let mut cells = Vec::new(b.arena.alloc());
    for i in 0..pairs.len() {
        let id = value_cell(b, &pairs[i].1, ty, free)?;
        cells.push(id)?;
    }
    let id = sequence_of_cells(b, cells)?;
    Ok(id)
}

#[cycle(values)]
#[tactic(auto, using(cell_arena::proofs::Growing::growing))]
fn item_cells(
    b: &mut Build,
    pairs: &[(Value, Value)],
    types: &[Ty],
    free: Freedom,
) -> Result<Vec<CellId>, AllocError>
    ensures cells { IfOk result (λ cs. OfTypes b.new.arena.kinds types.now cs.items) }
    ensures grows { Grows b.old b.new }
{
    let mut cells = Vec::new(b.arena.alloc());
    if pairs.len() != types.len() {
        return Err(AllocError);
    }
    for i in 0..types.len() {
        let id = value_cell(b, &pairs[i].1, &types[i], free)?;
        cells.push(id)?;
    }
    Ok(cells)
}

#[cycle(values)]
#[tactic(auto, using(cell_arena::proofs::Growing::growing))]
fn field_cells(
    b: &mut Build,
    pairs: &[(Value, Value)],
    fields: &[(Text, Ty)],
    free: Freedom,
) -> Result<Vec<CellId>, AllocError>
    ensures cells { IfOk result (λ cs. OfTypes b.new.arena.kinds (map (λ f. f.1) fields.now)
        cs.items) }
    ensures grows { Grows b.old b.new }
{
    let mut cells = Vec::new(b.arena.alloc());
    for i in 0..fields.len() {
        let field = &fields[i];
        let Some(at) = place_of(pairs, &field.0) else {
            return Err(AllocError);
        };
        let id = value_cell(b, &pairs[at].1, &field.1, free)?;
        cells.push(id)?;
    }
    Ok(cells)
}
