// Updates at an index, and which right sides go on along a path of indexes.
ghost use Rattle.std.specs.Prelude.{[], ◌∷◌, ◌≡◌, IfOk, map};
ghost use Rattle.tla_meaning.specs.Symbols.{same_place};
ghost use Rattle.kernel_shapes.specs.Codes.{mean};
ghost use Rattle.kernel_shapes.specs.Rows.{joined_at};
ghost use Rattle.shape_bounds.specs.inner.Joined.{IsJoinedAt, joined_one};
ghost use Rattle.shape_bounds.specs.inner.Table.{literal};
ghost use Rattle.shape_bounds.specs.inner.Updated.{IsFieldAt, IsItemAt, begins_with, goes_on, is_number, is_update};

use crate::joins::join;
use crate::making::{function, sequence};
use crate::parts::Literal;
use kernel_shapes::{Shape, copy_shape};
use kernel_trees::{Ker, KerOp};
use std::alloc::{AllocError, Global};
use tla_meaning::Place;
use tla_values::{List, Text, copy_text, same_text};

type Field = (Text, Shape);

// Whether the right side of an update that binds a number goes on along its path: whether it is an update at the same
// place of what the number stands for.
pub(crate) fn goes_on(place: Place, number: u32, right: &Ker) -> bool
    ensures { result ≡ goes_on place number right.now }
{
    is_update(&right.op)
        && same_place(place, right.place)
        && begins_with(number, right.args.as_slice())
}

fn is_update(op: &KerOp) -> bool
    ensures { result ≡ is_update op.now }
{
    match op {
        KerOp::Update => true,
        _ => false,
    }
}

fn same_place(p: Place, q: Place) -> bool
    ensures { result ≡ same_place p q }
{
    p.file == q.file && p.line == q.line && p.col == q.col
}

fn begins_with(number: u32, ks: &[Ker]) -> bool
    ensures { result ≡ begins_with number ks.now }
{
    match ks {
        [] => false,
        [k, ..] => is_number(number, &k.op),
    }
}

fn is_number(number: u32, op: &KerOp) -> bool
    ensures { result ≡ is_number number op.now }
{
    match op {
        KerOp::Bound(n) => *n == number,
        _ => false,
    }
}

// A shape that is joined with a new one at an index.
pub(crate) fn joined_at(
    alloc: Global,
    whole: &Shape,
    index: Literal,
    new: &Shape,
) -> Result<Shape, AllocError>
    ensures { IfOk result (λ r. mean r
        ≡ joined_at (literal index.entry ∷ []) (mean new.now) (mean whole.now)) }
{
    match whole {
        Shape::Fun(n, argument, value) => {
            let argument = copy_shape(alloc, argument.get())?;
            function(alloc, *n, argument, join(alloc, value.get(), new)?)
        }
        Shape::Seq(n, item) => sequence(alloc, *n, join(alloc, item.get(), new)?),
        Shape::Tup(items) => match index {
            Literal::Number(n) => {
                let place = item_place(n, items.as_slice().len());
                let items = join_item(alloc, items.as_slice(), place, new)?;
                Ok(Shape::Tup(items))
            }
            Literal::None | Literal::Text(_) => copy_shape(alloc, whole),
        },
        Shape::Rec(fields) => match index {
            Literal::Text(name) => {
                let place = field_place(fields.as_slice(), name);
                let fields = join_field(alloc, fields.as_slice(), place, new)?;
                Ok(Shape::Rec(fields))
            }
            Literal::None | Literal::Number(_) => copy_shape(alloc, whole),
        },
        Shape::Atom | Shape::Num(..) | Shape::Set(..) | Shape::Empty => copy_shape(alloc, whole),
    }
}

// The place of an item from 0, by its number from 1; of none it is how many items there are.
fn item_place(number: i128, items: usize) -> usize
    ensures { IsItemAt number items result }
{
    if number < 1 || number > items as i128 {
        return items;
    }
    number.unsigned_abs() as usize - 1
}

// The place of the first field of this name; of none it is how many fields there are.
fn field_place(fields: &[Field], name: &Text) -> usize
    ensures { IsFieldAt name.now fields.now result }
{
    for i in 0..fields.len() {
        if same_text(name, &fields[i].0) {
            return i;
        }
    }
    fields.len()
}

// Items, of which the one at a place is joined with a shape.
fn join_item(
    alloc: Global,
    items: &[Shape],
    place: usize,
    new: &Shape,
) -> Result<List<Shape>, AllocError>
    ensures { IfOk result (λ r. map mean r ≡ joined_one place (mean new.now) (map mean items.now)) }
{
    let mut joined = Vec::new(alloc);
    for i in 0..items.len() {
        let old = &items[i];
        if i == place {
            let item = join(alloc, old, new)?;
            joined.push(item)?;
        } else {
            let item = copy_shape(alloc, old)?;
            joined.push(item)?;
        }
    }
    Ok(List::from_vec(joined))
}

// The same of fields.
fn join_field(
    alloc: Global,
    fields: &[Field],
    place: usize,
    new: &Shape,
) -> Result<List<Field>, AllocError>
    ensures { IfOk result (λ r. IsJoinedAt place (mean new.now) fields.now r) }
{
    let mut joined = Vec::new(alloc);
    for i in 0..fields.len() {
        let old = &fields[i];
        let name = copy_text(alloc, &old.0)?;
        if i == place {
            let item = join(alloc, &old.1, new)?;
            joined.push((name, item))?;
        } else {
            let item = copy_shape(alloc, &old.1)?;
            joined.push((name, item))?;
        }
    }
    Ok(List::from_vec(joined))
}
