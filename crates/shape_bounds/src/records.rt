// Shapes of records and tuples.
ghost use Rattle.std.specs.Prelude.{ℕ, ◌≡◌, IfOk, OnOk, map};
ghost use Rattle.std.specs.Ordering.{is_lt};
ghost use Rattle.tla_values.specs.Order.{text_cmp};
ghost use Rattle.kernel_shapes.specs.Codes.{mean};
ghost use Rattle.kernel_shapes.specs.Rows.{a_record, insides, no_literal, product_of, put_field, the_records, the_tuples};
ghost use Rattle.shape_bounds.specs.Kept.{kept};
ghost use Rattle.shape_bounds.specs.inner.Table.{IsPlace, fields_of, row_kept};

use crate::making::set;
use crate::numbers::product;
use crate::parts::{copy_part, count, inside};
use kernel_shapes::{Shape, copy_shape};
use std::alloc::{AllocError, Global};
use std::cmp::Ordering;
use tla_values::{List, Text, copy_text};

// A record with a value for each name; its fields stand in the order of their bytes.
pub(crate) fn record(alloc: Global, names: &[Text], values: &[Shape]) -> Result<Shape, AllocError>
    ensures { IfOk result (λ r. (w : ℕ) → mean r
        ≡ row_kept w (a_record names.now) no_literal (map mean values.now)) }
{
    if names.len() != values.len() {
        return Err(AllocError);
    }
    let mut fields = Vec::new(alloc);
    for i in (0..names.len()).rev() {
        let name = copy_text(alloc, &names[i])?;
        let value = copy_shape(alloc, &values[i])?;
        put_field(&mut fields, name, value)?;
    }
    Ok(Shape::Rec(List::from_vec(fields)))
}

fn put_field(fields: &mut Vec<(Text, Shape)>, name: Text, value: Shape) -> Result<(), AllocError>
    ensures { OnOk result (fields_of fields.new.items
        ≡ put_field name (mean value) (fields_of fields.old.items)) }
{
    let at = place_of(fields.as_slice(), &name);
    fields.insert(at, (name, value))?;
    Ok(())
}

// Whether a name comes before another in the order of bytes.
fn is_before(x: &Text, y: &Text) -> bool
    ensures { result ≡ is_lt (text_cmp x.now y.now) }
{
    x.bytes().cmp(y.bytes()) == Ordering::Less
}

// Where a field of this name is put: before the first whose name is greater.
fn place_of(fields: &[(Text, Shape)], name: &Text) -> usize
    ensures { IsPlace name.now fields.now result }
{
    for i in 0..fields.len() {
        if is_before(name, &fields[i].0) {
            return i;
        }
    }
    fields.len()
}

// The shapes of the members of each set.
pub(crate) fn insides(alloc: Global, sets: &[Shape]) -> Result<Vec<Shape>, AllocError>
    ensures { IfOk result (λ r. map mean r.items ≡ insides (map mean sets.now)) }
{
    let mut members = Vec::new(alloc);
    for set in sets {
        let member = copy_part(alloc, inside(set))?;
        members.push(member)?;
    }
    Ok(members)
}

// In how many ways one member of each set is taken.
pub(crate) fn product_of(sets: &[Shape]) -> u64
    ensures { result ≡ kept (product_of (map mean sets.now)) }
{
    let mut number = 1;
    for i in (0..sets.len()).rev() {
        number = product(count(&sets[i]), number);
    }
    number
}

// All records with a member of a set for each name.
pub(crate) fn records(alloc: Global, names: &[Text], sets: &[Shape]) -> Result<Shape, AllocError>
    ensures { IfOk result (λ r. (w : ℕ) → mean r
        ≡ row_kept w (the_records names.now) no_literal (map mean sets.now)) }
{
    let members = insides(alloc, sets)?;
    let member = record(alloc, names, members.as_slice())?;
    set(alloc, product_of(sets), member)
}

// All tuples of a member of each set.
pub(crate) fn tuples(alloc: Global, sets: &[Shape]) -> Result<Shape, AllocError>
    ensures { IfOk result (λ r. (w : ℕ) → mean r
        ≡ row_kept w the_tuples no_literal (map mean sets.now)) }
{
    let members = insides(alloc, sets)?;
    set(alloc, product_of(sets), Shape::Tup(List::from_vec(members)))
}
