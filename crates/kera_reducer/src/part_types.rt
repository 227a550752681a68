// The types of what stands at an index of a value.
ghost use Rattle.std.specs.Prelude.{◌≡◌, ℕ, IfOk, Option, Some};
ghost use Rattle.tla_values.specs.Order.{Layer};
ghost use Rattle.tla_values.specs.declared.value.Value.{Value, out-Value};
ghost use Rattle.tla_values.specs.declared.value.Value.TheOpen.{Int as int_layer};
ghost use Rattle.snowcat_rows.specs.declared.types.Ty.{out-Ty};
ghost use Rattle.snowcat_rows.specs.declared.types.Ty.TheOpen.{Rec as record_layer, Tup as tuple_layer};
ghost use Rattle.kernel_reduction.specs.Making.{field_type, part_at, part_type};

use kernel_trees::KerOp;
use snowcat_rows::{Ty, copy_type};
use std::alloc::{AllocError, Global};
use tla_values::{Text, Value, same_text};

// Of an item, by its number from 1.
fn item_type(alloc: Global, items: &[Ty], number: i128) -> Result<Ty, AllocError>
    ensures { IfOk result (λ t. part_at (tuple_layer items.now) (int_layer number) ≡ Some t) }
{
    if number < 1 || (items.len() as i128) < number {
        return Err(AllocError);
    }
    copy_type(alloc, &items[number as usize - 1])
}

// Of the first field of a name.
fn field_type(alloc: Global, fields: &[(Text, Ty)], name: &Text) -> Result<Ty, AllocError>
    ensures { IfOk result (λ t. field_type fields.now name.now ≡ Some t) }
{
    for field in fields {
        if same_text(name, &field.0) {
            return copy_type(alloc, &field.1);
        }
    }
    Err(AllocError)
}

// Of what stands at a literal in a tuple of items of these types.
fn tuple_part(alloc: Global, items: &[Ty], index: &Value) -> Result<Ty, AllocError>
    ensures { IfOk result (λ t. part_at (tuple_layer items.now) (out-Value index.now) ≡ Some t) }
{
    match index {
        Value::Int(number) => item_type(alloc, items, *number),
        _ => Err(AllocError),
    }
}

// Of what stands at a literal in a record of these fields.
fn record_part(alloc: Global, fields: &[(Text, Ty)], index: &Value) -> Result<Ty, AllocError>
    ensures { (r : Option ℕ) → IfOk result (λ t. part_at (record_layer fields.now r) (out-Value index.now) ≡ Some t) }
{
    match index {
        Value::Text(name) => field_type(alloc, fields, name),
        _ => Err(AllocError),
    }
}

// Of what stands at any index of a function or a sequence.
fn value_part(alloc: Global, ty: &Ty) -> Result<Ty, AllocError>
    ensures { (v : Layer Value) → IfOk result (λ t. part_at (out-Ty ty.now) v ≡ Some t) }
{
    match ty {
        Ty::Fun(_, value) => copy_type(alloc, value.get()),
        Ty::Seq(item) => copy_type(alloc, item.get()),
        _ => Err(AllocError),
    }
}

// Of what stands at a literal.
fn literal_part(alloc: Global, ty: &Ty, index: &Value) -> Result<Ty, AllocError>
    ensures { IfOk result (λ t. part_at (out-Ty ty.now) (out-Value index.now) ≡ Some t) }
{
    match ty {
        Ty::Tup(items) => tuple_part(alloc, items.as_slice(), index),
        Ty::Rec(fields, _) => record_part(alloc, fields.as_slice(), index),
        _ => value_part(alloc, ty),
    }
}

/// The type of what stands at an index of a value of a type; of a tuple and a record at a literal alone.
pub(crate) fn part_type(alloc: Global, ty: &Ty, index: &KerOp) -> Result<Ty, AllocError>
    ensures { IfOk result (λ t. part_type ty.now index.now ≡ Some t) }
{
    match index {
        KerOp::Const(value) => literal_part(alloc, ty, value),
        _ => value_part(alloc, ty),
    }
}
