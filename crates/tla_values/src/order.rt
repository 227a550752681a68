// The order of values.
ghost use Rattle.std.specs.Prelude.{◌≡◌, ◌⊎◌, ◌↔◌, IsTrue, map};
ghost use Rattle.std.specs.declared.cmp.Ordering.TheVariants.{Equal};
ghost use Rattle.tla_values.specs.Order.{IsAtMost, same_value, value_cmp, items_cmp, pairs_cmp};
ghost use Rattle.tla_values.specs.declared.value.Value.{Value};

use crate::value::Value;
use std::cmp::Ordering;

/// The order of two values, which is total: truth values, numbers, texts, sets, functions; FALSE before TRUE, numbers
/// by size, texts by bytes, sets and functions as lists, a proper prefix first. Equal exactly for equal values.
pub fn cmp_values(a: &Value, b: &Value) -> Ordering
    ensures order { result ≡ value_cmp a.now b.now }
    ensures equal { (result ≡ Equal) ↔ (a.now ≡ b.now) }
{
    compare(a, b)
}

/// The laws of the order of values: it is total, reflexive, antisymmetric and transitive. It does nothing.
pub fn order_is_total()
    ensures total { (a b : Value) → IsAtMost a b ⊎ IsAtMost b a }
    ensures antisymmetric { (a b : Value) → IsAtMost a b → IsAtMost b a → a ≡ b }
    ensures transitive { (a b c : Value) → IsAtMost a b → IsAtMost b c → IsAtMost a c }
{}

#[cycle(cmp)]
pub(crate) fn compare(a: &Value, b: &Value) -> Ordering
    ensures { result ≡ value_cmp a.now b.now }
{
    match a {
        Value::Bool(x) => match b {
            Value::Bool(y) => x.cmp(y),
            _ => Ordering::Less,
        },
        Value::Int(x) => match b {
            Value::Bool(_) => Ordering::Greater,
            Value::Int(y) => x.cmp(y),
            _ => Ordering::Less,
        },
        Value::Text(x) => match b {
            Value::Text(y) => x.bytes().cmp(y.bytes()),
            Value::Set(_) => Ordering::Less,
            Value::Fun(_) => Ordering::Less,
            _ => Ordering::Greater,
        },
        Value::Set(xs) => match b {
            Value::Set(ys) => cmp_items(xs.as_slice(), ys.as_slice()),
            Value::Fun(_) => Ordering::Less,
            _ => Ordering::Greater,
        },
        Value::Fun(ps) => match b {
            Value::Fun(qs) => cmp_pairs(ps.as_slice(), qs.as_slice()),
            _ => Ordering::Greater,
        },
    }
}

// Lists of values item by item, a proper prefix first.
#[cycle(cmp)]
fn cmp_items(a: &[Value], b: &[Value]) -> Ordering
    ensures { result ≡ items_cmp (map value_cmp a.now) b.now }
{
    for i in 0..a.len() {
        if i >= b.len() {
            return Ordering::Greater;
        }
        let order = compare(&a[i], &b[i]);
        if order != Ordering::Equal {
            return order;
        }
    }
    if a.len() < b.len() {
        Ordering::Less
    } else {
        Ordering::Equal
    }
}

// Lists of pairs, each by argument, then value.
#[cycle(cmp)]
fn cmp_pairs(a: &[(Value, Value)], b: &[(Value, Value)]) -> Ordering
    ensures { result ≡ pairs_cmp (map (λ p. (value_cmp p.0, value_cmp p.1)) a.now) b.now }
{
    for i in 0..a.len() {
        if i >= b.len() {
            return Ordering::Greater;
        }
        let order = compare(&a[i].0, &b[i].0).then(compare(&a[i].1, &b[i].1));
        if order != Ordering::Equal {
            return order;
        }
    }
    if a.len() < b.len() {
        Ordering::Less
    } else {
        Ordering::Equal
    }
}

/// Whether the values are equal.
pub fn same_value(a: &Value, b: &Value) -> bool
    ensures test { result ≡ same_value a.now b.now }
    ensures equal { IsTrue result ↔ (a.now ≡ b.now) }
{
    cmp_values(a, b).is_eq()
}
