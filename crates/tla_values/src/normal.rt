// The test of normal values.
ghost use Rattle.std.specs.List.{All};
ghost use Rattle.std.specs.Prelude.{◌≡◌, ◌↔◌, IsTrue};
ghost use Rattle.tla_values.specs.Sets.{Normal, arguments, increasing};

use crate::list::List;
use crate::order::compare;
use crate::value::Value;
use std::cmp::Ordering;

/// Whether the value is normal: in it and in everything within it each set is strictly increasing and each function
/// has strictly increasing arguments. Takes no memory.
#[cycle(normal)]
pub fn is_normal(v: &Value) -> bool
    ensures { IsTrue result ↔ Normal v.now }
{
    match v {
        Value::Bool(_) => true,
        Value::Int(_) => true,
        Value::Text(_) => true,
        Value::Set(members) => is_normal_set(members.as_slice()),
        Value::Fun(pairs) => is_normal_function(pairs.as_slice()),
    }
}

/// Whether the list is a normal set: strictly increasing, with normal members. Takes no memory.
pub fn is_set(members: &List<Value>) -> bool
    ensures { IsTrue result ↔ Normal (Value.Set members.now) }
{
    is_normal_set(members.as_slice())
}

/// Whether the list is a normal function: with strictly increasing arguments, all parts normal. Takes no memory.
pub fn is_function(pairs: &List<(Value, Value)>) -> bool
    ensures { IsTrue result ↔ Normal (Value.Fun pairs.now) }
{
    is_normal_function(pairs.as_slice())
}

#[cycle(normal)]
fn is_normal_set(members: &[Value]) -> bool
    ensures { IsTrue result ↔ Normal (Value.Set members.now) }
{
    are_increasing(members) && are_normal(members)
}

#[cycle(normal)]
fn is_normal_function(pairs: &[(Value, Value)]) -> bool
    ensures { IsTrue result ↔ Normal (Value.Fun pairs.now) }
{
    have_increasing_arguments(pairs) && are_normal_pairs(pairs)
}

fn are_increasing(items: &[Value]) -> bool
    ensures { result ≡ increasing items.now }
{
    for i in 1..items.len() {
        if compare(&items[i - 1], &items[i]) != Ordering::Less {
            return false;
        }
    }
    true
}

fn have_increasing_arguments(pairs: &[(Value, Value)]) -> bool
    ensures { result ≡ increasing (arguments pairs.now) }
{
    for i in 1..pairs.len() {
        if compare(&pairs[i - 1].0, &pairs[i].0) != Ordering::Less {
            return false;
        }
    }
    true
}

#[cycle(normal)]
fn are_normal(items: &[Value]) -> bool
    ensures { IsTrue result ↔ All Normal items.now }
{
    for item in items {
        if !is_normal(item) {
            return false;
        }
    }
    true
}

#[cycle(normal)]
fn are_normal_pairs(pairs: &[(Value, Value)]) -> bool
    ensures { IsTrue result ↔ All (λ p. Normal p.0 × Normal p.1) pairs.now }
{
    for (argument, value) in pairs {
        if !is_normal(argument) || !is_normal(value) {
            return false;
        }
    }
    true
}
