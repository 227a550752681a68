// Functions of values: pairs in increasing order of their arguments.
ghost use Rattle.std.specs.List.{All};
ghost use Rattle.std.specs.Prelude.{◌≡◌, ◌↔◌, IfOk, IfSome, IsSome, IsTrue, OnOk, option_copied};
ghost use Rattle.tla_values.specs.Sets.{
  Normal,
  apply,
  arguments,
  fun_of,
  increasing,
  insert_pair,
  member,
  override_at,
};

use crate::list::List;
use crate::order::same_value;
use crate::search::find_argument;
use crate::value::{Value, copy_value};
use std::alloc::{AllocError, Global};

/// The function of the pairs, each an argument with its value, in any order; `None` exactly where two pairs have
/// equal arguments. Normal where the pairs are. Source: Specifying Systems, section 16.1.7.
pub fn fun_of(alloc: Global, pairs: List<(Value, Value)>) -> Result<Option<Value>, AllocError>
    ensures function { IfOk result (λ f. f ≡ fun_of pairs) }
    ensures normal { All (λ p. Normal p.0 × Normal p.1) pairs → IfOk result (λ f. IfSome f Normal) }
{
    let mut rest = pairs.into_vec();
    let mut function = Vec::new(alloc);
    while let Some((argument, value)) = rest.pop() {
        match find_argument(function.as_slice(), &argument) {
            Ok(_) => return Ok(None),
            Err(place) => function.insert(place, (argument, value))?,
        }
    }
    Ok(Some(Value::Fun(List::from_vec(function))))
}

/// The value of the function at an argument; `None` exactly where it is no argument. Takes no memory.
pub fn apply<'a>(function: &'a List<(Value, Value)>, argument: &Value) -> Option<&'a Value>
    requires { Normal (Value.Fun function.now) }
    ensures value { option_copied result ≡ apply function.now argument.now }
    ensures domain { IsSome result ↔ IsTrue (member argument.now (arguments function.now)) }
    ensures normal { IfSome result (λ v. Normal v.now) }
{
    let pairs = function.as_slice();
    match find_argument(pairs, argument) {
        Ok(place) => Some(&pairs[place].1),
        Err(_) => None,
    }
}

/// The function with another value at an argument, and the function itself where that is no argument.
/// Source: Specifying Systems, section 16.1.7 (EXCEPT).
pub fn override_at(
    alloc: Global,
    function: &List<(Value, Value)>,
    argument: &Value,
    value: &Value,
) -> Result<Value, AllocError>
    ensures function { IfOk result (λ f. f ≡ Value.Fun (override_at function.now argument.now value.now)) }
    ensures normal { Normal (Value.Fun function.now) → Normal value.now → IfOk result Normal }
{
    let mut pairs = Vec::new(alloc);
    for (a, v) in function.as_slice() {
        let argument_copy = copy_value(alloc, a)?;
        let value_copy = if same_value(argument, a) {
            copy_value(alloc, value)?
        } else {
            copy_value(alloc, v)?
        };
        pairs.push((argument_copy, value_copy))?;
    }
    Ok(Value::Fun(List::from_vec(pairs)))
}

/// The set of the arguments.
pub fn domain_of(alloc: Global, function: &List<(Value, Value)>) -> Result<Value, AllocError>
    ensures set { IfOk result (λ v. v ≡ Value.Set (arguments function.now)) }
    ensures normal { Normal (Value.Fun function.now) → IfOk result Normal }
{
    let mut members = Vec::new(alloc);
    for (argument, _) in function.as_slice() {
        let copy = copy_value(alloc, argument)?;
        members.push(copy)?;
    }
    Ok(Value::Set(List::from_vec(members)))
}
