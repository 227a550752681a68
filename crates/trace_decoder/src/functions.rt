//! Functions of decoded pairs.

ghost use Rattle.std.specs.Prelude.{◌<◌, ◌≡◌, IfOk, length, slice_set};
ghost use Rattle.tla_values.specs.Sets.{function_of};

use std::alloc::{AllocError, Global};
use tla_values::{List, Value, find_argument};

fn replace(pairs: &mut Vec<(Value, Value)>, place: usize, pair: (Value, Value))
    requires { place < length pairs.old.items }
    ensures { pairs.new.items ≡ slice_set pairs.old.items place pair }
{
    pairs[place] = pair;
}

// The function of the pairs, which stand in any order. Of several with one argument the first
// counts.
pub(crate) fn function_of(alloc: Global, pairs: Vec<(Value, Value)>) -> Result<Value, AllocError>
    ensures { IfOk result (λ v. v ≡ Value.Fun (function_of pairs.items)) }
{
    let mut rest = pairs;
    let mut function = Vec::new(alloc);
    while let Some((argument, value)) = rest.pop() {
        match find_argument(function.as_slice(), &argument) {
            Ok(place) => replace(&mut function, place, (argument, value)),
            Err(place) => function.insert(place, (argument, value))?,
        }
    }
    Ok(Value::Fun(List::from_vec(function)))
}
