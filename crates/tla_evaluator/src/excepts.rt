// EXCEPT: the value at the end of a path of arguments, and another in its place.
ghost use Rattle.std.specs.Prelude.{◌≡◌, IfOk};
ghost use Rattle.tla_values.specs.Sets.{Normal};
ghost use Rattle.tla_meaning.specs.Meaning.{at_path, set_path};
ghost use Rattle.tla_evaluator.specs.inner.Excepts.{reached_of};

use crate::answers::Stored;
use std::alloc::Global;
use tla_values::{Value, apply, copy_value, override_at};

// What a path of arguments leads to.
pub(crate) enum Reached<'a> {
    At(&'a Value),
    Outside,
    NoFunction,
}

// The value at the end of a path.
pub(crate) fn at_path<'a>(f: &'a Value, path: &[Value]) -> Reached<'a>
    requires { Normal f.now }
    ensures { reached_of result ≡ at_path f.now path.now }
{
    let mut value = f;
    for argument in path {
        match value {
            Value::Fun(pairs) => match apply(pairs, argument) {
                Some(next) => value = next,
                None => return Reached::Outside,
            },
            _ => return Reached::NoFunction,
        }
    }
    Reached::At(value)
}

// The value with a new one at the end of a path, and the value itself where the path leads out of it.
pub(crate) fn set_path(alloc: Global, f: &Value, path: &[Value], new: &Value) -> Stored<Value>
    requires { Normal f.now }
    ensures value { IfOk result (λ v. v ≡ set_path path.now new.now f.now) }
    ensures normal { Normal f.now → Normal new.now → IfOk result Normal }
{
    match path {
        [] => copy_value(alloc, new),
        [argument, rest @ ..] => match f {
            Value::Fun(pairs) => match apply(pairs, argument) {
                Some(old) => {
                    let changed = set_path(alloc, old, rest, new)?;
                    override_at(alloc, pairs, argument, &changed)
                }
                None => copy_value(alloc, f),
            },
            _ => copy_value(alloc, f),
        },
    }
}
