// What a binder gives of its choices and of the body's value at each.
ghost use Rattle.std.specs.List.{list_all, list_any};
ghost use Rattle.std.specs.Prelude.{◌++◌, ◌+◌, ◌∷◌, ◌≡◌, [], Bool as Truth, IfOk, List as Items, OnOk, drop, map, option_map, zip};
ghost use Rattle.tla_meaning.specs.Meaning.{argument, bound_table, kept, truths};
ghost use Rattle.tla_meaning.specs.Shapes.{the_function};
ghost use Rattle.tla_evaluator.specs.inner.Gives.{Gives};
ghost use Rattle.tla_evaluator.specs.inner.Truths.{GivesTruths};

use crate::answers::{Answer, Stop, Stored};
use crate::functions::{function_of, paired};
use crate::sequences::sequence;
pub(crate) use crate::sets::choices_of;
use std::alloc::Global;
use tla_meaning::{Op, Place};
use tla_values::{List, Value, copy_onto, copy_value, set_of};

// The row of a binder: its choices with the body's value at each.
pub(crate) fn bound_table(
    alloc: Global,
    op: &Op,
    place: Place,
    choices: &[List<Value>],
    values: Vec<Value>,
) -> Answer<Value>
    ensures { Gives (bound_table place op.now choices.now values.items) result }
{
    match op {
        Op::Exists => Ok(Value::Bool(some_true(truths(alloc, &values, place)?.as_slice()))),
        Op::Forall => Ok(Value::Bool(all_true(truths(alloc, &values, place)?.as_slice()))),
        Op::Filter => {
            let passes = truths(alloc, &values, place)?;
            Ok(set_of(
                alloc,
                List::from_vec(kept(alloc, choices, passes.as_slice())?),
            )?)
        }
        Op::MapTo => Ok(set_of(alloc, List::from_vec(values))?),
        Op::Lambda => Ok(function_at(alloc, choices, values)?),
        _ => Err(Stop::Wrong(place)),
    }
}

// The values, where all are truth values.
fn truths(alloc: Global, values: &[Value], place: Place) -> Answer<List<bool>>
    ensures { GivesTruths place values.now result }
{
    let mut all = Vec::new(alloc);
    for v in values {
        match v {
            Value::Bool(b) => all.push(*b)?,
            _ => return Err(Stop::Wrong(place)),
        }
    }
    Ok(List::from_vec(all))
}

fn some_true(truths: &[bool]) -> bool
    ensures { result ≡ list_any (λ b. b) truths.now }
{
    truths.iter().any(|b| *b)
}

fn all_true(truths: &[bool]) -> bool
    ensures { result ≡ list_all (λ b. b) truths.now }
{
    truths.iter().all(|b| *b)
}

// The first members of the choices that pass.
fn kept(alloc: Global, choices: &[List<Value>], passes: &[bool]) -> Stored<Vec<Value>>
    ensures { IfOk result (λ v. v.items ≡ kept choices.now passes.now) }
{
    let mut members = Vec::new(alloc);
    for (i, b) in passes.iter().enumerate() {
        keep_first(alloc, *b, choices, i, &mut members)?;
    }
    Ok(members)
}

// Adds the first member of the i-th choice, where it passes and there is one.
fn keep_first(
    alloc: Global,
    passes: bool,
    choices: &[List<Value>],
    i: usize,
    out: &mut Vec<Value>,
) -> Stored<()>
    ensures { OnOk result ((bs : Items Truth) →
        out.new.items ++ kept (drop (i + 1) choices.now) bs ≡ out.old.items ++ kept
        (drop i choices.now) (passes ∷ bs)) }
{
    if i < choices.len() {
        if let [first, ..] = choices[i].as_slice() {
            if passes {
                out.push(copy_value(alloc, first)?)?;
            }
        }
    }
    Ok(())
}

// The function of the choices, each with its value.
fn function_at(alloc: Global, choices: &[List<Value>], values: Vec<Value>) -> Stored<Value>
    ensures { IfOk result (λ v. v ≡ the_function (zip (map argument choices.now) values.items)) }
{
    let mut arguments = Vec::new(alloc);
    for choice in choices {
        arguments.push(argument(alloc, choice.as_slice())?)?;
    }
    function_of(alloc, paired(alloc, arguments.as_slice(), values)?)
}

// One argument, or the tuple of several.
fn argument(alloc: Global, choice: &[Value]) -> Stored<Value>
    ensures { IfOk result (λ v. v ≡ argument choice.now) }
{
    if let [only] = choice {
        return copy_value(alloc, only);
    }
    let mut items = Vec::new(alloc);
    copy_onto(alloc, choice, &mut items)?;
    sequence(alloc, items)
}
