// Functions; records, which are functions on texts, and the sets of records and of tuples.
ghost use Rattle.std.specs.List.{All};
ghost use Rattle.std.specs.Prelude.{◌++◌, ◌∷◌, ◌≡◌, [], IfOk, IsTrue, List as Items, None, OnOk, Some, map, zip};
ghost use Rattle.tla_values.specs.Sets.{Normal, apply, arguments, function_of, increasing, insert_pair};
ghost use Rattle.tla_values.specs.declared.value.Value.{out-Value};
ghost use Rattle.tla_meaning.specs.Operators.{on_function, or_wrong, table};
ghost use Rattle.tla_meaning.specs.Shapes.{record_of, sequence, the_function};
ghost use Rattle.tla_evaluator.specs.inner.Families.{of_function};
ghost use Rattle.tla_evaluator.specs.inner.Gives.{Gives};

use crate::answers::{Answer, Stop, Stored};
use crate::numbers::fits;
use crate::operators::{Row, is_sequence};
use crate::sequences::sequence;
use crate::sets::{choices_of, set_made};
use std::alloc::Global;
use tla_meaning::Op;
use tla_values::{List, Text, Value, apply, copy_text, copy_value, domain_of, find_argument};

// An argument with its value.
pub(crate) type Pair = (Value, Value);

// Arguments, each with its value.
pub(crate) type Pairs = Vec<Pair>;

impl Row<'_> {
    // One function.
    pub(crate) fn function(&self, op: &Op) -> Answer<Value>
        requires { All Normal self.now.operands.now }
        ensures { Gives (on_function self.now.place
            (of_function (Some self.now.width) self.now.place op.now)
            (map out-Value self.now.operands.now)) result }
    {
        let [Value::Fun(pairs)] = self.operands else {
            return Err(Stop::Wrong(self.place));
        };
        match op {
            Op::Domain => {
                if is_sequence(pairs.as_slice()) && !fits(pairs.len() as i128, self.width) {
                    return Err(Stop::Big(self.place));
                }
                Ok(domain_of(self.alloc, pairs)?)
            }
            Op::Field(name) => self.value_at(pairs, &Value::Text(copy_text(self.alloc, name)?)),
            _ => Err(Stop::Wrong(self.place)),
        }
    }

    // The value at an argument, and Wrong where it is none.
    pub(crate) fn value_at(&self, pairs: &List<(Value, Value)>, argument: &Value) -> Answer<Value>
        requires { Normal (Value.Fun pairs.now) }
        ensures { Gives (or_wrong self.now.place (apply pairs.now argument.now)) result }
    {
        let v = apply(pairs, argument).ok_or(Stop::Wrong(self.place))?;
        Ok(copy_value(self.alloc, v)?)
    }

    // `f @@ g`: the left one wins.
    pub(crate) fn merge(&self) -> Answer<Value>
        ensures { Gives (table None self.now.place Op.Merge self.now.operands.now) result }
    {
        let [Value::Fun(left), Value::Fun(right)] = self.operands else {
            return Err(Stop::Wrong(self.place));
        };
        let mut pairs = Vec::new(self.alloc);
        copy_pairs_onto(self.alloc, left.as_slice(), &mut pairs)?;
        copy_pairs_onto(self.alloc, right.as_slice(), &mut pairs)?;
        Ok(function_of(self.alloc, pairs)?)
    }
}

// `a :> v`.
pub(crate) fn single(alloc: Global, argument: &Value, value: &Value) -> Stored<Value>
    ensures { IfOk result (λ v. v ≡ Value.Fun ((argument.now, value.now) ∷ [])) }
{
    let pairs = vec![in alloc; (copy_value(alloc, argument)?, copy_value(alloc, value)?)]?;
    Ok(Value::Fun(List::from_vec(pairs)))
}

// The function of the pairs, the first of those with one argument.
pub(crate) fn function_of(alloc: Global, pairs: Pairs) -> Stored<Value>
    ensures { IfOk result (λ v. v ≡ the_function pairs.items) }
{
    let mut rest = pairs;
    let mut function = Vec::new(alloc);
    while let Some(pair) = rest.pop() {
        put_pair(&mut function, pair)?;
    }
    Ok(Value::Fun(List::from_vec(function)))
}

// The function with one more pair, in place of one with its argument.
fn put_pair(function: &mut Pairs, pair: Pair) -> Stored<()>
    requires { IsTrue (increasing (arguments function.old.items)) }
    ensures { OnOk result (function.new.items ≡ insert_pair pair function.old.items) }
{
    match find_argument(function.as_slice(), &pair.0) {
        Ok(place) => {
            function[place] = pair;
            Ok(())
        }
        Err(place) => Ok(function.insert(place, pair)?),
    }
}

pub(crate) fn copy_pairs_onto(alloc: Global, pairs: &[Pair], out: &mut Pairs) -> Stored<()>
    ensures { OnOk result (out.new.items ≡ out.old.items ++ pairs.now) }
{
    for (argument, value) in pairs {
        out.push((copy_value(alloc, argument)?, copy_value(alloc, value)?))?;
    }
    Ok(())
}

impl Row<'_> {
    // `[a: S, b: T]`.
    pub(crate) fn record_set(&self, names: &List<Text>) -> Answer<Value>
        ensures { Gives (table None self.now.place (Op.RecSet names.now) self.now.operands.now)
            result }
    {
        let alloc = self.alloc;
        let lists = choices_of(alloc, self.operands)?.ok_or(Stop::Wrong(self.place))?;
        Ok(set_made(alloc, lists, |values| record(alloc, names, values))?)
    }

    // `S \X T`.
    pub(crate) fn product(&self) -> Answer<Value>
        ensures { Gives (table None self.now.place Op.Product self.now.operands.now) result }
    {
        let alloc = self.alloc;
        let lists = choices_of(alloc, self.operands)?.ok_or(Stop::Wrong(self.place))?;
        Ok(set_made(alloc, lists, |items| sequence(alloc, items))?)
    }
}

// Each argument with its value.
pub(crate) fn paired(alloc: Global, arguments: &[Value], values: Vec<Value>) -> Stored<Pairs>
    ensures { IfOk result (λ v. v.items ≡ zip arguments.now values.items) }
{
    let mut pairs = Vec::new(alloc);
    for (argument, value) in arguments.iter().zip(values) {
        pairs.push((copy_value(alloc, argument)?, value))?;
    }
    Ok(pairs)
}

// `[a |-> x, b |-> y]`.
pub(crate) fn record(alloc: Global, names: &List<Text>, values: Vec<Value>) -> Stored<Value>
    ensures { IfOk result (λ v. v ≡ record_of names.now values.items) }
{
    let mut texts = Vec::new(alloc);
    for name in names.as_slice() {
        texts.push(Value::Text(copy_text(alloc, name)?))?;
    }
    function_of(alloc, paired(alloc, texts.as_slice(), values)?)
}
