// Sequences, which are functions on 1 to n.
ghost use Rattle.std.specs.Prelude.{◌++◌, ◌+◌, ◌<◌, ◌∷◌, ◌≡◌, ◌≤ℤ◌, ◌≤◌, [], IfErr, IfNone, IfOk, IfSome, List as Items, None, OnOk, Some, length, map, pos};
ghost use Rattle.tla_values.specs.declared.value.Value.{out-Value};
ghost use Rattle.tla_meaning.specs.Forms.{results};
ghost use Rattle.tla_meaning.specs.Operators.{on_sequence, part_of, table};
ghost use Rattle.tla_meaning.specs.Shapes.{items_of, numbered, sequence};
ghost use Rattle.tla_evaluator.specs.inner.Families.{of_items};
ghost use Rattle.tla_evaluator.specs.declared.answers.Stop.TheVariants as Stop;
ghost use Rattle.tla_evaluator.specs.inner.Gives.{Gives};

use crate::answers::{Answer, Stop, Stored};
use crate::functions::Pair;
use crate::numbers::number;
use crate::operators::{Row, is_sequence};
use std::alloc::Global;
use tla_meaning::{Op, Outcome, Place};
use tla_values::{List, Value, copy_value};

impl Row<'_> {
    // One sequence.
    pub(crate) fn sequence(&self, op: &Op) -> Answer<Value>
        ensures { Gives (on_sequence self.now.place
            (of_items (Some self.now.width) self.now.place op.now)
            (map out-Value self.now.operands.now)) result }
    {
        let [Value::Fun(pairs)] = self.operands else {
            return Err(Stop::Wrong(self.place));
        };
        self.of_items(op, self.items(pairs)?)
    }

    // The pairs of a function that is to be a sequence.
    fn items<'p>(&self, pairs: &'p List<Pair>) -> Answer<&'p [Pair]>
        ensures items { IfOk result (λ ps. items_of pairs.now ≡ Some (results ps.now)) }
        ensures none { IfErr result (λ s. (items_of pairs.now ≡ None) × (s ≡ Stop.Wrong self.now.place)) }
    {
        is_sequence(pairs.as_slice())
            .then_some(pairs.as_slice())
            .ok_or(Stop::Wrong(self.place))
    }

    fn of_items(&self, op: &Op, pairs: &[(Value, Value)]) -> Answer<Value>
        ensures { Gives (of_items (Some self.now.width) self.now.place op.now (results pairs.now))
            result }
    {
        match op {
            Op::Len => number(pairs.len() as i128, self.width, self.place),
            Op::Head => match pairs {
                [(_, first), ..] => Ok(copy_value(self.alloc, first)?),
                [] => Err(Stop::Wrong(self.place)),
            },
            Op::Tail => match pairs {
                [_, rest @ ..] => Ok(sequence(self.alloc, results_of(self.alloc, rest)?)?),
                [] => Err(Stop::Wrong(self.place)),
            },
            _ => Err(Stop::Wrong(self.place)),
        }
    }

    // `s \o t`.
    pub(crate) fn concatenation(&self) -> Answer<Value>
        ensures { Gives (table None self.now.place Op.Concat self.now.operands.now) result }
    {
        let [Value::Fun(left), Value::Fun(right)] = self.operands else {
            return Err(Stop::Wrong(self.place));
        };
        let mut items = results_of(self.alloc, self.items(left)?)?;
        let mut more = results_of(self.alloc, self.items(right)?)?;
        items.append(&mut more)?;
        Ok(sequence(self.alloc, items)?)
    }

    // `Append(s, e)`.
    pub(crate) fn appended(&self) -> Answer<Value>
        ensures { Gives (table None self.now.place Op.Append self.now.operands.now) result }
    {
        let [Value::Fun(pairs), last] = self.operands else {
            return Err(Stop::Wrong(self.place));
        };
        let mut items = results_of(self.alloc, self.items(pairs)?)?;
        items.push(copy_value(self.alloc, last)?)?;
        Ok(sequence(self.alloc, items)?)
    }

    // `SubSeq(s, m, n)`.
    pub(crate) fn subsequence(&self) -> Answer<Value>
        ensures { Gives (table None self.now.place Op.SubSeq self.now.operands.now) result }
    {
        let [Value::Fun(pairs), Value::Int(m), Value::Int(n)] = self.operands else {
            return Err(Stop::Wrong(self.place));
        };
        self.part(self.items(pairs)?, m, n)
    }

    // The items from m to n.
    fn part(&self, pairs: &[(Value, Value)], m: &i128, n: &i128) -> Answer<Value>
        ensures { Gives (part_of self.now.place (results pairs.now) m.now n.now) result }
    {
        if *n < *m {
            return Ok(sequence(self.alloc, Vec::new(self.alloc))?);
        }
        let (start, end) = bounds(pairs.len(), m, n).ok_or(Stop::Wrong(self.place))?;
        let items = results_of(self.alloc, &pairs[start..end])?;
        Ok(sequence(self.alloc, items)?)
    }
}

// The sequence of the items.
pub(crate) fn sequence(alloc: Global, items: Vec<Value>) -> Stored<Value>
    ensures { IfOk result (λ v. v ≡ sequence items.items) }
{
    let mut pairs = Vec::new(alloc);
    for item in items {
        let number = Value::Int(pairs.len() as i128 + 1);
        pairs.push((number, item))?;
    }
    Ok(Value::Fun(List::from_vec(pairs)))
}

// The values of the pairs.
fn results_of(alloc: Global, pairs: &[Pair]) -> Stored<Vec<Value>>
    ensures { IfOk result (λ v. v.items ≡ results pairs.now) }
{
    let mut items = Vec::new(alloc);
    for (_, value) in pairs {
        items.push(copy_value(alloc, value)?)?;
    }
    Ok(items)
}

// The range of indexes of the items from m to n, where these are within the length.
fn bounds(len: usize, m: &i128, n: &i128) -> Option<(usize, usize)>
    requires { m.now ≤ℤ n.now }
    ensures some { IfSome result (λ r.
        (m.now ≡ pos (1 + r.0)) × (n.now ≡ pos r.1) × (r.0 < r.1) × (r.1 ≤ len)) }
    ensures none { IfNone result
        ((p : Place) (xs : Items Value) → length xs ≡ len → part_of p xs m.now n.now ≡
        Outcome.Wrong p) }
{
    if 1 <= *m && *n <= len as i128 {
        Some((*m as usize - 1, *n as usize))
    } else {
        None
    }
}
