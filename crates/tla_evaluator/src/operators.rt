// What an operator that joins its operands gives of their values.
ghost use Rattle.std.specs.List.{All};
ghost use Rattle.std.specs.Prelude.{◌≡◌, ◌≤◌, IfNone, IfOk, IfSome, IsTrue, None, Some, false};
ghost use Rattle.tla_values.specs.Sets.{Normal};
ghost use Rattle.tla_meaning.specs.Operators.{on_two, table};
ghost use Rattle.tla_meaning.specs.Outcomes.{IsNormalOutcome};
ghost use Rattle.tla_evaluator.specs.inner.Gives.{Gives};
ghost use Rattle.tla_evaluator.specs.inner.Readings.{IsWidth};
ghost use Rattle.tla_meaning.specs.Forms.{results};
ghost use Rattle.tla_meaning.specs.Meaning.{fold_over, folded};
ghost use Rattle.tla_meaning.specs.Shapes.{items_of};
ghost use Rattle.tla_evaluator.specs.inner.Families.{of_two};

use crate::answers::{Answer, Stop, told};
use crate::functions::{record, single};
use crate::sequences::sequence;
use crate::sets::truth_values;
use std::alloc::{AllocError, Global};
use tla_meaning::{Op, Outcome, Place};
use tla_values::{List, Value, same_value, set_of};

/// What the operator gives of the values of its operands, with a place for a fault: the row of the table of operators.
/// Wrong for an operator that does not join its operands, and for a set that is infinite.
pub fn table(
    alloc: Global,
    op: &Op,
    place: Place,
    operands: Vec<Value>,
    width: u32,
) -> Result<Outcome, AllocError>
    requires narrow { width ≤ 64 }
    requires wide { 4 ≤ width }
    requires normal { All Normal operands.items }
    ensures value { IfOk result (λ o. o ≡ table (Some width) place op.now operands.items) }
    ensures normal { IfOk result IsNormalOutcome }
{
    told(row_of(alloc, op, place, operands, width))
}

// The row of the operator.
pub(crate) fn row_of(
    alloc: Global,
    op: &Op,
    place: Place,
    operands: Vec<Value>,
    width: u32,
) -> Answer<Value>
    requires sized { IsWidth width }
    requires normal { All Normal operands.items }
    ensures { Gives (table (Some width) place op.now operands.items) result }
{
    let row = Row {
        alloc,
        operands: operands.as_slice(),
        place,
        width,
    };
    match op {
        Op::SetEnum => Ok(set_of(alloc, List::from_vec(operands))?),
        Op::Tuple => Ok(sequence(alloc, operands)?),
        Op::Record(names) => Ok(record(alloc, names, operands)?),
        Op::BooleanSet => Ok(truth_values(alloc)?),
        Op::Not => row.negation(),
        Op::Iff => row.equivalence(),
        Op::Eq | Op::Assign | Op::Ne | Op::Apply | Op::Single => row.two(op),
        Op::Lt | Op::Gt | Op::Le | Op::Ge | Op::Add | Op::Sub => row.numbers(op),
        Op::Mul | Op::Div | Op::Mod | Op::Pow | Op::Range => row.numbers(op),
        Op::Neg => row.negative(),
        Op::Powerset | Op::BigUnion | Op::Cardinality | Op::IsFinite => row.set(op),
        Op::Cup | Op::Cap | Op::Minus | Op::FunSet => row.sets(op),
        Op::RecSet(names) => row.record_set(names),
        Op::Product => row.product(),
        Op::Domain | Op::Field(_) => row.function(op),
        Op::Merge => row.merge(),
        Op::Len | Op::Head | Op::Tail => row.sequence(op),
        Op::Concat => row.concatenation(),
        Op::Append => row.appended(),
        Op::SubSeq => row.subsequence(),
        _ => Err(Stop::Wrong(place)),
    }
}

// The values of the operands, with the place of a fault and the width of numbers. The families of operators are its
// methods.
#[derive(Drop)]
pub(crate) struct Row<'a> {
    pub(crate) alloc: Global,
    pub(crate) operands: &'a [Value],
    pub(crate) place: Place,
    pub(crate) width: u32,
    ghost sized: { IsWidth width },
}

// Whether the arguments are 1 to n.
pub(crate) fn is_sequence(pairs: &[(Value, Value)]) -> bool
    ensures items { IsTrue result → items_of pairs.now ≡ Some (results pairs.now) }
    ensures none { result ≡ false → items_of pairs.now ≡ None }
{
    for (i, pair) in pairs.iter().enumerate() {
        if !matches!(&pair.0, Value::Int(n) if *n == i as i128 + 1) {
            return false;
        }
    }
    true
}

// A value and a function, where the operands are just a value and a sequence.
pub(crate) fn value_and_items(operands: &[Value]) -> Option<(&Value, &List<(Value, Value)>)>
    ensures some { IfSome result (λ n. (p : Place) (f : Value → Value → Outcome) →
        fold_over p f operands.now ≡ folded f (results n.1.now) n.0.now) }
    ensures none { IfNone result
        ((p : Place) (f : Value → Value → Outcome) → fold_over p f operands.now ≡ Outcome.Wrong p) }
    ensures normal { All Normal operands.now → IfSome result
        (λ n. Normal n.0.now × Normal (Value.Fun n.1.now)) }
{
    match operands {
        [start, Value::Fun(pairs)] => is_sequence(pairs.as_slice()).then_some((start, pairs)),
        _ => None,
    }
}

impl Row<'_> {
    // `~a`.
    pub(crate) fn negation(&self) -> Answer<Value>
        ensures { Gives (table None self.now.place Op.Not self.now.operands.now) result }
    {
        match self.operands {
            [Value::Bool(a)] => Ok(Value::Bool(!*a)),
            _ => Err(Stop::Wrong(self.place)),
        }
    }

    // `a <=> b`.
    pub(crate) fn equivalence(&self) -> Answer<Value>
        ensures { Gives (table None self.now.place Op.Iff self.now.operands.now) result }
    {
        match self.operands {
            [a @ Value::Bool(_), b @ Value::Bool(_)] => Ok(Value::Bool(same_value(a, b))),
            _ => Err(Stop::Wrong(self.place)),
        }
    }

    // Two operands of any kind.
    pub(crate) fn two(&self, op: &Op) -> Answer<Value>
        requires { All Normal self.now.operands.now }
        ensures { Gives (on_two self.now.place (of_two self.now.place op.now)
            self.now.operands.now) result }
    {
        let [a, b] = self.operands else {
            return Err(Stop::Wrong(self.place));
        };
        match op {
            Op::Eq | Op::Assign => Ok(Value::Bool(same_value(a, b))),
            Op::Ne => Ok(Value::Bool(!same_value(a, b))),
            Op::Apply => match a {
                Value::Fun(pairs) => self.value_at(pairs, b),
                _ => Err(Stop::Wrong(self.place)),
            },
            Op::Single => Ok(single(self.alloc, a, b)?),
            _ => Err(Stop::Wrong(self.place)),
        }
    }
}
