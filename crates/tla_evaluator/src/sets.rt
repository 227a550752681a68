// Sets.
ghost use Rattle.std.specs.List.{All};
ghost use Rattle.std.specs.Prelude.{◌++◌, ◌∷◌, ◌≡◌, [], IfOk, List as Items, Ok, OnOk, Some, false, map, option_map, true, zip};
ghost use Rattle.tla_values.specs.Sets.{Normal};
ghost use Rattle.tla_values.specs.declared.value.Value.{out-Value};
ghost use Rattle.tla_meaning.specs.Operators.{on_all_sets, on_set, on_sets};
ghost use Rattle.tla_meaning.specs.Shapes.{all_set_items, choices, each_to, functions, sublists, subsets, the_set, union_all, with_each};
ghost use Rattle.tla_evaluator.specs.inner.Families.{of_set, of_sets};
ghost use Rattle.tla_evaluator.specs.inner.Gives.{Gives};
ghost use Rattle.tla_evaluator.specs.inner.Results.{all_of};

use crate::answers::{Answer, Stop, Stored};
use crate::functions::paired;
use crate::numbers::number;
use crate::operators::Row;
use std::alloc::Global;
use tla_meaning::{Op, Outcome};
use tla_values::{List, Value, copy_onto, copy_value, inter_of, minus, set_of, union_of};

// Lists of values, as the subsets of a set and the choices of one member of each of several.
pub(crate) type Lists = Vec<List<Value>>;

impl Row<'_> {
    // One set.
    pub(crate) fn set(&self, op: &Op) -> Answer<Value>
        ensures { Gives (on_set self.now.place (of_set (Some self.now.width) self.now.place op.now)
            (map out-Value self.now.operands.now)) result }
    {
        let [Value::Set(members)] = self.operands else {
            return Err(Stop::Wrong(self.place));
        };
        match op {
            Op::Powerset => Ok(subsets_of(self.alloc, members)?),
            Op::BigUnion => self.union_of_all(members),
            Op::Cardinality => number(members.len() as i128, self.width, self.place),
            Op::IsFinite => Ok(Value::Bool(true)),
            _ => Err(Stop::Wrong(self.place)),
        }
    }

    // `UNION S`.
    fn union_of_all(&self, sets: &List<Value>) -> Answer<Value>
        ensures { Gives (on_all_sets self.now.place
            (λ xss. Outcome.Val (Value.Set (union_all xss))) sets.now) result }
    {
        let members = all_members(self.alloc, sets.as_slice())?.ok_or(Stop::Wrong(self.place))?;
        Ok(set_of(self.alloc, List::from_vec(members))?)
    }

    // Two sets.
    pub(crate) fn sets(&self, op: &Op) -> Answer<Value>
        requires { All Normal self.now.operands.now }
        ensures { Gives (on_sets self.now.place (of_sets self.now.place op.now)
            (map out-Value self.now.operands.now)) result }
    {
        let [Value::Set(left), Value::Set(right)] = self.operands else {
            return Err(Stop::Wrong(self.place));
        };
        match op {
            Op::Cup => Ok(union_of(self.alloc, left, right)?),
            Op::Cap => Ok(inter_of(self.alloc, left, right)?),
            Op::Minus => Ok(minus(self.alloc, left, right)?),
            Op::FunSet => Ok(functions(self.alloc, left.as_slice(), right.as_slice())?),
            _ => Err(Stop::Wrong(self.place)),
        }
    }
}

// `BOOLEAN`.
pub(crate) fn truth_values(alloc: Global) -> Stored<Value>
    ensures { IfOk result (λ v. v ≡ Value.Set (Value.Bool false ∷ Value.Bool true ∷ [])) }
{
    let members = vec![in alloc; Value::Bool(false), Value::Bool(true)]?;
    Ok(Value::Set(List::from_vec(members)))
}

// The members of all sets, one after another, where all values are sets.
fn all_members(alloc: Global, sets: &[Value]) -> Stored<Option<Vec<Value>>>
    ensures { IfOk result
        (λ o. option_map all_of (all_set_items sets.now) ≡ option_map (λ v. v.items) o) }
{
    let mut members = Vec::new(alloc);
    for v in sets {
        match v {
            Value::Set(set) => copy_onto(alloc, set.as_slice(), &mut members)?,
            _ => return Ok(None),
        }
    }
    Ok(Some(members))
}

// ---- subsets, and choices of members

// Adds each list with one more item in front.
fn push_with_first(alloc: Global, x: &Value, lists: &[List<Value>], out: &mut Lists) -> Stored<()>
    ensures { OnOk result (out.new.items ≡ out.old.items ++ map (λ ys. x.now ∷ ys) lists.now) }
{
    for list in lists {
        let mut items = vec![in alloc; copy_value(alloc, x)?]?;
        copy_onto(alloc, list.as_slice(), &mut items)?;
        out.push(List::from_vec(items))?;
    }
    Ok(())
}

// The lists that leave out some items.
fn sublists(alloc: Global, items: &[Value]) -> Stored<Lists>
    ensures { IfOk result (λ v. v.items ≡ sublists items.now) }
{
    let mut lists = vec![in alloc; List::new(alloc)]?;
    let mut i = items.len();
    while i > 0 {
        i -= 1;
        let mut longer = Vec::new(alloc);
        push_with_first(alloc, &items[i], lists.as_slice(), &mut longer)?;
        lists.append(&mut longer)?;
    }
    Ok(lists)
}

// One item of the set in front of each list, in every way.
fn with_each(alloc: Global, set: &[Value], lists: &[List<Value>]) -> Stored<Lists>
    ensures { IfOk result (λ v. v.items ≡ with_each set.now lists.now) }
{
    let mut all = Vec::new(alloc);
    for x in set {
        push_with_first(alloc, x, lists, &mut all)?;
    }
    Ok(all)
}

// One item of each set, in every way, where all values are sets.
pub(crate) fn choices_of(alloc: Global, sets: &[Value]) -> Stored<Option<Lists>>
    ensures { IfOk result
        (λ o. option_map choices (all_set_items sets.now) ≡ option_map (λ cs. cs.items) o) }
{
    match sets {
        [] => Ok(Some(vec![in alloc; List::new(alloc)]?)),
        [Value::Set(items), rest @ ..] => match choices_of(alloc, rest)? {
            Some(lists) => Ok(Some(with_each(alloc, items.as_slice(), lists.as_slice())?)),
            None => Ok(None),
        },
        _ => Ok(None),
    }
}

// A result for each argument, in every way.
fn each_to(alloc: Global, arguments: &[Value], results: &[Value]) -> Stored<Lists>
    ensures { IfOk result (λ v. v.items ≡ each_to arguments.now results.now) }
{
    let mut lists = vec![in alloc; List::new(alloc)]?;
    for _ in arguments {
        lists = with_each(alloc, results, lists.as_slice())?;
    }
    Ok(lists)
}

// `SUBSET S`.
fn subsets_of(alloc: Global, set: &List<Value>) -> Stored<Value>
    ensures { IfOk result (λ v. v ≡ subsets set.now) }
{
    let lists = sublists(alloc, set.as_slice())?;
    set_made(alloc, lists, |items| -> Stored<Value> {
        Ok(Value::Set(List::from_vec(items)))
    })
}

// The set of what a function makes of each list.
pub(crate) fn set_made<F: Fn(Vec<Value>) -> Stored<Value>>(
    alloc: Global,
    lists: Lists,
    make: F,
) -> Stored<Value>
    requires { F.IsAlwaysCallable make }
    ensures { (f : Items Value → Value) →
        ((items : _) (v : Value) → F.post make items (Ok v) → v ≡ f items.items) →
        IfOk result (λ v. v ≡ the_set (map f lists.items)) }
{
    let mut members = Vec::new(alloc);
    for list in lists {
        let member = make(list.into_vec())?;
        members.push(member)?;
    }
    set_of(alloc, List::from_vec(members))
}

// `[S -> T]`.
fn functions(alloc: Global, arguments: &[Value], results: &[Value]) -> Stored<Value>
    ensures { IfOk result (λ v. v ≡ functions arguments.now results.now) }
{
    let lists = each_to(alloc, arguments, results)?;
    set_made(alloc, lists, |values| -> Stored<Value> {
        Ok(Value::Fun(List::from_vec(paired(alloc, arguments, values)?)))
    })
}
