// What an evaluation reads.
ghost use Rattle.std.specs.List.{All};
ghost use Rattle.std.specs.Prelude.{◌++◌, ◌≡◌, ◌≤◌, [], IfOk, OnOk, false, if◌then◌else◌, option_copied, unwrap_or};
ghost use Rattle.tla_values.specs.Sets.{Normal};
ghost use Rattle.tla_meaning.specs.Meaning.{read};
ghost use Rattle.tla_meaning.specs.Scopes.{bound_to, find_last, same_text, value_found};
ghost use Rattle.tla_evaluator.specs.Trees.{AreNormal};
ghost use Rattle.tla_evaluator.specs.inner.Gives.{Gives};
ghost use Rattle.tla_evaluator.specs.inner.Readings.{IsReadable, IsWidth, with_names};
ghost use Rattle.tla_evaluator.specs.inner.Bound.{bindings};

use crate::answers::{Answer, Stop, Stored};
use std::alloc::Global;
use std::marker::Model;
use tla_meaning::{Place, State};
use tla_values::{Text, Value, copy_value};

// Bound names with their values, where they were given one.
pub(crate) type Bound<'a> = Vec<(&'a Text, Option<&'a Value>)>;

// The values of bound names, a state with a next one, and the width of numbers. The last of several of one name stands
// for it, and a name that was given no value is FALSE.
#[derive(Drop)]
pub(crate) struct Context<'a> {
    pub(crate) alloc: Global,
    bound: Bound<'a>,
    state: &'a State,
    next: &'a State,
    width: u32,
}

impl<'a> Model for Context<'a> {
    ghost use Rattle.tla_evaluator.specs.inner.Readings.{Reading};

    ghost Value = { Reading };

    ghost use Rattle.std.specs.Coded.{codes};
    ghost use Rattle.tla_values.specs.contracts.value.Value as value;

    ghost coded = { Prim.hlevel (codes, value.the_row.coded) };

    ghost use Rattle.tla_evaluator.specs.inner.Bound.{bindings};
    ghost use Rattle.tla_evaluator.specs.inner.Readings.{IsReadable};

    ghost view = { λ c. record { bound = bindings c.bound.items; state = c.state.now; next = c.next.now; width = c.width } };

    ghost invariant = { λ c. IsReadable
        (record { bound = bindings c.bound.items; state = c.state.now; next = c.next.now; width = c.width }) };
}

impl<'a> Context<'a> {
    pub(crate) fn new(
        alloc: Global,
        bound: Bound<'a>,
        state: &'a State,
        next: &'a State,
        width: u32,
    ) -> Context<'a>
        requires sized { IsWidth width }
        requires normal { AreNormal (bindings bound.items) state.now next.now }
        ensures { result ≡ record {
          bound = bindings bound.entry.items;
          state = state.now;
          next = next.now;
          width = width;
        } }
    {
        Context {
            alloc,
            bound,
            state,
            next,
            width,
        }
    }

    // No bound names.
    pub(crate) fn unbound(alloc: Global, state: &'a State, next: &'a State, width: u32) -> Self
        requires sized { IsWidth width }
        requires now { All Normal state.now.vals }
        requires next { All Normal next.now.vals }
        ensures { result ≡ record { bound = []; state = state.now; next = next.now; width = width } }
    {
        Context::new(alloc, Vec::new(alloc), state, next, width)
    }

    pub(crate) fn width(&self) -> u32
        ensures value { result ≡ self.now.width }
        ensures readable { IsReadable self.now }
    {
        self.width
    }

    // What is read is normal, and the width is one of those that are allowed.
    pub(crate) fn is_readable(&self)
        ensures { IsReadable self.now }
    {
        let _ = &self.width;
    }

    // The same with more bound names.
    pub(crate) fn with<'b>(&'b self, names: &'b [Text], values: &'b [Value]) -> Stored<Context<'b>>
        requires { All Normal values.now }
        ensures { IfOk result (λ c. c ≡ with_names self.now names.now values.now) }
    {
        let mut bound: Bound<'b> = Vec::from_slice(self.alloc, self.bound.as_slice())?;
        bind_onto(names, values, &mut bound)?;
        Ok(Context::new(self.alloc, bound, self.state, self.next, self.width))
    }

    // The value of a constant or variable.
    pub(crate) fn read(&self, i: usize, primed: bool, place: Place) -> Answer<Value>
        ensures { Gives (read place i (if primed then self.now.next else self.now.state)) result }
    {
        let state = if primed { self.next } else { self.state };
        match state.vals.as_slice().get(i) {
            Some(v) => Ok(copy_value(self.alloc, v)?),
            None => Err(Stop::Wrong(place)),
        }
    }

    // The value of a bound name.
    pub(crate) fn read_bound(&self, name: &Text, place: Place) -> Answer<Value>
        ensures { Gives (value_found place (find_last name.now self.now.bound)) result }
    {
        let mut i = self.bound.len();
        while i > 0 {
            i -= 1;
            let entry = &self.bound[i];
            if same_name(name, entry.0) {
                return Ok(bound_value(self.alloc, entry.1)?);
            }
        }
        Err(Stop::Wrong(place))
    }
}

fn same_name(a: &Text, b: &Text) -> bool
    ensures { result ≡ same_text a.now b.now }
{
    a.bytes().cmp(b.bytes()).is_eq()
}

fn bound_value(alloc: Global, value: Option<&Value>) -> Stored<Value>
    ensures { IfOk result (λ v. v ≡ unwrap_or (option_copied value.entry) (Value.Bool false)) }
{
    match value {
        Some(v) => copy_value(alloc, v),
        None => Ok(Value::Bool(false)),
    }
}

// Adds each name with its value.
fn bind_onto<'b>(names: &'b [Text], values: &'b [Value], bound: &mut Bound<'b>) -> Stored<()>
    ensures { OnOk result
        (bindings bound.new.items ≡ bindings bound.old.items ++ bound_to names.now values.now) }
{
    for (i, name) in names.iter().enumerate() {
        bound.push((name, values.get(i)))?;
    }
    Ok(())
}

// The names of an environment with their values.
pub(crate) fn names_of<'b>(alloc: Global, env: &'b [(Text, Value)]) -> Stored<Bound<'b>>
    ensures { IfOk result (λ v. bindings v.items ≡ env.now) }
{
    let mut bound = Vec::new(alloc);
    for (name, value) in env {
        bound.push((name, Some(value)))?;
    }
    Ok(bound)
}
