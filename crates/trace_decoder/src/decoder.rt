//! Cells read under an assignment.

ghost use Rattle.cell_arena.specs.Decode.{first_places, present, present_pairs, field_pairs, text_at};
ghost use Rattle.std.specs.Prelude.{◌<◌, ◌≡◌, ◌≤◌, All, IfOk, List, OnOk, length, map, take};
ghost use Rattle.tla_values.specs.Sequences.{numbered};
ghost use Rattle.trace_decoder.specs.inner.Known.{AreKnown, IsThere, value_of};

use crate::functions::function_of;
use crate::words::{is_true, number};
use cell_arena::{Build, CellId, CellKind};
use sat_formula::{Assignment, Lit};
use std::alloc::{AllocError, Global};
use std::collections::BTreeMap;
use tla_values::{List, Text, Value, copy_text, copy_value, set_of};

// The values of cells that were decoded, by the cells' places.
pub(crate) type Known = BTreeMap<usize, Value>;

// Cells, and the values of the variables that they name.
#[derive(Clone, Copy)]
pub(crate) struct Decoder<'a> {
    alloc: Global,
    build: &'a Build,
    assignment: &'a Assignment,
}

// The text with a code; outside of the texts the empty one.
fn text_with(alloc: Global, texts: &[Text], code: i128) -> Result<Text, AllocError>
    ensures { IfOk result (λ t. t ≡ text_at texts.now code) }
{
    if 0 <= code && code < texts.len() as i128 {
        copy_text(alloc, &texts[code as usize])
    } else {
        Ok(Text::from_vec(Vec::new(alloc)))
    }
}

// How many of the places a sequence of a length has.
fn present_places(count: i128, places: usize) -> usize
    ensures few { result ≤ places }
    ensures first { (vs : List Value) → length vs ≡ places →
        take result vs ≡ first_places count vs }
{
    if count < 0 {
        0
    } else if count < places as i128 {
        count as usize
    } else {
        places
    }
}

impl<'a> Decoder<'a> {
    pub(crate) fn new(alloc: Global, build: &'a Build, assignment: &'a Assignment) -> Decoder<'a>
        ensures build { result.build.now ≡ build.now }
        ensures assignment { result.assignment.now ≡ assignment.now }
    {
        Decoder {
            alloc,
            build,
            assignment,
        }
    }

    // The value of a cell. What is known already is copied.
    #[cycle(decoding)]
    pub(crate) fn value(&self, known: &mut Known, id: CellId) -> Result<Value, AllocError>
        requires there { IsThere self.now id }
        requires known { AreKnown self.now known.old }
        ensures value { IfOk result (λ v. v ≡ value_of self.now id) }
        ensures known { OnOk result (AreKnown self.now known.new) }
    {
        if let Some(value) = known.get(&id.index) {
            return copy_value(self.alloc, value);
        }
        let value = self.new_value(known, id)?;
        let kept = copy_value(self.alloc, &value)?;
        known.insert(id.index, kept)?;
        Ok(value)
    }

    // The value of a cell by its kind.
    #[cycle(decoding)]
    fn new_value(&self, known: &mut Known, id: CellId) -> Result<Value, AllocError>
        requires there { IsThere self.now id }
        requires known { AreKnown self.now known.old }
        ensures value { IfOk result (λ v. v ≡ value_of self.now id) }
        ensures known { OnOk result (AreKnown self.now known.new) }
    {
        match self.build.arena.kind(id) {
            CellKind::Bit(l) => Ok(Value::Bool(is_true(*l, self.assignment))),
            CellKind::Word(word) => Ok(Value::Int(number(word.lits(), self.assignment))),
            CellKind::Text(code) => {
                let code = number(code.lits(), self.assignment);
                let text = text_with(self.alloc, self.build.texts().as_slice(), code)?;
                Ok(Value::Text(text))
            }
            CellKind::Set(edges) => {
                let members = self.members(known, edges.as_slice())?;
                set_of(self.alloc, List::from_vec(members))
            }
            CellKind::Fun(edges) => {
                let pairs = self.pairs(known, edges.as_slice())?;
                function_of(self.alloc, pairs)
            }
            CellKind::Rec(fields) => {
                let pairs = self.fields(known, fields.as_slice())?;
                function_of(self.alloc, pairs)
            }
            CellKind::Tup(parts) => {
                let pairs = self.items(known, parts.as_slice(), parts.len())?;
                Ok(Value::Fun(List::from_vec(pairs)))
            }
            CellKind::Seq(count, places) => {
                let count = present_places(number(count.lits(), self.assignment), places.len());
                let pairs = self.items(known, places.as_slice(), count)?;
                Ok(Value::Fun(List::from_vec(pairs)))
            }
        }
    }

    // The values of the edges whose literal is true.
    #[cycle(decoding)]
    fn members(&self, known: &mut Known, edges: &[(Lit, CellId)]) -> Result<Vec<Value>, AllocError>
        requires there { All (λ e. IsThere self.now e.1) edges.now }
        requires known { AreKnown self.now known.old }
        ensures values { IfOk result (λ vs.
            vs.items ≡ present self.now.assignment.now (value_of self.now) edges.now) }
        ensures known { OnOk result (AreKnown self.now known.new) }
    {
        let mut members = Vec::new(self.alloc);
        for (l, id) in edges {
            if is_true(*l, self.assignment) {
                let member = self.value(known, *id)?;
                members.push(member)?;
            }
        }
        Ok(members)
    }

    // The arguments and results of the edges whose literal is true.
    #[cycle(decoding)]
    fn pairs(
        &self,
        known: &mut Known,
        edges: &[(Lit, CellId, CellId)],
    ) -> Result<Vec<(Value, Value)>, AllocError>
        requires there { All (λ e. IsThere self.now e.1 × IsThere self.now e.2) edges.now }
        requires known { AreKnown self.now known.old }
        ensures values { IfOk result (λ ps.
            ps.items ≡ present_pairs self.now.assignment.now (value_of self.now) edges.now) }
        ensures known { OnOk result (AreKnown self.now known.new) }
    {
        let mut pairs = Vec::new(self.alloc);
        for (literal, from, to) in edges {
            if is_true(*literal, self.assignment) {
                let argument = self.value(known, *from)?;
                let value = self.value(known, *to)?;
                pairs.push((argument, value))?;
            }
        }
        Ok(pairs)
    }

    // The names of fields with the fields' values.
    #[cycle(decoding)]
    fn fields(
        &self,
        known: &mut Known,
        fields: &[(Text, CellId)],
    ) -> Result<Vec<(Value, Value)>, AllocError>
        requires there { All (λ f. IsThere self.now f.1) fields.now }
        requires known { AreKnown self.now known.old }
        ensures values { IfOk result (λ ps. ps.items ≡ field_pairs (value_of self.now) fields.now) }
        ensures known { OnOk result (AreKnown self.now known.new) }
    {
        let mut pairs = Vec::new(self.alloc);
        for (name, id) in fields {
            let value = self.value(known, *id)?;
            let name = copy_text(self.alloc, name)?;
            pairs.push((Value::Text(name), value))?;
        }
        Ok(pairs)
    }

    // The values of the first parts at the numbers from 1 on.
    #[cycle(decoding)]
    fn items(
        &self,
        known: &mut Known,
        parts: &[CellId],
        count: usize,
    ) -> Result<Vec<(Value, Value)>, AllocError>
        requires all { count ≤ length parts.now }
        requires there { All (IsThere self.now) parts.now }
        requires known { AreKnown self.now known.old }
        ensures values { IfOk result (λ ps.
            ps.items ≡ numbered 1 (take count (map (value_of self.now) parts.now))) }
        ensures known { OnOk result (AreKnown self.now known.new) }
    {
        let mut pairs = Vec::new(self.alloc);
        for i in 0..count {
            let value = self.value(known, parts[i])?;
            pairs.push((Value::Int(i as i128 + 1), value))?;
        }
        Ok(pairs)
    }
}
