// Set forms: what may stand on the right of a membership or an inclusion.
ghost use Rattle.std.specs.List.{list_all, list_any};
ghost use Rattle.std.specs.Prelude.{◌&&◌, ◌∷◌, ◌≡◌, [], map, option_copied};
ghost use Rattle.tla_values.specs.Order.{same_value};
ghost use Rattle.tla_values.specs.Sets.{apply, arguments, member};
ghost use Rattle.tla_values.specs.declared.value.Value.{out-Value};
ghost use Rattle.tla_meaning.specs.Forms.{Made, all_belong, all_set_forms, belongs, fields_at, has_fields, is_natural, is_set_form, passes, results, same_set};
ghost use Rattle.tla_meaning.specs.Shapes.{items_of, set_items};
ghost use Rattle.tla_meaning.specs.Meaning.{form_of_all, form_of_one, functions_from};
ghost use Rattle.tla_evaluator.specs.inner.Gives.{Gives, GivesForm};
ghost use Rattle.tla_evaluator.specs.inner.Nodes.{form_of_several, one_form, tested};

use crate::answers::{Answer, Stop};
use crate::operators::is_sequence;
use std::alloc::Global;
use tla_meaning::{Op, Place, SetForm};
use tla_values::{Boxed, List, Text, Value, copy_texts, same_value};

/// Whether the value belongs to the form. Takes no memory.
#[cycle(belongs)]
#[tactic(auto, using(crate::proofs::FormLemmas::belongs_out))]
pub fn belongs(form: &SetForm, v: &Value) -> bool
    ensures { result ≡ belongs form.now v.now }
{
    match form {
        SetForm::Plain(s) => match s {
            Value::Set(members) => is_among(v, members.as_slice()),
            _ => false,
        },
        SetForm::AllInts => matches!(v, Value::Int(_)),
        SetForm::AllNats => is_natural(v),
        SetForm::AllTexts => matches!(v, Value::Text(_)),
        SetForm::Sequences(items) => {
            matches!(v, Value::Fun(pairs) if sequence_belongs(items.get(), pairs))
        }
        SetForm::Functions(arguments, items) => {
            matches!(v, Value::Fun(pairs) if function_belongs(items.get(), arguments, pairs))
        }
        SetForm::Subsets(items) => {
            matches!(v, Value::Set(members) if all_belong(items.get(), members.as_slice()))
        }
        SetForm::Records(names, forms) => {
            matches!(v, Value::Fun(pairs) if record_belongs(forms, names, pairs))
        }
        SetForm::Tuples(forms) => { matches!(v, Value::Fun(pairs) if tuple_belongs(forms, pairs)) }
    }
}

#[cycle(belongs)]
fn sequence_belongs(form: &SetForm, pairs: &List<(Value, Value)>) -> bool
    ensures { result ≡ passes (list_all (belongs form.now)) (items_of pairs.now) }
{
    is_sequence(pairs.as_slice()) && all_results_belong(form, pairs.as_slice())
}

#[cycle(belongs)]
fn function_belongs(form: &SetForm, items: &List<Value>, pairs: &List<(Value, Value)>) -> bool
    ensures { result ≡ (same_set items.now (arguments pairs.now) && list_all (belongs form.now)
        (results pairs.now)) }
{
    same_arguments(items.as_slice(), pairs.as_slice()) && all_results_belong(form, pairs.as_slice())
}

#[cycle(belongs)]
fn record_belongs(forms: &List<SetForm>, names: &List<Text>, pairs: &List<(Value, Value)>) -> bool
    ensures { result ≡ (has_fields names.now pairs.now && all_belong forms.now
        (fields_at names.now pairs.now)) }
{
    same_fields(names.as_slice(), pairs.as_slice())
        && fields_belong(forms.as_slice(), names.as_slice(), pairs.as_slice())
}

#[cycle(belongs)]
fn tuple_belongs(forms: &List<SetForm>, pairs: &List<(Value, Value)>) -> bool
    ensures { result ≡ passes (all_belong forms.now) (items_of pairs.now) }
{
    is_sequence(pairs.as_slice()) && items_belong(forms.as_slice(), pairs.as_slice())
}

/// Whether the form is a set or described by what belongs to it. Takes no memory.
pub fn is_set_form(form: &SetForm) -> bool
    ensures { result ≡ is_set_form form.now }
{
    match form {
        SetForm::Plain(v) => matches!(v, Value::Set(_)),
        _ => true,
    }
}

fn is_natural(v: &Value) -> bool
    ensures { result ≡ is_natural (out-Value v.now) }
{
    matches!(v, Value::Int(n) if *n >= 0)
}

// Whether the value is one of the items.
fn is_among(v: &Value, items: &[Value]) -> bool
    ensures { result ≡ member v.now items.now }
{
    items.iter().any(|item| same_value(v, item))
}

fn is_argument(a: &Value, pairs: &[(Value, Value)]) -> bool
    ensures { result ≡ list_any (λ q. same_value a.now q.0) pairs.now }
{
    pairs.iter().any(|pair| same_value(a, &pair.0))
}

// Whether the arguments are just these items.
fn same_arguments(items: &[Value], pairs: &[(Value, Value)]) -> bool
    ensures { result ≡ same_set items.now (arguments pairs.now) }
{
    all_are_arguments(items, pairs) && all_arguments_among(pairs, items)
}

fn all_are_arguments(items: &[Value], pairs: &[(Value, Value)]) -> bool
    ensures { result ≡ list_all (λ x. list_any (λ q. same_value x q.0) pairs.now) items.now }
{
    items.iter().all(|item| is_argument(item, pairs))
}

fn all_arguments_among(pairs: &[(Value, Value)], items: &[Value]) -> bool
    ensures { result ≡ list_all (λ q. member q.0 items.now) pairs.now }
{
    pairs.iter().all(|pair| is_among(&pair.0, items))
}

/// Whether each of the values belongs to the form. Takes no memory.
#[cycle(belongs)]
pub fn all_belong(form: &SetForm, values: &[Value]) -> bool
    ensures { result ≡ list_all (belongs form.now) values.now }
{
    for v in values {
        if !belongs(form, v) {
            return false;
        }
    }
    true
}

#[cycle(belongs)]
fn all_results_belong(form: &SetForm, pairs: &[(Value, Value)]) -> bool
    ensures { result ≡ list_all (belongs form.now) (results pairs.now) }
{
    for (_, v) in pairs {
        if !belongs(form, v) {
            return false;
        }
    }
    true
}

// Whether the arguments are just these names.
fn same_fields(names: &[Text], pairs: &[(Value, Value)]) -> bool
    ensures { result ≡ has_fields names.now pairs.now }
{
    all_are_fields(names, pairs) && all_fields_named(pairs, names)
}

fn all_are_fields(names: &[Text], pairs: &[(Value, Value)]) -> bool
    ensures { result ≡ list_all (λ n. list_any (λ q. same_value (Value.Text n) q.0) pairs.now) names.now }
{
    names.iter().all(|name| is_field(name, pairs))
}

fn is_field(name: &Text, pairs: &[(Value, Value)]) -> bool
    ensures { result ≡ list_any (λ q. same_value (Value.Text name.now) q.0) pairs.now }
{
    pairs.iter().any(|pair| is_text_of(&pair.0, name))
}

fn all_fields_named(pairs: &[(Value, Value)], names: &[Text]) -> bool
    ensures { result ≡ list_all (λ q. list_any (λ n. same_value q.0 (Value.Text n)) names.now) pairs.now }
{
    pairs.iter().all(|pair| is_named(&pair.0, names))
}

fn is_named(v: &Value, names: &[Text]) -> bool
    ensures { result ≡ list_any (λ n. same_value v.now (Value.Text n)) names.now }
{
    names.iter().any(|name| is_text_of(v, name))
}

fn is_text_of(v: &Value, name: &Text) -> bool
    ensures left { result ≡ same_value v.now (Value.Text name.now) }
    ensures right { result ≡ same_value (Value.Text name.now) v.now }
{
    match v {
        Value::Text(text) => text.bytes().cmp(name.bytes()).is_eq(),
        _ => false,
    }
}

// The value at a name.
fn field_of<'a>(name: &Text, pairs: &'a [(Value, Value)]) -> Option<&'a Value>
    ensures { option_copied result ≡ apply pairs.now (Value.Text name.now) }
{
    for (argument, v) in pairs {
        if is_text_of(argument, name) {
            return Some(v);
        }
    }
    None
}

#[cycle(belongs)]
fn fields_belong(forms: &[SetForm], names: &[Text], pairs: &[(Value, Value)]) -> bool
    ensures { result ≡ all_belong forms.now (fields_at names.now pairs.now) }
{
    let mut place = 0;
    for name in names {
        if let Some(v) = field_of(name, pairs) {
            if place >= forms.len() || !belongs(&forms[place], v) {
                return false;
            }
            place += 1;
        }
    }
    place == forms.len()
}

#[cycle(belongs)]
fn items_belong(forms: &[SetForm], pairs: &[(Value, Value)]) -> bool
    ensures { result ≡ all_belong forms.now (results pairs.now) }
{
    if forms.len() != pairs.len() {
        return false;
    }
    for i in 0..pairs.len() {
        if !belongs(&forms[i], &pairs[i].1) {
            return false;
        }
    }
    true
}

// `\in`, `\notin` and `\subseteq`, of a value and a form that is to be a set form.
pub(crate) fn tested(op: &Op, v: &Value, form: &SetForm, place: Place) -> Answer<Value>
    ensures { Gives (tested op.now place v.now form.now) result }
{
    if !is_set_form(form) {
        return Err(Stop::Wrong(place));
    }
    match (op, v) {
        (Op::In, _) => Ok(Value::Bool(belongs(form, v))),
        (Op::NotIn, _) => Ok(Value::Bool(!belongs(form, v))),
        (Op::SubsetEq, Value::Set(set)) => Ok(Value::Bool(all_belong(form, set.as_slice()))),
        _ => Err(Stop::Wrong(place)),
    }
}

// `Seq(F)` and `SUBSET F`.
pub(crate) fn one_form(alloc: Global, op: &Op, form: SetForm, place: Place) -> Answer<SetForm>
    ensures { GivesForm (form_of_one place (one_form op.now) (Made form ∷ [])) result }
{
    if !is_set_form(&form) {
        return Err(Stop::Wrong(place));
    }
    let part = Boxed::new(alloc, form)?;
    match op {
        Op::SeqSet => Ok(SetForm::Sequences(part)),
        _ => Ok(SetForm::Subsets(part)),
    }
}

// `[a: F, b: G]` and `F \X G`.
#[tactic(auto, using(crate::proofs::StopLemmas::several_are))]
pub(crate) fn form_of_several(
    alloc: Global,
    op: &Op,
    forms: List<SetForm>,
    place: Place,
) -> Answer<SetForm>
    ensures { GivesForm (form_of_all place (form_of_several op.now) (map (λ f. Made f) forms))
        result }
{
    if !all_set_forms(forms.as_slice()) {
        return Err(Stop::Wrong(place));
    }
    match op {
        Op::RecSet(names) => Ok(SetForm::Records(copy_texts(alloc, names)?, forms)),
        _ => Ok(SetForm::Tuples(forms)),
    }
}

fn all_set_forms(forms: &[SetForm]) -> bool
    ensures { result ≡ all_set_forms forms.now }
{
    forms.iter().all(|form| is_set_form(form))
}

// `[S -> F]`: a value that is to be a set, and the only one of some forms.
pub(crate) fn functions_from(
    alloc: Global,
    domain: Value,
    forms: List<SetForm>,
    place: Place,
) -> Answer<SetForm>
    ensures { GivesForm (functions_from place (set_items (out-Value domain))
        (map (λ f. Made f) forms)) result }
{
    let Value::Set(items) = domain else {
        return Err(Stop::Wrong(place));
    };
    let mut rest = forms.into_vec();
    if rest.len() != 1 {
        return Err(Stop::Wrong(place));
    }
    match rest.pop() {
        Some(form) => {
            if !is_set_form(&form) {
                return Err(Stop::Wrong(place));
            }
            Ok(SetForm::Functions(items, Boxed::new(alloc, form)?))
        }
        None => Err(Stop::Wrong(place)),
    }
}
