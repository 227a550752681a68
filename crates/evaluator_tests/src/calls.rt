// The calls on values, asked directly. Values and set forms end by a call of `drop`, since their end at the end of a
// function has many cases.
use crate::asking::shown;
use crate::reader::place;
use std::alloc::Global;
use std::test::Fail;
use tla_evaluator::{all_belong, belongs, is_set_form, table};
use tla_meaning::{Op, SetForm};
use tla_values::Value;

fn truths(alloc: Global) -> Result<String, Fail> {
    let truths = table(alloc, &Op::BooleanSet, place(1), Vec::new(alloc), 8)?;
    shown(alloc, truths, 0)
}

fn is_form(form: SetForm) -> bool {
    let is = is_set_form(&form);
    drop(form);
    is
}

fn has(form: &SetForm, n: i128) -> bool {
    let value = Value::Int(n);
    let has = belongs(form, &value);
    drop(value);
    has
}

fn has_all(form: &SetForm, a: i128, b: i128) -> bool {
    all_belong(form, &[Value::Int(a), Value::Int(b)])
}

// How many answers of the natural numbers are right before the first that is wrong.
fn count_right(naturals: &SetForm) -> usize {
    if !is_set_form(naturals) {
        return 0;
    }
    if is_form(SetForm::Plain(Value::Int(1))) {
        return 1;
    }
    if !has(naturals, 0) {
        return 2;
    }
    if has(naturals, -1) {
        return 3;
    }
    if has_all(naturals, 1, -1) { 4 } else { 5 }
}

fn count_forms() -> usize {
    let naturals = SetForm::AllNats;
    let right = count_right(&naturals);
    drop(naturals);
    right
}

#[test]
fn operators_and_set_forms_answer_of_values(rt: HostRuntime) -> Result<(), Fail> {
    assert_eq!(rt; truths(rt.alloc())?.as_str(), "{FALSE, TRUE}");
    assert_eq!(rt; count_forms(), 5);
    Ok(())
}
