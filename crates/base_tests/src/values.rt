//! Calls on values: each is a row of a table, built and asked in a function of its own.
use crate::passing::passes;
use std::alloc::{AllocError, Global};
use std::test::Fail;
use tla_values::{
    List, Text, Value, apply, cmp_values, copy_onto, copy_text, copy_texts, copy_value, domain_of,
    fun_of, inter_of, is_function, is_name, is_normal, is_set, member, minus, override_at,
    same_text, same_value, set_of, show, subset, union_of,
};

// A value as a row has it.
#[derive(Drop, Clone, Copy)]
enum Written<'a> {
    Bool(bool),
    Int(i128),
    Text(&'a [u8]),
    Set(&'a [i128]),
    /// The numbers at numbers.
    Numbered(&'a [(i128, i128)]),
    /// The numbers at texts.
    Named(&'a [(&'a [u8], i128)]),
}

// A call on two sets.
#[derive(Drop, Clone, Copy)]
enum Call {
    Union,
    Inter,
    Minus,
    Subset,
}

// A value, and how it is shown.
type Shown<'a> = (Written<'a>, &'a [u8]);

// A call on sets of numbers, and what it is to answer: a value as it is shown.
#[derive(Drop, Clone, Copy)]
enum OnSets<'a> {
    /// The set that is made of the numbers.
    Made(&'a [i128], &'a [u8]),
    /// That set, where the second numbers are copied behind the first.
    Joined(&'a [i128], &'a [i128], &'a [u8]),
    Combined(Call, &'a [i128], &'a [i128], &'a [u8]),
    /// Whether the numbers are listed as those of a set.
    Increasing(&'a [i128], bool),
    /// Whether the number is a member.
    Member(&'a [i128], i128, bool),
}

// A call on functions of numbers, and what it is to answer.
#[derive(Drop, Clone, Copy)]
enum OnFunctions<'a> {
    /// The function that is made of the pairs, or no text where there is none.
    Made(&'a [(i128, i128)], &'a [u8]),
    /// Whether the pairs are listed as those of a function.
    Paired(&'a [(i128, i128)], bool),
    Applied(&'a [(i128, i128)], i128, Option<i128>),
    /// The function with 9 at the argument.
    Changed(&'a [(i128, i128)], i128, &'a [u8]),
    Domain(&'a [(i128, i128)], &'a [u8]),
}

// What lists and texts keep.
#[derive(Drop, Clone, Copy)]
enum OnLists<'a> {
    /// The list of the bytes, pushed one by one, holds them and gives them back.
    Listed(&'a [u8]),
    /// The text of the bytes is copied, gives them back, and is another than the second.
    Texts(&'a [u8], &'a [u8]),
    /// The list of the two texts is copied.
    Copied(&'a [u8], &'a [u8]),
}

fn text(alloc: Global, bytes: &[u8]) -> Result<Text, AllocError> {
    Ok(Text::from_vec(Vec::from_slice(alloc, bytes)?))
}

fn numbers(alloc: Global, listed: &[i128]) -> Result<List<Value>, AllocError> {
    let mut items = List::new(alloc);
    for n in listed {
        items.push(Value::Int(*n))?;
    }
    Ok(items)
}

fn numbered(alloc: Global, listed: &[(i128, i128)]) -> Result<List<(Value, Value)>, AllocError> {
    let mut items = List::new(alloc);
    for (a, b) in listed {
        items.push((Value::Int(*a), Value::Int(*b)))?;
    }
    Ok(items)
}

fn named(alloc: Global, listed: &[(&[u8], i128)]) -> Result<List<(Value, Value)>, AllocError> {
    let mut items = List::new(alloc);
    for (name, n) in listed {
        items.push((Value::Text(text(alloc, *name)?), Value::Int(*n)))?;
    }
    Ok(items)
}

fn value(alloc: Global, written: Written) -> Result<Value, AllocError> {
    match written {
        Written::Bool(b) => Ok(Value::Bool(b)),
        Written::Int(n) => Ok(Value::Int(n)),
        Written::Text(bytes) => Ok(Value::Text(text(alloc, bytes)?)),
        Written::Set(listed) => Ok(Value::Set(numbers(alloc, listed)?)),
        Written::Numbered(listed) => Ok(Value::Fun(numbered(alloc, listed)?)),
        Written::Named(listed) => Ok(Value::Fun(named(alloc, listed)?)),
    }
}

// What stands behind an equals sign when the value is shown.
fn shown(alloc: Global, v: &Value) -> Result<Vec<u8>, AllocError> {
    let mut out = Vec::from_slice(alloc, b"= ")?;
    show(alloc, v, &mut out)?;
    Ok(out)
}

// Whether the value is normal and shown so.
fn shows(alloc: Global, v: &Value, want: &[u8]) -> Result<bool, AllocError> {
    Ok(is_normal(v) && shown(alloc, v)?.strip_prefix(b"= ") == Some(want))
}

fn is_shown(alloc: Global, written: Written, want: &[u8]) -> Result<bool, AllocError> {
    shows(alloc, &value(alloc, written)?, want)
}

fn makes_set(alloc: Global, listed: &[i128], want: &[u8]) -> Result<bool, AllocError> {
    shows(alloc, &set_of(alloc, numbers(alloc, listed)?)?, want)
}

fn joined(alloc: Global, listed: &[i128], others: &[i128]) -> Result<List<Value>, AllocError> {
    let mut items = numbers(alloc, listed)?.into_vec();
    copy_onto(alloc, numbers(alloc, others)?.as_slice(), &mut items)?;
    Ok(List::from_vec(items))
}

fn joins(alloc: Global, listed: &[i128], others: &[i128], want: &[u8]) -> Result<bool, AllocError> {
    shows(alloc, &set_of(alloc, joined(alloc, listed, others)?)?, want)
}

// What the call answers, or 0 where a list is no set.
fn combined(
    alloc: Global,
    call: Call,
    a: &List<Value>,
    b: &List<Value>,
) -> Result<Value, AllocError> {
    if !is_set(a) || !is_set(b) {
        return Ok(Value::Int(0));
    }
    match call {
        Call::Union => union_of(alloc, a, b),
        Call::Inter => inter_of(alloc, a, b),
        Call::Minus => minus(alloc, a, b),
        Call::Subset => Ok(Value::Bool(subset(a, b))),
    }
}

fn combines(
    alloc: Global,
    call: Call,
    a: &[i128],
    b: &[i128],
    want: &[u8],
) -> Result<bool, AllocError> {
    let v = combined(alloc, call, &numbers(alloc, a)?, &numbers(alloc, b)?)?;
    shows(alloc, &v, want)
}

fn lists_set(alloc: Global, listed: &[i128]) -> Result<bool, AllocError> {
    Ok(is_set(&numbers(alloc, listed)?))
}

fn has(set: &List<Value>, n: i128) -> Option<bool> {
    if is_set(set) {
        Some(member(&Value::Int(n), set))
    } else {
        None
    }
}

fn is_member(alloc: Global, listed: &[i128], n: i128) -> Result<Option<bool>, AllocError> {
    Ok(has(&numbers(alloc, listed)?, n))
}

fn makes_function(alloc: Global, listed: &[(i128, i128)], want: &[u8]) -> Result<bool, AllocError> {
    match fun_of(alloc, numbered(alloc, listed)?)? {
        Some(made) => shows(alloc, &made, want),
        None => Ok(want.is_empty()),
    }
}

fn lists_function(alloc: Global, listed: &[(i128, i128)]) -> Result<bool, AllocError> {
    Ok(is_function(&numbered(alloc, listed)?))
}

fn found(function: &List<(Value, Value)>, argument: i128) -> Option<i128> {
    if !is_function(function) {
        return None;
    }
    match apply(function, &Value::Int(argument)) {
        Some(Value::Int(n)) => Some(*n),
        _ => None,
    }
}

fn applied(
    alloc: Global,
    listed: &[(i128, i128)],
    argument: i128,
) -> Result<Option<i128>, AllocError> {
    Ok(found(&numbered(alloc, listed)?, argument))
}

fn changed(
    alloc: Global,
    function: &List<(Value, Value)>,
    argument: i128,
) -> Result<Value, AllocError> {
    override_at(alloc, function, &Value::Int(argument), &Value::Int(9))
}

fn changes(
    alloc: Global,
    listed: &[(i128, i128)],
    argument: i128,
    want: &[u8],
) -> Result<bool, AllocError> {
    shows(
        alloc,
        &changed(alloc, &numbered(alloc, listed)?, argument)?,
        want,
    )
}

fn has_domain(alloc: Global, listed: &[(i128, i128)], want: &[u8]) -> Result<bool, AllocError> {
    shows(alloc, &domain_of(alloc, &numbered(alloc, listed)?)?, want)
}

fn pushed(alloc: Global, bytes: &[u8]) -> Result<List<u8>, AllocError> {
    let mut list = List::new(alloc);
    for byte in bytes {
        list.push(*byte)?;
    }
    Ok(list)
}

// Whether each call on the list says that it holds the bytes, of which there are at most two.
fn holds(list: &List<u8>, bytes: &[u8]) -> bool {
    for i in 0..3 {
        if list.get(i) != bytes.get(i) {
            return false;
        }
    }
    list.len() == bytes.len() && list.is_empty() == bytes.is_empty()
}

fn is_listed(alloc: Global, bytes: &[u8]) -> Result<bool, AllocError> {
    let list = pushed(alloc, bytes)?;
    Ok(holds(&list, bytes) && list.into_vec().as_slice() == bytes)
}

fn same_copy(alloc: Global, text: &Text, bytes: &[u8]) -> Result<bool, AllocError> {
    let copy = copy_text(alloc, text)?;
    Ok(same_text(text, &copy) && copy.into_vec().as_slice() == bytes)
}

fn are_same(alloc: Global, text: &Text, bytes: &[u8]) -> Result<bool, AllocError> {
    Ok(same_text(text, &self::text(alloc, bytes)?))
}

fn is_kept(alloc: Global, bytes: &[u8], others: &[u8]) -> Result<bool, AllocError> {
    let text = text(alloc, bytes)?;
    Ok(same_copy(alloc, &text, bytes)? && !are_same(alloc, &text, others)?)
}

fn two_texts(alloc: Global, a: &[u8], b: &[u8]) -> Result<List<Text>, AllocError> {
    let mut texts = List::new(alloc);
    texts.push(text(alloc, a)?)?;
    texts.push(text(alloc, b)?)?;
    Ok(texts)
}

fn has_text(texts: &List<Text>, i: usize, bytes: &[u8]) -> bool {
    match texts.get(i) {
        Some(text) => text.bytes() == bytes,
        None => false,
    }
}

fn are_two(texts: &List<Text>, a: &[u8], b: &[u8]) -> bool {
    texts.len() == 2 && has_text(texts, 0, a) && has_text(texts, 1, b)
}

fn are_copied(alloc: Global, a: &[u8], b: &[u8]) -> Result<bool, AllocError> {
    Ok(are_two(&copy_texts(alloc, &two_texts(alloc, a, b)?)?, a, b))
}

trait Case {
    fn is_right(&self, alloc: Global) -> Result<bool, AllocError>;
}

impl<'a> Case for Shown<'a> {
    fn is_right(&self, alloc: Global) -> Result<bool, AllocError> {
        is_shown(alloc, self.0, self.1)
    }
}

// Whether the bytes are a name.
impl<'a> Case for (&'a [u8], bool) {
    fn is_right(&self, _alloc: Global) -> Result<bool, AllocError> {
        Ok(is_name(self.0) == self.1)
    }
}

impl<'a> Case for OnSets<'a> {
    fn is_right(&self, alloc: Global) -> Result<bool, AllocError> {
        match *self {
            OnSets::Made(listed, want) => makes_set(alloc, listed, want),
            OnSets::Joined(listed, others, want) => joins(alloc, listed, others, want),
            OnSets::Combined(call, a, b, want) => combines(alloc, call, a, b, want),
            OnSets::Increasing(listed, is_one) => Ok(lists_set(alloc, listed)? == is_one),
            OnSets::Member(listed, n, inside) => Ok(is_member(alloc, listed, n)? == Some(inside)),
        }
    }
}

impl<'a> Case for OnFunctions<'a> {
    fn is_right(&self, alloc: Global) -> Result<bool, AllocError> {
        match *self {
            OnFunctions::Made(listed, want) => makes_function(alloc, listed, want),
            OnFunctions::Paired(listed, is_one) => Ok(lists_function(alloc, listed)? == is_one),
            OnFunctions::Applied(listed, n, want) => Ok(applied(alloc, listed, n)? == want),
            OnFunctions::Changed(listed, n, want) => changes(alloc, listed, n, want),
            OnFunctions::Domain(listed, want) => has_domain(alloc, listed, want),
        }
    }
}

impl<'a> Case for OnLists<'a> {
    fn is_right(&self, alloc: Global) -> Result<bool, AllocError> {
        match *self {
            OnLists::Listed(bytes) => is_listed(alloc, bytes),
            OnLists::Texts(bytes, others) => is_kept(alloc, bytes, others),
            OnLists::Copied(a, b) => are_copied(alloc, a, b),
        }
    }
}

// How many cases are right before the first that is wrong.
fn count_right<C: Case>(alloc: Global, cases: &[C]) -> Result<usize, AllocError> {
    for i in 0..cases.len() {
        if !cases[i].is_right(alloc)? {
            return Ok(i);
        }
    }
    Ok(cases.len())
}

static PLAIN: [Shown; 11] = [
    (Written::Int(0), b"0"),
    (Written::Int(-120), b"-120"),
    (
        Written::Int(i128::MIN),
        b"-170141183460469231731687303715884105728",
    ),
    (Written::Text(b""), b"\"\""),
    (Written::Text(b"a\"b\\c d"), b"\"a\\\"b\\\\c d\""),
    (Written::Text(b"\t\n\x0c\r/"), b"\"\\t\\n\\f\\r/\""),
    (Written::Set(&[]), b"{}"),
    (Written::Set(&[7]), b"{7}"),
    (Written::Set(&[-1, 0, 12]), b"{-1, 0, 12}"),
    (Written::Bool(true), b"TRUE"),
    (Written::Bool(false), b"FALSE"),
];

#[test]
fn plain_values_have_their_texts(rt: HostRuntime) -> Result<(), Fail> {
    passes(&rt, count_right(rt.alloc(), &PLAIN), 11)
}

static OF_NUMBERS: [Shown; 6] = [
    (Written::Numbered(&[]), b"<<>>"),
    (Written::Numbered(&[(1, 5)]), b"<<5>>"),
    (Written::Numbered(&[(1, 5), (2, -1)]), b"<<5, -1>>"),
    (Written::Numbered(&[(0, 1)]), b"(0 :> 1)"),
    (Written::Numbered(&[(2, 1)]), b"(2 :> 1)"),
    (Written::Numbered(&[(1, 5), (3, 6)]), b"(1 :> 5 @@ 3 :> 6)"),
];

#[test]
fn functions_of_numbers_are_shown_as_tuples_or_pairs(rt: HostRuntime) -> Result<(), Fail> {
    passes(&rt, count_right(rt.alloc(), &OF_NUMBERS), 6)
}

static OF_NAMES: [Shown; 4] = [
    (Written::Named(&[(b"a", 1)]), b"[a |-> 1]"),
    (
        Written::Named(&[(b"_1a", 1), (b"b", 2)]),
        b"[_1a |-> 1, b |-> 2]",
    ),
    (
        Written::Named(&[(b"IF", 1), (b"a", 2)]),
        b"(\"IF\" :> 1 @@ \"a\" :> 2)",
    ),
    (Written::Named(&[(b"a b", 1)]), b"(\"a b\" :> 1)"),
];

#[test]
fn functions_of_names_are_shown_as_records(rt: HostRuntime) -> Result<(), Fail> {
    passes(&rt, count_right(rt.alloc(), &OF_NAMES), 4)
}

static NAMES: [(&[u8], bool); 16] = [
    (b"a", true),
    (b"X9", true),
    (b"_q", true),
    (b"WF", true),
    (b"SFx", true),
    (b"IFF", true),
    (b"", false),
    (b"_", false),
    (b"12", false),
    (b"a b", false),
    (b"a-b", false),
    (b"WITH", false),
    (b"ASSUME", false),
    (b"WF_", false),
    (b"WF_a", false),
    (b"SF_1", false),
];

#[test]
fn names_are_words_that_are_not_reserved(rt: HostRuntime) -> Result<(), Fail> {
    passes(&rt, count_right(rt.alloc(), &NAMES), 16)
}

// Each is below all later ones.
static RANKED: [Written; 18] = [
    Written::Bool(false),
    Written::Bool(true),
    Written::Int(-20),
    Written::Int(3),
    Written::Int(20),
    Written::Text(b""),
    Written::Text(b"B"),
    Written::Text(b"a"),
    Written::Text(b"aZ"),
    Written::Text(b"b"),
    Written::Set(&[]),
    Written::Set(&[1]),
    Written::Set(&[1, 3]),
    Written::Set(&[2]),
    Written::Numbered(&[]),
    Written::Numbered(&[(0, 8)]),
    Written::Numbered(&[(0, 9)]),
    Written::Numbered(&[(0, 9), (1, 0)]),
];

// Whether the values are in the order of their places.
fn are_ordered(a: &Value, b: &Value, i: usize, j: usize) -> bool {
    cmp_values(a, b) == i.cmp(&j) && same_value(a, b) == (i == j)
}

fn copied(alloc: Global, written: Written) -> Result<Value, AllocError> {
    copy_value(alloc, &value(alloc, written)?)
}

fn places_order(
    alloc: Global,
    first: Written,
    second: Written,
    i: usize,
    j: usize,
) -> Result<bool, AllocError> {
    Ok(are_ordered(&value(alloc, first)?, &copied(alloc, second)?, i, j))
}

// How many places there are before the first whose value is out of order with another's.
fn count_ordered(alloc: Global) -> Result<usize, AllocError> {
    for (i, first) in RANKED.iter().enumerate() {
        for (j, second) in RANKED.iter().enumerate() {
            if !places_order(alloc, *first, *second, i, j)? {
                return Ok(i);
            }
        }
    }
    Ok(RANKED.len())
}

#[test]
fn the_order_is_by_kind_and_then_within_it(rt: HostRuntime) -> Result<(), Fail> {
    passes(&rt, count_ordered(rt.alloc()), 18)
}

static SETS: [OnSets; 1] = [OnSets::Made(&[3, 1, 3, 2, 1], b"{1, 2, 3}")];

#[test]
fn a_set_has_each_item_once_in_order(rt: HostRuntime) -> Result<(), Fail> {
    passes(&rt, count_right(rt.alloc(), &SETS), 1)
}

static COMBINED: [OnSets; 16] = [
    OnSets::Combined(Call::Union, &[1, 3], &[2, 3], b"{1, 2, 3}"),
    OnSets::Combined(Call::Inter, &[1, 3], &[2, 3], b"{3}"),
    OnSets::Combined(Call::Minus, &[1, 3], &[2, 3], b"{1}"),
    OnSets::Combined(Call::Subset, &[1, 3], &[2, 3], b"FALSE"),
    OnSets::Combined(Call::Union, &[1, 3], &[1, 2, 3], b"{1, 2, 3}"),
    OnSets::Combined(Call::Inter, &[1, 3], &[1, 2, 3], b"{1, 3}"),
    OnSets::Combined(Call::Minus, &[1, 3], &[1, 2, 3], b"{}"),
    OnSets::Combined(Call::Subset, &[1, 3], &[1, 2, 3], b"TRUE"),
    OnSets::Combined(Call::Union, &[], &[5], b"{5}"),
    OnSets::Combined(Call::Inter, &[], &[5], b"{}"),
    OnSets::Combined(Call::Minus, &[], &[5], b"{}"),
    OnSets::Combined(Call::Subset, &[], &[5], b"TRUE"),
    OnSets::Combined(Call::Union, &[5], &[], b"{5}"),
    OnSets::Combined(Call::Inter, &[5], &[], b"{}"),
    OnSets::Combined(Call::Minus, &[5], &[], b"{5}"),
    OnSets::Combined(Call::Subset, &[5], &[], b"FALSE"),
];

#[test]
fn sets_are_combined(rt: HostRuntime) -> Result<(), Fail> {
    passes(&rt, count_right(rt.alloc(), &COMBINED), 16)
}

static MEMBERS: [OnSets; 5] = [
    OnSets::Member(&[1, 3], 0, false),
    OnSets::Member(&[1, 3], 1, true),
    OnSets::Member(&[1, 3], 2, false),
    OnSets::Member(&[1, 3], 3, true),
    OnSets::Member(&[1, 3], 4, false),
];

#[test]
fn a_set_has_its_members_alone(rt: HostRuntime) -> Result<(), Fail> {
    passes(&rt, count_right(rt.alloc(), &MEMBERS), 5)
}

static SETS_OUT_OF_ORDER: [OnSets; 2] = [
    OnSets::Increasing(&[2, 1], false),
    OnSets::Increasing(&[1, 1], false),
];

static FUNCTION_OUT_OF_ORDER: [OnFunctions; 1] = [OnFunctions::Paired(&[(1, 1), (1, 2)], false)];

#[test]
fn lists_out_of_order_are_not_normal(rt: HostRuntime) -> Result<(), Fail> {
    passes(&rt, count_right(rt.alloc(), &SETS_OUT_OF_ORDER), 2)?;
    passes(&rt, count_right(rt.alloc(), &FUNCTION_OUT_OF_ORDER), 1)
}

static FUNCTIONS: [OnFunctions; 2] = [
    OnFunctions::Made(&[(2, 6), (1, 5)], b"<<5, 6>>"),
    OnFunctions::Made(&[(1, 1), (2, 2), (1, 2)], b""),
];

#[test]
fn a_function_has_one_value_at_an_argument(rt: HostRuntime) -> Result<(), Fail> {
    passes(&rt, count_right(rt.alloc(), &FUNCTIONS), 2)
}

const PAIRS: &[(i128, i128)] = &[(1, 5), (2, 6)];

static CHANGED: [OnFunctions; 10] = [
    OnFunctions::Paired(PAIRS, true),
    OnFunctions::Applied(PAIRS, 0, None),
    OnFunctions::Changed(PAIRS, 0, b"<<5, 6>>"),
    OnFunctions::Applied(PAIRS, 1, Some(5)),
    OnFunctions::Changed(PAIRS, 1, b"<<9, 6>>"),
    OnFunctions::Applied(PAIRS, 2, Some(6)),
    OnFunctions::Changed(PAIRS, 2, b"<<5, 9>>"),
    OnFunctions::Applied(PAIRS, 3, None),
    OnFunctions::Changed(PAIRS, 3, b"<<5, 6>>"),
    OnFunctions::Domain(PAIRS, b"{1, 2}"),
];

#[test]
fn a_function_is_applied_and_changed_at_its_arguments_alone(rt: HostRuntime) -> Result<(), Fail> {
    passes(&rt, count_right(rt.alloc(), &CHANGED), 10)
}

static KEPT: [OnLists; 3] = [
    OnLists::Listed(b""),
    OnLists::Listed(b"\x04\x09"),
    OnLists::Texts(b"ab", b"ac"),
];

#[test]
fn lists_and_texts_give_back_what_they_hold(rt: HostRuntime) -> Result<(), Fail> {
    passes(&rt, count_right(rt.alloc(), &KEPT), 3)
}

static TEXTS_COPIED: [OnLists; 1] = [OnLists::Copied(b"one", b"")];

static VALUES_COPIED: [OnSets; 1] = [OnSets::Joined(&[3], &[1, 2], b"{1, 2, 3}")];

#[test]
fn copies_of_lists_are_equal(rt: HostRuntime) -> Result<(), Fail> {
    passes(&rt, count_right(rt.alloc(), &TEXTS_COPIED), 1)?;
    passes(&rt, count_right(rt.alloc(), &VALUES_COPIED), 1)
}
