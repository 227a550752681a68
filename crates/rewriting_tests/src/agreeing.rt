//! What trees give as cells, against what the evaluator gives of their expressions.

ghost use Rattle.kernel_trees.specs.Systems.{sound_job};
ghost use Rattle.std.specs.List.{All};
ghost use Rattle.std.specs.Prelude.{◌≤◌, IfOk, IsTrue};
ghost use Rattle.tla_values.specs.Sets.{Normal};

use crate::cases::{CASES, FREE_CASES};
use crate::decoding::{are_met, extended, is_true, value_at};
use crate::given::{Freedom, Given, names_given};
use crate::jobs::{expression, job_in, kernel_in};
use crate::random_cases::RANDOM;
use crate::reports::{ended, passes, put_line};
use crate::settings::{Setting, set_up};
use cell_arena::{Build, CellId};
use kernel_trees::KerJob;
use sat_formula::Assignment;
use std::alloc::{AllocError, Global};
use std::test::Fail;
use tla_evaluator::{eval, is_expanded};
use tla_meaning::{Env, Expr, Job, Outcome, State};
use tla_values::{List, Value, is_normal, same_value, show};

/// Of what a case is asked: at which width, and which literals of its names are free.
#[derive(Clone, Copy, Drop)]
pub struct Ask {
    pub width: u32,
    pub free: Freedom,
}

// The questions: the first three of each random case.
fn question(number: usize) -> Ask
    ensures from { 4 ≤ result.width }
    ensures to { result.width ≤ 64 }
{
    match number {
        0 => Ask {
            width: 4,
            free: Freedom::Nothing,
        },
        1 => Ask {
            width: 8,
            free: Freedom::Nothing,
        },
        2 => Ask {
            width: 4,
            free: Freedom::Lowest,
        },
        _ => Ask {
            width: 4,
            free: Freedom::Results,
        },
    }
}

// How many assignments there are to the literals of so many names.
fn choices(names: usize) -> usize {
    match names {
        0 => 1,
        1 => 2,
        2 => 4,
        _ => 8,
    }
}

// How many assignments are tried.
fn tries(free: Freedom, names: usize, primed: bool) -> usize {
    match free {
        Freedom::Nothing => choices(names).wrapping_mul(if primed { 2 } else { 1 }),
        Freedom::Lowest => 8,
        Freedom::Results => 64,
    }
}

// The bit of the last of the first literals, which turns the names' in the next state.
const TURNED: u64 = 8;

// Bits of the first literals, of the names' alone and then with the last one.
fn first_bits(names: usize, number: usize) -> u64 {
    let all = choices(names);
    if number < all {
        return number as u64;
    }
    (number.wrapping_sub(all) as u64).wrapping_add(TURNED)
}

// Bits of all literals that are free.
fn all_bits(number: usize) -> u64 {
    if number == 1 {
        return u64::MAX;
    }
    (number as u64).wrapping_mul(0x9e37_79b9_7f4a_7c15)
}

// The values of the literals that are free, the first literal's in the lowest bit.
fn mask(free: Freedom, names: usize, number: usize) -> u64 {
    match free {
        Freedom::Nothing => first_bits(names, number),
        Freedom::Lowest => all_bits(number),
        Freedom::Results => all_bits(number),
    }
}

// The state of the values of these cells.
fn state(alloc: Global, b: &Build, ids: &[CellId], a: &Assignment) -> Result<State, AllocError>
    ensures { IfOk result (λ s. All Normal s.vals) }
{
    let mut vals = List::new(alloc);
    for id in ids {
        let v = value_at(alloc, b, *id, a)?;
        if is_normal(&v) {
            vals.push(v)?;
        }
    }
    Ok(State { vals })
}

// The cells that are there.
fn there(alloc: Global, ids: &[Option<CellId>]) -> Result<Vec<CellId>, AllocError> {
    let mut out = Vec::new(alloc);
    for id in ids {
        if let Some(id) = id {
            out.push(*id)?;
        }
    }
    Ok(out)
}

fn text_of(alloc: Global, v: &Value) -> Result<Vec<u8>, AllocError> {
    let mut out = Vec::new(alloc);
    show(alloc, v, &mut out)?;
    Ok(out)
}

// The text of a value, or the word of a fault.
fn told(alloc: Global, outcome: Outcome) -> Result<Vec<u8>, AllocError> {
    match outcome {
        Outcome::Val(v) => text_of(alloc, &v),
        Outcome::Wrong(_) => Vec::from_slice(alloc, b"wrong"),
        Outcome::Big(_) => Vec::from_slice(alloc, b"big"),
    }
}

// The text of what the expression gives at the two states.
fn meant(alloc: Global, e: &Expr, s: &State, t: &State, width: u32) -> Result<Vec<u8>, AllocError>
    requires now { All Normal s.now.vals }
    requires next { All Normal t.now.vals }
    requires from { 4 ≤ width }
    requires to { width ≤ 64 }
{
    if !is_expanded(e) {
        return Vec::from_slice(alloc, b"not expanded");
    }
    let env = Env {
        vals: List::new(alloc),
    };
    let outcome = eval(alloc, e, &env, s, Some(t), width)?;
    told(alloc, outcome)
}

// The text of what the expression gives in this state and the next one.
fn wanted(
    alloc: Global,
    setting: &Setting,
    e: &Expr,
    now: &State,
    a: &Assignment,
) -> Result<Vec<u8>, AllocError>
    requires { All Normal now.now.vals }
{
    let next = there(alloc, setting.env.next.as_slice())?;
    let later = state(alloc, &setting.b, next.as_slice(), a)?;
    meant(alloc, e, now, &later, setting.b.width())
}

/// The text of what the cells say.
pub fn shown(alloc: Global, setting: &Setting, a: &Assignment) -> Result<Vec<u8>, AllocError> {
    let wrong = is_true(setting.found.wrong, a.values());
    let big = is_true(setting.found.big, a.values());
    match (wrong, big) {
        (true, true) => Vec::from_slice(alloc, b"wrong and big"),
        (true, false) => Vec::from_slice(alloc, b"wrong"),
        (false, true) => Vec::from_slice(alloc, b"big"),
        (false, false) => {
            let v = value_at(alloc, &setting.b, setting.found.cell, a)?;
            text_of(alloc, &v)
        }
    }
}

// Whether a name's cell has the value that its literal says.
fn is_given(given: &Given, name: usize, v: Option<&Value>, a: &[bool]) -> bool {
    let list = match a.get(name.wrapping_add(1)) {
        Some(true) => &given.firsts,
        _ => &given.seconds,
    };
    match (v, list.as_slice().get(name)) {
        (Some(x), Some(y)) => same_value(x, y),
        _ => false,
    }
}

// Whether the names' cells have the values that their literals say, where nothing else is free.
fn are_given(given: &Given, now: &State, a: &[bool]) -> bool {
    if !matches!(given.free, Freedom::Nothing) {
        return true;
    }
    let vals = now.vals.as_slice();
    for name in 0..given.firsts.as_slice().len() {
        if !is_given(given, name, vals.get(name), a) {
            return false;
        }
    }
    true
}

// Whether the cells say what the expression gives, under this assignment.
fn says(
    alloc: Global,
    setting: &Setting,
    given: &Given,
    e: &Expr,
    a: &Assignment,
) -> Result<bool, AllocError> {
    let now = state(alloc, &setting.b, setting.env.now.as_slice(), a)?;
    if !are_given(given, &now, a.values()) {
        return Ok(false);
    }
    let found = shown(alloc, setting, a)?;
    let want = wanted(alloc, setting, e, &now, a)?;
    Ok(found.as_slice() == want.as_slice())
}

// Whether the cells say what the expression gives, where the free literals have the bits of the mask.
fn agrees(
    alloc: Global,
    setting: &Setting,
    given: &Given,
    e: &Expr,
    mask: u64,
) -> Result<bool, AllocError> {
    let a = extended(alloc, &setting.b.formula, mask)?;
    if !are_met(&setting.b.formula, a.values()) {
        return Ok(false);
    }
    says(alloc, setting, given, e, &a)
}

// What is found of a case at a question.
#[derive(Clone, Copy, Drop)]
enum Finding {
    Agrees,
    /// Under the assignment of this number the cells say anything else.
    Differs(usize),
    /// The tree has no cells.
    NoCells,
}

fn compared(
    alloc: Global,
    setting: &Setting,
    given: &Given,
    e: &Expr,
    primed: bool,
) -> Result<Finding, AllocError> {
    let names = given.firsts.as_slice().len();
    for number in 0..tries(given.free, names, primed) {
        let bits = mask(given.free, names, number);
        if !agrees(alloc, setting, given, e, bits)? {
            return Ok(Finding::Differs(number));
        }
    }
    Ok(Finding::Agrees)
}

// What is found where this is given of the names.
fn found_given(
    alloc: Global,
    kernel: &KerJob,
    e: &Expr,
    given: &Given,
    width: u32,
    primed: bool,
) -> Result<Finding, AllocError>
    requires sound { IsTrue (sound_job kernel.now) }
    requires from { 4 ≤ width }
    requires to { width ≤ 64 }
{
    match set_up(alloc, kernel, given, width)? {
        Some(setting) => {
            let finding = compared(alloc, &setting, given, e, primed);
            drop(setting);
            finding
        }
        None => Ok(Finding::NoCells),
    }
}

fn asked(
    alloc: Global,
    kernel: &KerJob,
    job: &Job,
    ask: Ask,
    primed: bool,
) -> Result<Finding, AllocError>
    requires sound { IsTrue (sound_job kernel.now) }
    requires from { 4 ≤ ask.width }
    requires to { ask.width ≤ 64 }
{
    let Some(e) = expression(job) else {
        return Ok(Finding::NoCells);
    };
    let given = names_given(alloc, job, kernel.names.len(), ask.width, ask.free)?;
    let finding = found_given(alloc, kernel, e, &given, ask.width, primed);
    drop(given);
    finding
}

// What is wrong at a question; nothing where all is well.
fn finding_text(alloc: Global, number: usize, finding: Finding) -> Result<String, AllocError> {
    match finding {
        Finding::Agrees => Ok(String::new(alloc)),
        Finding::Differs(at) => format!(in alloc; " question {number}, assignment {at}"),
        Finding::NoCells => format!(in alloc; " question {number}, no cells"),
    }
}

// Which questions are asked, and of which lines: those whose number leaves this rest at division by eight, or of all.
#[derive(Clone, Copy, Drop)]
struct Asks {
    from: usize,
    to: usize,
    rest: Option<usize>,
}

// What is wrong with a case.
fn wrong(
    alloc: Global,
    kernel: &KerJob,
    job: &Job,
    asks: Asks,
    primed: bool,
) -> Result<String, AllocError>
    requires { IsTrue (sound_job kernel.now) }
{
    let mut out = String::new(alloc);
    for number in asks.from..asks.to {
        let finding = asked(alloc, kernel, job, question(number), primed)?;
        let text = finding_text(alloc, number, finding)?;
        out.push_str(text.as_str())?;
    }
    Ok(out)
}

fn wrong_job(alloc: Global, job: &Job, asks: Asks, primed: bool) -> Result<String, AllocError> {
    match kernel_in(alloc, job)? {
        Some(kernel) => {
            let text = wrong(alloc, &kernel, job, asks, primed);
            drop(kernel);
            text
        }
        None => String::from_str(alloc, " no kernel"),
    }
}

fn wrong_line(alloc: Global, line: &str, asks: Asks) -> Result<String, AllocError> {
    let job = job_in(alloc, line)?;
    let text = wrong_job(alloc, &job, asks, line.contains("'"));
    drop(job);
    text
}

fn is_asked(asks: Asks, number: usize) -> bool {
    match asks.rest {
        Some(rest) => number % 8 == rest,
        None => true,
    }
}

// The lines of which something is wrong, and how many are asked.
fn report(alloc: Global, table: &str, asks: Asks) -> Result<String, AllocError> {
    let mut out = String::new(alloc);
    let mut number: usize = 0;
    let mut cases: usize = 0;
    for line in table.lines() {
        if is_asked(asks, number) {
            let found = wrong_line(alloc, line, asks)?;
            put_line(alloc, line, found.as_str(), &mut out)?;
            cases = cases.wrapping_add(1);
        }
        number = number.wrapping_add(1);
    }
    ended(alloc, &mut out, cases)?;
    Ok(out)
}

const KNOWN: Asks = Asks {
    from: 0,
    to: 2,
    rest: None,
};

const FREE: Asks = Asks {
    from: 3,
    to: 4,
    rest: None,
};

// The random cases whose number leaves this rest.
fn random_cases(alloc: Global, rest: usize) -> Result<String, AllocError> {
    let asks = Asks {
        from: 0,
        to: 3,
        rest: Some(rest),
    };
    report(alloc, RANDOM, asks)
}

#[test]
fn trees_agree_with_the_evaluator(rt: HostRuntime) -> Result<(), Fail> {
    passes(&rt, report(rt.alloc(), CASES, KNOWN), "76 cases")
}

#[test]
fn trees_agree_where_all_bits_are_free(rt: HostRuntime) -> Result<(), Fail> {
    passes(&rt, report(rt.alloc(), FREE_CASES, FREE), "32 cases")
}

#[test]
fn random_trees_agree_with_the_evaluator_0(rt: HostRuntime) -> Result<(), Fail> {
    passes(&rt, random_cases(rt.alloc(), 0), "63 cases")
}

#[test]
fn random_trees_agree_with_the_evaluator_1(rt: HostRuntime) -> Result<(), Fail> {
    passes(&rt, random_cases(rt.alloc(), 1), "63 cases")
}

#[test]
fn random_trees_agree_with_the_evaluator_2(rt: HostRuntime) -> Result<(), Fail> {
    passes(&rt, random_cases(rt.alloc(), 2), "63 cases")
}

#[test]
fn random_trees_agree_with_the_evaluator_3(rt: HostRuntime) -> Result<(), Fail> {
    passes(&rt, random_cases(rt.alloc(), 3), "63 cases")
}

#[test]
fn random_trees_agree_with_the_evaluator_4(rt: HostRuntime) -> Result<(), Fail> {
    passes(&rt, random_cases(rt.alloc(), 4), "62 cases")
}

#[test]
fn random_trees_agree_with_the_evaluator_5(rt: HostRuntime) -> Result<(), Fail> {
    passes(&rt, random_cases(rt.alloc(), 5), "62 cases")
}

#[test]
fn random_trees_agree_with_the_evaluator_6(rt: HostRuntime) -> Result<(), Fail> {
    passes(&rt, random_cases(rt.alloc(), 6), "62 cases")
}

#[test]
fn random_trees_agree_with_the_evaluator_7(rt: HostRuntime) -> Result<(), Fail> {
    passes(&rt, random_cases(rt.alloc(), 7), "62 cases")
}
