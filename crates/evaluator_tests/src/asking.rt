// What expressions give, a case a line: `EXPRESSION => WHAT IT GIVES`, with the expressions that `reader` reads.
//
// The expected values come from the language (Specifying Systems, chapters 16 and 18) and not from the program.
ghost use Rattle.std.specs.List.{All};
ghost use Rattle.std.specs.Prelude.{◌≤◌, IfOk, IsTrue};
ghost use Rattle.tla_values.specs.Sets.{Normal};
ghost use Rattle.tla_evaluator.specs.Trees.{is_expanded};

use crate::actions::{ACTIONS, INVARIANTS, STARTS, STEPS};
use crate::cases::{BINDERS, FUNCTIONS, LOGIC, MEMBERS, NARROW, NUMBERS, SEQUENCES, SETS, WIDE};
use crate::reader::{NAMES, place, read};
use std::alloc::{AllocError, Global};
use std::test::Fail;
use tla_evaluator::{act, eval, invariant, is_expanded, next, start};
use tla_meaning::{Decl, Env, Expr, Job, Op, Outcome, Place, State};
use tla_values::{List, Text, Value, show};

// `c` is a constant, `long` has 128 items, `max` and `min` have 128 bits.
const NOW: &str = "0 0 1 TRUE <1 2 3> <1 2> (lambda [i] (range 1 128) 0) 300 1000000";

const NEXT: &str = "0 1 1 FALSE <1 2 3> <1 2 3> <> 0 0";

// Each with what is asked and the width.
const TABLES: [(Question, u32, &str); 13] = [
    (Question::Value, 8, LOGIC),
    (Question::Value, 8, NUMBERS),
    (Question::Value, 8, SETS),
    (Question::Value, 8, MEMBERS),
    (Question::Value, 8, BINDERS),
    (Question::Value, 8, FUNCTIONS),
    (Question::Value, 8, SEQUENCES),
    (Question::Value, 4, NARROW),
    (Question::Value, 64, WIDE),
    (Question::Action, 8, ACTIONS),
    (Question::Start, 8, STARTS),
    (Question::Step, 8, STEPS),
    (Question::Invariant, 8, INVARIANTS),
];

#[tactic(auto, using(tla_meaning::proofs::NormalShapes::int_normal))]
fn whole(n: i128) -> Value
    ensures { Normal result }
{
    Value::Int(n)
}

// The state of these values, with the greatest and the least number of 128 bits at its end.
fn state(alloc: Global, text: &str) -> Result<State, Fail>
    ensures { IfOk result (λ s. All Normal s.vals) }
{
    let (trees, _) = read(alloc, text.as_bytes())?;
    let mut vals = values(alloc, trees.as_slice())?;
    vals.push(whole(i128::MAX))?;
    vals.push(whole(i128::MIN))?;
    Ok(State {
        vals: List::from_vec(vals),
    })
}

fn values(alloc: Global, trees: &[Expr]) -> Result<Vec<Value>, AllocError>
    ensures { IfOk result (λ v. All Normal v.items) }
{
    let nothing = State {
        vals: List::new(alloc),
    };
    let unbound = Env {
        vals: List::new(alloc),
    };
    let mut vals = Vec::new(alloc);
    for e in trees {
        if is_expanded(e) {
            match eval(alloc, e, &unbound, &nothing, None, 64)? {
                Outcome::Val(v) => vals.push(v)?,
                _ => {}
            }
        }
    }
    Ok(vals)
}

// Where `v` is bound to 7.
fn environment(alloc: Global) -> Result<Env, AllocError>
    ensures { IfOk result (λ e. All (λ b. Normal b.1) e.vals) }
{
    let name = Text::from_vec(Vec::from_slice(alloc, b"v")?);
    let mut vals = List::new(alloc);
    vals.push((name, whole(7)))?;
    Ok(Env { vals })
}

// What is asked of the expressions of a line: the value of one; one as an action between two states; the start of
// which they are CInit, the assumptions and Init; the step of one as Next; and the first invariant that is not TRUE.
#[derive(Clone, Copy, Drop)]
enum Question {
    Value,
    Action,
    Start,
    Step,
    Invariant,
}

fn given(
    alloc: Global,
    question: Question,
    text: &str,
    s: &State,
    t: &State,
    width: u32,
) -> Result<String, Fail>
    requires narrow { width ≤ 64 }
    requires wide { 4 ≤ width }
    requires now { All Normal s.now.vals }
    requires next { All Normal t.now.vals }
{
    let (trees, mark) = read(alloc, text.as_bytes())?;
    match question {
        Question::Value => valued(alloc, trees.as_slice(), s, t, width, mark),
        Question::Action => acted(alloc, trees.as_slice(), s, t, width, mark),
        Question::Start => started(alloc, trees, s, width, mark),
        Question::Step => stepped(alloc, trees, s, t, width, mark),
        Question::Invariant => kept(alloc, trees, s, width, mark),
    }
}

fn valued(
    alloc: Global,
    trees: &[Expr],
    s: &State,
    t: &State,
    width: u32,
    mark: u32,
) -> Result<String, Fail>
    requires narrow { width ≤ 64 }
    requires wide { 4 ≤ width }
    requires now { All Normal s.now.vals }
    requires next { All Normal t.now.vals }
{
    match trees {
        [e] if is_expanded(e) => {
            let env = environment(alloc)?;
            let outcome = eval(alloc, e, &env, s, Some(t), width);
            drop(env);
            shown(alloc, outcome?, mark)
        }
        _ => unreadable(alloc),
    }
}

fn acted(
    alloc: Global,
    trees: &[Expr],
    s: &State,
    t: &State,
    width: u32,
    mark: u32,
) -> Result<String, Fail>
    requires narrow { width ≤ 64 }
    requires wide { 4 ≤ width }
    requires now { All Normal s.now.vals }
    requires next { All Normal t.now.vals }
{
    match trees {
        [e] if is_expanded(e) => {
            let outcome = act(alloc, e, s, t, width)?;
            shown(alloc, outcome, mark)
        }
        _ => unreadable(alloc),
    }
}

// A job ends by the call of `drop`, here and below, since its end at the end of a function has many cases.
fn started(
    alloc: Global,
    trees: Vec<Expr>,
    s: &State,
    width: u32,
    mark: u32,
) -> Result<String, Fail>
    requires narrow { width ≤ 64 }
    requires wide { 4 ≤ width }
    requires now { All Normal s.now.vals }
{
    if trees.len() != 3 {
        return unreadable(alloc);
    }
    let job = start_job(alloc, trees)?;
    let text = at_start(alloc, &job, s, width, mark);
    drop(job);
    text
}

fn at_start(alloc: Global, job: &Job, s: &State, width: u32, mark: u32) -> Result<String, Fail>
    requires narrow { width ≤ 64 }
    requires wide { 4 ≤ width }
    requires now { All Normal s.now.vals }
{
    if is_expanded(&job.cinit) && is_expanded(&job.assume) && is_expanded(&job.init) {
        let outcome = start(alloc, job, s, width)?;
        shown(alloc, outcome, mark)
    } else {
        unreadable(alloc)
    }
}

fn stepped(
    alloc: Global,
    trees: Vec<Expr>,
    s: &State,
    t: &State,
    width: u32,
    mark: u32,
) -> Result<String, Fail>
    requires narrow { width ≤ 64 }
    requires wide { 4 ≤ width }
    requires now { All Normal s.now.vals }
    requires next { All Normal t.now.vals }
{
    if trees.len() != 1 {
        return unreadable(alloc);
    }
    let job = step_job(alloc, trees)?;
    let text = at_step(alloc, &job, s, t, width, mark);
    drop(job);
    text
}

fn at_step(
    alloc: Global,
    job: &Job,
    s: &State,
    t: &State,
    width: u32,
    mark: u32,
) -> Result<String, Fail>
    requires narrow { width ≤ 64 }
    requires wide { 4 ≤ width }
    requires now { All Normal s.now.vals }
    requires next { All Normal t.now.vals }
{
    if is_expanded(&job.next) {
        let outcome = next(alloc, job, s, t, width)?;
        shown(alloc, outcome, mark)
    } else {
        unreadable(alloc)
    }
}

fn kept(alloc: Global, trees: Vec<Expr>, s: &State, width: u32, mark: u32) -> Result<String, Fail>
    requires narrow { width ≤ 64 }
    requires wide { 4 ≤ width }
    requires now { All Normal s.now.vals }
{
    let count = trees.len();
    let job = invariant_job(alloc, trees)?;
    let text = at_invariants(alloc, &job, count, s, width, mark);
    drop(job);
    text
}

// Where all of so many trees are expanded.
fn at_invariants(
    alloc: Global,
    job: &Job,
    count: usize,
    s: &State,
    width: u32,
    mark: u32,
) -> Result<String, Fail>
    requires narrow { width ≤ 64 }
    requires wide { 4 ≤ width }
    requires now { All Normal s.now.vals }
    requires expanded { All (λ e. IsTrue (is_expanded e.1)) job.now.invs }
{
    if job.invs.len() != count {
        return unreadable(alloc);
    }
    let (number, outcome) = invariant(alloc, job, s, width)?;
    let text = shown(alloc, outcome, mark)?;
    let numbered = format!(in alloc; "{number} {text}")?;
    Ok(numbered)
}

// ---- jobs, whose other parts are TRUE

fn start_job(alloc: Global, mut trees: Vec<Expr>) -> Result<Job, AllocError> {
    let names = declared(alloc)?;
    let init = last(alloc, &mut trees);
    let assume = last(alloc, &mut trees);
    let cinit = last(alloc, &mut trees);
    Ok(job(
        alloc,
        names,
        cinit,
        assume,
        init,
        truth(alloc),
        List::new(alloc),
    ))
}

fn step_job(alloc: Global, mut trees: Vec<Expr>) -> Result<Job, AllocError> {
    let names = declared(alloc)?;
    let next = last(alloc, &mut trees);
    Ok(job(
        alloc,
        names,
        truth(alloc),
        truth(alloc),
        truth(alloc),
        next,
        List::new(alloc),
    ))
}

fn invariant_job(alloc: Global, trees: Vec<Expr>) -> Result<Job, AllocError>
    ensures { IfOk result (λ j. All (λ e. IsTrue (is_expanded e.1)) j.invs) }
{
    let names = declared(alloc)?;
    let invs = expanded(alloc, trees)?;
    Ok(job(
        alloc,
        names,
        truth(alloc),
        truth(alloc),
        truth(alloc),
        truth(alloc),
        invs,
    ))
}

// Those of the trees that are expanded.
fn expanded(alloc: Global, trees: Vec<Expr>) -> Result<List<(Text, Expr)>, AllocError>
    ensures { IfOk result (λ l. All (λ e. IsTrue (is_expanded e.1)) l) }
{
    let mut invs = List::new(alloc);
    for e in trees {
        if is_expanded(&e) {
            invs.push((Text::from_vec(Vec::new(alloc)), e))?;
        }
    }
    Ok(invs)
}

fn job(
    alloc: Global,
    names: List<Decl>,
    cinit: Expr,
    assume: Expr,
    init: Expr,
    next: Expr,
    invs: List<(Text, Expr)>,
) -> Job
    ensures { All (λ e. IsTrue (is_expanded e.1)) invs → All (λ e. IsTrue (is_expanded e.1)) result.invs }
{
    Job {
        files: List::new(alloc),
        names,
        aliases: List::new(alloc),
        cinit,
        assume,
        init,
        next,
        invs,
    }
}

// The names, of which the first is a constant.
fn declared(alloc: Global) -> Result<List<Decl>, AllocError> {
    let mut names = List::new(alloc);
    for (i, name) in NAMES.iter().enumerate() {
        names.push(Decl {
            name: Text::from_vec(Vec::from_slice(alloc, *name)?),
            place: place(0),
            constant: i == 0,
            note: Text::from_vec(Vec::new(alloc)),
        })?;
    }
    Ok(names)
}

fn last(alloc: Global, trees: &mut Vec<Expr>) -> Expr {
    match trees.pop() {
        Some(e) => e,
        None => truth(alloc),
    }
}

fn truth(alloc: Global) -> Expr {
    Expr {
        place: place(0),
        op: Op::Bool(true),
        args: List::new(alloc),
        binds: List::new(alloc),
    }
}

fn value_text(alloc: Global, v: Value) -> Result<String, Fail> {
    let mut out = Vec::new(alloc);
    let shown = show(alloc, &v, &mut out);
    drop(v);
    shown?;
    let text = String::from_utf8(out)?;
    Ok(text)
}

// The text of a value, or the word alone where a fault stands at the mark.
pub(crate) fn shown(alloc: Global, outcome: Outcome, mark: u32) -> Result<String, Fail> {
    match outcome {
        Outcome::Val(v) => value_text(alloc, v),
        Outcome::Wrong(p) => fault(alloc, "wrong", p, mark),
        Outcome::Big(p) => fault(alloc, "big", p, mark),
    }
}

fn fault(alloc: Global, word: &str, p: Place, mark: u32) -> Result<String, Fail> {
    let text = if p == place(mark) {
        String::from_str(alloc, word)?
    } else {
        format!(in alloc; "{word} at {p:?}")?
    };
    Ok(text)
}

fn unreadable(alloc: Global) -> Result<String, Fail> {
    let text = String::from_str(alloc, "not readable")?;
    Ok(text)
}

fn put_wrong(text: &str, found: &str, out: &mut String) -> Result<(), AllocError> {
    for piece in [text, " => ", found, "\n"] {
        out.push_str(piece)?;
    }
    Ok(())
}

// Adds the lines of a table that give something else, each with what it gives.
fn put_failing(
    alloc: Global,
    question: Question,
    table: &str,
    s: &State,
    t: &State,
    width: u32,
    out: &mut String,
) -> Result<(), Fail>
    requires narrow { width ≤ 64 }
    requires wide { 4 ≤ width }
    requires now { All Normal s.now.vals }
    requires next { All Normal t.now.vals }
{
    for line in table.lines() {
        let (text, wanted) = line.split_once(" => ").unwrap_or((line, ""));
        let found = given(alloc, question, text, s, t, width)?;
        if found.as_str() != wanted {
            put_wrong(text, found.as_str(), out)?;
        }
    }
    Ok(())
}

fn failing(alloc: Global, s: &State, t: &State) -> Result<String, Fail>
    requires now { All Normal s.now.vals }
    requires next { All Normal t.now.vals }
{
    let mut all = String::new(alloc);
    for (question, width, table) in TABLES {
        if width < 4 || 64 < width {
            return Err("no width".into());
        }
        put_failing(alloc, question, table, s, t, width, &mut all)?;
    }
    Ok(all)
}

fn failing_in_states(alloc: Global) -> Result<String, Fail> {
    let s = state(alloc, NOW)?;
    let t = state(alloc, NEXT)?;
    if s.vals.len() != NAMES.len() || t.vals.len() != NAMES.len() {
        return Err("a state of other names".into());
    }
    failing(alloc, &s, &t)
}

#[test]
fn each_case_gives_what_the_language_says(rt: HostRuntime) -> Result<(), Fail> {
    assert_eq!(rt; failing_in_states(rt.alloc())?.as_str(), "");
    Ok(())
}
