// Names, places, traces, verdicts and their reports for the tests.
use std::alloc::{AllocError, Global};
use std::process::Abort;
use std::test::Fail;
use tla_meaning::{Decl, Place, State};
use tla_values::{List, Text, Value};
use trace_text::{Fault, Part, Trace, Verdict, Where, report_text};

pub(crate) fn text(alloc: Global, bytes: &str) -> Result<Text, AllocError> {
    Ok(Text::from_vec(Vec::from_slice(alloc, bytes.as_bytes())?))
}

pub(crate) fn at(line: u32, col: u32) -> Place {
    Place { file: 0, line, col }
}

fn variable(alloc: Global, name: &str) -> Result<Decl, AllocError> {
    Ok(Decl {
        name: text(alloc, name)?,
        place: at(4, 3),
        constant: false,
        note: Text::from_vec(Vec::new(alloc)),
    })
}

pub(crate) fn variables(alloc: Global, names: &[&str]) -> Result<List<Decl>, AllocError> {
    let mut all = List::new(alloc);
    for name in names {
        all.push(variable(alloc, *name)?)?;
    }
    Ok(all)
}

fn files(alloc: Global) -> Result<List<Text>, AllocError> {
    let mut all = List::new(alloc);
    all.push(text(alloc, "models/Row.tla")?)?;
    Ok(all)
}

// ---- states

/// A state with these numbers.
pub(crate) fn state(alloc: Global, numbers: &[i128]) -> Result<State, AllocError> {
    let mut vals = List::new(alloc);
    for number in numbers {
        vals.push(Value::Int(*number))?;
    }
    Ok(State { vals })
}

fn states(alloc: Global, all: &[&[i128]]) -> Result<List<State>, AllocError> {
    let mut states = List::new(alloc);
    for numbers in all {
        states.push(state(alloc, *numbers)?)?;
    }
    Ok(states)
}

fn pairs(alloc: Global, numbers: &[i128]) -> Result<List<(Value, Value)>, AllocError> {
    let mut pairs = List::new(alloc);
    for number in numbers {
        pairs.push((Value::Int(*number), Value::Int(*number)))?;
    }
    Ok(pairs)
}

// A state with one value alone, the sequence of these numbers, which count from 1.
fn sequence(alloc: Global, numbers: &[i128]) -> Result<State, AllocError> {
    let mut vals = List::new(alloc);
    vals.push(Value::Fun(pairs(alloc, numbers)?))?;
    Ok(State { vals })
}

// ---- verdicts

fn run(alloc: Global, all: &[&[i128]]) -> Result<Trace, AllocError> {
    Ok(Trace {
        states: states(alloc, all)?,
        attempt: None,
    })
}

fn attempted(alloc: Global, all: &[&[i128]], attempt: &[i128]) -> Result<Trace, AllocError> {
    let states = states(alloc, all)?;
    let attempt = state(alloc, attempt)?;
    Ok(Trace {
        states,
        attempt: Some(attempt),
    })
}

/// At the level the invariant is FALSE, behind these states.
pub(crate) fn violated(alloc: Global, level: u32, all: &[&[i128]]) -> Result<Verdict, AllocError> {
    let name = text(alloc, "Inv")?;
    let trace = run(alloc, all)?;
    Ok(Verdict::Error(level, Fault::InvFalse(name), trace))
}

/// The invariant is Wrong at the place in this first state.
pub(crate) fn inv_wrong(
    alloc: Global,
    place: Place,
    numbers: &[i128],
) -> Result<Verdict, AllocError> {
    let name = text(alloc, "Inv")?;
    let trace = run(alloc, &[numbers])?;
    Ok(Verdict::Error(0, Fault::InvWrong(name, place), trace))
}

/// The start is Wrong at the place, for this attempt.
pub(crate) fn start_wrong(
    alloc: Global,
    place: Place,
    attempt: &[i128],
) -> Result<Verdict, AllocError> {
    let trace = attempted(alloc, &[], attempt)?;
    Ok(Verdict::Error(0, Fault::StartWrong(place), trace))
}

/// The step is Wrong at the place, from a state with the sequence to the same.
pub(crate) fn step_wrong(
    alloc: Global,
    place: Place,
    numbers: &[i128],
) -> Result<Verdict, AllocError> {
    let mut states = List::new(alloc);
    states.push(sequence(alloc, numbers)?)?;
    let attempt = Some(sequence(alloc, numbers)?);
    let trace = Trace { states, attempt };
    Ok(Verdict::Error(1, Fault::StepWrong(place), trace))
}

/// The invariant is not inductive: it is FALSE behind these states.
pub(crate) fn not_inductive(alloc: Global, all: &[&[i128]]) -> Result<Verdict, AllocError> {
    let name = text(alloc, "Inv")?;
    let trace = run(alloc, all)?;
    Ok(Verdict::NotInductive(Fault::InvFalse(name), trace))
}

/// The step to this level leaves the integers at the place, behind these states.
pub(crate) fn step_overflow(
    alloc: Global,
    level: u32,
    all: &[&[i128]],
    attempt: &[i128],
) -> Result<Verdict, AllocError> {
    let trace = attempted(alloc, all, attempt)?;
    Ok(Verdict::Overflow(Where::Level(level), Part::Step, at(7, 16), trace))
}

/// The assumption leaves the integers at the place, from a typed state.
pub(crate) fn assumption_overflow(alloc: Global, attempt: &[i128]) -> Result<Verdict, AllocError> {
    let trace = attempted(alloc, &[], attempt)?;
    Ok(Verdict::Overflow(Where::Typed, Part::Assumption, at(8, 10), trace))
}

// ---- reports

fn report(alloc: Global, verdict: &Verdict, names: &[&str]) -> Result<Vec<u8>, AllocError> {
    let names = variables(alloc, names)?;
    let files = files(alloc)?;
    report_text(alloc, verdict, &names, &files)
}

/// Whether the report of a verdict over these variables is the expected one. A verdict ends by the call of `drop`, since
/// its end at the end of a function has many cases.
pub(crate) fn agrees(
    alloc: Global,
    verdict: Verdict,
    names: &[&str],
    expected: &str,
) -> Result<bool, AllocError> {
    let report = report(alloc, &verdict, names);
    drop(verdict);
    let report = report?;
    Ok(report.as_slice() == expected.as_bytes())
}

/// Fails the test where another number is given.
pub(crate) fn same(
    rt: &impl Abort,
    given: Result<u64, AllocError>,
    wanted: u64,
) -> Result<(), Fail> {
    assert_eq!(rt; given?, wanted);
    Ok(())
}
