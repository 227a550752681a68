// What is printed of a verdict.
ghost use Rattle.std.specs.Prelude.{◌≡◌, ◌+◌, ◌++◌, ◌<◌, ◌^◌, IfOk, OnOk, codes, drop, decimal, flat_map, length, zip};
ghost use Rattle.tla_values.specs.FileNames.{module_name};
ghost use Rattle.trace_text.specs.Reports.{attempt_text, block_text, fault_text, file_name, part_text, place_text, report_of, states_text, trace_text, value_line, where_text};

use crate::verdict::{Fault, Part, Trace, Verdict, Where};
use itoa::Buffer;
use std::alloc::{AllocError, Global};
use tla_meaning::{Decl, Place, State};
use tla_values::{List, Text, Value, module_name, show};

/// What is printed of the verdict: its first line, and the states of its trace with a line for each name. `files` are
/// the names of the module files at their numbers; a place is printed as `Module:line:column`.
pub fn report_text(
    alloc: Global,
    verdict: &Verdict,
    names: &List<Decl>,
    files: &List<Text>,
) -> Result<Vec<u8>, AllocError>
    ensures { IfOk result (λ report. report.items ≡ report_of verdict.now names.now files.now) }
{
    let mut out = Vec::new(alloc);
    match verdict {
        Verdict::Clean(level) => {
            append(b"no error to ", &mut out)?;
            number(*level as u64, &mut out)?;
            append(b"\n", &mut out)?;
        }
        Verdict::Inductive => append(b"inductive\n", &mut out)?,
        Verdict::Error(level, fault, trace) => {
            append(b"error at level ", &mut out)?;
            number(*level as u64, &mut out)?;
            append(b": ", &mut out)?;
            fault_line(fault, files.as_slice(), &mut out)?;
            states(alloc, trace, names.as_slice(), &mut out)?;
        }
        Verdict::Overflow(place, part, at, trace) => {
            append(b"unknown: integer out of range ", &mut out)?;
            origin(*place, &mut out)?;
            overflow_line(part, *at, files.as_slice(), &mut out)?;
            states(alloc, trace, names.as_slice(), &mut out)?;
        }
        Verdict::Spent(conflicts, place) => {
            append(b"unknown: conflict budget ", &mut out)?;
            number(*conflicts, &mut out)?;
            append(b" spent ", &mut out)?;
            origin(*place, &mut out)?;
            append(b"\n", &mut out)?;
        }
        Verdict::NotInductive(fault, trace) => {
            append(b"not inductive: ", &mut out)?;
            fault_line(fault, files.as_slice(), &mut out)?;
            states(alloc, trace, names.as_slice(), &mut out)?;
        }
    }
    Ok(out)
}

// ---- first lines

// What is wrong, to the end of the line.
fn fault_line(fault: &Fault, files: &[Text], out: &mut Vec<u8>) -> Result<(), AllocError>
    ensures { OnOk result (out.new.items ≡ out.old.items ++ (fault_text files.now fault.now ++ codes "\n")) }
{
    match fault {
        Fault::InvFalse(name) => {
            append(b"invariant ", out)?;
            append(name.bytes(), out)?;
            append(b" is FALSE\n", out)
        }
        Fault::InvWrong(name, at) => {
            append(b"invariant ", out)?;
            append(name.bytes(), out)?;
            outside(*at, files, out)?;
            Ok(())
        }
        Fault::StartWrong(at) => {
            append(b"start", out)?;
            outside(*at, files, out)
        }
        Fault::StepWrong(at) => {
            append(b"step", out)?;
            outside(*at, files, out)
        }
    }
}

fn outside(at: Place, files: &[Text], out: &mut Vec<u8>) -> Result<(), AllocError>
    ensures { OnOk result (out.new.items
        ≡ out.old.items ++ (codes " is outside an operator's domain at " ++ place_text files.now at ++ codes "\n")) }
{
    append(b" is outside an operator's domain at ", out)?;
    show_place(at, files, out)?;
    append(b"\n", out)?;
    Ok(())
}

// The part and its place, to the end of the line.
fn overflow_line(
    part: &Part,
    at: Place,
    files: &[Text],
    out: &mut Vec<u8>,
) -> Result<(), AllocError>
    ensures { OnOk result (out.new.items
        ≡ out.old.items ++ (codes ": " ++ part_text part.now ++ codes " at " ++ place_text files.now at ++ codes "\n")) }
{
    append(b": ", out)?;
    part_name(part, out)?;
    append(b" at ", out)?;
    show_place(at, files, out)?;
    append(b"\n", out)
}

fn part_name(part: &Part, out: &mut Vec<u8>) -> Result<(), AllocError>
    ensures { OnOk result (out.new.items ≡ out.old.items ++ part_text part.now) }
{
    match part {
        Part::Start => append(b"start", out),
        Part::Assumption => append(b"assumption", out),
        Part::Step => append(b"step", out),
        Part::Inv(name) => {
            append(b"invariant ", out)?;
            append(name.bytes(), out)
        }
    }
}

fn origin(place: Where, out: &mut Vec<u8>) -> Result<(), AllocError>
    ensures { OnOk result (out.new.items ≡ out.old.items ++ where_text place) }
{
    match place {
        Where::Level(level) => {
            append(b"at level ", out)?;
            number(level as u64, out)
        }
        Where::Typed => append(b"from a typed state", out),
    }
}

/// Adds a place as `Module:line:column` to what is written. `files` are the names of the module files at their numbers.
#[tactic(auto, unfolding(crate::specs::Reports::place_text))]
pub fn show_place(at: Place, files: &[Text], out: &mut Vec<u8>) -> Result<(), AllocError>
    ensures { OnOk result (out.new.items ≡ out.old.items ++ place_text files.now at) }
{
    append(module_in(files, at.file), out)?;
    append(b":", out)?;
    number(at.line as u64, out)?;
    append(b":", out)?;
    number(at.col as u64, out)
}

/// The module in the file of this number: the file's name without its folder and `.tla`.
pub fn module_in(files: &[Text], file: u32) -> &[u8]
    ensures { result.now ≡ module_name (file_name files.now file) }
{
    match files.get(file as usize) {
        Some(name) => module_name(name.bytes()),
        None => b"",
    }
}

// ---- states

// The states of a trace, and its attempt.
fn states(alloc: Global, trace: &Trace, names: &[Decl], out: &mut Vec<u8>) -> Result<(), AllocError>
    ensures { OnOk result (out.new.items ≡ out.old.items ++ trace_text names.now trace.now) }
{
    let states = trace.states.as_slice();
    for i in 0..states.len() {
        append(b"state ", out)?;
        number(i as u64, out)?;
        append(b"\n", out)?;
        block(alloc, names, &states[i], out)?;
    }
    match &trace.attempt {
        Some(state) => {
            append(b"attempt\n", out)?;
            block(alloc, names, state, out)
        }
        None => Ok(()),
    }
}

// A line for each name.
fn block(alloc: Global, names: &[Decl], state: &State, out: &mut Vec<u8>) -> Result<(), AllocError>
    ensures { OnOk result (out.new.items ≡ out.old.items ++ block_text names.now state.now) }
{
    let values = state.vals.as_slice();
    for i in 0..names.len().min(values.len()) {
        line(alloc, &names[i].name, &values[i], out)?;
    }
    Ok(())
}

#[tactic(auto, unfolding(crate::specs::Reports::value_line))]
fn line(alloc: Global, name: &Text, value: &Value, out: &mut Vec<u8>) -> Result<(), AllocError>
    ensures { OnOk result (out.new.items ≡ out.old.items ++ value_line (name.now, value.now)) }
{
    append(b"/\\ ", out)?;
    append(name.bytes(), out)?;
    append(b" = ", out)?;
    show(alloc, value, out)?;
    append(b"\n", out)
}

// ---- pieces

fn number(n: u64, out: &mut Vec<u8>) -> Result<(), AllocError>
    ensures { OnOk result (out.new.items ≡ out.old.items ++ decimal n) }
{
    let mut buffer = Buffer::new();
    append(buffer.format(n).as_bytes(), out)
}

fn append(bytes: &[u8], out: &mut Vec<u8>) -> Result<(), AllocError>
    ensures { OnOk result (out.new.items ≡ out.old.items ++ bytes.now) }
{
    out.extend_from_slice(bytes)
}
