// What is answered of the cases.
use crate::cases::{JOBS, NAMES, PRIMES};
use crate::printing::{form_word, show, show_place};
use crate::reader::Reader;
use op_inliner::{InlineFault, PartKind, expand, is_known, job_of};
use std::alloc::{AllocError, Global};
use std::test::Fail;
use tla_meaning::{Decl, Flat, Job, Place};
use tla_values::{List, Text};

fn text(alloc: Global, bytes: &[u8]) -> Result<Text, AllocError> {
    Ok(Text::from_vec(Vec::from_slice(alloc, bytes)?))
}

fn string(alloc: Global, bytes: &[u8]) -> Result<String, AllocError> {
    let mut s = String::new(alloc);
    for byte in bytes {
        s.push(char::from(*byte))?;
    }
    Ok(s)
}

fn module(alloc: Global, names: &[u8], definitions: &[u8]) -> Result<Flat, AllocError> {
    let mut decls = Vec::new(alloc);
    for name in names {
        decls.push(Decl {
            name: text(alloc, &[*name])?,
            place: Place {
                file: 0,
                line: 0,
                col: 0,
            },
            constant: *name == b'c',
            note: text(alloc, b"")?,
        })?;
    }
    let mut reader = Reader::new(alloc);
    reader.read_all(definitions)?;
    let Reader { defs, assumes, .. } = reader;
    Ok(Flat {
        files: List::new(alloc),
        decls: List::from_vec(decls),
        defs: List::from_vec(defs),
        assumes: List::from_vec(assumes),
        aliases: List::new(alloc),
    })
}

fn part_of(word: &[u8]) -> PartKind {
    match word {
        b"constants" => PartKind::Constants,
        b"start" => PartKind::Start,
        b"step" => PartKind::Step,
        _ => PartKind::Inv,
    }
}

fn refusal(alloc: Global, fault: InlineFault, out: &mut Vec<u8>) -> Result<(), AllocError> {
    out.extend_from_slice(b"refused: ")?;
    match fault {
        InlineFault::NoOperator(name) => {
            out.extend_from_slice(b"NoOperator ")?;
            out.extend_from_slice(name.bytes())
        }
        InlineFault::TooLarge(name, nodes) => {
            out.extend_from_slice(b"TooLarge ")?;
            out.extend_from_slice(name.bytes())?;
            out.extend_from_slice(format!(in alloc; " {nodes}")?.as_bytes())
        }
        InlineFault::TooDeep(name) => {
            out.extend_from_slice(b"TooDeep ")?;
            out.extend_from_slice(name.bytes())
        }
        InlineFault::Reached(form, place) => {
            out.extend_from_slice(b"Reached ")?;
            out.extend_from_slice(form_word(form))?;
            show_place(alloc, place, out)
        }
        InlineFault::Memory(_) => out.extend_from_slice(b"memory"),
    }
}

fn show_job(alloc: Global, job: &Job, out: &mut Vec<u8>) -> Result<(), AllocError> {
    for e in [&job.cinit, &job.assume, &job.init, &job.next] {
        show(alloc, e, out)?;
        out.extend_from_slice(b" / ")?;
    }
    for inv in job.invs.as_slice() {
        out.extend_from_slice(inv.0.bytes())?;
        out.push(b'=')?;
        show(alloc, &inv.1, out)?;
        out.extend_from_slice(b" / ")?;
    }
    let end = out.len().saturating_sub(3);
    out.truncate(end);
    Ok(())
}

fn asked_job(alloc: Global, flat: &Flat, call: &str) -> Result<Vec<u8>, AllocError> {
    let mut out = Vec::new(alloc);
    let mut words = Vec::new(alloc);
    for word in call.split(" ") {
        words.push(word)?;
    }
    let [init, next, cinit, invs @ ..] = words.as_slice() else {
        return Ok(out);
    };
    let mut names = List::new(alloc);
    for inv in invs {
        names.push(text(alloc, inv.as_bytes())?)?;
    }
    let cinit = if *cinit == "-" { None } else { Some(*cinit) };
    if !is_known(alloc, flat)? {
        return Ok(out);
    }
    match job_of(alloc, flat, init, next, cinit, &names) {
        Ok(job) => show_job(alloc, &job, &mut out)?,
        Err(fault) => refusal(alloc, fault, &mut out)?,
    }
    Ok(out)
}

fn asked_part(alloc: Global, flat: &Flat, name: &str, part: &str) -> Result<Vec<u8>, AllocError> {
    let mut out = Vec::new(alloc);
    if !is_known(alloc, flat)? {
        return Ok(out);
    }
    match expand(alloc, flat, name, part_of(part.as_bytes())) {
        Ok(tree) => show(alloc, &tree, &mut out)?,
        Err(fault) => refusal(alloc, fault, &mut out)?,
    }
    Ok(out)
}

// What is answered; nothing where a name in the module is not known.
fn asked(alloc: Global, flat: &Flat, call: &str) -> Result<Vec<u8>, AllocError> {
    let (name, part) = call.split_once(" ").unwrap_or((call, ""));
    if name == "job" {
        asked_job(alloc, flat, part)
    } else {
        asked_part(alloc, flat, name, part)
    }
}

// The line and what is answered, where that is not what it says.
fn wrong_line(alloc: Global, line: &str, all: &mut String) -> Result<(), AllocError> {
    let (names, rest) = line.split_once("|").unwrap_or((line, ""));
    let (definitions, rest) = rest.split_once("|").unwrap_or((rest, ""));
    let (call, wanted) = rest.split_once("|").unwrap_or((rest, ""));
    let flat = module(alloc, names.as_bytes(), definitions.as_bytes())?;
    let given = asked(alloc, &flat, call)?;
    if given.as_slice() != wanted.as_bytes() {
        all.push_str(line)?;
        all.push_str(" gives ")?;
        all.push_str(string(alloc, given.as_slice())?.as_str())?;
        all.push('\n')?;
    }
    Ok(())
}

fn wrong(alloc: Global, table: &str) -> Result<String, AllocError> {
    let mut all = String::new(alloc);
    for line in table.lines() {
        wrong_line(alloc, line, &mut all)?;
    }
    Ok(all)
}

#[test]
fn arguments_are_written_where_they_are_used(rt: HostRuntime) -> Result<(), Fail> {
    assert_eq!(rt; wrong(rt.alloc(), NAMES)?.as_str(), "");
    Ok(())
}

#[test]
fn primes_stand_at_the_variables(rt: HostRuntime) -> Result<(), Fail> {
    assert_eq!(rt; wrong(rt.alloc(), PRIMES)?.as_str(), "");
    Ok(())
}

#[test]
fn jobs_have_their_parts(rt: HostRuntime) -> Result<(), Fail> {
    assert_eq!(rt; wrong(rt.alloc(), JOBS)?.as_str(), "");
    Ok(())
}

// A definition's text, where `*` stands for this one.
fn add_definition(
    alloc: Global,
    name: &str,
    body: &str,
    before: &str,
    all: &mut String,
) -> Result<(), AllocError> {
    all.push_str(format!(in alloc; "(def [{name}] ")?.as_str())?;
    for byte in body.bytes() {
        if byte == b'*' {
            all.push_str(before)?;
        } else {
            all.push(char::from(byte))?;
        }
    }
    all.push(')')
}

// A chain of definitions, each over the one before, and the first bytes of what is answered of one over the last.
fn chained(
    alloc: Global,
    count: u64,
    first: &str,
    body: &str,
    last: &str,
) -> Result<String, AllocError> {
    let mut all = String::new(alloc);
    add_definition(alloc, "D0", first, "", &mut all)?;
    for i in 0..count {
        let next = i.wrapping_add(1);
        let name = format!(in alloc; "D{next}")?;
        let before = format!(in alloc; "D{i}")?;
        add_definition(alloc, name.as_str(), body, before.as_str(), &mut all)?;
    }
    let before = format!(in alloc; "D{count}")?;
    add_definition(alloc, "Inv", last, before.as_str(), &mut all)?;
    let flat = module(alloc, b"v", all.as_bytes())?;
    let given = asked(alloc, &flat, "Inv inv")?;
    let end = given.len().min(40);
    string(alloc, &given.as_slice()[..end])
}

// What is wrong of chains; the doubling ones have 1,048,577 and 524,289 nodes.
const CHAINS: [(u64, &str, &str, &str, &str); 9] = [
    (
        19,
        "1",
        "(add * *)",
        "(eq * 1)",
        "refused: TooLarge Inv 1048577",
    ),
    (
        18,
        "1",
        "(add * *)",
        "(eq * 1)",
        "(eq (add (add (add (add (add (add (add (",
    ),
    (
        60,
        "1",
        "(add * *)",
        "(eq * 1)",
        "refused: TooLarge Inv 1000000000000",
    ),
    (
        398,
        "1",
        "(not *)",
        "(not *)",
        "(not (not (not (not (not (not (not (not ",
    ),
    (399, "1", "(not *)", "(not *)", "refused: TooDeep Inv"),
    (20000, "1", "(not *)", "*", "refused: TooDeep Inv"),
    (20000, "$0:3", "*", "*", "$0:3"),
    (20000, "$0:3", "(prime *)", "*", "refused: Reached #prime:3"),
    (
        300,
        "1",
        "(exists [x] (set) *)",
        "*",
        "(exists [x] (set) (exists [x] (set) (exi",
    ),
];

#[test]
fn trees_have_their_limits(rt: HostRuntime) -> Result<(), Fail> {
    let alloc = rt.alloc();
    for (count, first, body, last, wanted) in CHAINS {
        assert_eq!(rt; chained(alloc, count, first, body, last)?.as_str(), wanted);
    }
    Ok(())
}
