// The types of the jobs of sets of modules: those of the declared names, or why there are none. What is expected was
// written from the table of types and its rules (docs/DECISIONS.md, "Typing"), and not from what is answered.
//
//   >types I N C V ..  the types of the job that the operators make as Init, Next, CInit (`-` for none) and invariants:
//                      `x: T` for each declared name in the order of their numbers, or the line that tells the refusal
use crate::badly_typed_cases::BADLY_TYPED;
use crate::expanding::{invariants_of, trimmed};
use crate::lines::line_of;
use crate::reader::Part;
use crate::sets::{Asker, ask_sets, passes};
use crate::showing::put_words;
use crate::typed_cases::TYPED;
use crate::users_cases::USERS;
use front_end::FrontFault;
use op_inliner::{InlineFault, is_known, job_of};
use snowcat_rows::{Typed, show_type};
use snowcat_types::{is_typable, typing};
use std::alloc::{AllocError, Global};
use std::test::Fail;
use tla_meaning::{Decl, Flat, Job};
use tla_modules::ModuleRefusal;
use tla_values::{List, Text};

// ---- answers

fn put_types(
    alloc: Global,
    names: &[Decl],
    typed: &Typed,
    out: &mut Vec<u8>,
) -> Result<(), AllocError> {
    for (d, t) in names.iter().zip(typed.names.as_slice().iter()) {
        put_words(&[d.name.bytes(), b": "], out)?;
        show_type(alloc, t, out)?;
        out.push(b'\n')?;
    }
    Ok(())
}

fn put_fault(
    alloc: Global,
    files: &List<Text>,
    fault: FrontFault,
    out: &mut Vec<u8>,
) -> Result<(), AllocError> {
    let line = line_of(alloc, files, fault)?;
    out.extend_from_slice(line.as_slice())
}

// What is answered of a job. Types and jobs end by a call of `drop`, since their end at the end of a function has many
// cases.
fn put_job(alloc: Global, job: &Job, out: &mut Vec<u8>) -> Result<(), AllocError> {
    if !is_typable(alloc, job)? {
        return out.extend_from_slice(b"not typable");
    }
    match typing(alloc, job) {
        Ok(typed) => {
            let put = put_types(alloc, job.names.as_slice(), &typed, out);
            drop(typed);
            put
        }
        Err(fault) => put_fault(alloc, &job.files, FrontFault::Type(fault), out),
    }
}

fn put_made(
    alloc: Global,
    files: &List<Text>,
    answer: Result<Job, InlineFault>,
    out: &mut Vec<u8>,
) -> Result<(), AllocError> {
    match answer {
        Ok(job) => {
            let put = put_job(alloc, &job, out);
            drop(job);
            put
        }
        Err(fault) => put_fault(alloc, files, FrontFault::Inline(fault), out),
    }
}

// What is answered of the job that these words make of the module.
fn put_answer(
    alloc: Global,
    words: &str,
    flat: &Flat,
    out: &mut Vec<u8>,
) -> Result<(), AllocError> {
    if !is_known(alloc, flat)? {
        return out.extend_from_slice(b"not known");
    }
    let invariants = invariants_of(alloc, words)?;
    let mut words = words.split_whitespace();
    let (Some(init), Some(next), Some(cinit)) = (words.next(), words.next(), words.next()) else {
        return out.extend_from_slice(b"no job");
    };
    let cinit = if cinit == "-" { None } else { Some(cinit) };
    let answer = job_of(alloc, flat, init, next, cinit, &invariants);
    put_made(alloc, &flat.files, answer, out)
}

// ---- sets

// The types at the headings.
struct Types;

impl Asker for Types {
    fn asks(&self, word: &str, is_flat: bool) -> bool {
        is_flat && word == "types"
    }

    fn tell(
        &self,
        alloc: Global,
        part: &Part,
        answer: &Result<Flat, ModuleRefusal>,
        given: &mut Vec<u8>,
    ) -> Result<bool, AllocError> {
        match answer {
            Ok(flat) => put_answer(alloc, part.rest, flat, given)?,
            Err(_) => return Ok(false),
        }
        Ok(trimmed(given.as_slice()) == trimmed(&part.body))
    }
}

// What differs in the sets of a text, and how many headings there are.
fn type_all(alloc: Global, text: &str) -> Result<(Vec<u8>, usize), Fail> {
    let mut report = Vec::new(alloc);
    let found = ask_sets(alloc, &Types, text, &mut report)?;
    Ok((report, found.headings))
}

#[test]
fn jobs_have_their_types(rt: HostRuntime) -> Result<(), Fail> {
    passes(&rt, type_all(rt.alloc(), USERS), 2)?;
    passes(&rt, type_all(rt.alloc(), TYPED), 38)?;
    passes(&rt, type_all(rt.alloc(), BADLY_TYPED), 44)
}
