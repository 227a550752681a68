// The stages one behind the other.
ghost use Rattle.std.specs.Prelude.{◌≡◌, [], Option, IsTrue, ℕ};
ghost use Rattle.std.specs.Str.{IsUtf8};
ghost use Rattle.front_end.specs.Accepted.{IsOnlyFlat, made as made_of};
ghost use Rattle.front_end.specs.Faults.{of_module as told_of_module};
ghost use Rattle.front_end.specs.Refused.{IsAnswer};
ghost use Rattle.front_end.specs.Requests.{IsRequest};
ghost use Rattle.front_end.specs.inner.Stages.{IsJudged};
ghost use Rattle.op_inliner.specs.Answers.{IsAnswered as IsJobAnswered};
ghost use Rattle.op_inliner.specs.Known.{are_known};
ghost use Rattle.tool_outside.specs.Outside.{Folder};

use crate::fault::{FrontFault, Refusal, of_inline, of_module};
use crate::kernels::make;
use crate::request::{Accepted, Request};
use op_inliner::{InlineFault, is_known, job_of};
use std::alloc::{AllocError, Global};
use std::str;
use tla_meaning::{Flat, Job};
use tla_modules::{ModuleRefusal, resolve};
use tla_values::{List, Text};
use tool_outside::Files;

/// Accepts the modules of the request's root, read from files, for the request's operators, length, width and bounds,
/// or tells why they are refused: the first stage that refuses, and its cause. The stages are: reading and joining the
/// modules, the job of the operators, its types, its kernel, the paths of CInit, Init and Next, their assignments, the
/// shapes from the start and, where bounds are given, those from a typed state. (Lamport, Specifying Systems; the
/// Apalache manual; Konnov, Kukovec and Tran, OOPSLA 2019.)
pub fn accept<F: Files>(
    alloc: Global,
    request: &Request,
    files: &mut F,
) -> Result<Accepted, Refusal>
    requires { IsRequest request.now }
    ensures keeps { F.held files.new ≡ F.held files.old }
    ensures answer { IsAnswer (F.held files.old) (F.faults files.old) (F.faults files.new) request.now result }
{
    match resolve(alloc, as_string(&request.root), files) {
        Ok(flat) => of_flat(alloc, request, flat),
        Err(refusal) => Err(unjoined(alloc, refusal)),
    }
}

// A name as a string.
fn as_string(text: &Text) -> &str
    requires { IsUtf8 text.now }
    ensures { result.now ≡ text.now }
{
    match str::from_utf8(text.bytes()) {
        Ok(text) => text,
        Err(_) => unreachable!(),
    }
}

// Where there is no flat module.
fn unjoined(alloc: Global, refusal: ModuleRefusal) -> Refusal
    ensures { result ≡ record { files = refusal.files; names = []; fault = told_of_module refusal.fault } }
{
    let ModuleRefusal { files, fault } = refusal;
    Refusal {
        files,
        names: List::new(alloc),
        fault: of_module(fault),
    }
}

// Where this is the flat module.
fn of_flat(alloc: Global, request: &Request, flat: Flat) -> Result<Accepted, Refusal>
    requires { IsRequest request.now }
    ensures { (held : Option Folder) (before now : ℕ) → IsOnlyFlat held request.now.root flat → now ≡ before
        → IsAnswer held before now request.now result }
{
    match is_known(alloc, &flat) {
        Ok(known) => where_known(alloc, request, flat, known),
        Err(fail) => Err(at_module(alloc, flat.files, FrontFault::Memory(fail))),
    }
}

// Where its names are known or not.
fn where_known(
    alloc: Global,
    request: &Request,
    flat: Flat,
    known: bool,
) -> Result<Accepted, Refusal>
    requires request { IsRequest request.now }
    requires known { known ≡ are_known flat }
    ensures { (held : Option Folder) (before now : ℕ) → IsOnlyFlat held request.now.root flat → now ≡ before
        → IsAnswer held before now request.now result }
{
    if known {
        of_known(alloc, request, flat)
    } else {
        // A use names nothing before it. No module that is read has one. It is asked, since no law says so yet; want of
        // memory is answered, as the kernel does of trees that no module spells.
        Err(at_module(alloc, flat.files, FrontFault::Memory(AllocError)))
    }
}

// A refusal where there is no job.
fn at_module(alloc: Global, files: List<Text>, fault: FrontFault) -> Refusal
    ensures { result ≡ record { files = files; names = []; fault = fault } }
{
    Refusal {
        files,
        names: List::new(alloc),
        fault,
    }
}

// And its names are known.
fn of_known(alloc: Global, request: &Request, flat: Flat) -> Result<Accepted, Refusal>
    requires request { IsRequest request.now }
    requires known { IsTrue (are_known flat) }
    ensures { (held : Option Folder) (before now : ℕ) → IsOnlyFlat held request.now.root flat → now ≡ before
        → IsAnswer held before now request.now result }
{
    match make_job(alloc, request, &flat) {
        Ok(job) => of_job(alloc, request, job),
        Err(fault) => Err(at_module(alloc, flat.files, of_inline(fault))),
    }
}

// What the operators of the request make.
fn make_job(alloc: Global, request: &Request, flat: &Flat) -> Result<Job, InlineFault>
    requires request { IsRequest request.now }
    requires known { IsTrue (are_known flat.now) }
    ensures { IsJobAnswered (made_of request.now flat.now) result }
{
    let init = as_string(&request.init);
    let next = as_string(&request.next);
    match &request.cinit {
        None => job_of(alloc, flat, init, next, None, &request.invs),
        Some(name) => {
            let cinit = as_string(name);
            job_of(alloc, flat, init, next, Some(cinit), &request.invs)
        }
    }
}

// Where this is the job.
fn of_job(alloc: Global, request: &Request, job: Job) -> Result<Accepted, Refusal>
    requires { IsRequest request.now }
    ensures { IsJudged request.now job result }
{
    match make(alloc, request, &job) {
        Ok(made) => Ok(Accepted {
            job,
            typed: made.typed,
            system: made.bounded.system,
            shapes: made.bounded.shapes,
            length: request.length,
            width: request.width,
            bounds: request.bounds,
        }),
        Err(fault) => Err(Refusal {
            files: job.files,
            names: job.names,
            fault,
        }),
    }
}
