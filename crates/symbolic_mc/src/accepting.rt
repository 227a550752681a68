// What is accepted of the file that a check names.
ghost use Rattle.std.specs.Prelude.{◌≡◌, ◌∷◌, [], false, IfOk};
ghost use Rattle.front_end.specs.Refused.{IsAnswer, is_want};
ghost use Rattle.front_end.specs.declared.fault.FrontFault.TheVariants.{Memory as wants_memory};
ghost use Rattle.symbolic_mc.specs.Top.{asked_of};
ghost use Rattle.symbolic_mc.specs.inner.Told.{IsAskable};
ghost use Rattle.symbolic_mc.specs.declared.answer.Answer.TheVariants.{Refused as is_refused};

use crate::answer::Answer;
use crate::copies::copied;
use crate::words::Request;
use front_end::{Accepted, FrontFault, Refusal, Request as FrontRequest, accept};
use std::alloc::{AllocError, Global};
use tla_values::{List, Text};
use tool_outside::Files;

/// The bits of an integer.
const WIDTH: u32 = 32;

// What is accepted of the file, or why it is refused.
pub(crate) fn accept_file<F: Files>(
    alloc: Global,
    request: &Request<'_>,
    files: &mut F,
) -> Result<Accepted, Refusal>
    requires { IsAskable request.now.file.now request.now.longest }
    ensures keeps { F.held files.new ≡ F.held files.old }
    ensures answer { IsAnswer (F.held files.old) (F.faults files.old) (F.faults files.new)
        (asked_of request.now.file.now request.now.longest) result }
{
    match front_request(alloc, request) {
        Ok(asked) => accept(alloc, &asked, files),
        Err(fail) => Err(unasked(alloc, fail)),
    }
}

// Where there is no memory for what is asked.
fn unasked(alloc: Global, fail: AllocError) -> Refusal
    ensures { result.fault ≡ wants_memory fail }
{
    Refusal {
        files: List::new(alloc),
        names: List::new(alloc),
        fault: FrontFault::Memory(fail),
    }
}

// What a check asks of the file.
fn front_request(alloc: Global, request: &Request<'_>) -> Result<FrontRequest, AllocError>
    ensures { IfOk result (λ asked. asked ≡ asked_of request.now.file.now request.now.longest) }
{
    let root = copied(alloc, request.file.as_bytes())?;
    let init = copied(alloc, b"Init")?;
    let next = copied(alloc, b"Next")?;
    let invs = one_name(alloc, b"Inv")?;
    Ok(FrontRequest {
        root,
        init,
        next,
        invs,
        cinit: None,
        length: request.longest,
        width: WIDTH,
        bounds: None,
    })
}

fn one_name(alloc: Global, name: &[u8]) -> Result<List<Text>, AllocError>
    ensures { IfOk result (λ names. names ≡ name.now ∷ []) }
{
    let mut names = Vec::new(alloc);
    names.push(copied(alloc, name)?)?;
    Ok(List::from_vec(names))
}

// The answer to a refusal.
pub(crate) fn refused(refusal: Refusal) -> Result<Answer, AllocError>
    ensures { IfOk result (λ answer. (answer ≡ is_refused refusal) × (is_want refusal.fault ≡ false)) }
{
    if is_want(&refusal.fault) {
        return Err(AllocError);
    }
    Ok(Answer::Refused(refusal))
}

fn is_want(fault: &FrontFault) -> bool
    ensures { result ≡ is_want fault.now }
{
    matches!(fault, FrontFault::Memory(_))
}
