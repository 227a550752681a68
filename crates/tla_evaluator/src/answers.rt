// What keeps an evaluation from a value, what several trees give, joined, and the answer of a public call.
ghost use Rattle.std.specs.Prelude.{◌≡◌, [], IfOk, OnOk, alloc_error};
ghost use Rattle.tla_meaning.specs.declared.outcome.Outcome.{Outcome as Given};
ghost use Rattle.tla_evaluator.specs.declared.answers.Stop.TheVariants.{Memory};
ghost use Rattle.tla_evaluator.specs.inner.Gives.{Gives, GivesAll, Joins, both, worse};
ghost use Rattle.tla_meaning.specs.Outcomes.{join_faults, least};

use std::alloc::{AllocError, AllocFailed, Global};
use tla_meaning::{Fault, Outcome, Place};
use tla_values::{List, Value};

// What is made, or want of memory.
pub(crate) type Stored<T> = Result<T, AllocError>;

// What is given, or what stops the evaluation.
pub(crate) type Answer<T> = Result<T, Stop>;

// A fault at its place, or want of memory.
#[derive(Drop)]
pub(crate) enum Stop {
    Wrong(Place),
    Big(Place),
    Memory(AllocError),
}

impl From<AllocError> for Stop {
    ghost from_gives = { λ e s. s ≡ Memory e };

    fn from(e: AllocError) -> Stop {
        Stop::Memory(e)
    }
}

impl<T: Drop> From<AllocFailed<T>> for Stop {
    ghost from_gives = { λ _ s. s ≡ Memory alloc_error };

    fn from(e: AllocFailed<T>) -> Stop {
        Stop::Memory(AllocError::from(e))
    }
}

// The answer of a public call.
pub(crate) fn told(answer: Answer<Value>) -> Stored<Outcome>
    ensures { (o : Given) → Gives o answer → IfOk result (λ q. q ≡ o) }
{
    match answer {
        Ok(v) => Ok(Outcome::Val(v)),
        Err(Stop::Wrong(p)) => Ok(Outcome::Wrong(p)),
        Err(Stop::Big(p)) => Ok(Outcome::Big(p)),
        Err(Stop::Memory(e)) => Err(e),
    }
}

pub(crate) fn least(p: Place, q: Place) -> Place
    ensures { result ≡ least p q }
{
    if q.is_before(p) { q } else { p }
}

// Wrong at the least place at which one is Wrong, else Big at the least place at which one is Big.
pub(crate) fn join_faults(f: Fault, g: Fault) -> Fault
    ensures { result ≡ join_faults f g }
{
    match (f, g) {
        (Fault::IsWrong(p), Fault::IsWrong(q)) => Fault::IsWrong(least(p, q)),
        (Fault::IsBig(p), Fault::IsBig(q)) => Fault::IsBig(least(p, q)),
        (Fault::NoFault, _) | (Fault::IsBig(_), Fault::IsWrong(_)) => g,
        (Fault::IsWrong(_), _) | (Fault::IsBig(_), Fault::NoFault) => f,
    }
}

fn worse(s: Stop, t: Stop) -> Stop
    ensures { result ≡ worse s t }
{
    match s {
        Stop::Memory(e) => Stop::Memory(e),
        Stop::Wrong(p) => match t {
            Stop::Memory(e) => Stop::Memory(e),
            Stop::Wrong(q) => Stop::Wrong(least(p, q)),
            Stop::Big(_) => Stop::Wrong(p),
        },
        Stop::Big(p) => match t {
            Stop::Memory(e) => Stop::Memory(e),
            Stop::Wrong(q) => Stop::Wrong(q),
            Stop::Big(q) => Stop::Big(least(p, q)),
        },
    }
}

// Both, or the join of their faults.
pub(crate) fn both<X: Drop, Y: Drop>(a: Answer<X>, b: Answer<Y>) -> Answer<(X, Y)>
    ensures { result ≡ both a b }
{
    match (a, b) {
        (Ok(x), Ok(y)) => Ok((x, y)),
        (Ok(_), Err(s)) | (Err(s), Ok(_)) => Err(s),
        (Err(s), Err(t)) => Err(worse(s, t)),
    }
}

// The join of what several trees gave, with what was no fault.
#[derive(Drop)]
pub(crate) struct Joined<T> {
    pub(crate) fault: Fault,
    pub(crate) items: Vec<T>,
}

pub(crate) fn nothing<T>(alloc: Global) -> Joined<T>
    ensures fault { result.fault ≡ Fault.NoFault }
    ensures items { result.items.items ≡ [] }
{
    Joined {
        fault: Fault::NoFault,
        items: Vec::new(alloc),
    }
}

// One more.
pub(crate) fn join<T: Drop>(joined: &mut Joined<T>, one: Answer<T>) -> Stored<()>
    ensures { OnOk result
        (Joins joined.old.fault joined.old.items.items one joined.new.fault joined.new.items.items) }
{
    let fault = match one {
        Ok(x) => return Ok(joined.items.push(x)?),
        Err(Stop::Wrong(p)) => Fault::IsWrong(p),
        Err(Stop::Big(p)) => Fault::IsBig(p),
        Err(Stop::Memory(e)) => return Err(e),
    };
    joined.fault = join_faults(joined.fault, fault);
    Ok(())
}

// All of what was joined, or the join of the faults.
pub(crate) fn all_of<T: Drop>(joined: Joined<T>) -> Answer<List<T>>
    ensures { GivesAll joined.fault joined.items.items result }
{
    match joined.fault {
        Fault::NoFault => Ok(List::from_vec(joined.items)),
        Fault::IsWrong(p) => Err(Stop::Wrong(p)),
        Fault::IsBig(p) => Err(Stop::Big(p)),
    }
}
