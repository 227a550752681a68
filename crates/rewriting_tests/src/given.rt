//! What the names of a case stand for.

ghost use Rattle.std.specs.List.{All};
ghost use Rattle.std.specs.Prelude.{◌≡◌, ◌≤◌, IfOk};
ghost use Rattle.tla_values.specs.Sets.{Normal};

use crate::jobs::value;
use std::alloc::{AllocError, Global};
use tla_evaluator::{eval, is_expanded};
use tla_meaning::{Env, Expr, Job, Outcome, State};
use tla_values::{List, Value};

/// Which literals of a name's cell are free.
#[derive(Clone, Copy, Drop)]
pub enum Freedom {
    /// None: the cell is one of two known values.
    Nothing,
    /// Whether a member or an argument is there, truth values, and the lowest bit of each number.
    Lowest,
    /// Whether a member or an argument is there, and truth values and numbers but those of members and arguments, which
    /// are those of the first value.
    Results,
}

/// The values that the names may have, and which literals are free.
#[derive(Drop)]
pub struct Given {
    pub firsts: Vec<Value>,
    pub seconds: Vec<Value>,
    pub free: Freedom,
}

// What a closed expression gives; FALSE where this is no value.
fn closed(alloc: Global, e: &Expr, width: u32) -> Result<Value, AllocError>
    requires from { 4 ≤ width }
    requires to { width ≤ 64 }
{
    if !is_expanded(e) {
        return Ok(Value::Bool(false));
    }
    let none = State {
        vals: List::new(alloc),
    };
    let env = Env {
        vals: List::new(alloc),
    };
    match eval(alloc, e, &env, &none, None, width)? {
        Outcome::Val(v) => Ok(v),
        Outcome::Wrong(_) | Outcome::Big(_) => Ok(Value::Bool(false)),
    }
}

// The first or the second value of each name.
fn values(
    alloc: Global,
    job: &Job,
    count: usize,
    which: usize,
    width: u32,
) -> Result<Vec<Value>, AllocError>
    requires from { 4 ≤ width }
    requires to { width ≤ 64 }
{
    let mut out = Vec::new(alloc);
    for name in 0..count {
        let Some(e) = value(job, name, which) else {
            return Ok(out);
        };
        let v = closed(alloc, e, width)?;
        out.push(v)?;
    }
    Ok(out)
}

/// What so many names stand for at this width.
pub fn names_given(
    alloc: Global,
    job: &Job,
    count: usize,
    width: u32,
    free: Freedom,
) -> Result<Given, AllocError>
    requires from { 4 ≤ width }
    requires to { width ≤ 64 }
{
    let firsts = values(alloc, job, count, 0, width)?;
    let seconds = values(alloc, job, count, 1, width)?;
    Ok(Given {
        firsts,
        seconds,
        free,
    })
}
