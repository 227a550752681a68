// What actions, the start, steps and invariants are, at given states.
ghost use Rattle.std.specs.List.{All};
ghost use Rattle.std.specs.Prelude.{◌<◌, ◌≡◌, ◌≤◌, [], IfOk, IfSome, IsTrue, Some, filter, length, map, option_copied, slice_index_or, take, unwrap_or};
ghost use Rattle.tla_values.specs.Sets.{Normal};
ghost use Rattle.tla_meaning.specs.declared.expr.Decl.{Decl};
ghost use Rattle.tla_meaning.specs.declared.expr.Expr.{Expr, out-Expr};
ghost use Rattle.tla_meaning.specs.Actions.{act, effect_of, effects_and, outcome_of, val};
ghost use Rattle.tla_meaning.specs.Executions.{IsYes, invariant, is_yes, next, no_scope, scope_of, start};
ghost use Rattle.tla_evaluator.specs.inner.Effects.{behind};
ghost use Rattle.tla_meaning.specs.Outcomes.{IsNormalOutcome};
ghost use Rattle.tla_evaluator.specs.Trees.{AreNormal, is_expanded, value_at};

use crate::actions::{effect, settled};
use crate::answers::{join_faults, told};
use crate::context::{Context, names_of};
use std::alloc::{AllocError, Global};
use tla_meaning::{Assignable, Decl, Effect, Env, Expr, Fault, Job, Op, Outcome, State};
use tla_values::{Text, Value};

// The fault where there is one, else whether the action holds.
fn outcome_of(f: Effect) -> Outcome
    ensures { result ≡ outcome_of f }
{
    match f.fault {
        Fault::NoFault => Outcome::Val(Value::Bool(f.holds)),
        Fault::IsWrong(p) => Outcome::Wrong(p),
        Fault::IsBig(p) => Outcome::Big(p),
    }
}

/// What an expression gives in a state, with a next state for its primed names (Specifying Systems, chapter 16): its
/// value, or the fault of applying an operator outside its domain or of an integer outside `width` bits, at its place.
/// Without a next state a primed name is read in `s`. `env` has the values of names that are bound outside of the tree.
///
/// The tree is expanded: no LET, no use of a definition and no prime but at a name. Values are normal, and
/// 4 <= `width` <= 64.
pub fn eval(
    alloc: Global,
    e: &Expr,
    env: &Env,
    s: &State,
    t: Option<&State>,
    width: u32,
) -> Result<Outcome, AllocError>
    requires narrow { width ≤ 64 }
    requires wide { 4 ≤ width }
    requires expanded { IsTrue (is_expanded e.now) }
    requires bound { All (λ b. Normal b.1) env.now.vals }
    requires now { All Normal s.now.vals }
    requires next { IfSome t (λ n. All Normal n.now.vals) }
    ensures value { IfOk result (λ o. o ≡ val (Some width) e.now (scope_of env.now) s.now (unwrap_or (option_copied t.entry) s.now)) }
    ensures normal { IfOk result IsNormalOutcome }
{
    let bound = names_of(alloc, env.vals.as_slice())?;
    let context = Context::new(alloc, bound, s, t.unwrap_or(s), width);
    told(context.value(e))
}

/// What an action of primed names gives between two states (Specifying Systems, sections 8.1 and 16.1): TRUE, FALSE,
/// or the fault of applying an operator outside its domain or of an integer outside `width` bits, at its place.
///
/// The tree is expanded: no LET, no use of a definition and no prime but at a name. Values are normal, and
/// 4 <= `width` <= 64.
pub fn act(alloc: Global, a: &Expr, s: &State, t: &State, width: u32) -> Result<Outcome, AllocError>
    requires narrow { width ≤ 64 }
    requires wide { 4 ≤ width }
    requires expanded { IsTrue (is_expanded a.now) }
    requires now { All Normal s.now.vals }
    requires next { All Normal t.now.vals }
    ensures { IfOk result (λ o. o ≡ act (Some width) Assignable.Primed a.now no_scope s.now t.now) }
{
    let context = Context::unbound(alloc, s, t, width);
    let effect = context.action(a, Assignable::Primed)?;
    Ok(outcome_of(effect))
}

// How many of the names are constants.
fn constants(names: &[Decl]) -> usize
    ensures { result ≡ length (filter (λ d. d.constant) names.now) }
{
    names.iter().filter(|d| d.constant).count()
}

/// What the start gives at a state: CInit, the assumptions and Init (Specifying Systems, section 2.3), in this order
/// and as far as they hold, with the faults of all of these.
///
/// The job's trees are expanded, the values are normal, and 4 <= `width` <= 64.
pub fn start(alloc: Global, job: &Job, s: &State, width: u32) -> Result<Outcome, AllocError>
    requires narrow { width ≤ 64 }
    requires wide { 4 ≤ width }
    requires cinit { IsTrue (is_expanded job.now.cinit) }
    requires assume { IsTrue (is_expanded job.now.assume) }
    requires init { IsTrue (is_expanded job.now.init) }
    requires normal { All Normal s.now.vals }
    ensures { IfOk result (λ o. o ≡ start (Some width) job.now s.now) }
{
    let count = constants(job.names.as_slice());
    let context = Context::unbound(alloc, s, s, width);
    let cinit = context.action(&job.cinit, Assignable::Constants(count))?;
    if !cinit.holds {
        return Ok(outcome_of(cinit));
    }
    let assumed = settled(context.by_value(&job.assume))?;
    if !assumed.holds {
        return Ok(outcome_of(behind(cinit, assumed)));
    }
    let init = context.action(&job.init, Assignable::Variables(count))?;
    Ok(outcome_of(behind(cinit, behind(assumed, init))))
}

// The second effect, with the fault of the first.
fn behind(first: Effect, second: Effect) -> Effect
    ensures { result ≡ behind first.fault second }
{
    effect(second.holds, join_faults(first.fault, second.fault))
}

/// What Next gives from a state to another (Specifying Systems, sections 2.3 and 8.1).
///
/// The job's Next is expanded, the values are normal, and 4 <= `width` <= 64.
pub fn next(
    alloc: Global,
    job: &Job,
    s: &State,
    t: &State,
    width: u32,
) -> Result<Outcome, AllocError>
    requires narrow { width ≤ 64 }
    requires wide { 4 ≤ width }
    requires expanded { IsTrue (is_expanded job.now.next) }
    requires now { All Normal s.now.vals }
    requires next { All Normal t.now.vals }
    ensures { IfOk result (λ o. o ≡ next (Some width) job.now s.now t.now) }
{
    let count = constants(job.names.as_slice());
    let context = Context::unbound(alloc, s, t, width);
    let effect = context.action(&job.next, Assignable::PrimedVariables(count))?;
    Ok(outcome_of(effect))
}

fn is_yes(outcome: &Outcome) -> bool
    ensures { result ≡ is_yes outcome.now }
{
    matches!(outcome, Outcome::Val(Value::Bool(true)))
}

/// The number of the first invariant that is not TRUE at a state, with what it gives; where all are TRUE, how many
/// they are, with TRUE (Specifying Systems, section 2.3).
///
/// The invariants are expanded, the values are normal, and 4 <= `width` <= 64.
pub fn invariant(
    alloc: Global,
    job: &Job,
    s: &State,
    width: u32,
) -> Result<(usize, Outcome), AllocError>
    requires narrow { width ≤ 64 }
    requires wide { 4 ≤ width }
    requires expanded { All (λ e. IsTrue (is_expanded e.1)) job.now.invs }
    requires normal { All Normal s.now.vals }
    ensures outcome { IfOk result (λ r. r.1 ≡ invariant (Some width) job.now s.now) }
    ensures before { IfOk result (λ r. All (λ e. IsYes (val (Some width) e.1 no_scope s.now s.now)) (take r.0 job.now.invs)) }
    ensures at { IfOk result (λ r. (e : Text × Expr) → r.0 < length job.now.invs →
        (r.1 ≡ val (Some width) (slice_index_or job.now.invs r.0 e).1 no_scope s.now s.now) × (IsYes r.1 → ⊥)) }
    ensures bound { IfOk result (λ r. r.0 ≤ length job.now.invs) }
{
    let context = Context::unbound(alloc, s, s, width);
    for (i, named) in job.invs.as_slice().iter().enumerate() {
        let outcome = told(context.value(&named.1))?;
        if !is_yes(&outcome) {
            return Ok((i, outcome));
        }
    }
    Ok((job.invs.len(), Outcome::Val(Value::Bool(true))))
}
