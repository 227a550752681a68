// The paths of an action as routes, whose steps lend its trees.
ghost use Rattle.std.specs.Prelude.{◌≡◌, ◌++◌, ◌∷◌, [], IfOk, OnOk, map};
ghost use Rattle.std.specs.List.{list_all};
ghost use Rattle.kernel_trees.specs.Paths.{Holds, ends_at, ways};
ghost use Rattle.kernel_trees.specs.Ways.{after, after_each, all_of, alone, any_of, has_ended, one_after};
ghost use Rattle.kernel_trees.specs.ActionNames.{marks};
ghost use Rattle.transition_splitter.specs.inner.Routes.{Adds, branch_ways, has_way_ended, rooted};
ghost use Rattle.transition_splitter.specs.inner.Routes.{some_ways, step_lent, way, ways_by};

use crate::mentioning::any_mentions;
use kernel_trees::{AssignableNames, Ker, KerOp, is_end};
use std::alloc::{AllocError, Global};
use tla_meaning::Place;

// A step whose trees stay where they are.
#[derive(Clone, Copy, Drop)]
pub(crate) enum LentStep<'a> {
    // An operand.
    Holds(&'a Ker),
    // The guard of an IF at this place, with the truth value that leads on.
    Branch(Place, &'a Ker, bool),
    // The choice of this `\E`.
    Choice(&'a Ker),
}

// A path: the root of the last branch that it takes, and its steps.
#[derive(Drop)]
pub(crate) struct Route<'a> {
    pub(crate) taken: Option<Place>,
    pub(crate) steps: Vec<LentStep<'a>>,
}

impl<'a> LentStep<'a> {
    fn ends(&self) -> bool
        ensures { result ≡ ends_at (step_lent self.now) }
    {
        match self {
            LentStep::Holds(k) => is_end(&k.op),
            LentStep::Branch(_, _, _) => false,
            LentStep::Choice(_) => false,
        }
    }
}

impl<'a> Route<'a> {
    fn has_ended(&self) -> bool
        ensures { result ≡ has_way_ended (way self.now) }
    {
        match self.steps.as_slice().split_last() {
            Some((last, _)) => last.ends(),
            None => false,
        }
    }
}

// The one path of a conjunction of nothing.
fn no_step<'a>(alloc: Global) -> Result<Vec<Route<'a>>, AllocError>
    ensures { IfOk result (λ rs. ways_by rs.items ≡ all_of ends_at []) }
{
    let mut made = Vec::new(alloc);
    made.push(Route {
        taken: None,
        steps: Vec::new(alloc),
    })?;
    Ok(made)
}

fn one_step<'a>(
    alloc: Global,
    taken: Option<Place>,
    step: LentStep<'a>,
) -> Result<Route<'a>, AllocError>
    ensures { IfOk result (λ r. way r ≡ record { taken = taken; steps = step_lent step.entry ∷ [] }) }
{
    let mut steps = Vec::new(alloc);
    steps.push(step)?;
    Ok(Route { taken, steps })
}

// A route that goes on with another.
fn joined<'a>(alloc: Global, first: &Route<'a>, second: &Route<'a>) -> Result<Route<'a>, AllocError>
    ensures { IfOk result (λ r. way r ≡ one_after (way first.now) (way second.now)) }
{
    let mut steps = Vec::from_slice(alloc, first.steps.as_slice())?;
    steps.extend_from_slice(second.steps.as_slice())?;
    Ok(Route {
        taken: second.taken.or(first.taken),
        steps,
    })
}

// Adds each of the second routes behind the first.
fn push_behind<'a>(
    alloc: Global,
    first: &Route<'a>,
    seconds: &[Route<'a>],
    made: &mut Vec<Route<'a>>,
) -> Result<(), AllocError>
    ensures { OnOk result (Adds made.old.items made.new.items (map (one_after (way first.now)) (ways_by seconds.now))) }
{
    for second in seconds {
        let route = joined(alloc, first, second)?;
        made.push(route)?;
    }
    Ok(())
}

// The route goes on with another.
fn extended<'a>(mut first: Route<'a>, second: &Route<'a>) -> Result<Route<'a>, AllocError>
    ensures { IfOk result (λ r. way r ≡ one_after (way first.entry) (way second.now)) }
{
    first.steps.extend_from_slice(second.steps.as_slice())?;
    first.taken = second.taken.or(first.taken);
    Ok(first)
}

// Adds the first route where it has ended, else each of the second behind it. It is copied only where there are several.
fn push_after<'a>(
    alloc: Global,
    first: Route<'a>,
    seconds: &[Route<'a>],
    made: &mut Vec<Route<'a>>,
) -> Result<(), AllocError>
    ensures { OnOk result (Adds made.old.items made.new.items (after ends_at (way first.entry) (ways_by seconds.now))) }
{
    if first.has_ended() {
        made.push(first)?;
        return Ok(());
    }
    if let [second] = seconds {
        let route = extended(first, second)?;
        made.push(route)?;
        return Ok(());
    }
    push_behind(alloc, &first, seconds, made)
}

// Each of the first routes, and behind one that goes on each of the second.
fn each_after<'a>(
    alloc: Global,
    firsts: Vec<Route<'a>>,
    seconds: &[Route<'a>],
) -> Result<Vec<Route<'a>>, AllocError>
    ensures { IfOk result (λ rs. ways_by rs.items ≡ after_each ends_at (ways_by firsts.entry.items) (ways_by seconds.now)) }
{
    let mut made = Vec::new(alloc);
    for first in firsts {
        push_after(alloc, first, seconds, &mut made)?;
    }
    Ok(made)
}

fn all_ended(routes: &[Route]) -> bool
    ensures { result ≡ list_all (λ r. has_way_ended (way r)) routes.now }
{
    routes.iter().all(|route| route.has_ended())
}

// One operand.
fn one_operand<'a>(alloc: Global, k: &'a Ker) -> Result<Vec<Route<'a>>, AllocError>
    ensures { IfOk result (λ rs. ways_by rs.items ≡ alone (Holds k.now)) }
{
    let route = one_step(alloc, None, LentStep::Holds(k))?;
    let mut made = Vec::new(alloc);
    made.push(route)?;
    Ok(made)
}

// The paths of an action, from left to right.
#[cycle(routes)]
pub(crate) fn routes<'a>(
    alloc: Global,
    marked: AssignableNames,
    k: &'a Ker,
) -> Result<Vec<Route<'a>>, AllocError>
    ensures { IfOk result (λ rs. ways_by rs.items ≡ ways (marks marked) k.now) }
{
    let args = k.args.as_slice();
    match &k.op {
        KerOp::And => of_all(alloc, marked, args),
        KerOp::Or => {
            if any_mentions(marked, args) {
                of_any(alloc, marked, args)
            } else {
                one_operand(alloc, k)
            }
        }
        KerOp::If => {
            if any_mentions(marked, args) {
                of_branches(alloc, marked, k)
            } else {
                one_operand(alloc, k)
            }
        }
        KerOp::Some => of_choice(alloc, marked, k),
        _ => one_operand(alloc, k),
    }
}

// Of a conjunction, from the left; where all have ended, what follows is not taken apart.
#[cycle(routes)]
fn of_all<'a>(
    alloc: Global,
    marked: AssignableNames,
    ks: &'a [Ker],
) -> Result<Vec<Route<'a>>, AllocError>
    ensures { IfOk result (λ rs. ways_by rs.items ≡ all_of ends_at (map (ways (marks marked)) ks.now)) }
{
    let mut made = no_step(alloc)?;
    for k in ks {
        if all_ended(made.as_slice()) {
            return Ok(made);
        }
        let found = routes(alloc, marked, k)?;
        let seconds = found.as_slice();
        made = each_after(alloc, made, seconds)?;
    }
    Ok(made)
}

// Of a disjunction.
#[cycle(routes)]
fn of_any<'a>(
    alloc: Global,
    marked: AssignableNames,
    ks: &'a [Ker],
) -> Result<Vec<Route<'a>>, AllocError>
    ensures { IfOk result (λ rs. ways_by rs.items ≡ any_of (map (rooted (marks marked)) ks.now)) }
{
    let mut made = Vec::new(alloc);
    for k in ks {
        let found = routes(alloc, marked, k)?;
        let front = Route {
            taken: Some(k.place),
            steps: Vec::new(alloc),
        };
        let seconds = found.as_slice();
        push_behind(alloc, &front, seconds, &mut made)?;
    }
    Ok(made)
}

// Of an IF, by its guard.
#[cycle(routes)]
fn of_branches<'a>(
    alloc: Global,
    marked: AssignableNames,
    k: &'a Ker,
) -> Result<Vec<Route<'a>>, AllocError>
    ensures { IfOk result (λ rs. ways_by rs.items ≡ branch_ways (marks marked) k.now) }
{
    let args = k.args.as_slice();
    let [guard, yes, no] = args else {
        return one_operand(alloc, k);
    };
    let mut made = Vec::new(alloc);
    let found = routes(alloc, marked, yes)?;
    let front = one_step(
        alloc,
        Some(yes.place),
        LentStep::Branch(k.place, guard, true),
    )?;
    let seconds = found.as_slice();
    push_behind(alloc, &front, seconds, &mut made)?;
    let others = routes(alloc, marked, no)?;
    let other_front = one_step(
        alloc,
        Some(no.place),
        LentStep::Branch(k.place, guard, false),
    )?;
    let other_seconds = others.as_slice();
    push_behind(alloc, &other_front, other_seconds, &mut made)?;
    Ok(made)
}

// Of an `\E`, by its body.
#[cycle(routes)]
fn of_choice<'a>(
    alloc: Global,
    marked: AssignableNames,
    k: &'a Ker,
) -> Result<Vec<Route<'a>>, AllocError>
    ensures { IfOk result (λ rs. ways_by rs.items ≡ some_ways (marks marked) k.now) }
{
    let Some(body) = k.args.as_slice().get(k.binds.len()) else {
        return one_operand(alloc, k);
    };
    let found = routes(alloc, marked, body)?;
    let front = one_step(alloc, None, LentStep::Choice(k))?;
    let seconds = found.as_slice();
    let mut made = Vec::new(alloc);
    push_behind(alloc, &front, seconds, &mut made)?;
    Ok(made)
}
