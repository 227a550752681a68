//! The walk over a path: the environment of the next step, and the cells of those before it.

ghost use Rattle.path_cells.specs.inner.Walking.{IsPast, no_steps};
ghost use Rattle.path_walks.specs.inner.Walks.{OneEach, env_past, items_past, put_next};
ghost use Rattle.std.specs.Prelude.{◌++◌, ◌≡◌, IfOk, None, Some, length, map, slice_set, zip};

use cell_arena::CellId;
use expr_rewriter::CellEnv;
use kernel_trees::{AssignedStep, Ker};
use path_walks::PathCells;
use sat_formula::Lit;
use std::alloc::{AllocError, Global};
use tla_values::List;

/// The environment of the next step, with what those before it have bound and assigned, and the path's cells so far.
#[derive(Drop)]
pub(crate) struct Walk {
    pub(crate) env: CellEnv,
    pub(crate) cells: PathCells,
}

// The same environment.
fn copy_env(alloc: Global, env: &CellEnv) -> Result<CellEnv, AllocError>
    ensures { IfOk result (λ r. r ≡ env.entry.now) }
{
    let current = Vec::from_slice(alloc, env.now.as_slice())?;
    let following = Vec::from_slice(alloc, env.next.as_slice())?;
    let bound = Vec::from_slice(alloc, env.bound.as_slice())?;
    Ok(CellEnv {
        now: List::from_vec(current),
        next: List::from_vec(following),
        bound: List::from_vec(bound),
    })
}

// Nothing for each of the names.
fn no_items(
    alloc: Global,
    names: &[Option<CellId>],
) -> Result<Vec<Option<(CellId, Lit)>>, AllocError>
    ensures { IfOk result (λ r. r.items ≡ map (λ _. None) names.now) }
{
    names.iter().map(|_| None).collect(alloc)
}

/// No step: it holds, without a fault.
pub(crate) fn start(alloc: Global, top: Lit, env: &CellEnv) -> Result<Walk, AllocError>
    ensures env { IfOk result (λ w. w.env ≡ env.entry.now) }
    ensures cells { IfOk result (λ w. w.cells ≡ no_steps top env.entry.now.next) }
{
    let own = copy_env(alloc, env)?;
    let items = no_items(alloc, env.next.as_slice())?;
    let cells = PathCells {
        holds: top,
        wrong: top.negated(),
        big: top.negated(),
        next: List::from_vec(items),
    };
    Ok(Walk { env: own, cells })
}

// The list with an item at a place, if it is one of the list's.
fn put<T: Drop>(xs: List<Option<T>>, i: usize, x: T) -> List<Option<T>>
    ensures { result ≡ slice_set xs i (Some x) }
{
    if i >= xs.len() {
        return xs;
    }
    let mut items = xs.into_vec();
    items[i] = Some(x);
    List::from_vec(items)
}

// A cell for each number, behind those that are bound.
fn bind(
    bound: List<(u32, CellId)>,
    ps: &[(u32, Ker)],
    ids: &[CellId],
) -> Result<List<(u32, CellId)>, AllocError>
    requires { length ps.now ≡ length ids.now }
    ensures { IfOk result (λ r. r ≡ bound ++ zip (map (λ p. p.0) ps.now) ids.now) }
{
    let mut all = bound.into_vec();
    for i in 0..ps.len() {
        let pair = &ps[i];
        let id = &ids[i];
        all.push((pair.0, *id))?;
    }
    Ok(List::from_vec(all))
}

// The list with the first of the cells at a place.
fn put_first(next: List<Option<CellId>>, i: usize, ids: &[CellId]) -> List<Option<CellId>>
    ensures { result ≡ put_next i ids.now next }
{
    let Some(id) = ids.first() else {
        return next;
    };
    put(next, i, *id)
}

// The environment behind a step with these cells.
fn step_past(env: CellEnv, step: &AssignedStep, ids: &[CellId]) -> Result<CellEnv, AllocError>
    requires { OneEach step.now ids.now }
    ensures { IfOk result (λ r. r ≡ env_past step.now ids.now env) }
{
    let CellEnv { now, next, bound } = env;
    match step {
        AssignedStep::Guard(_, _) => Ok(CellEnv { now, next, bound }),
        AssignedStep::Pick(ps) => {
            let more = bind(bound, ps.as_slice(), ids)?;
            Ok(CellEnv {
                now,
                next,
                bound: more,
            })
        }
        AssignedStep::Equals(i, _) | AssignedStep::Among(i, _) => {
            let following = put_first(next, *i, ids);
            Ok(CellEnv {
                now,
                next: following,
                bound,
            })
        }
    }
}

// The items behind a step with these cells, where the literal says that the path holds so far.
fn items_behind(
    items: List<Option<(CellId, Lit)>>,
    step: &AssignedStep,
    ids: &[CellId],
    l: Lit,
) -> List<Option<(CellId, Lit)>>
    ensures { result ≡ items_past step.now ids.now l items }
{
    match step {
        AssignedStep::Guard(_, _) | AssignedStep::Pick(_) => items,
        AssignedStep::Equals(i, _) | AssignedStep::Among(i, _) => {
            let Some(id) = ids.first() else {
                return items;
            };
            put(items, *i, (*id, l))
        }
    }
}

impl Walk {
    /// What is known behind a step with these cells.
    pub(crate) fn past(self, step: &AssignedStep, ids: &[CellId]) -> Result<Walk, AllocError>
        requires { OneEach step.now ids.now }
        ensures { IfOk result (IsPast step.now ids.now self) }
    {
        let Walk { env, cells } = self;
        let behind = step_past(env, step, ids)?;
        let PathCells {
            holds,
            wrong,
            big,
            next,
        } = cells;
        let next = items_behind(next, step, ids, holds);
        Ok(Walk {
            env: behind,
            cells: PathCells {
                holds,
                wrong,
                big,
                next,
            },
        })
    }
}
