// Names and what they stand for, while a definition is written out. A scope is the number of a frame, from 1, and the
// frames that it can reach; 0 has no names.
ghost use Rattle.std.specs.Prelude.{◌≡◌, ◌≤◌, ◌∷◌, [], IfOk, IfSome, IfNone, None, Some, length, map};
ghost use Rattle.tla_meaning.specs.Scopes.{find_last};
ghost use Rattle.op_inliner.specs.Inlining.{bind_names, define_name, let_names, no_names, pass_names, trees, with_names, written};
ghost use Rattle.op_inliner.specs.inner.Bodies.{bodies_of};
ghost use Rattle.op_inliner.specs.inner.Frames.{IsFound, Opens, closure_of, levelled, names_at};

use crate::scope::same_name;
use std::alloc::AllocError;
use tla_meaning::{Def, Expr};
use tla_values::Text;

// An expression with parameters, and the scope of its other names.
#[derive(Clone, Copy)]
pub(crate) struct Closure<'a> {
    pub(crate) params: &'a [Text],
    pub(crate) body: &'a Expr,
    pub(crate) scope: usize,
}

#[derive(Clone, Copy)]
pub(crate) enum Stands<'a> {
    // A bound name of the binder with so many binders around it.
    Bound(u16),
    // An expression with parameters; its scope lies so many frames below the name's own.
    Tree(&'a [Text], &'a Expr, usize),
}

// A name in front of a scope, which lies so many frames below.
#[derive(Clone, Copy)]
pub(crate) struct Frame<'a> {
    name: &'a Text,
    skipped: usize,
    stands: Stands<'a>,
}

// Adds a name that stands for an expression.
pub(crate) fn define<'a>(
    name: &'a Text,
    closure: Closure<'a>,
    scope: usize,
    frames: &mut Vec<Frame<'a>>,
) -> Result<usize, AllocError>
    requires scope { scope ≤ length frames.old.items }
    requires closure { closure.scope ≤ length frames.old.items }
    ensures { IfOk result (λ s. Opens frames.old.items frames.new.items s
        (define_name name.now (closure_of frames.old.items closure.entry) (names_at frames.old.items scope))) }
{
    let count = frames.len();
    frames.push(Frame {
        name,
        skipped: count - scope,
        stands: Stands::Tree(closure.params, closure.body, count - closure.scope),
    })?;
    Ok(frames.len())
}

// Adds a bound name of the binder at this level.
fn bind_one<'a>(
    name: &'a Text,
    level: u16,
    scope: usize,
    frames: &mut Vec<Frame<'a>>,
) -> Result<usize, AllocError>
    requires scope { scope ≤ length frames.old.items }
    ensures { IfOk result (λ s. Opens frames.old.items frames.new.items s
        (bind_names level (name.now ∷ []) (names_at frames.old.items scope))) }
{
    let count = frames.len();
    frames.push(Frame {
        name,
        skipped: count - scope,
        stands: Stands::Bound(level),
    })?;
    Ok(frames.len())
}

// Adds the bound names of a binder.
pub(crate) fn bind<'a>(
    names: &'a [Text],
    level: u16,
    scope: usize,
    frames: &mut Vec<Frame<'a>>,
) -> Result<usize, AllocError>
    requires scope { scope ≤ length frames.old.items }
    ensures { IfOk result (λ s. Opens frames.old.items frames.new.items s
        (bind_names level names.now (names_at frames.old.items scope))) }
{
    let mut scope = scope;
    for name in names {
        scope = bind_one(name, level, scope, frames)?;
    }
    Ok(scope)
}

// Adds parameters in front of a scope, each for its argument, whose own scope is `here`.
pub(crate) fn pass<'a>(
    params: &'a [Text],
    arguments: &'a [Expr],
    here: usize,
    scope: usize,
    frames: &mut Vec<Frame<'a>>,
) -> Result<usize, AllocError>
    requires here { here ≤ length frames.old.items }
    requires scope { scope ≤ length frames.old.items }
    ensures { IfOk result (λ s. Opens frames.old.items frames.new.items s
        (pass_names params.now (trees (map written arguments.now) (names_at frames.old.items here)) (names_at frames.old.items scope))) }
{
    let mut scope = scope;
    let mut i = 0;
    while i < params.len() && i < arguments.len() {
        let argument = Closure {
            params: &[],
            body: &arguments[i],
            scope: here,
        };
        scope = define(&params[i], argument, scope, frames)?;
        i += 1;
    }
    Ok(scope)
}

// Adds the definitions of a LET, whose bodies are the first of these trees.
pub(crate) fn define_all<'a>(
    lets: &'a [(Text, usize)],
    names: &'a [Text],
    trees: &'a [Expr],
    scope: usize,
    frames: &mut Vec<Frame<'a>>,
) -> Result<usize, AllocError>
    requires scope { scope ≤ length frames.old.items }
    ensures { IfOk result (λ s. Opens frames.old.items frames.new.items s
        (let_names lets.now names.now (map written trees.now) (names_at frames.old.items scope))) }
{
    let mut scope = scope;
    let mut first = 0;
    let mut i = 0;
    while i < lets.len() && i < trees.len() {
        let definition = &lets[i];
        let end = first + definition.1.min(names.len() - first);
        let closure = Closure {
            params: &names[first..end],
            body: &trees[i],
            scope,
        };
        scope = define(&definition.0, closure, scope, frames)?;
        first = end;
        i += 1;
    }
    Ok(scope)
}

// Adds a module's definitions, with these bodies.
pub(crate) fn define_module<'a>(
    defs: &'a [Def],
    bodies: &'a [Expr],
    frames: &mut Vec<Frame<'a>>,
) -> Result<usize, AllocError>
    requires bodies { bodies.now ≡ bodies_of defs.now }
    ensures { IfOk result (λ s. Opens frames.old.items frames.new.items s (with_names defs.now no_names)) }
{
    let mut scope = 0;
    for i in 0..defs.len() {
        let def = &defs[i];
        let closure = Closure {
            params: def.params.as_slice(),
            body: &bodies[i],
            scope,
        };
        scope = define(&def.name, closure, scope, frames)?;
    }
    Ok(scope)
}

// What a name stands for that is no bound name: its last entry.
pub(crate) fn find_tree<'a>(name: &Text, scope: usize, frames: &[Frame<'a>]) -> Option<Closure<'a>>
    requires scope { scope ≤ length frames.now }
    ensures some { IfSome result (IsFound frames.now (find_last name.now (names_at frames.now scope).named)) }
    ensures none { IfNone result (find_last name.now (names_at frames.now scope).named ≡ None) }
{
    let mut scope = scope;
    while scope > 0 {
        let i = scope - 1;
        let frame = frames[i];
        if let Stands::Tree(params, body, deeper) = frame.stands {
            if same_name(name, frame.name) {
                return Some(Closure {
                    params,
                    body,
                    scope: i.saturating_sub(deeper),
                });
            }
        }
        scope = i.saturating_sub(frame.skipped);
    }
    None
}

// The level of the binder that binds a name.
pub(crate) fn find_level<'a>(name: &Text, scope: usize, frames: &[Frame<'a>]) -> Option<u16>
    requires scope { scope ≤ length frames.now }
    ensures { find_last name.now (names_at frames.now scope).bound ≡ levelled name.now result }
{
    let mut scope = scope;
    while scope > 0 {
        let i = scope - 1;
        let frame = frames[i];
        if let Stands::Bound(level) = frame.stands {
            if same_name(name, frame.name) {
                return Some(level);
            }
        }
        scope = i.saturating_sub(frame.skipped);
    }
    None
}
