// Whether each use in a flat module is known, with its number of arguments.
ghost use Rattle.std.specs.Prelude.{◌≡◌, ◌++◌, [], IfOk, OnOk, length, map, true};
ghost use Rattle.std.specs.List.{list_all};
ghost use Rattle.tla_meaning.specs.Folds.{with_lambdas};
ghost use Rattle.tla_meaning.specs.Scopes.{find_last};
ghost use Rattle.op_inliner.specs.Known.{all_use, are_known, arities_of, definitions_known, lets_use, shaped, uses_known, wants, with_params};
ghost use Rattle.op_inliner.specs.inner.Knowing.{Begins};

use crate::bodies::assumption_of;
use crate::scope::same_name;
use std::alloc::{AllocError, Global};
use tla_meaning::{Def, Expr, Flat, Op};
use tla_values::{Text, copy_text};

// Names with their numbers of parameters.
type Arities = Vec<(Text, usize)>;

fn is_wanted(name: &Text, count: usize, scope: &[(Text, usize)]) -> bool
    ensures { result ≡ wants count (find_last name.now scope.now) }
{
    let mut i = scope.len();
    while i > 0 {
        i -= 1;
        let entry = &scope[i];
        if same_name(name, &entry.0) {
            return entry.1 == count;
        }
    }
    false
}

fn is_shaped(op: &Op, count: usize) -> bool
    ensures { result ≡ shaped op.now count }
{
    match op {
        Op::Prime | Op::Unchanged | Op::Noted(_) => count == 1,
        Op::Boxed | Op::Angled => count == 2,
        _ => true,
    }
}

#[cycle(uses_known)]
fn uses_known(alloc: Global, e: &Expr, scope: &mut Arities) -> Result<bool, AllocError>
    ensures known { IfOk result (λ b. b ≡ uses_known e.now scope.old.items) }
    ensures kept { OnOk result (scope.new.items ≡ scope.old.items) }
{
    let args = e.args.as_slice();
    match &e.op {
        Op::Use(name) | Op::Param(name) => {
            if !is_wanted(name, args.len(), scope.as_slice()) {
                return Ok(false);
            }
            all_use(alloc, args, scope)
        }
        Op::Let(lets) => {
            let outside = scope.len();
            let known = lets_known(alloc, lets.as_slice(), e.binds.as_slice(), args, scope)?;
            scope.truncate(outside);
            Ok(known)
        }
        op => {
            if !is_shaped(op, args.len()) {
                return Ok(false);
            }
            all_use(alloc, args, scope)
        }
    }
}

#[cycle(uses_known)]
fn all_use(alloc: Global, trees: &[Expr], scope: &mut Arities) -> Result<bool, AllocError>
    ensures known { IfOk result (λ b. b ≡ all_use (map uses_known trees.now) scope.old.items) }
    ensures kept { OnOk result (scope.new.items ≡ scope.old.items) }
{
    for e in trees {
        if !uses_known(alloc, e, scope)? {
            return Ok(false);
        }
    }
    Ok(true)
}

// The definitions of a LET, and its body. The scope is left longer.
#[cycle(uses_known)]
fn lets_known(
    alloc: Global,
    lets: &[(Text, usize)],
    names: &[Text],
    trees: &[Expr],
    scope: &mut Arities,
) -> Result<bool, AllocError>
    ensures known { IfOk result (λ b. b ≡ lets_use lets.now names.now (map uses_known trees.now) scope.old.items) }
    ensures grown { OnOk result (Begins scope.old.items scope.new.items) }
{
    let mut first = 0;
    for i in 0..lets.len() {
        let definition = &lets[i];
        if i >= trees.len() {
            return Ok(false);
        }
        let end = first + definition.1.min(names.len() - first);
        let params = &names[first..end];
        if params.len() != definition.1 {
            return Ok(false);
        }
        if !body_known(alloc, params, &trees[i], scope)? {
            return Ok(false);
        }
        let name = copy_text(alloc, &definition.0)?;
        scope.push((name, definition.1))?;
        first = end;
    }
    if lets.len() >= trees.len() {
        return Ok(false);
    }
    let known = uses_known(alloc, &trees[lets.len()], scope)?;
    Ok(known)
}

// A body under its parameters.
#[cycle(uses_known)]
fn body_known(
    alloc: Global,
    params: &[Text],
    e: &Expr,
    scope: &mut Arities,
) -> Result<bool, AllocError>
    ensures known { IfOk result (λ b. b ≡ uses_known e.now (with_params params.now scope.old.items)) }
    ensures kept { OnOk result (scope.new.items ≡ scope.old.items) }
{
    let outside = scope.len();
    push_params(alloc, params, scope)?;
    let known = uses_known(alloc, e, scope)?;
    scope.truncate(outside);
    Ok(known)
}

fn push_params(alloc: Global, params: &[Text], scope: &mut Arities) -> Result<(), AllocError>
    ensures { OnOk result (scope.new.items ≡ with_params params.now scope.old.items) }
{
    for name in params {
        scope.push((copy_text(alloc, name)?, 0))?;
    }
    Ok(())
}

// Whether the definitions are known, which are then in scope.
fn definitions_known(alloc: Global, defs: &[Def], scope: &mut Arities) -> Result<bool, AllocError>
    ensures known { IfOk result (λ b. b ≡ definitions_known defs.now scope.old.items) }
    ensures scope { IfOk result (λ b. b ≡ true → scope.new.items ≡ arities_of defs.now scope.old.items) }
{
    for def in defs {
        let body = assumption_of(alloc, &def.body)?;
        if !body_known(alloc, def.params.as_slice(), &body, scope)? {
            return Ok(false);
        }
        let name = copy_text(alloc, &def.name)?;
        scope.push((name, def.params.as_slice().len()))?;
    }
    Ok(true)
}

fn assumptions_known(alloc: Global, trees: &[Expr], scope: &mut Arities) -> Result<bool, AllocError>
    ensures { IfOk result (λ b. b ≡ list_all (λ e. uses_known (with_lambdas e) scope.old.items) trees.now) }
{
    for e in trees {
        let body = assumption_of(alloc, e)?;
        if !uses_known(alloc, &body, scope)? {
            return Ok(false);
        }
    }
    Ok(true)
}

/// Whether each use in a flat module names an earlier definition, a parameter or what a LET around it defines, and has
/// as many arguments as that wants. This is what `expand` and `job_of` ask of a module.
pub fn is_known(alloc: Global, flat: &Flat) -> Result<bool, AllocError>
    ensures { IfOk result (λ b. b ≡ are_known flat.now) }
{
    let mut scope = Vec::new(alloc);
    if !definitions_known(alloc, flat.defs.as_slice(), &mut scope)? {
        return Ok(false);
    }
    let known = assumptions_known(alloc, flat.assumes.as_slice(), &mut scope)?;
    Ok(known)
}
