// What each use of a definition stands for: its body with LAMBDAs in folds, and with its annotation.
ghost use Rattle.std.specs.Prelude.{◌≡◌, ◌++◌, ◌∷◌, [], codes, map, IfNone, IfOk, IfSome, None, Some};
ghost use Rattle.std.specs.List.{position};
ghost use Rattle.std.specs.Str.{bytes_eq};
ghost use Rattle.tla_meaning.specs.declared.expr.Expr.{out-Expr};
ghost use Rattle.tla_meaning.specs.Folds.{bound_at, lambda_at, two_names, used_with, with_lambdas};
ghost use Rattle.op_inliner.specs.Annotations.{annotation_at, annotation_of, behind, body_noted, body_of, noted, noted_use, numbered, parameter, parameters_noted, type_at};
ghost use Rattle.op_inliner.specs.inner.Bodies.{bodies_of, first_used, is_named_fold};

use std::alloc::{AllocError, Global};
use tla_meaning::{Def, Expr, Op, Place, copy_expr};
use tla_values::{List, Text};

/// The bodies of the definitions.
pub(crate) fn bodies_of(alloc: Global, defs: &[Def]) -> Result<Vec<Expr>, AllocError>
    ensures { IfOk result (λ bodies. bodies.items ≡ bodies_of defs.now) }
{
    let mut bodies = Vec::new(alloc);
    for def in defs {
        bodies.push(body_of(alloc, def)?)?;
    }
    Ok(bodies)
}

fn body_of(alloc: Global, def: &Def) -> Result<Expr, AllocError>
    ensures { IfOk result (λ body. body ≡ body_of def.now) }
{
    let body = with_lambdas(alloc, copy_expr(alloc, &def.body)?)?;
    match annotation_of(def.note.bytes()) {
        Some(annotation) => body_noted(alloc, annotation, def, body),
        None => Ok(body),
    }
}

// The assumption as it is written out.
pub(crate) fn assumption_of(alloc: Global, e: &Expr) -> Result<Expr, AllocError>
    ensures { IfOk result (λ body. body ≡ with_lambdas e.now) }
{
    with_lambdas(alloc, copy_expr(alloc, e)?)
}

#[cycle(with_lambdas)]
fn with_lambdas(alloc: Global, e: Expr) -> Result<Expr, AllocError>
    ensures { IfOk result (λ r. r ≡ with_lambdas e) }
{
    let Expr {
        place,
        op,
        args,
        binds,
    } = e;
    let args = all_with_lambdas(alloc, args)?;
    let node = Expr {
        place,
        op,
        args,
        binds,
    };
    let whole = lambda_at(alloc, node)?;
    Ok(whole)
}

#[cycle(with_lambdas)]
fn all_with_lambdas(alloc: Global, trees: List<Expr>) -> Result<List<Expr>, AllocError>
    ensures { IfOk result (λ es. es ≡ map with_lambdas trees) }
{
    let mut all = Vec::new(alloc);
    for e in trees.into_vec() {
        all.push(with_lambdas(alloc, e)?)?;
    }
    Ok(List::from_vec(all))
}

// A node whose operands have their LAMBDAs.
fn lambda_at(alloc: Global, e: Expr) -> Result<Expr, AllocError>
    ensures { IfOk result (λ r. r ≡ lambda_at (out-Expr e).place (out-Expr e).op (out-Expr e).binds (out-Expr e).args) }
{
    if !is_named_fold(&e) {
        return Ok(e);
    }
    let args = first_used(alloc, e.args)?;
    let binds = two_names(alloc)?;
    Ok(Expr {
        place: e.place,
        op: Op::Fold,
        args,
        binds,
    })
}

fn is_named_fold(e: &Expr) -> bool
    ensures { result ≡ is_named_fold (out-Expr e.now).op (out-Expr e.now).binds (out-Expr e.now).args }
{
    match (&e.op, e.binds.as_slice(), e.args.as_slice()) {
        (Op::Fold, [], [_, ..]) => true,
        _ => false,
    }
}

// The operands of a fold, with the two names as the arguments of the first.
fn first_used(alloc: Global, operands: List<Expr>) -> Result<List<Expr>, AllocError>
    ensures { IfOk result (λ es. es ≡ first_used operands) }
{
    let mut all = Vec::new(alloc);
    for e in operands.into_vec() {
        if all.is_empty() {
            all.push(used_with(alloc, e)?)?;
        } else {
            all.push(e)?;
        }
    }
    Ok(List::from_vec(all))
}

// The use of an operator, with the two names as its arguments.
fn used_with(alloc: Global, e: Expr) -> Result<Expr, AllocError>
    ensures { IfOk result (λ r. r ≡ used_with (out-Expr e)) }
{
    let Expr {
        place,
        op,
        args,
        binds,
    } = e;
    let mut args = args;
    args.push(bound_at(alloc, place, b"a")?)?;
    args.push(bound_at(alloc, place, b"b")?)?;
    Ok(Expr {
        place,
        op,
        args,
        binds,
    })
}

fn bound_at(alloc: Global, place: Place, name: &[u8]) -> Result<Expr, AllocError>
    ensures { IfOk result (λ e. e ≡ bound_at place name.now) }
{
    let name = text(alloc, name)?;
    Ok(Expr {
        place,
        op: Op::Bound(name),
        args: List::new(alloc),
        binds: List::new(alloc),
    })
}

fn two_names(alloc: Global) -> Result<List<Text>, AllocError>
    ensures { IfOk result (λ names. names ≡ two_names) }
{
    let mut names = Vec::new(alloc);
    names.push(text(alloc, b"a")?)?;
    names.push(text(alloc, b"b")?)?;
    Ok(List::from_vec(names))
}

fn text(alloc: Global, bytes: &[u8]) -> Result<Text, AllocError>
    ensures { IfOk result (λ t. t ≡ bytes.now) }
{
    Ok(Text::from_vec(Vec::from_slice(alloc, bytes)?))
}

// ---- annotations

fn body_noted(alloc: Global, annotation: &[u8], def: &Def, body: Expr) -> Result<Expr, AllocError>
    ensures { IfOk result (λ r. r ≡ body_noted (Some annotation.now) def.now body) }
{
    let inner = parameters_noted(alloc, def.place, def.params.as_slice(), annotation, body)?;
    let whole = noted(alloc, def.place, 0, annotation, inner)?;
    Ok(whole)
}

#[cycle(parameters_noted)]
fn parameters_noted(
    alloc: Global,
    place: Place,
    params: &[Text],
    annotation: &[u8],
    e: Expr,
) -> Result<Expr, AllocError>
    ensures { IfOk result (λ r. r ≡ parameters_noted place params.now annotation.now e) }
{
    let Expr {
        place: own,
        op,
        args,
        binds,
    } = e;
    let number = parameter(params, &op);
    let args = all_noted(alloc, place, params, annotation, args)?;
    let node = Expr {
        place: own,
        op,
        args,
        binds,
    };
    match number {
        Some(i) => {
            let whole = noted(alloc, place, i + 1, annotation, node)?;
            Ok(whole)
        }
        None => Ok(node),
    }
}

#[cycle(parameters_noted)]
fn all_noted(
    alloc: Global,
    place: Place,
    params: &[Text],
    annotation: &[u8],
    trees: List<Expr>,
) -> Result<List<Expr>, AllocError>
    ensures { IfOk result (λ es. es ≡ map (parameters_noted place params.now annotation.now) trees) }
{
    let mut all = Vec::new(alloc);
    for e in trees.into_vec() {
        all.push(parameters_noted(alloc, place, params, annotation, e)?)?;
    }
    Ok(List::from_vec(all))
}

// The number from 0 of the parameter that is used.
fn parameter(params: &[Text], op: &Op) -> Option<usize>
    ensures { result ≡ parameter params.now op.now }
{
    match op {
        Op::Use(name) | Op::Param(name) => index_of(params, name.bytes()),
        _ => None,
    }
}

fn index_of(names: &[Text], name: &[u8]) -> Option<usize>
    ensures { result ≡ position (bytes_eq name.now) names.now }
{
    names.iter().position(|x| name == x.bytes())
}

fn noted(
    alloc: Global,
    place: Place,
    number: usize,
    annotation: &[u8],
    e: Expr,
) -> Result<Expr, AllocError>
    ensures { IfOk result (λ r. r ≡ noted place (numbered number annotation.now) e) }
{
    let note = numbered(alloc, number, annotation)?;
    let mut args = Vec::new(alloc);
    args.push(e)?;
    Ok(Expr {
        place,
        op: Op::Noted(note),
        args: List::from_vec(args),
        binds: List::new(alloc),
    })
}

// The number, a blank and the annotation.
fn numbered(alloc: Global, number: usize, annotation: &[u8]) -> Result<Text, AllocError>
    ensures { IfOk result (λ t. t ≡ numbered number annotation.now) }
{
    let digits = format!(in alloc; "{number}")?;
    let mut note = digits.into_bytes();
    note.push(b' ')?;
    note.extend_from_slice(annotation)?;
    Ok(Text::from_vec(note))
}

// ---- the annotation of a note

fn annotation_of(note: &[u8]) -> Option<&[u8]>
    ensures some { IfSome result (λ t. annotation_of note.now ≡ Some t.now) }
    ensures none { IfNone result (annotation_of note.now ≡ None) }
{
    for i in 0..note.len() {
        match annotation_at(&note[i..]) {
            Some(annotation) => return Some(annotation),
            None => {}
        }
    }
    None
}

// The annotation that the bytes begin with.
fn annotation_at(bytes: &[u8]) -> Option<&[u8]>
    ensures some { IfSome result (λ t. annotation_at bytes.now ≡ Some t.now) }
    ensures none { IfNone result (annotation_at bytes.now ≡ None) }
{
    match behind(bytes, b"@type:") {
        Some(rest) => type_at(rest),
        None => None,
    }
}

// The bytes up to the first `;`.
fn type_at(bytes: &[u8]) -> Option<&[u8]>
    ensures some { IfSome result (λ t. type_at bytes.now ≡ Some t.now) }
    ensures none { IfNone result (type_at bytes.now ≡ None) }
{
    for i in 0..bytes.len() {
        if bytes[i] == b';' {
            return Some(&bytes[..i]);
        }
        if bytes[i] == b'@' {
            return None;
        }
    }
    None
}

// The bytes behind this beginning.
fn behind<'a>(bytes: &'a [u8], beginning: &[u8]) -> Option<&'a [u8]>
    ensures some { IfSome result (λ rest. behind beginning.now bytes.now ≡ Some rest.now) }
    ensures none { IfNone result (behind beginning.now bytes.now ≡ None) }
{
    let mut i = 0;
    while i < beginning.len() {
        if i >= bytes.len() {
            return None;
        }
        if bytes[i] != beginning[i] {
            return None;
        }
        i += 1;
    }
    Some(&bytes[i..])
}
