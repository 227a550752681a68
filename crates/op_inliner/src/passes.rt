// One pass over each body.
ghost use Rattle.std.specs.Prelude.{◌≡◌, ◌++◌, ◌∷◌, [], IfOk, OnOk, drop, length, map, take};
ghost use Rattle.tla_meaning.specs.Meaning.{Lets};
ghost use Rattle.op_inliner.specs.inner.Bodies.{bodies_of};
ghost use Rattle.op_inliner.specs.Answers.{up_to};
ghost use Rattle.op_inliner.specs.inner.Sums.{defined_sums, definitions_sums, let_sums, limit, nodes_of, scope_of, summed, sums_at, sums_of_child};

use crate::counts::node_sums;
use crate::scope::{Entry, called, no_sums, push_parameters};
use crate::sums::{Counted, cut};
use std::alloc::{AllocError, Global};
use tla_meaning::{Def, Expr, Op};
use tla_values::{List, Text, copy_text};

// What an expression counts, where so many numbers are unknown. The scope is as it was afterwards.
#[cycle(summed)]
fn summed(
    alloc: Global,
    e: &Expr,
    unknown: usize,
    scope: &mut Vec<Entry>,
) -> Result<Counted, AllocError>
    ensures counted { IfOk result (λ c. c ≡ summed e.now unknown (scope_of scope.old.items)) }
    ensures kept { OnOk result (scope_of scope.new.items ≡ scope_of scope.old.items) }
{
    let operands = e.args.as_slice();
    match &e.op {
        Op::Use(name) | Op::Param(name) => {
            let arguments = all_summed(alloc, operands, unknown, scope)?;
            let counted = called(alloc, name, scope.as_slice(), arguments)?;
            Ok(counted)
        }
        Op::Let(lets) => {
            let outside = scope.len();
            define_all(
                alloc,
                lets.as_slice(),
                e.binds.as_slice(),
                operands,
                unknown,
                scope,
            )?;
            let counted = child_summed(alloc, lets.len(), operands, unknown, scope)?;
            scope.truncate(outside);
            Ok(counted)
        }
        op => {
            let counts = all_summed(alloc, operands, unknown, scope)?;
            let counted = node_sums(alloc, op, counts.as_slice())?;
            Ok(counted)
        }
    }
}

#[cycle(summed)]
fn all_summed(
    alloc: Global,
    trees: &[Expr],
    unknown: usize,
    scope: &mut Vec<Entry>,
) -> Result<List<Counted>, AllocError>
    ensures counted { IfOk result (λ cs. cs ≡ sums_at (map summed trees.now) unknown (scope_of scope.old.items)) }
    ensures kept { OnOk result (scope_of scope.new.items ≡ scope_of scope.old.items) }
{
    let mut counts = Vec::new(alloc);
    for e in trees {
        counts.push(summed(alloc, e, unknown, scope)?)?;
    }
    Ok(List::from_vec(counts))
}

// The child of this number.
#[cycle(summed)]
fn child_summed(
    alloc: Global,
    i: usize,
    trees: &[Expr],
    unknown: usize,
    scope: &mut Vec<Entry>,
) -> Result<Counted, AllocError>
    ensures counted { IfOk result (λ c. c ≡ sums_of_child i (map summed trees.now) unknown (scope_of scope.old.items)) }
    ensures kept { OnOk result (scope_of scope.new.items ≡ scope_of scope.old.items) }
{
    if i < trees.len() {
        let counted = summed(alloc, &trees[i], unknown, scope)?;
        Ok(counted)
    } else {
        Ok(no_sums(alloc))
    }
}

// Adds the definitions of a LET.
#[cycle(summed)]
fn define_all(
    alloc: Global,
    lets: &[(Text, usize)],
    names: &[Text],
    trees: &[Expr],
    unknown: usize,
    scope: &mut Vec<Entry>,
) -> Result<(), AllocError>
    ensures { OnOk result
        (scope_of scope.new.items ≡ let_sums lets.now names.now (map summed trees.now) unknown (scope_of scope.old.items)) }
{
    let mut first = 0;
    let mut i = 0;
    while i < lets.len() && i < trees.len() {
        let end = first + lets[i].1.min(names.len() - first);
        define(
            alloc,
            &lets[i].0,
            &names[first..end],
            &trees[i],
            unknown,
            scope,
        )?;
        first = end;
        i += 1;
    }
    Ok(())
}

// Adds a definition, whose body is counted with its parameters unknown.
#[cycle(summed)]
fn define(
    alloc: Global,
    name: &Text,
    parameters: &[Text],
    body: &Expr,
    unknown: usize,
    scope: &mut Vec<Entry>,
) -> Result<(), AllocError>
    ensures { OnOk result
        (scope_of scope.new.items ≡ defined_sums name.now parameters.now (summed body.now) unknown (scope_of scope.old.items)) }
{
    let outside = scope.len();
    let all = push_parameters(alloc, parameters, unknown, scope)?;
    let counted = summed(alloc, body, all, scope)?;
    scope.truncate(outside);
    let name = copy_text(alloc, name)?;
    scope.push(Entry {
        name,
        below: unknown,
        counted,
    })?;
    Ok(())
}

/// What the definitions of a module count, by their bodies.
pub(crate) fn definitions_counted(
    alloc: Global,
    defs: &[Def],
    bodies: &[Expr],
) -> Result<Vec<Entry>, AllocError>
    requires bodies { bodies.now ≡ bodies_of defs.now }
    ensures { IfOk result (λ scope. scope_of scope.items ≡ definitions_sums defs.now []) }
{
    let mut scope = Vec::new(alloc);
    for i in 0..defs.len() {
        let def = &defs[i];
        define(
            alloc,
            &def.name,
            def.params.as_slice(),
            &bodies[i],
            0,
            &mut scope,
        )?;
    }
    Ok(scope)
}

/// How many nodes the tree of an operator without parameters has; the limit stands for every greater number.
pub(crate) fn nodes_of(alloc: Global, name: &Text, scope: &[Entry]) -> Result<u64, AllocError>
    ensures { IfOk result (λ n. n ≡ nodes_of name.now (scope_of scope.now)) }
{
    let counted = called(alloc, name, scope, List::new(alloc))?;
    Ok(cut(counted.tree.base))
}

/// How many nodes the tree of the assumptions has, as one expression; the limit stands for every greater number.
pub(crate) fn nodes_of_assumed(
    alloc: Global,
    assumed: &Expr,
    scope: &mut Vec<Entry>,
) -> Result<u64, AllocError>
    ensures counted { IfOk result (λ n. n ≡ up_to limit (summed assumed.now 0 (scope_of scope.old.items)).tree.base) }
    ensures kept { OnOk result (scope_of scope.new.items ≡ scope_of scope.old.items) }
{
    let counted = summed(alloc, assumed, 0, scope)?;
    Ok(cut(counted.tree.base))
}
