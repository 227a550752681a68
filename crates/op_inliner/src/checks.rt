// The limits of an expanded tree, and the forms in it.
ghost use Rattle.std.specs.Prelude.{◌≡◌, ◌≤◌, ◌↔◌, IsTrue, map, nat_lt};
ghost use Rattle.op_inliner.specs.Answers.{IsAnswered, checked, depth, first_form, forms, greatest, own_form, size, up_to};
ghost use Rattle.op_inliner.specs.Places.{joined};
ghost use Rattle.tla_meaning.specs.declared.expr.Expr.{out-Expr};

use crate::parts::InlineFault;
use std::alloc::Global;
use tla_meaning::{Expr, Form, Op, Place};
use tla_values::{Text, copy_text};

pub(crate) const NODES: u64 = 1_000_000;

// At most so many, so no stack overflows.
pub(crate) const LEVELS: usize = 400;

/// A tree within the limits that reaches no form, where its nodes are counted.
pub(crate) fn checked(
    alloc: Global,
    name: &Text,
    nodes: u64,
    tree: Expr,
) -> Result<Expr, InlineFault>
    requires nodes { nodes ≡ up_to 1000000000000 (size tree) }
    ensures { IsAnswered (checked name.now tree) result }
{
    if nodes > NODES {
        let name = copy_text(alloc, name)?;
        return Err(InlineFault::TooLarge(name, nodes));
    }
    if !has_levels(&tree, LEVELS) {
        let name = copy_text(alloc, name)?;
        return Err(InlineFault::TooDeep(name));
    }
    match first_form(&tree) {
        Some((form, place)) => Err(InlineFault::Reached(form, place)),
        None => Ok(tree),
    }
}

// Whether a tree has no more levels.
#[cycle(has_levels)]
fn has_levels(e: &Expr, levels: usize) -> bool
    ensures { IsTrue result ↔ (depth e.now ≤ levels) }
{
    levels > 0 && all_have_levels(e.args.as_slice(), levels - 1)
}

#[cycle(has_levels)]
fn all_have_levels(trees: &[Expr], levels: usize) -> bool
    ensures { IsTrue result ↔ (greatest (map depth trees.now) ≤ levels) }
{
    for e in trees {
        if !has_levels(e, levels) {
            return false;
        }
    }
    true
}

// The first form, a node before its children.
#[cycle(first_form)]
fn first_form(e: &Expr) -> Option<(Form, Place)>
    ensures { result ≡ first_form (forms e.now) }
{
    match own_form(e) {
        Some(form) => Some(form),
        None => first_of(e.args.as_slice()),
    }
}

#[cycle(first_form)]
fn first_of(trees: &[Expr]) -> Option<(Form, Place)>
    ensures { result ≡ first_form (joined (map forms trees.now)) }
{
    for e in trees {
        match first_form(e) {
            Some(form) => return Some(form),
            None => {}
        }
    }
    None
}

fn own_form(e: &Expr) -> Option<(Form, Place)>
    ensures { result ≡ first_form (own_form (out-Expr e.now).op (out-Expr e.now).place) }
{
    match &e.op {
        Op::Outside(form) => Some((*form, e.place)),
        _ => None,
    }
}
