//! Texts gathered over the trees of a system.

ghost use Rattle.cell_arena.specs.Cells.{AllDiffer};
ghost use Rattle.expr_rewriter.specs.Rewriting.{own_texts};
ghost use Rattle.std.specs.Prelude.{◌++◌, ◌≡◌, ◌∷◌, IfOk, IsTrue, OnOk, flat_map, map};
ghost use Rattle.system_texts.specs.SystemTexts.{HasSystemTexts};
ghost use Rattle.system_texts.specs.inner.Gathered.{all_texts, are_among, field_names, path_texts, step_texts, tree_texts};

use indexmap::IndexSet;
use kernel_trees::{Assigned, AssignedStep, Ker, KerOp, System};
use snowcat_rows::Ty;
use std::alloc::{AllocError, Global};
use tla_values::{List, Text, Value, copy_text};

// The names of fields in a type.
#[tactic(auto, using(crate::proofs::FieldNames::field_forms))]
#[cycle(types)]
fn push_type<'a>(ty: &'a Ty, out: &mut Vec<&'a Text>) -> Result<(), AllocError>
    ensures { OnOk result (map (λ t. t.now) out.new.items ≡ map (λ t. t.now) out.old.items ++ field_names ty.now) }
{
    match ty {
        Ty::Bool => Ok(()),
        Ty::Int => Ok(()),
        Ty::Str => Ok(()),
        Ty::Named(_) => Ok(()),
        Ty::Var(_) => Ok(()),
        Ty::Set(item) => push_type(item.get(), out),
        Ty::Seq(item) => push_type(item.get(), out),
        Ty::Fun(argument, value) => {
            push_type(argument.get(), out)?;
            push_type(value.get(), out)?;
            Ok(())
        }
        Ty::Tup(items) => push_types(items.as_slice(), out),
        Ty::Rec(fields, _) => push_fields(fields.as_slice(), out),
        Ty::Oper(_, _) => Ok(()),
    }
}

#[cycle(types)]
fn push_types<'a>(types: &'a [Ty], out: &mut Vec<&'a Text>) -> Result<(), AllocError>
    ensures { OnOk result (map (λ t. t.now) out.new.items
        ≡ map (λ t. t.now) out.old.items ++ flat_map field_names types.now) }
{
    for ty in types {
        push_type(ty, out)?;
    }
    Ok(())
}

#[cycle(types)]
fn push_fields<'a>(fields: &'a [(Text, Ty)], out: &mut Vec<&'a Text>) -> Result<(), AllocError>
    ensures { OnOk result (map (λ t. t.now) out.new.items
        ≡ map (λ t. t.now) out.old.items ++ flat_map (λ f. f.0 ∷ field_names f.1) fields.now) }
{
    for field in fields {
        out.push(&field.0)?;
        push_type(&field.1, out)?;
    }
    Ok(())
}

fn push_constant<'a>(op: &'a KerOp, out: &mut Vec<&'a Text>) -> Result<(), AllocError>
    ensures { OnOk result (map (λ t. t.now) out.new.items ≡ map (λ t. t.now) out.old.items ++ own_texts op.now) }
{
    if let KerOp::Const(Value::Text(text)) = op {
        out.push(text)?;
    }
    Ok(())
}

// The texts of a tree, a node's before those of its children.
#[cycle(trees)]
fn push_tree<'a>(tree: &'a Ker, out: &mut Vec<&'a Text>) -> Result<(), AllocError>
    ensures { OnOk result (map (λ t. t.now) out.new.items ≡ map (λ t. t.now) out.old.items ++ tree_texts tree.now) }
{
    push_constant(&tree.op, out)?;
    push_type(&tree.ty, out)?;
    push_trees(tree.args.as_slice(), out)?;
    Ok(())
}

#[cycle(trees)]
fn push_trees<'a>(trees: &'a [Ker], out: &mut Vec<&'a Text>) -> Result<(), AllocError>
    ensures { OnOk result (map (λ t. t.now) out.new.items
        ≡ map (λ t. t.now) out.old.items ++ flat_map tree_texts trees.now) }
{
    for tree in trees {
        push_tree(tree, out)?;
    }
    Ok(())
}

fn push_sets<'a>(sets: &'a [(u32, Ker)], out: &mut Vec<&'a Text>) -> Result<(), AllocError>
    ensures { OnOk result (map (λ t. t.now) out.new.items
        ≡ map (λ t. t.now) out.old.items ++ flat_map tree_texts (map (λ s. s.1) sets.now)) }
{
    for set in sets {
        push_tree(&set.1, out)?;
    }
    Ok(())
}

fn push_step<'a>(step: &'a AssignedStep, out: &mut Vec<&'a Text>) -> Result<(), AllocError>
    ensures { OnOk result (map (λ t. t.now) out.new.items ≡ map (λ t. t.now) out.old.items ++ step_texts step.now) }
{
    match step {
        AssignedStep::Guard(tree, _) => push_tree(tree, out),
        AssignedStep::Pick(sets) => push_sets(sets.as_slice(), out),
        AssignedStep::Equals(_, tree) => push_tree(tree, out),
        AssignedStep::Among(_, tree) => push_tree(tree, out),
    }
}

fn push_path<'a>(path: &'a Assigned, out: &mut Vec<&'a Text>) -> Result<(), AllocError>
    ensures { OnOk result (map (λ t. t.now) out.new.items ≡ map (λ t. t.now) out.old.items ++ path_texts path.now) }
{
    for step in path.steps.as_slice() {
        push_step(step, out)?;
    }
    Ok(())
}

fn push_paths<'a>(paths: &'a [Assigned], out: &mut Vec<&'a Text>) -> Result<(), AllocError>
    ensures { OnOk result (map (λ t. t.now) out.new.items
        ≡ map (λ t. t.now) out.old.items ++ flat_map path_texts paths.now) }
{
    for path in paths {
        push_path(path, out)?;
    }
    Ok(())
}

// The texts of a system, with those that stand several times.
fn push_system<'a>(system: &'a System, out: &mut Vec<&'a Text>) -> Result<(), AllocError>
    ensures { OnOk result (map (λ t. t.now) out.new.items ≡ map (λ t. t.now) out.old.items ++ all_texts system.now) }
{
    let invs = system.ker.invs.as_slice();
    let constants = system.constants.as_slice();
    let start = system.start.as_slice();
    let next = system.next.as_slice();
    push_tree(&system.ker.assume, out)?;
    push_trees(invs, out)?;
    push_paths(constants, out)?;
    push_paths(start, out)?;
    push_paths(next, out)?;
    Ok(())
}

// Each text once.
fn each_once(alloc: Global, texts: &[&Text]) -> Result<List<Text>, AllocError>
    ensures differ { IfOk result (λ r. AllDiffer r) }
    ensures among { IfOk result (λ r. IsTrue (are_among r (map (λ t. t.now) texts.now))) }
{
    let mut seen: IndexSet<&[u8]> = IndexSet::new(alloc);
    let mut once = Vec::new(alloc);
    for text in texts {
        if seen.insert(text.bytes())? {
            once.push(copy_text(alloc, text)?)?;
        }
    }
    Ok(List::from_vec(once))
}

/// The texts of a system, each once: the text constants of its assumption, its invariants and its paths, the names of
/// fields in the types there, and the empty text.
pub fn texts_of(alloc: Global, system: &System) -> Result<List<Text>, AllocError>
    ensures differ { IfOk result (λ r. AllDiffer r) }
    ensures texts { IfOk result (λ r. HasSystemTexts r system.now) }
{
    let empty = Text::from_vec(Vec::new(alloc));
    let mut all = Vec::new(alloc);
    all.push(&empty)?;
    push_system(system, &mut all)?;
    let texts = each_once(alloc, all.as_slice())?;
    Ok(texts)
}
