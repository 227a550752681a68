// Bound names given back to a tree with names of levels.
ghost use Rattle.std.specs.Prelude.{◌≡◌, ◌++◌, ◌∷◌, ◌+◌, ◌<◌, [], IfOk, OnOk, false, get_or, map, true, zip};
ghost use Rattle.tla_meaning.specs.declared.expr.Expr.{out-Expr};
ghost use Rattle.tla_meaning.specs.Scopes.{same_text};
ghost use Rattle.op_inliner.specs.NamesBack.{all_binds, among, free_name, free_names, inner_reads, longer_name, opened, outer_reads, own_name, own_names, without};
ghost use Rattle.op_inliner.specs.inner.Naming.{back_binds, back_op, backs_at, binds_names, child_back, longest_from, news, own_binds, own_read, reads_of, renaming};

use crate::scope::same_name;
use crate::trees::marks;
use std::alloc::{AllocError, Global};
use tla_meaning::{Expr, Op, copy_op};
use tla_values::{List, Text, copy_text, copy_texts};

// ---- names

// The name of which a name of a level was made.
fn own_name(name: &Text) -> &[u8]
    ensures { result.now ≡ own_name name.now }
{
    let bytes = name.bytes();
    if bytes.len() < 2 {
        return &[];
    }
    &bytes[2..]
}

fn is_among(name: &Text, names: &[Text]) -> bool
    ensures { result ≡ among name.now names.now }
{
    for other in names {
        if same_name(name, other) {
            return true;
        }
    }
    false
}

// The length of the longest of these, and no less than this one.
fn longest_from(least: usize, names: &[Text]) -> usize
    ensures { result ≡ longest_from least names.now }
{
    let mut longest = least;
    let mut i = names.len();
    while i > 0 {
        i -= 1;
        let length = names[i].bytes().len();
        if longest < length {
            longest = length;
        }
    }
    longest
}

// The name with as many apostrophes as make it longer than all of these.
fn longer_name(
    alloc: Global,
    name: &Text,
    taken: &[Text],
    there: &[Text],
) -> Result<Text, AllocError>
    ensures { IfOk result (λ t. t ≡ longer_name name.now (taken.now ++ there.now)) }
{
    let longest = longest_from(longest_from(0, there), taken);
    let Some(wanted) = longest.checked_add(1) else {
        return Err(AllocError);
    };
    let missing = wanted.saturating_sub(name.bytes().len());
    let mut bytes = Vec::from_slice(alloc, name.bytes())?;
    for _ in 0..missing {
        bytes.push(b'\'')?;
    }
    Ok(Text::from_vec(bytes))
}

fn free_name(alloc: Global, there: &[Text], name: &Text, taken: &[Text]) -> Result<Text, AllocError>
    ensures { IfOk result (λ t. t ≡ free_name there.now name.now taken.now) }
{
    if is_among(name, taken) {
        longer_name(alloc, name, taken, there)
    } else {
        copy_text(alloc, name)
    }
}

// New names for names of levels: none of those that are taken.
fn free_names(
    alloc: Global,
    there: &[Text],
    names: &[Text],
    taken: Vec<Text>,
) -> Result<List<Text>, AllocError>
    ensures { IfOk result (λ ts. ts ≡ free_names there.now names.now taken.items) }
{
    let mut taken = taken;
    let mut all = Vec::new(alloc);
    for name in names {
        let own = Text::from_vec(Vec::from_slice(alloc, own_name(name))?);
        let free = free_name(alloc, there, &own, taken.as_slice())?;
        let also = copy_text(alloc, &free)?;
        taken.insert(0, also)?;
        all.push(free)?;
    }
    Ok(List::from_vec(all))
}

// ---- renamings

// The new name of a name, by pairs of names with their new ones.
fn renamed(alloc: Global, name: &Text, pairs: &[(Text, Text)]) -> Result<Text, AllocError>
    ensures { IfOk result (λ t. t ≡ renaming pairs.now name.now) }
{
    let mut i = pairs.len();
    while i > 0 {
        i -= 1;
        let pair = &pairs[i];
        if same_name(name, &pair.0) {
            let new_name = copy_text(alloc, &pair.1)?;
            return Ok(new_name);
        }
    }
    copy_text(alloc, name)
}

fn push_pairs(
    alloc: Global,
    names: &[Text],
    new_names: &[Text],
    pairs: &mut Vec<(Text, Text)>,
) -> Result<(), AllocError>
    ensures { OnOk result (pairs.new.items ≡ pairs.old.items ++ zip names.now new_names.now) }
{
    let mut i = 0;
    while i < names.len() && i < new_names.len() {
        let name = copy_text(alloc, &names[i])?;
        let new_name = copy_text(alloc, &new_names[i])?;
        pairs.push((name, new_name))?;
        i += 1;
    }
    Ok(())
}

fn push_news(alloc: Global, pairs: &[(Text, Text)], all: &mut Vec<Text>) -> Result<(), AllocError>
    ensures { OnOk result (all.new.items ≡ all.old.items ++ news pairs.now) }
{
    for pair in pairs {
        all.push(copy_text(alloc, &pair.1)?)?;
    }
    Ok(())
}

fn push_own_names(alloc: Global, names: &[Text], all: &mut Vec<Text>) -> Result<(), AllocError>
    ensures { OnOk result (all.new.items ≡ all.old.items ++ own_names names.now) }
{
    for name in names {
        all.push(Text::from_vec(Vec::from_slice(alloc, own_name(name))?))?;
    }
    Ok(())
}

// The names that are none of these.
fn push_without(
    alloc: Global,
    binds: &[Text],
    names: &[Text],
    all: &mut Vec<Text>,
) -> Result<(), AllocError>
    ensures { OnOk result (all.new.items ≡ all.old.items ++ without binds.now names.now) }
{
    for name in names {
        if !is_among(name, binds) {
            all.push(copy_text(alloc, name)?)?;
        }
    }
    Ok(())
}

fn all_renamed(
    alloc: Global,
    names: &[Text],
    pairs: &[(Text, Text)],
) -> Result<Vec<Text>, AllocError>
    ensures { IfOk result (λ v. v.items ≡ map (renaming pairs.now) names.now) }
{
    let mut all = Vec::new(alloc);
    for name in names {
        all.push(renamed(alloc, name, pairs)?)?;
    }
    Ok(all)
}

// ---- the names that a tree reads and binds

fn is_marked(marks: &[bool], i: usize) -> bool
    ensures { result ≡ get_or marks.now i false }
{
    match marks.get(i) {
        Some(marked) => *marked,
        None => false,
    }
}

// Whether an operator's names are bound in the tree.
fn binds_names(op: &Op) -> bool
    ensures { result ≡ binds_names op.now }
{
    match op {
        Op::Use(_) | Op::Param(_) | Op::Let(_) | Op::Bound(_) => false,
        _ => true,
    }
}

// Adds the name that a node reads.
fn push_own_read(alloc: Global, op: &Op, all: &mut Vec<Text>) -> Result<(), AllocError>
    ensures { OnOk result (all.new.items ≡ all.old.items ++ own_read op.now) }
{
    match op {
        Op::Bound(name) => {
            all.push(copy_text(alloc, name)?)?;
            Ok(())
        }
        _ => Ok(()),
    }
}

// Adds the names that a tree reads and does not bind.
#[cycle(push_reads)]
fn push_reads(alloc: Global, e: &Expr, all: &mut Vec<Text>) -> Result<(), AllocError>
    ensures { OnOk result (all.new.items ≡ all.old.items ++ (opened e.now).reads) }
{
    push_own_read(alloc, &e.op, all)?;
    let args = e.args.as_slice();
    let binds = e.binds.as_slice();
    let marked = marks(alloc, &e.op, binds.len())?;
    let marks = marked.as_slice();
    push_children_reads(alloc, args, marks, false, all)?;
    let mut inner = Vec::new(alloc);
    push_children_reads(alloc, args, marks, true, &mut inner)?;
    push_without(alloc, binds, inner.as_slice(), all)?;
    Ok(())
}

// Those of the children that are marked, or of the others.
#[cycle(push_reads)]
fn push_children_reads(
    alloc: Global,
    trees: &[Expr],
    marks: &[bool],
    inner: bool,
    all: &mut Vec<Text>,
) -> Result<(), AllocError>
    ensures { OnOk result (all.new.items ≡ all.old.items ++ reads_of inner marks.now (map opened trees.now)) }
{
    for i in 0..trees.len() {
        let e = &trees[i];
        if is_marked(marks, i) == inner {
            push_reads(alloc, e, all)?;
        }
    }
    Ok(())
}

// Adds the names that a node binds, by their own names.
fn push_bound(alloc: Global, e: &Expr, all: &mut Vec<Text>) -> Result<(), AllocError>
    ensures { OnOk result (all.new.items ≡ all.old.items ++ own_binds e.now) }
{
    if binds_names(&e.op) {
        push_own_names(alloc, e.binds.as_slice(), all)?;
    }
    Ok(())
}

// Adds the names that a tree binds, by their own names.
#[cycle(push_binds)]
fn push_binds(alloc: Global, e: &Expr, all: &mut Vec<Text>) -> Result<(), AllocError>
    ensures { OnOk result (all.new.items ≡ all.old.items ++ (opened e.now).binds) }
{
    push_bound(alloc, e, all)?;
    push_all_binds(alloc, e.args.as_slice(), all)?;
    Ok(())
}

#[cycle(push_binds)]
fn push_all_binds(alloc: Global, trees: &[Expr], all: &mut Vec<Text>) -> Result<(), AllocError>
    ensures { OnOk result (all.new.items ≡ all.old.items ++ all_binds (map opened trees.now)) }
{
    for e in trees {
        push_binds(alloc, e, all)?;
    }
    Ok(())
}

// ---- names given back

// The new names of a node's bound names.
fn back_binds(
    alloc: Global,
    e: &Expr,
    marks: &[bool],
    pairs: &[(Text, Text)],
) -> Result<List<Text>, AllocError>
    ensures { IfOk result (λ ts. ts ≡ back_binds e.now marks.now pairs.now) }
{
    let binds = e.binds.as_slice();
    if !binds_names(&e.op) {
        return copy_texts(alloc, &e.binds);
    }
    let mut reads = Vec::new(alloc);
    push_children_reads(alloc, e.args.as_slice(), marks, true, &mut reads)?;
    let mut outer = Vec::new(alloc);
    push_without(alloc, binds, reads.as_slice(), &mut outer)?;
    let taken = all_renamed(alloc, outer.as_slice(), pairs)?;
    let mut there = Vec::new(alloc);
    push_own_names(alloc, binds, &mut there)?;
    push_all_binds(alloc, e.args.as_slice(), &mut there)?;
    push_news(alloc, pairs, &mut there)?;
    free_names(alloc, there.as_slice(), binds, taken)
}

fn back_op(alloc: Global, op: &Op, pairs: &[(Text, Text)]) -> Result<Op, AllocError>
    ensures { IfOk result (λ o. o ≡ back_op (renaming pairs.now) op.now) }
{
    match op {
        Op::Bound(name) => {
            let name = renamed(alloc, name, pairs)?;
            Ok(Op::Bound(name))
        }
        op => copy_op(alloc, op),
    }
}

// What is bound at a node, under which new names, and in which children.
#[derive(Clone, Copy)]
struct Binder<'a> {
    names: &'a [Text],
    new_names: &'a [Text],
    marks: &'a [bool],
}

/// The tree with its names given back, where the names around it have these new names.
#[cycle(given_back)]
pub(crate) fn given_back(
    alloc: Global,
    e: &Expr,
    pairs: &mut Vec<(Text, Text)>,
) -> Result<Expr, AllocError>
    ensures back { IfOk result (λ r. r ≡ (opened e.now).back (renaming pairs.old.items) (news pairs.old.items)) }
    ensures kept { OnOk result (pairs.new.items ≡ pairs.old.items) }
{
    let names = e.binds.as_slice();
    let marked = marks(alloc, &e.op, names.len())?;
    let marks = marked.as_slice();
    let around = pairs.as_slice();
    let binds = back_binds(alloc, e, marks, around)?;
    let op = back_op(alloc, &e.op, around)?;
    let new_names = binds.as_slice();
    let binder = Binder {
        names,
        new_names,
        marks,
    };
    let trees = e.args.as_slice();
    let args = all_given_back(alloc, trees, &binder, pairs)?;
    Ok(Expr {
        place: e.place,
        op,
        args,
        binds,
    })
}

#[cycle(given_back)]
fn all_given_back(
    alloc: Global,
    trees: &[Expr],
    binder: &Binder,
    pairs: &mut Vec<(Text, Text)>,
) -> Result<List<Expr>, AllocError>
    ensures back { IfOk result (λ es. es ≡ backs_at binder.now trees.now pairs.old.items) }
    ensures kept { OnOk result (pairs.new.items ≡ pairs.old.items) }
{
    let mut all = Vec::new(alloc);
    for i in 0..trees.len() {
        let e = &trees[i];
        let marked = is_marked(binder.marks, i);
        all.push(child_given_back(alloc, e, marked, binder, pairs)?)?;
    }
    Ok(List::from_vec(all))
}

#[cycle(given_back)]
fn child_given_back(
    alloc: Global,
    e: &Expr,
    marked: bool,
    binder: &Binder,
    pairs: &mut Vec<(Text, Text)>,
) -> Result<Expr, AllocError>
    ensures back { IfOk result (λ r. r ≡ child_back marked e.now binder.now pairs.old.items) }
    ensures kept { OnOk result (pairs.new.items ≡ pairs.old.items) }
{
    if !marked {
        return given_back(alloc, e, pairs);
    }
    let outside = pairs.len();
    push_pairs(alloc, binder.names, binder.new_names, pairs)?;
    let tree = given_back(alloc, e, pairs)?;
    pairs.truncate(outside);
    Ok(tree)
}
