//! Trees as cells: the recursion.

ghost use Rattle.cell_arena.specs.Growth.{Grows};
ghost use Rattle.expr_rewriter.specs.Rewriting.{CanRewrite, HasTreeSort, Rewrites};
ghost use Rattle.expr_rewriter.specs.Forming.{CanRewriteForm, HasFormSort, RewritesForm};
ghost use Rattle.expr_rewriter.specs.declared.settings.Setting.TheVariants.{Binder, Fold, Form, Level, Update};
ghost use Rattle.expr_rewriter.specs.inner.Binding.{AreBodiesAt, CanRewriteAt};
ghost use Rattle.expr_rewriter.specs.inner.Folding.{CanStep, FoldsOver, items_of_cell};
ghost use Rattle.expr_rewriter.specs.inner.Forming.{AreFormTrees, CanRewriteForms, IsFormTree};
ghost use Rattle.expr_rewriter.specs.inner.Parts.{AreTrees, CanRewriteAll, IsTree};
ghost use Rattle.expr_rewriter.specs.inner.Settings.{setting_of, with_bound};
ghost use Rattle.expr_rewriter.specs.inner.Updating.{CanChange, MakesRight};
ghost use Rattle.kernel_trees.specs.declared.kernel.Ker.{out-Ker};
ghost use Rattle.std.specs.Prelude.{◌≡◌, ◌≤◌, IfOk, length, take};

use crate::binding::{bind_node, choices_from};
use crate::cell_env::CellEnv;
use crate::folding::fold_node;
use crate::forming::{behind, form_node, is_form, sets_of_form};
use crate::names::Names;
use crate::nodes::join;
use crate::relating::relate;
use crate::settings::{Setting, child, operand_count, setting_for};
use crate::updating::{old_value, update_node};
use cell_arena::{Build, CellId};
use form_cells::FormCells;
use kernel_trees::Ker;
use member_choices::{Choice, item_at, place_count, step};
use outcome_cells::Cells;
use sat_formula::Lit;
use std::alloc::AllocError;

/// The cells of a tree where the names have cells: its literals are true exactly where the outcome is Wrong or Big, and
/// else the cell decodes to the value. This is said of the satisfying assignments at which each range that is evaluated
/// lies within its bounds. (Konnov, Kukovec and Tran, "TLA+ Model Checking Made Symbolic", OOPSLA 2019, section 5.)
#[tactic(auto, using(cell_arena::proofs::Growing::growing))]
pub fn rewrite(b: &mut Build, e: &Ker, env: &CellEnv) -> Result<Cells, AllocError>
    requires { CanRewrite b.old e.now env.now }
    ensures sort { IfOk result (HasTreeSort b.new e.now) }
    ensures rewrites { IfOk result (Rewrites b.new e.now env.entry.now) }
    ensures grows { Grows b.old b.new }
{
    let mut names = Names::new(b.arena.alloc(), env)?;
    let x = tree(b, &mut names, e)?;
    Ok(x)
}

/// What a tree in a form position is over cells, where the names have cells: under the satisfying assignments at which
/// each range that is evaluated lies within its bounds, the form of its meaning. (Specifying Systems, section 16.1.)
#[tactic(auto, using(cell_arena::proofs::Growing::growing))]
pub fn rewrite_form(b: &mut Build, e: &Ker, env: &CellEnv) -> Result<FormCells, AllocError>
    requires { CanRewriteForm b.old e.now env.now }
    ensures sort { IfOk result (HasFormSort b.new e.now) }
    ensures rewrites { IfOk result (RewritesForm b.new e.now env.entry.now) }
    ensures grows { Grows b.old b.new }
{
    let mut names = Names::new(b.arena.alloc(), env)?;
    let x = form(b, &mut names, e)?;
    Ok(x)
}

// A tree, where the bound numbers have cells.
#[cycle(tree)]
#[tactic(auto, using(cell_arena::proofs::Growing::growing))]
fn tree(b: &mut Build, names: &mut Names, e: &Ker) -> Result<Cells, AllocError>
    requires { CanRewrite b.old e.now names.old }
    ensures tree { IfOk result (IsTree b.new e.now names.old) }
    ensures stays { IfOk result (λ _. names.new ≡ names.old) }
    ensures grows { Grows b.old b.new }
{
    match setting_for(&e.op) {
        Setting::Leaf => {
            let x = names.read(b, e)?;
            Ok(x)
        }
        Setting::Level => {
            let x = level(b, names, e)?;
            Ok(x)
        }
        Setting::Binder => {
            let x = binder(b, names, e)?;
            Ok(x)
        }
        Setting::Fold => {
            let x = fold(b, names, e)?;
            Ok(x)
        }
        Setting::Update => {
            let x = updated(b, names, e)?;
            Ok(x)
        }
        Setting::Form => {
            let x = related(b, names, e)?;
            Ok(x)
        }
    }
}

// The first of several trees.
#[cycle(tree)]
#[tactic(auto, using(cell_arena::proofs::Growing::growing))]
fn trees(
    b: &mut Build,
    names: &mut Names,
    es: &[Ker],
    count: usize,
) -> Result<Vec<Cells>, AllocError>
    requires within { count ≤ length es.now }
    requires can { CanRewriteAll b.old names.old (take count es.now) }
    ensures trees { IfOk result (λ xs. AreTrees b.new names.old (take count es.now) xs.items) }
    ensures stays { IfOk result (λ _. names.new ≡ names.old) }
    ensures grows { Grows b.old b.new }
{
    let mut parts = Vec::new(b.arena.alloc());
    for i in 0..count {
        let part = tree(b, names, &es[i])?;
        parts.push(part)?;
    }
    Ok(parts)
}

// A node whose children stand in its setting.
#[cycle(tree)]
#[tactic(auto, using(cell_arena::proofs::Growing::growing))]
fn level(b: &mut Build, names: &mut Names, e: &Ker) -> Result<Cells, AllocError>
    requires can { CanRewrite b.old e.now names.old }
    requires level { setting_of (out-Ker e.now).op ≡ Level }
    ensures tree { IfOk result (IsTree b.new e.now names.old) }
    ensures stays { IfOk result (λ _. names.new ≡ names.old) }
    ensures grows { Grows b.old b.new }
{
    let args = e.args.as_slice();
    let count = operand_count(e);
    let made = trees(b, names, args, count)?;
    let parts = made.as_slice();
    let x = join(b, e, parts)?;
    Ok(x)
}

// A tree where the numbers have these cells.
#[cycle(tree)]
#[tactic(auto, using(cell_arena::proofs::Growing::growing))]
fn under(
    b: &mut Build,
    names: &mut Names,
    numbers: &[u32],
    cells: &[CellId],
    e: &Ker,
) -> Result<Cells, AllocError>
    requires one_each { length numbers.now ≡ length cells.now }
    requires can { CanRewrite b.old e.now (with_bound names.old numbers.now cells.now) }
    ensures tree { IfOk result (IsTree b.new e.now (with_bound names.old numbers.now cells.now)) }
    ensures stays { IfOk result (λ _. names.new ≡ names.old) }
    ensures grows { Grows b.old b.new }
{
    let count = names.count();
    names.bind(numbers, cells)?;
    let x = tree(b, names, e)?;
    names.cut(count);
    Ok(x)
}

// A tree where the numbers have the cells of each of the choices.
#[cycle(tree)]
#[tactic(auto, using(cell_arena::proofs::Growing::growing))]
fn bodies(
    b: &mut Build,
    names: &mut Names,
    numbers: &[u32],
    e: &Ker,
    cs: &[Choice],
) -> Result<Vec<Cells>, AllocError>
    requires { CanRewriteAt b.old names.old numbers.now e.now cs.now }
    ensures bodies { IfOk result (λ xs. AreBodiesAt b.new names.old numbers.now e.now cs.now xs.items) }
    ensures stays { IfOk result (λ _. names.new ≡ names.old) }
    ensures grows { Grows b.old b.new }
{
    let mut parts = Vec::new(b.arena.alloc());
    for i in 0..cs.len() {
        let part = under(b, names, numbers, cs[i].cells.as_slice(), e)?;
        parts.push(part)?;
    }
    Ok(parts)
}

// A node that binds names to members of sets.
#[cycle(tree)]
#[tactic(auto, using(cell_arena::proofs::Growing::growing))]
fn binder(b: &mut Build, names: &mut Names, e: &Ker) -> Result<Cells, AllocError>
    requires can { CanRewrite b.old e.now names.old }
    requires binder { setting_of (out-Ker e.now).op ≡ Binder }
    ensures tree { IfOk result (IsTree b.new e.now names.old) }
    ensures stays { IfOk result (λ _. names.new ≡ names.old) }
    ensures grows { Grows b.old b.new }
{
    let numbers = e.binds.as_slice();
    let args = e.args.as_slice();
    let sets = trees(b, names, args, numbers.len())?;
    let parts = sets.as_slice();
    let cs = choices_from(b, parts)?;
    let list = cs.as_slice();
    let body = child(args, numbers.len());
    let made = bodies(b, names, numbers, body, list)?;
    let cells = made.as_slice();
    let x = bind_node(b, e, parts, list, cells)?;
    Ok(x)
}

// The steps of a fold, one at each place of the sequence.
#[cycle(tree)]
#[tactic(auto, using(cell_arena::proofs::Growing::growing))]
fn steps(
    b: &mut Build,
    names: &mut Names,
    e: &Ker,
    first: Cells,
    seq: Cells,
) -> Result<Cells, AllocError>
    requires { CanStep b.old names.old e.now first seq }
    ensures folds { IfOk result (FoldsOver (items_of_cell b.old.arena seq) b.old b.new names.old e.now first) }
    ensures stays { IfOk result (λ _. names.new ≡ names.old) }
    ensures grows { Grows b.old b.new }
{
    let numbers = e.binds.as_slice();
    let args = e.args.as_slice();
    let body = child(args, 0);
    let count = place_count(b, seq.cell);
    let mut so_far = first;
    for i in 0..count {
        let part = item_at(b, seq.cell, i)?;
        let cells = [so_far.cell, part.0];
        let next = under(b, names, numbers, &cells, body)?;
        let made = step(b, part.1.negated(), so_far, next)?;
        so_far = made;
    }
    Ok(so_far)
}

// A fold over a sequence.
#[cycle(tree)]
#[tactic(auto, using(cell_arena::proofs::Growing::growing))]
fn fold(b: &mut Build, names: &mut Names, e: &Ker) -> Result<Cells, AllocError>
    requires can { CanRewrite b.old e.now names.old }
    requires fold { setting_of (out-Ker e.now).op ≡ Fold }
    ensures tree { IfOk result (IsTree b.new e.now names.old) }
    ensures stays { IfOk result (λ _. names.new ≡ names.old) }
    ensures grows { Grows b.old b.new }
{
    let args = e.args.as_slice();
    let start = child(args, 1);
    let list = child(args, 2);
    let first = tree(b, names, start)?;
    let seq = tree(b, names, list)?;
    let own = steps(b, names, e, first, seq)?;
    let x = fold_node(b, e, first, seq, own)?;
    Ok(x)
}

// The right side of an update, where there is an old value.
#[cycle(tree)]
#[tactic(auto, using(cell_arena::proofs::Growing::growing))]
fn right_side(
    b: &mut Build,
    names: &mut Names,
    e: &Ker,
    old: Option<(CellId, Lit)>,
) -> Result<Option<(Lit, Cells)>, AllocError>
    requires { CanChange b.old names.old e.now old }
    ensures right { IfOk result (MakesRight b.new names.old e.now old) }
    ensures stays { IfOk result (λ _. names.new ≡ names.old) }
    ensures grows { Grows b.old b.new }
{
    let Some(found) = old else {
        return Ok(None);
    };
    let numbers = e.binds.as_slice();
    let args = e.args.as_slice();
    let body = child(args, 2);
    let cells = [found.0];
    let new = under(b, names, numbers, &cells, body)?;
    Ok(Some((found.1, new)))
}

// An update.
#[cycle(tree)]
#[tactic(auto, using(cell_arena::proofs::Growing::growing))]
fn updated(b: &mut Build, names: &mut Names, e: &Ker) -> Result<Cells, AllocError>
    requires can { CanRewrite b.old e.now names.old }
    requires update { setting_of (out-Ker e.now).op ≡ Update }
    ensures tree { IfOk result (IsTree b.new e.now names.old) }
    ensures stays { IfOk result (λ _. names.new ≡ names.old) }
    ensures grows { Grows b.old b.new }
{
    let args = e.args.as_slice();
    let start = child(args, 0);
    let index = child(args, 1);
    let whole = tree(b, names, start)?;
    let place = tree(b, names, index)?;
    let old = old_value(b, whole.cell, place.cell, index)?;
    let change = right_side(b, names, e, old)?;
    let x = update_node(b, e, whole, place, change)?;
    Ok(x)
}

// A tree in a form position.
#[cycle(tree)]
#[tactic(auto, using(cell_arena::proofs::Growing::growing))]
fn form(b: &mut Build, names: &mut Names, e: &Ker) -> Result<FormCells, AllocError>
    requires { CanRewriteForm b.old e.now names.old }
    ensures form { IfOk result (IsFormTree b.new e.now names.old) }
    ensures stays { IfOk result (λ _. names.new ≡ names.old) }
    ensures grows { Grows b.old b.new }
{
    if !is_form(&e.op) {
        let set = tree(b, names, e)?;
        return Ok(FormCells::of_set(set));
    }
    let args = e.args.as_slice();
    let count = sets_of_form(e);
    let made = trees(b, names, args, count)?;
    let sets = made.as_slice();
    let rest = behind(args, count);
    let parts = forms(b, names, rest)?;
    let x = form_node(b, e, sets, parts)?;
    Ok(x)
}

// Several trees in form positions.
#[cycle(tree)]
#[tactic(auto, using(cell_arena::proofs::Growing::growing))]
fn forms(b: &mut Build, names: &mut Names, es: &[Ker]) -> Result<Vec<FormCells>, AllocError>
    requires { CanRewriteForms b.old names.old es.now }
    ensures forms { IfOk result (λ xs. AreFormTrees b.new names.old es.now xs.items) }
    ensures stays { IfOk result (λ _. names.new ≡ names.old) }
    ensures grows { Grows b.old b.new }
{
    let mut parts = Vec::new(b.arena.alloc());
    for i in 0..es.len() {
        let part = form(b, names, &es[i])?;
        parts.push(part)?;
    }
    Ok(parts)
}

// A value and what it belongs to, or a set and what it is a part of.
#[cycle(tree)]
#[tactic(auto, using(cell_arena::proofs::Growing::growing))]
fn related(b: &mut Build, names: &mut Names, e: &Ker) -> Result<Cells, AllocError>
    requires can { CanRewrite b.old e.now names.old }
    requires relation { setting_of (out-Ker e.now).op ≡ Form }
    ensures tree { IfOk result (IsTree b.new e.now names.old) }
    ensures stays { IfOk result (λ _. names.new ≡ names.old) }
    ensures grows { Grows b.old b.new }
{
    let args = e.args.as_slice();
    let left = child(args, 0);
    let right = child(args, 1);
    let x = tree(b, names, left)?;
    let y = form(b, names, right)?;
    let r = relate(b, e, x, &y)?;
    Ok(r)
}
