// Whether a job can be typed: each name in its trees is known.
ghost use Rattle.std.specs.Prelude.{◌≡◌, ◌++◌, ◌∷◌, [], IfOk, OnOk, false, map, replicate, true};
ghost use Rattle.std.specs.List.{list_all};
ghost use Rattle.tla_meaning.specs.FreeNames.{marks, with_names};
ghost use Rattle.tla_meaning.specs.Meaning.{except_marks, role};
ghost use Rattle.tla_meaning.specs.Scopes.{same_text};
ghost use Rattle.snowcat_types.specs.Answers.{is_typable, is_typable_op, is_typable_tree};
ghost use Rattle.snowcat_types.specs.inner.Bound.{among, names_in};

use std::alloc::{AllocError, Global};
use tla_meaning::{Expr, Job, Op};
use tla_values::{Text, copy_text};

pub fn same_name(a: &Text, b: &Text) -> bool
    ensures { result ≡ same_text a.now b.now }
{
    a.bytes().cmp(b.bytes()).is_eq()
}

fn is_among(name: &Text, bound: &[Text]) -> bool
    ensures { result ≡ among bound.now name.now }
{
    bound.iter().any(|x| same_name(name, x))
}

fn may_stand(count: usize, op: &Op, bound: &[Text]) -> bool
    ensures { result ≡ is_typable_op count op.now (among bound.now) }
{
    match op {
        Op::Name(i, _) => *i < count,
        Op::Bound(name) => is_among(name, bound),
        Op::Outside(_) => false,
        Op::Use(_) | Op::Param(_) | Op::Let(_) => false,
        Op::Prime | Op::Unchanged | Op::Boxed | Op::Angled => false,
        _ => true,
    }
}

// So many children where nothing is bound, and one where the names are.
fn push_marks(marks: &mut Vec<bool>, count: usize) -> Result<(), AllocError>
    ensures { OnOk result (marks.new.items ≡ marks.old.items ++ (replicate count false ++ true ∷ [])) }
{
    for _ in 0..count {
        marks.push(false)?;
    }
    marks.push(true)?;
    Ok(())
}

fn push_update_marks(marks: &mut Vec<bool>, counts: &[usize]) -> Result<(), AllocError>
    ensures { OnOk result (marks.new.items ≡ marks.old.items ++ except_marks counts.now) }
{
    for count in counts {
        push_marks(marks, *count)?;
    }
    Ok(())
}

// In which children of a node its names are bound.
fn marks_of(alloc: Global, op: &Op, count: usize) -> Result<Vec<bool>, AllocError>
    ensures { IfOk result (λ ms. ms.items ≡ marks (role op.now count)) }
{
    let mut marks = Vec::new(alloc);
    match op {
        Op::Exists | Op::Forall | Op::Filter | Op::MapTo | Op::Lambda => {
            push_marks(&mut marks, count)?;
            Ok(marks)
        }
        Op::Fold => {
            marks.push(true)?;
            Ok(marks)
        }
        Op::Except(counts) => {
            marks.push(false)?;
            push_update_marks(&mut marks, counts.as_slice())?;
            Ok(marks)
        }
        _ => Ok(marks),
    }
}

fn names_in<'a>(names: &'a [Text], marks: &[bool], i: usize) -> &'a [Text]
    ensures { result.now ≡ names_in names.now marks.now i }
{
    if i < marks.len() && marks[i] {
        names
    } else {
        &[]
    }
}

fn push_names(alloc: Global, names: &[Text], bound: &mut Vec<Text>) -> Result<(), AllocError>
    ensures { OnOk result (bound.new.items ≡ bound.old.items ++ names.now) }
{
    for name in names {
        let name = copy_text(alloc, name)?;
        bound.push(name)?;
    }
    Ok(())
}

// Whether the tree can be typed where `count` names are declared and these are bound.
#[cycle(fits)]
fn tree_fits(
    alloc: Global,
    count: usize,
    e: &Expr,
    bound: &mut Vec<Text>,
) -> Result<bool, AllocError>
    ensures fits { IfOk result (λ b. b ≡ is_typable_tree count e.now (among bound.old.items)) }
    ensures kept { OnOk result (bound.new.items ≡ bound.old.items) }
{
    if !may_stand(count, &e.op, bound.as_slice()) {
        return Ok(false);
    }
    let names = e.binds.as_slice();
    let marks = marks_of(alloc, &e.op, names.len())?;
    let trees = e.args.as_slice();
    for i in 0..trees.len() {
        let there = names_in(names, marks.as_slice(), i);
        if !fits_under(alloc, count, there, &trees[i], bound)? {
            return Ok(false);
        }
    }
    Ok(true)
}

// Where these names are bound too.
#[cycle(fits)]
fn fits_under(
    alloc: Global,
    count: usize,
    names: &[Text],
    e: &Expr,
    bound: &mut Vec<Text>,
) -> Result<bool, AllocError>
    ensures fits { IfOk result (λ b. b ≡ is_typable_tree count e.now (with_names names.now (among bound.old.items))) }
    ensures kept { OnOk result (bound.new.items ≡ bound.old.items) }
{
    let outside = bound.len();
    push_names(alloc, names, bound)?;
    let fits = tree_fits(alloc, count, e, bound)?;
    bound.truncate(outside);
    Ok(fits)
}

fn part_fits(alloc: Global, count: usize, e: &Expr) -> Result<bool, AllocError>
    ensures { IfOk result (λ b. b ≡ is_typable_tree count e.now (λ x. false)) }
{
    let mut bound = Vec::new(alloc);
    let fits = tree_fits(alloc, count, e, &mut bound)?;
    Ok(fits)
}

fn parts_fit(alloc: Global, count: usize, invs: &[(Text, Expr)]) -> Result<bool, AllocError>
    ensures { IfOk result (λ b. b ≡ list_all (λ e. is_typable_tree count e (λ x. false)) (map (λ v. v.1) invs.now)) }
{
    for inv in invs {
        if !part_fits(alloc, count, &inv.1)? {
            return Ok(false);
        }
    }
    Ok(true)
}

/// Whether the job can be typed: its trees are expanded and reach no form that is only refused, each declared name in
/// them is one of the job's, and each bound name is bound.
pub fn is_typable(alloc: Global, job: &Job) -> Result<bool, AllocError>
    ensures { IfOk result (λ b. b ≡ is_typable job.now) }
{
    let count = job.names.as_slice().len();
    let fits = part_fits(alloc, count, &job.cinit)?
        && part_fits(alloc, count, &job.assume)?
        && part_fits(alloc, count, &job.init)?
        && part_fits(alloc, count, &job.next)?
        && parts_fit(alloc, count, job.invs.as_slice())?;
    Ok(fits)
}
