// The text literals of a job.
ghost use Rattle.std.specs.Prelude.{◌≡◌, ◌++◌, IfOk, OnOk, flat_map, map};
ghost use Rattle.kernel_reduction.specs.Literals.{all_literals, each_once, literal_here, literals_in, literals_of};

use indexmap::IndexSet;
use std::alloc::{AllocError, Global};
use tla_meaning::{Expr, Job, Op};
use tla_values::{List, Text, copy_text};

fn push_here<'a>(op: &'a Op, out: &mut Vec<&'a Text>) -> Result<(), AllocError>
    ensures { OnOk result (map (λ t. t.now) out.new.items ≡ map (λ t. t.now) out.old.items ++ literal_here op.now) }
{
    if let Op::Str(text) = op {
        out.push(text)?;
    }
    Ok(())
}

// Adds the literals of a tree, a node's before those of its children.
#[cycle(literals)]
fn push_literals<'a>(e: &'a Expr, out: &mut Vec<&'a Text>) -> Result<(), AllocError>
    ensures { OnOk result (map (λ t. t.now) out.new.items ≡ map (λ t. t.now) out.old.items ++ literals_in e.now) }
{
    push_here(&e.op, out)?;
    push_all(e.args.as_slice(), out)?;
    Ok(())
}

#[cycle(literals)]
fn push_all<'a>(es: &'a [Expr], out: &mut Vec<&'a Text>) -> Result<(), AllocError>
    ensures { OnOk result (map (λ t. t.now) out.new.items
        ≡ map (λ t. t.now) out.old.items ++ flat_map literals_in es.now) }
{
    for e in es {
        push_literals(e, out)?;
    }
    Ok(())
}

fn push_named<'a>(invs: &'a [(Text, Expr)], out: &mut Vec<&'a Text>) -> Result<(), AllocError>
    ensures { OnOk result (map (λ t. t.now) out.new.items
        ≡ map (λ t. t.now) out.old.items ++ flat_map literals_in (map (λ v. v.1) invs.now)) }
{
    for inv in invs {
        push_literals(&inv.1, out)?;
    }
    Ok(())
}

// Each text once, in order of first occurrence.
fn each_once(alloc: Global, texts: &[&Text]) -> Result<List<Text>, AllocError>
    ensures { IfOk result (λ l. l ≡ each_once (map (λ t. t.now) texts.now)) }
{
    let mut seen: IndexSet<&[u8]> = IndexSet::new(alloc);
    let mut once = Vec::new(alloc);
    for text in texts {
        if seen.insert(text.bytes())? {
            once.push(copy_text(alloc, text)?)?;
        }
    }
    Ok(List::from_vec(once))
}

/// The different text literals of the job's trees, in order of first occurrence.
pub fn texts_of(alloc: Global, job: &Job) -> Result<List<Text>, AllocError>
    ensures { IfOk result (λ l. l ≡ literals_of job.now) }
{
    let mut all = Vec::new(alloc);
    push_literals(&job.cinit, &mut all)?;
    push_literals(&job.assume, &mut all)?;
    push_literals(&job.init, &mut all)?;
    push_literals(&job.next, &mut all)?;
    push_named(job.invs.as_slice(), &mut all)?;
    let texts = each_once(alloc, all.as_slice())?;
    Ok(texts)
}
