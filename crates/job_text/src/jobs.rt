// What is declared, and the parts of a job.
use crate::reader::{leaf, number, place, text_of};
use std::alloc::{AllocError, Global};
use tla_meaning::{Decl, Expr, Job, Op};
use tla_values::{List, Text};

// What is declared, and the aliases.
#[derive(Drop)]
struct Front {
    names: Vec<Decl>,
    aliases: Vec<(Text, Text)>,
}

fn add_name(alloc: Global, entry: &str, names: &mut Vec<Decl>) -> Result<(), AllocError> {
    let (entry, constant) = match entry.strip_prefix("constant ") {
        Some(entry) => (entry, true),
        None => (entry, false),
    };
    let (name, note) = match entry.split_once(": ") {
        Some((name, t)) => (name, format!(in alloc; " @type: {t};")?),
        None => (entry, String::new(alloc)),
    };
    let (name, column) = name.split_once("@").unwrap_or((name, "0"));
    names.push(Decl {
        name: text_of(alloc, name.as_bytes())?,
        place: place(number(column.as_bytes())),
        constant,
        note: text_of(alloc, note.as_bytes())?,
    })?;
    Ok(())
}

fn front_of(alloc: Global, text: &str) -> Result<Front, AllocError> {
    let mut names = Vec::new(alloc);
    let mut aliases = Vec::new(alloc);
    for entry in text.split("; ") {
        match entry.strip_prefix("$").unwrap_or("").split_once(" = ") {
            Some((name, t)) => {
                let alias = (
                    text_of(alloc, name.as_bytes())?,
                    text_of(alloc, t.as_bytes())?,
                );
                aliases.push(alias)?;
            }
            None if entry == "" => {}
            None => add_name(alloc, entry, &mut names)?,
        }
    }
    Ok(Front { names, aliases })
}

fn set_part(alloc: Global, job: &mut Job, part: usize, e: Expr) -> Result<(), AllocError> {
    match part {
        0 => job.cinit = e,
        1 => job.assume = e,
        2 => job.init = e,
        3 => job.next = e,
        _ => job.invs.push((text_of(alloc, b"Inv")?, e))?,
    }
    Ok(())
}

/// The job whose last parts are the trees, and how many parts stand before them.
pub fn job_of(alloc: Global, front: &str, trees: Vec<Expr>) -> Result<(Job, usize), AllocError> {
    let Front { names, aliases } = front_of(alloc, front)?;
    let mut job = Job {
        files: List::new(alloc),
        names: List::from_vec(names),
        aliases: List::from_vec(aliases),
        cinit: leaf(alloc, Op::Bool(true), 0),
        assume: leaf(alloc, Op::Bool(true), 0),
        init: leaf(alloc, Op::Bool(true), 0),
        next: leaf(alloc, Op::Bool(true), 0),
        invs: List::new(alloc),
    };
    let before = 5usize.saturating_sub(trees.len());
    for (i, e) in trees.into_iter().enumerate() {
        set_part(alloc, &mut job, before.wrapping_add(i), e)?;
    }
    Ok((job, before))
}
