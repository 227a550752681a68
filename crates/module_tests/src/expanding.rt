// What expansion gives of the flat modules of the sets: a tree, its size, or a refusal.
//
//   >expand N PART   what the operator N gives for a part of a job: a tree, `size N levels L`, or the line that tells the
//                    refusal
//   >job I N C V ..  what the operators give as Init, Next, CInit (`-` for none) and invariants: a tree for each part,
//                    behind `cinit`, `assume`, `init`, `next` and `inv V`, or the line that tells the refusal
use crate::expansions_cases::EXPANSIONS;
use crate::extending_cases::EXTENDING;
use crate::further_cases::FURTHER;
use crate::generated_cases::GENERATED;
use crate::instances_cases::INSTANCES;
use crate::lines::line_of;
use crate::names_cases::NAMES;
use crate::reader::Part;
use crate::room_cases::ROOM;
use crate::sets::{Asker, ask_sets, passes};
use crate::showing::put_names;
use crate::sources_cases::SOURCES;
use crate::trees::{extent, is_tree};
use crate::users_cases::USERS;
use front_end::FrontFault;
use op_inliner::{InlineFault, PartKind, expand, is_known, job_of};
use std::alloc::{AllocError, Global};
use std::test::Fail;
use tla_meaning::{Expr, Flat, Job};
use tla_modules::ModuleRefusal;
use tla_values::{List, Text};

fn part_kind(word: &str) -> PartKind {
    match word {
        "constants" => PartKind::Constants,
        "start" => PartKind::Start,
        "step" => PartKind::Step,
        _ => PartKind::Inv,
    }
}

// Whether the line tells this refusal.
fn tells(alloc: Global, line: &[u8], flat: &Flat, fault: InlineFault) -> Result<bool, AllocError> {
    let given = line_of(alloc, &flat.files, FrontFault::Inline(fault))?;
    Ok(given.as_slice().strip_suffix(b"\n") == Some(line))
}

// Whether the text is this tree, or tells its size.
fn is_told(alloc: Global, text: &[u8], flat: &Flat, tree: &Expr) -> Result<bool, AllocError> {
    if text.starts_with(b"size ") {
        let (nodes, levels) = extent(tree);
        let given = format!(in alloc; "size {nodes} levels {levels}")?;
        return Ok(text == given.as_bytes());
    }
    let mut names = Vec::new(alloc);
    put_names(flat, &mut names)?;
    is_tree(alloc, text, &names, tree)
}

// The text without the line feed at its end, and without that of the line behind it.
pub(crate) fn trimmed(text: &[u8]) -> &[u8] {
    let text = text.strip_suffix(b"\n").unwrap_or(text);
    text.strip_suffix(b"\n").unwrap_or(text)
}

// Whether the text tells this answer. Trees and jobs end by a call of `drop`, here and below, since their end at the end
// of a function has many cases.
fn is_answer(
    alloc: Global,
    text: &[u8],
    flat: &Flat,
    answer: Result<Expr, InlineFault>,
) -> Result<bool, AllocError> {
    match answer {
        Ok(tree) => {
            let told = is_told(alloc, text, flat, &tree);
            drop(tree);
            told
        }
        Err(fault) => tells(alloc, text, flat, fault),
    }
}

fn expands_so(alloc: Global, part: &Part, flat: &Flat) -> Result<bool, AllocError> {
    let (name, kind) = part.rest.split_once(' ').unwrap_or((part.rest, ""));
    if !is_known(alloc, flat)? {
        return Ok(false);
    }
    let answer = expand(alloc, flat, name, part_kind(kind));
    is_answer(alloc, trimmed(&part.body), flat, answer)
}

// ---- jobs

// The texts of the parts, each behind its line's first word.
fn is_beginning(line: &[u8]) -> bool {
    let words: [&[u8]; 5] = [b"cinit ", b"assume ", b"init ", b"next ", b"inv "];
    words.iter().any(|word| line.starts_with(word))
}

fn add_line(alloc: Global, line: &[u8], parts: &mut Vec<Vec<u8>>) -> Result<(), AllocError> {
    if is_beginning(line) {
        parts.push(Vec::from_slice(alloc, line)?)?;
    } else if let Some(part) = parts.last_mut() {
        part.push(b' ')?;
        part.extend_from_slice(line)?;
    }
    Ok(())
}

fn parts_of(alloc: Global, text: &[u8]) -> Result<Vec<Vec<u8>>, AllocError> {
    let mut parts: Vec<Vec<u8>> = Vec::new(alloc);
    for line in text.split(|byte| *byte == b'\n') {
        add_line(alloc, line, &mut parts)?;
    }
    Ok(parts)
}

// Whether a part's text is this word with this tree.
fn is_part(
    alloc: Global,
    part: Option<&Vec<u8>>,
    word: &[u8],
    flat: &Flat,
    tree: &Expr,
) -> Result<bool, AllocError> {
    let Some(part) = part else {
        return Ok(false);
    };
    match part.as_slice().strip_prefix(word) {
        Some(text) => is_told(alloc, text, flat, tree),
        None => Ok(false),
    }
}

fn inv_word(alloc: Global, name: &[u8]) -> Result<Vec<u8>, AllocError> {
    let mut word = Vec::from_slice(alloc, b"inv ")?;
    word.extend_from_slice(name)?;
    word.push(b' ')?;
    Ok(word)
}

fn is_inv(
    alloc: Global,
    part: Option<&Vec<u8>>,
    flat: &Flat,
    inv: &(Text, Expr),
) -> Result<bool, AllocError> {
    let word = inv_word(alloc, inv.0.bytes())?;
    is_part(alloc, part, word.as_slice(), flat, &inv.1)
}

// Whether the parts from the fifth on are the invariants.
fn are_invs(
    alloc: Global,
    parts: &[Vec<u8>],
    flat: &Flat,
    invs: &[(Text, Expr)],
) -> Result<bool, AllocError> {
    for (i, inv) in invs.iter().enumerate() {
        if !is_inv(alloc, parts.get(i.saturating_add(4)), flat, inv)? {
            return Ok(false);
        }
    }
    Ok(parts.len() == invs.len().saturating_add(4))
}

fn are_parts(alloc: Global, parts: &[Vec<u8>], flat: &Flat, job: &Job) -> Result<bool, AllocError> {
    let trees: [(&[u8], &Expr); 4] = [
        (b"cinit ", &job.cinit),
        (b"assume ", &job.assume),
        (b"init ", &job.init),
        (b"next ", &job.next),
    ];
    for (i, (word, tree)) in trees.iter().enumerate() {
        if !is_part(alloc, parts.get(i), *word, flat, *tree)? {
            return Ok(false);
        }
    }
    are_invs(alloc, parts, flat, job.invs.as_slice())
}

fn is_job(alloc: Global, text: &[u8], flat: &Flat, job: &Job) -> Result<bool, AllocError> {
    let parts = parts_of(alloc, text)?;
    are_parts(alloc, parts.as_slice(), flat, job)
}

// Whether the text tells this answer.
fn is_made(
    alloc: Global,
    text: &[u8],
    flat: &Flat,
    answer: Result<Job, InlineFault>,
) -> Result<bool, AllocError> {
    match answer {
        Ok(job) => {
            let told = is_job(alloc, text, flat, &job);
            drop(job);
            told
        }
        Err(fault) => tells(alloc, text, flat, fault),
    }
}

// The words from the fourth on.
pub(crate) fn invariants_of(alloc: Global, rest: &str) -> Result<List<Text>, AllocError> {
    let mut invariants = Vec::new(alloc);
    for word in rest.split_whitespace().skip(3) {
        invariants.push(Text::from_vec(Vec::from_slice(alloc, word.as_bytes())?))?;
    }
    Ok(List::from_vec(invariants))
}

fn makes_so(alloc: Global, part: &Part, flat: &Flat) -> Result<bool, AllocError> {
    let mut words = part.rest.split_whitespace();
    let (Some(init), Some(next), Some(cinit)) = (words.next(), words.next(), words.next()) else {
        return Ok(false);
    };
    let cinit = if cinit == "-" { None } else { Some(cinit) };
    if !is_known(alloc, flat)? {
        return Ok(false);
    }
    let invariants = invariants_of(alloc, part.rest)?;
    let answer = job_of(alloc, flat, init, next, cinit, &invariants);
    is_made(alloc, trimmed(&part.body), flat, answer)
}

// ---- sets

// What expansion gives at the headings.
struct Expanded;

impl Asker for Expanded {
    fn asks(&self, word: &str, is_flat: bool) -> bool {
        is_flat && (word == "expand" || word == "job")
    }

    fn tell(
        &self,
        alloc: Global,
        part: &Part,
        answer: &Result<Flat, ModuleRefusal>,
        _given: &mut Vec<u8>,
    ) -> Result<bool, AllocError> {
        match answer {
            Ok(flat) if part.word == "expand" => expands_so(alloc, part, flat),
            Ok(flat) => makes_so(alloc, part, flat),
            Err(_) => Ok(false),
        }
    }
}

// What differs in the sets of a text, and how many headings there are.
fn expand_all(alloc: Global, text: &str) -> Result<(Vec<u8>, usize), Fail> {
    let mut report = Vec::new(alloc);
    let found = ask_sets(alloc, &Expanded, text, &mut report)?;
    Ok((report, found.headings))
}

#[test]
fn operators_and_jobs_are_expanded(rt: HostRuntime) -> Result<(), Fail> {
    for (text, headings) in [
        (EXPANSIONS, 118),
        (EXTENDING, 12),
        (FURTHER, 7),
        (GENERATED, 44),
        (INSTANCES, 16),
        (NAMES, 29),
        (ROOM, 5),
        (SOURCES, 2),
        (USERS, 14),
    ] {
        passes(&rt, expand_all(rt.alloc(), text), headings)?;
    }
    Ok(())
}
