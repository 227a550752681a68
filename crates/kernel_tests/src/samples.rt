// The kernels of the jobs of modules: the names with their types, and which are constants; the texts; and a line for
// each part.
use crate::modules::{
    DIE_HARD, DIE_HARD_KERNEL, INC, INC_KERNEL, PLUS, PLUS_KERNEL, RING, RING_KERNEL, ROW, TOGGLE,
    TOGGLE_KERNEL, TWO_PHASE, TWO_PHASE_KERNEL,
};
use crate::passing::same;
use crate::reducing::{Answer, part_texts, reduced};
use crate::showing::Detail;
use kernel_trees::KerJob;
use op_inliner::{is_known, job_of};
use snowcat_rows::show_type;
use std::alloc::{AllocError, Global};
use std::test::Fail;
use tla_meaning::{Decl, Flat, Job, Place};
use tla_modules::resolve;
use tla_values::{List, Text};
use tool_outside::MemoryFiles;
use trace_text::show_place;

// ---- jobs

// The file of a module's text.
fn file_of(alloc: Global, text: &str) -> Result<String, AllocError> {
    let name = text.split_whitespace().nth(2).unwrap_or("");
    format!(in alloc; "{name}.tla")
}

fn put_file(alloc: Global, text: &str, files: &mut MemoryFiles) -> Result<(), AllocError> {
    let name = file_of(alloc, text)?;
    let module = format!(in alloc; "{text}====\n")?;
    files.put(name.as_str(), module.as_bytes())
}

// Modules that stand one behind the other.
fn put_files(alloc: Global, texts: &str, files: &mut MemoryFiles) -> Result<(), AllocError> {
    let texts = texts.strip_suffix("====\n").unwrap_or(texts);
    for text in texts.split("====\n") {
        put_file(alloc, text, files)?;
    }
    Ok(())
}

fn one_name(alloc: Global, name: &[u8]) -> Result<List<Text>, AllocError> {
    let mut names = List::new(alloc);
    names.push(Text::from_vec(Vec::from_slice(alloc, name)?))?;
    Ok(names)
}

// ---- lines

fn put_names(
    alloc: Global,
    names: &[Decl],
    kernel: &KerJob,
    out: &mut Vec<u8>,
) -> Result<(), AllocError> {
    out.extend_from_slice(b"names")?;
    for (i, name) in names.iter().enumerate() {
        if kernel.fixed.as_slice().get(i) == Some(&true) {
            out.extend_from_slice(b" constant")?;
        }
        out.push(b' ')?;
        out.extend_from_slice(name.name.bytes())?;
        out.extend_from_slice(b": ")?;
        if let Some(ty) = kernel.names.as_slice().get(i) {
            show_type(alloc, ty, out)?;
        }
        out.push(b';')?;
    }
    out.push(b'\n')?;
    Ok(())
}

fn put_texts(texts: &[Text], out: &mut Vec<u8>) -> Result<(), AllocError> {
    out.extend_from_slice(b"texts")?;
    for text in texts {
        out.extend_from_slice(b" \"")?;
        out.extend_from_slice(text.bytes())?;
        out.push(b'"')?;
    }
    out.push(b'\n')?;
    Ok(())
}

fn put_parts(
    alloc: Global,
    names: &[Decl],
    kernel: &KerJob,
    out: &mut Vec<u8>,
) -> Result<(), AllocError> {
    let words: [&[u8]; 4] = [b"cinit ", b"assume ", b"init ", b"next "];
    let texts = part_texts(alloc, names, Detail::Nothing, kernel)?;
    for (i, text) in texts.iter().enumerate() {
        match words.get(i) {
            Some(word) => out.extend_from_slice(word)?,
            None => out.extend_from_slice(b"inv ")?,
        }
        out.extend_from_slice(text)?;
        out.push(b'\n')?;
    }
    Ok(())
}

fn put_refusal(files: &[Text], place: Place, out: &mut Vec<u8>) -> Result<(), AllocError> {
    out.extend_from_slice(b"refused: infinite set at ")?;
    show_place(place, files, out)?;
    out.push(b'\n')?;
    Ok(())
}

fn put_answer(
    alloc: Global,
    job: &Job,
    answer: &Answer,
    out: &mut Vec<u8>,
) -> Result<(), AllocError> {
    match answer {
        Answer::Kernel(kernel) => put_kernel(alloc, job.names.as_slice(), kernel, out),
        Answer::Infinite(place) => put_refusal(job.files.as_slice(), *place, out),
        Answer::Nothing(why) => out.extend_from_slice(why.as_bytes()),
    }
}

fn put_kernel(
    alloc: Global,
    names: &[Decl],
    kernel: &KerJob,
    out: &mut Vec<u8>,
) -> Result<(), AllocError> {
    put_names(alloc, names, kernel, out)?;
    put_texts(kernel.texts.as_slice(), out)?;
    put_parts(alloc, names, kernel, out)
}

fn put_reduced(alloc: Global, job: &Job, out: &mut Vec<u8>) -> Result<(), AllocError> {
    let answer = reduced(alloc, job)?;
    let put = put_answer(alloc, job, &answer, out);
    drop(answer);
    put
}

fn put_job(alloc: Global, job: Job, out: &mut Vec<u8>) -> Result<(), AllocError> {
    let put = put_reduced(alloc, &job, out);
    drop(job);
    put
}

fn put_made(
    alloc: Global,
    flat: &Flat,
    cinit: Option<&str>,
    out: &mut Vec<u8>,
) -> Result<(), AllocError> {
    let invariants = one_name(alloc, b"Inv")?;
    if !is_known(alloc, flat)? {
        return out.extend_from_slice(b"no job");
    }
    match job_of(alloc, flat, "Init", "Next", cinit, &invariants) {
        Ok(job) => put_job(alloc, job, out),
        Err(fault) => {
            drop(fault);
            out.extend_from_slice(b"no job")
        }
    }
}

fn put_flat(
    alloc: Global,
    flat: Flat,
    cinit: Option<&str>,
    out: &mut Vec<u8>,
) -> Result<(), AllocError> {
    let put = put_made(alloc, &flat, cinit, out);
    drop(flat);
    put
}

fn put_resolved(
    alloc: Global,
    texts: &str,
    cinit: Option<&str>,
    files: &mut MemoryFiles,
    out: &mut Vec<u8>,
) -> Result<(), AllocError> {
    put_files(alloc, texts, files)?;
    let root = file_of(alloc, texts)?;
    match resolve(alloc, root.as_str(), files) {
        Ok(flat) => put_flat(alloc, flat, cinit, out),
        Err(refusal) => {
            drop(refusal);
            out.extend_from_slice(b"no flat module")
        }
    }
}

// What is told of the job of modules, the root first.
fn answered(alloc: Global, texts: &str, cinit: Option<&str>) -> Result<Vec<u8>, AllocError> {
    let mut out = Vec::new(alloc);
    let mut files = MemoryFiles::new(alloc, List::new(alloc));
    let put = put_resolved(alloc, texts, cinit, &mut files, &mut out);
    drop(files);
    put?;
    Ok(out)
}

#[test]
fn modules_have_their_kernels(rt: HostRuntime) -> Result<(), Fail> {
    for (texts, cinit, wanted) in [
        (TOGGLE, None, TOGGLE_KERNEL),
        (DIE_HARD, None, DIE_HARD_KERNEL),
        (TWO_PHASE, None, TWO_PHASE_KERNEL),
        (PLUS, None, PLUS_KERNEL),
        (RING, None, RING_KERNEL),
        (INC, Some("CInit"), INC_KERNEL),
        (ROW, None, "refused: infinite set at Row:8:17\n"),
    ] {
        same(&rt, answered(rt.alloc(), texts, cinit), wanted)?;
    }
    Ok(())
}
