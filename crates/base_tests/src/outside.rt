//! Files and sinks, in memory and of the system: calls in turn, each with what it is to answer.

use crate::passing::passes;
use std::alloc::{AllocError, Global};
use std::test::Fail;
use std::{fs, io};
use tla_values::List;
use tool_outside::{FileFail, Files, HostFiles, HostSink, MemoryFiles, MemorySink, Sink, SinkFail};

// A call on files, of a name.
#[derive(Drop, Clone, Copy)]
enum Call<'a> {
    /// The most bytes that it takes.
    Read(&'a str, u64),
    Create(&'a str),
    Append(&'a str, &'a [u8]),
}

// What a call answers.
#[derive(Drop, Clone, Copy)]
enum Told<'a> {
    Bytes(&'a [u8]),
    Missing,
    Done,
    Failed,
    TooLong,
}

fn is_fault(fail: &FileFail, told: Told) -> bool {
    match fail {
        FileFail::Failed => matches!(told, Told::Failed),
        FileFail::TooLong => matches!(told, Told::TooLong),
        FileFail::Memory(_) => false,
    }
}

fn is_done(answer: Result<(), FileFail>, told: Told) -> bool {
    match answer {
        Ok(()) => matches!(told, Told::Done),
        Err(fail) => is_fault(&fail, told),
    }
}

fn is_content(content: &[u8], told: Told) -> bool {
    match told {
        Told::Bytes(bytes) => content == bytes,
        _ => false,
    }
}

fn is_read(answer: Result<Option<Vec<u8>>, FileFail>, told: Told) -> bool {
    match answer {
        Ok(Some(bytes)) => is_content(bytes.as_slice(), told),
        Ok(None) => matches!(told, Told::Missing),
        Err(fail) => is_fault(&fail, told),
    }
}

// Whether the call answers this.
fn answers<F: Files>(alloc: Global, files: &mut F, call: Call, told: Told) -> bool {
    match call {
        Call::Read(name, limit) => is_read(files.read(alloc, name, limit), told),
        Call::Create(name) => is_done(files.create(alloc, name), told),
        Call::Append(name, bytes) => is_done(files.append(alloc, name, bytes), told),
    }
}

// How many calls are right before the first that answers something else.
fn count_right<F: Files>(alloc: Global, files: &mut F, calls: &[(Call, Told)]) -> usize {
    for i in 0..calls.len() {
        let (call, told) = calls[i];
        if !answers(alloc, files, call, told) {
            return i;
        }
    }
    calls.len()
}

fn numbers(alloc: Global, listed: &[u64]) -> Result<List<u64>, AllocError> {
    Ok(List::from_vec(listed.to_vec(alloc)?))
}

fn put_two(files: &mut MemoryFiles) -> Result<(), AllocError> {
    files.put("a", b"old")?;
    files.put("a", b"12345")
}

// Files of which the calls with these numbers fail, with one file of five bytes.
fn in_memory(alloc: Global, failing: &[u64]) -> Result<MemoryFiles, AllocError> {
    let mut files = MemoryFiles::new(alloc, numbers(alloc, failing)?);
    if put_two(&mut files).is_err() {
        drop(files);
        return Err(AllocError);
    }
    Ok(files)
}

static IN_MEMORY: [(Call, Told); 14] = [
    (Call::Read("a", 5), Told::Bytes(b"12345")),
    (Call::Read("a", 5), Told::Failed),
    (Call::Read("a", 4), Told::TooLong),
    (Call::Read("b", 0), Told::Missing),
    (Call::Read("b", 0), Told::Failed),
    (Call::Append("b", b"in "), Told::Done),
    (Call::Append("b", b"lost "), Told::Failed),
    (Call::Append("b", b"full"), Told::Done),
    (Call::Read("b", 7), Told::Bytes(b"in full")),
    (Call::Create("b"), Told::Done),
    (Call::Append("b", b"first "), Told::Done),
    (Call::Append("b", b"second"), Told::Done),
    (Call::Read("b", 12), Told::Bytes(b"first second")),
    (Call::Read("c", 12), Told::Missing),
];

fn are_kept(files: &MemoryFiles) -> bool {
    files.get("a") == Some(b"12345".as_slice())
        && files.get("b") == Some(b"first second".as_slice())
        && files.get("c").is_none()
}

fn count_in_memory(alloc: Global) -> Result<usize, AllocError> {
    let mut files = in_memory(alloc, &[1, 4, 6])?;
    let right = count_right(alloc, &mut files, &IN_MEMORY);
    let kept = are_kept(&files);
    drop(files);
    if kept { Ok(right) } else { Ok(0) }
}

#[test]
fn files_in_memory_fail_at_the_listed_calls(rt: HostRuntime) -> Result<(), Fail> {
    passes(&rt, count_in_memory(rt.alloc()), 14)
}

static CREATES: [(Call, Told); 6] = [
    (Call::Create("a"), Told::Failed),
    (Call::Read("a", 5), Told::Bytes(b"12345")),
    (Call::Create("a"), Told::Done),
    (Call::Read("a", 5), Told::Bytes(b"")),
    (Call::Create("b"), Told::Failed),
    (Call::Read("b", 5), Told::Missing),
];

fn count_creates(alloc: Global) -> Result<usize, AllocError> {
    let mut files = in_memory(alloc, &[0, 4])?;
    let right = count_right(alloc, &mut files, &CREATES);
    drop(files);
    Ok(right)
}

#[test]
fn a_failed_create_in_memory_keeps_the_file(rt: HostRuntime) -> Result<(), Fail> {
    passes(&rt, count_creates(rt.alloc()), 6)
}

// What is written, and whether that fails.
static WRITES: [(&str, bool); 5] = [
    ("one ", false),
    ("two ", false),
    ("", false),
    ("lost ", true),
    ("three", false),
];

fn fails<K: Sink>(sink: &mut K, piece: &str) -> bool {
    matches!(sink.write(piece.as_bytes()), Err(SinkFail::Failed))
}

fn count_writes(sink: &mut MemorySink) -> usize {
    for (i, (piece, failing)) in WRITES.iter().enumerate() {
        if fails(sink, *piece) != *failing {
            return i;
        }
    }
    WRITES.len()
}

fn count_in_sink(alloc: Global) -> Result<usize, AllocError> {
    let mut sink = MemorySink::new(alloc, numbers(alloc, &[3])?);
    let right = count_writes(&mut sink);
    let written = sink.bytes() == b"one two three".as_slice();
    drop(sink);
    if written { Ok(right) } else { Ok(0) }
}

#[test]
fn a_sink_in_memory_fails_at_the_listed_writes(rt: HostRuntime) -> Result<(), Fail> {
    passes(&rt, count_in_sink(rt.alloc()), 5)
}

// What the system refuses is failed, and never taken for a missing file or for a success: a name below a plain file, ..
static OF_A_FILE: [(Call, Told); 12] = [
    (Call::Read("saved.txt", 12), Told::Missing),
    (Call::Create("saved.txt"), Told::Done),
    (Call::Append("saved.txt", b"first "), Told::Done),
    (Call::Append("saved.txt", b"second"), Told::Done),
    (Call::Read("saved.txt", 12), Told::Bytes(b"first second")),
    (Call::Read("saved.txt", 11), Told::TooLong),
    (Call::Read("saved.txt/below", 12), Told::Failed),
    (Call::Create("saved.txt/below"), Told::Failed),
    (Call::Append("saved.txt/below", b"lost"), Told::Failed),
    (Call::Read("saved.txt", 12), Told::Bytes(b"first second")),
    (Call::Create("saved.txt"), Told::Done),
    (Call::Read("saved.txt", 0), Told::Bytes(b"")),
];

// .. a folder, a device without an end, and a full one, ..
static OF_DEVICES: [(Call, Told); 9] = [
    (Call::Read("/", 12), Told::Failed),
    (Call::Append("/", b"lost"), Told::Failed),
    (Call::Read("/dev/zero", 10_000), Told::TooLong),
    (Call::Read("/dev/zero", 0), Told::TooLong),
    (Call::Read("/dev/null", 0), Told::Bytes(b"")),
    (Call::Create("/dev/null"), Told::Done),
    (Call::Append("/dev/null", b"lost"), Told::Done),
    (Call::Create("/dev/full"), Told::Done),
    (Call::Append("/dev/full", b"lost"), Told::Failed),
];

// .. and a folder that is not there.
static OF_NO_FOLDER: [(Call, Told); 5] = [
    (Call::Read("gone/below", 12), Told::Missing),
    (Call::Create("gone/below"), Told::Failed),
    (Call::Append("gone/below", b"lost"), Told::Failed),
    (Call::Append("saved.txt", b"kept"), Told::Done),
    (Call::Read("saved.txt", 4), Told::Bytes(b"kept")),
];

// How many of the tables are right before the first that is not.
fn count_tables<F: Files>(alloc: Global, files: &mut F) -> usize {
    if count_right(alloc, files, &OF_A_FILE) < 12 {
        return 0;
    }
    if count_right(alloc, files, &OF_DEVICES) < 9 {
        return 1;
    }
    if count_right(alloc, files, &OF_NO_FOLDER) < 5 {
        return 2;
    }
    3
}

// Whether the file is missing once it is removed.
fn is_gone(rt: &HostRuntime) -> Result<bool, Fail> {
    fs::remove_file(rt, "saved.txt")?;
    let call = Call::Read("saved.txt", 8);
    Ok(answers(rt.alloc(), &mut HostFiles::new(rt), call, Told::Missing))
}

#[test]
fn each_error_of_the_system_is_a_fault(rt: HostRuntime) -> Result<(), Fail> {
    passes(
        &rt,
        Ok(count_tables(rt.alloc(), &mut HostFiles::new(&rt))),
        3,
    )?;
    assert!(rt; is_gone(&rt)?);
    Ok(())
}

fn write_two<K: Sink>(sink: &mut K) -> Result<(), SinkFail> {
    sink.write(b"one\n")?;
    sink.write(b"two\n")
}

// Whether the two lines are in their file then.
fn are_written(rt: &HostRuntime) -> bool {
    let call = Call::Read("written.txt", 8);
    let told = Told::Bytes(b"one\ntwo\n");
    answers(rt.alloc(), &mut HostFiles::new(rt), call, told)
}

#[test]
fn a_sink_of_the_system_writes_to_its_file(rt: HostRuntime) -> Result<(), Fail> {
    write_two(&mut HostSink::new(fs::create(&rt, "written.txt")?))?;
    assert!(rt; are_written(&rt));
    fs::remove_file(&rt, "written.txt")?;
    Ok(())
}

#[test]
fn standard_output_is_a_sink(rt: HostRuntime) -> Result<(), Fail> {
    write_two(&mut HostSink::new(io::writer(&rt)))?;
    Ok(())
}

// Whether a write fails, and one of nothing does not.
fn is_full<K: Sink>(sink: &mut K) -> bool {
    fails(sink, "lost") && sink.write(b"").is_ok()
}

#[test]
fn a_write_to_a_full_device_is_failed(rt: HostRuntime) -> Result<(), Fail> {
    assert!(rt; is_full(&mut HostSink::new(fs::create(&rt, "/dev/full")?)));
    Ok(())
}
