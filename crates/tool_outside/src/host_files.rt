// Files of the system.
ghost use Rattle.std.specs.Prelude.{◌≡◌, ◌<◌, ◌≤◌, ℕ, List, None, length, IfOk, IfSome, IsErrOf};
ghost use Rattle.tool_outside.specs.declared.files.FileFail.TheVariants.{Failed as file_failed, TooLong as too_long};
ghost use Rattle.tool_outside.specs.Outside.{HasCause};

use crate::host_sink::write_piece;
use crate::{FileFail, Files};
use std::alloc::Global;
use std::fs::{self, OpenOptions};
use std::io::{ErrorKind, Read};
use std::rt;

/// The files of the system, by their paths. Each error of the system is a fault, except that a file
/// that isn't there is `None` to a read. They tell no content, since others may change it.
#[derive(Drop)]
pub struct HostFiles<'a, R: rt::Files> {
    rt: &'a R,
    faults: u64,
}

impl<'a, R: rt::Files> HostFiles<'a, R> {
    /// The files that `rt` reaches, with no fault so far.
    pub fn new(rt: &'a R) -> HostFiles<'a, R>
        ensures { ⟦<HostFiles<'a, R> as Files>⟧.faults result ≡ 0 }
    {
        HostFiles { rt, faults: 0 }
    }
}

impl<'a, R: rt::Files> Files for HostFiles<'a, R> {
    ghost held = { λ _. None };

    ghost faults = { λ files. files.faults };

    fn read(&mut self, alloc: Global, name: &str, limit: u64) -> Result<Option<Vec<u8>>, FileFail> {
        let answer = read_file(self.rt, alloc, name, limit);
        count_fault(&mut self.faults, &answer);
        answer
    }

    fn create(&mut self, _alloc: Global, name: &str) -> Result<(), FileFail> {
        let answer = create_file(self.rt, name);
        count_fault(&mut self.faults, &answer);
        answer
    }

    fn append(&mut self, _alloc: Global, name: &str, piece: &[u8]) -> Result<(), FileFail> {
        let answer = append_file(self.rt, name, piece);
        count_fault(&mut self.faults, &answer);
        answer
    }
}

fn count_fault<T>(faults: &mut u64, answer: &Result<T, FileFail>)
    ensures { HasCause file_failed faults.old faults.new answer.now }
{
    if let Err(FileFail::Failed) = answer {
        *faults = faults.saturating_add(1);
    }
}

fn read_file<R: rt::Files>(
    rt: &R,
    alloc: Global,
    name: &str,
    limit: u64,
) -> Result<Option<Vec<u8>>, FileFail>
    ensures within { IfOk result (λ read. IfSome read (λ bytes. length bytes.items ≤ limit)) }
{
    match fs::open(rt, name) {
        Ok(mut file) => Ok(Some(read_bytes(alloc, &mut file, limit)?)),
        Err(error) if error.kind() == ErrorKind::NotFound => Ok(None),
        Err(_) => Err(FileFail::Failed),
    }
}

// Reads to the end, and no more than the limit.
fn read_bytes<R: Read>(alloc: Global, reader: &mut R, limit: u64) -> Result<Vec<u8>, FileFail>
    ensures within { IfOk result (λ bytes. length bytes.items ≤ limit) }
    ensures bytes { IfSome (R.remaining reader.old) (λ left. IfOk result (λ bytes. bytes.items ≡ left)) }
    ensures too_long { IsErrOf result too_long →
        IfSome (R.remaining reader.old) (λ left. limit < length left) }
{
    let mut bytes = Vec::new(alloc);
    let mut piece = [0u8; 4096];
    'pieces: loop {
        let Ok(count) = reader.read(&mut piece) else {
            return Err(FileFail::Failed);
        };
        if count == 0 {
            return Ok(bytes);
        }
        if limit - (bytes.len() as u64) < count as u64 {
            return Err(FileFail::TooLong);
        }
        bytes.extend_from_slice(&piece[..count])?;
    }
}

fn create_file<R: rt::Files>(rt: &R, name: &str) -> Result<(), FileFail>
    ensures { IsErrOf result too_long → ⊥ }
{
    match fs::create(rt, name) {
        Ok(_) => Ok(()),
        Err(_) => Err(FileFail::Failed),
    }
}

fn append_file<R: rt::Files>(rt: &R, name: &str, piece: &[u8]) -> Result<(), FileFail>
    ensures { IsErrOf result too_long → ⊥ }
{
    let opened = OpenOptions::new().append(true).create(true).open(rt, name);
    let Ok(mut file) = opened else {
        return Err(FileFail::Failed);
    };
    match write_piece(&mut file, piece) {
        Ok(()) => Ok(()),
        Err(_) => Err(FileFail::Failed),
    }
}
