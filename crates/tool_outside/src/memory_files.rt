// Files that are kept in memory.
ghost use Rattle.std.specs.Prelude.{◌≡◌, ◌↔◌, ◌<◌, ◌≤◌, ◌++◌, ℕ, List as Items, [], true, Some, length, IfOk, OnOk, OnErr, IfSome, IsErrOf};
ghost use Rattle.std.specs.Option.{option_map};
ghost use Rattle.tool_outside.specs.Memory.{FilesInMemory, is_listed, next_count};
ghost use Rattle.tool_outside.specs.Outside.{file_at, bytes_or_none, ChangesOne, HasCause};
ghost use Rattle.tool_outside.specs.declared.files.FileFail.TheVariants.{Failed as file_failed, TooLong as too_long};

use crate::held::Held;
use crate::plan::Plan;
use crate::{FileFail, Files};
use std::alloc::{AllocError, Global};
use std::marker::Model;
use tla_values::List;

/// Files in memory, for tests. The calls of the trait are numbered from 0 (the number stands still at
/// `2^64 - 1`), and those that are listed answer `Failed`. A call that is refused changes no file.
#[derive(Drop)]
pub struct MemoryFiles {
    alloc: Global,
    held: Held,
    plan: Plan,
}

impl Model for MemoryFiles {
    ghost Value = { FilesInMemory };

    ghost view = { λ files. record {
      folder = files.held;
      fails = files.plan.fails;
      call = files.plan.call;
      faults = files.plan.faults;
    } };
}

impl MemoryFiles {
    /// No files; `fails` has the numbers of the calls that fail.
    pub fn new(alloc: Global, fails: List<u64>) -> MemoryFiles
        ensures { result ≡ record { folder = []; fails = fails; call = 0; faults = 0 } }
    {
        MemoryFiles {
            alloc,
            held: Held::new(alloc),
            plan: Plan::new(fails),
        }
    }

    /// Puts a file there, in the place of one of the same name. It is no call of the trait, and has no
    /// number. It refuses only for want of memory, and then changes nothing.
    pub fn put(&mut self, name: &str, bytes: &[u8]) -> Result<(), AllocError>
        ensures stored { OnOk result (ChangesOne self.old.folder self.new.folder name.now
            (λ _ new. new ≡ Some bytes.now)) }
        ensures rest { self.new ≡ record self.old { folder = self.new.folder } }
        ensures refused { OnErr result (self.new ≡ self.old) }
    {
        let bytes = bytes.to_vec(self.alloc)?;
        self.held.store(self.alloc, name, bytes)
    }

    /// The bytes of a file, and `None` where no file has the name. It is no call of the trait.
    pub fn get(&self, name: &str) -> Option<&[u8]>
        ensures { option_map (λ bytes. bytes.now) result ≡ file_at self.now.folder name.now }
    {
        self.held.get(name)
    }
}

impl Files for MemoryFiles {
    ghost held = { λ files. Some files.folder };

    ghost faults = { λ files. files.faults };

    fn read(&mut self, alloc: Global, name: &str, limit: u64) -> Result<Option<Vec<u8>>, FileFail>
        ensures keeps { self.new.folder ≡ self.old.folder }
        ensures within { IfOk result (λ read. IfSome read (λ bytes. length bytes.items ≤ limit)) }
        ensures bytes { IfOk result (λ read.
            option_map (λ bytes. bytes.items) read ≡ file_at self.old.folder name.now) }
        ensures too_long { IsErrOf result too_long → (bytes : Items ℕ)
            × (file_at self.old.folder name.now ≡ Some bytes) × (limit < length bytes) }
        ensures listed { IsErrOf result file_failed ↔ (is_listed self.old.fails self.old.call ≡ true) }
        ensures call { self.new.call ≡ next_count self.old.call }
        ensures fails { self.new.fails ≡ self.old.fails }
        ensures cause { HasCause file_failed self.old.faults self.new.faults result }
    {
        if self.plan.call_fails() {
            return Err(FileFail::Failed);
        }
        let Some(bytes) = self.held.get(name) else {
            return Ok(None);
        };
        if bytes.len() as u64 > limit {
            return Err(FileFail::TooLong);
        }
        Ok(Some(bytes.to_vec(alloc)?))
    }

    fn create(&mut self, alloc: Global, name: &str) -> Result<(), FileFail>
        ensures created { OnOk result (ChangesOne self.old.folder self.new.folder name.now
            (λ _ new. new ≡ Some [])) }
        ensures refused { OnErr result (self.new.folder ≡ self.old.folder) }
        ensures not_too_long { IsErrOf result too_long → ⊥ }
        ensures listed { IsErrOf result file_failed ↔ (is_listed self.old.fails self.old.call ≡ true) }
        ensures call { self.new.call ≡ next_count self.old.call }
        ensures fails { self.new.fails ≡ self.old.fails }
        ensures cause { HasCause file_failed self.old.faults self.new.faults result }
    {
        if self.plan.call_fails() {
            return Err(FileFail::Failed);
        }
        self.held.store(alloc, name, Vec::new(alloc))?;
        Ok(())
    }

    fn append(&mut self, alloc: Global, name: &str, piece: &[u8]) -> Result<(), FileFail>
        ensures added { OnOk result (ChangesOne self.old.folder self.new.folder name.now
            (λ old new. new ≡ Some (bytes_or_none old ++ piece.now))) }
        ensures refused { OnErr result (self.new.folder ≡ self.old.folder) }
        ensures not_too_long { IsErrOf result too_long → ⊥ }
        ensures listed { IsErrOf result file_failed ↔ (is_listed self.old.fails self.old.call ≡ true) }
        ensures call { self.new.call ≡ next_count self.old.call }
        ensures fails { self.new.fails ≡ self.old.fails }
        ensures cause { HasCause file_failed self.old.faults self.new.faults result }
    {
        if self.plan.call_fails() {
            return Err(FileFail::Failed);
        }
        let mut bytes = match self.held.get(name) {
            Some(bytes) => bytes.to_vec(alloc)?,
            None => Vec::new(alloc),
        };
        bytes.extend_from_slice(piece)?;
        self.held.store(alloc, name, bytes)?;
        Ok(())
    }
}
