// Names in scope.
ghost use Rattle.std.specs.Prelude.{◌≡◌, ◌∷◌, ◌++◌, ◌≤◌, ◌<◌, ◌-◌, [], length, reverse, take, option_copied, OnOk, IfOk};
ghost use Rattle.tla_meaning.specs.Flattening.{declared_origins};
ghost use Rattle.tla_meaning.specs.Scopes.{same_text};
ghost use Rattle.flat_modules.specs.inner.Places.{key_of, keys_of};
ghost use Rattle.tla_meaning.specs.Symbols.{entry_of, is_there, repeated, serves, with_new};

use crate::entries::{add_repeated, same, same_bytes};
use crate::index::{Index, key_of};
use crate::shared::SharedEntry;
use std::alloc::{AllocError, Global};
use std::marker::Model;
use tla_meaning::{Entry, Kind, Misuse};

// Names in scope, in the order in which they came.
#[derive(Drop)]
pub(crate) struct Scope {
    alloc: Global,
    entries: Vec<SharedEntry>,
    // The keys of their names.
    index: Index,
    // The origins of the declared ones.
    origins: Vec<u8>,
}

impl Model for Scope {
    ghost use Rattle.std.specs.Prelude.{List as Items};
    ghost use Rattle.flat_modules.specs.inner.Places.{IsScope};
    ghost use Rattle.std.specs.Coded.{coded_list, codes};
    ghost use Rattle.tla_meaning.specs.declared.symbols.Entry.{Entry as Name};
    ghost use Rattle.tla_meaning.specs.contracts.symbols.Entry as entry;

    ghost Value = { Items Name };

    ghost coded = { coded_list entry.the_row.coded };

    ghost view = { λ s. s.entries.items };

    ghost invariant = { λ s. IsScope s.index s.origins.items s.entries.items };
}

impl Scope {
    pub(crate) fn new(alloc: Global) -> Scope
        ensures { result ≡ [] }
    {
        Scope {
            alloc,
            entries: Vec::new(alloc),
            index: Index::new(alloc),
            origins: Vec::new(alloc),
        }
    }

    pub(crate) fn len(&self) -> usize
        ensures { result ≡ length self.now }
    {
        self.entries.len()
    }

    // The last entry of a name.
    pub(crate) fn find(&self, name: &[u8]) -> Option<&Entry>
        ensures { option_copied result ≡ entry_of name.now self.now }
    {
        let mut place = self.index.last(key_of(name));
        while place > 0 {
            let entry = self.entries[place - 1].get();
            if is_name(entry, name) {
                return Some(entry);
            }
            place = self.index.before(place);
        }
        None
    }

    pub(crate) fn entries(&self) -> &[SharedEntry]
        ensures { result.now ≡ self.now }
    {
        self.entries.as_slice()
    }

    pub(crate) fn push(&mut self, entry: Entry) -> Result<(), AllocError>
        ensures { OnOk result (self.new ≡ self.old ++ (entry ∷ [])) }
    {
        let entry = SharedEntry::new(self.alloc, entry)?;
        self.push_shared(entry)
    }

    pub(crate) fn push_shared(&mut self, entry: SharedEntry) -> Result<(), AllocError>
        ensures { OnOk result (self.new ≡ self.old ++ (entry ∷ [])) }
    {
        let key = entry.key();
        let origin = entry.declared_origin();
        self.entries.reserve(1)?;
        self.origins.reserve(origin.len())?;
        self.index.push(key)?;
        self.origins.extend_from_slice(origin)?;
        self.entries.push_reserved(entry);
        Ok(())
    }

    // Adds a name, but where it is there, on another way.
    pub(crate) fn add(&mut self, entry: Entry) -> Result<(), AllocError>
        ensures { OnOk result (self.new ≡ with_new self.old (entry ∷ [])) }
    {
        let entry = SharedEntry::new(self.alloc, entry)?;
        self.add_shared(entry)
    }

    fn add_shared(&mut self, entry: SharedEntry) -> Result<(), AllocError>
        ensures { OnOk result (self.new ≡ with_new self.old (entry ∷ [])) }
    {
        if self.is_there(&entry) {
            return Ok(());
        }
        self.push_shared(entry)
    }

    pub(crate) fn add_all(&mut self, entries: Vec<SharedEntry>) -> Result<(), AllocError>
        ensures { OnOk result (self.new ≡ with_new self.old entries.items) }
    {
        for entry in entries {
            self.add_shared(entry)?;
        }
        Ok(())
    }

    // Names behind those that are there, whether they are there or not.
    pub(crate) fn append(&mut self, entries: Vec<Entry>) -> Result<(), AllocError>
        ensures { OnOk result (self.new ≡ self.old ++ entries.items) }
    {
        for entry in entries {
            self.push(entry)?;
        }
        Ok(())
    }

    fn is_there(&self, new: &SharedEntry) -> bool
        ensures { result ≡ is_there self.now new.now }
    {
        let mut place = self.index.last(new.key());
        while place > 0 {
            if serves(self.entries[place - 1].get(), new.get()) {
                return true;
            }
            place = self.index.before(place);
        }
        false
    }

    // What is told of a new name that repeats names in scope, the last of them first.
    pub(crate) fn repeated(&self, new: &Entry) -> Result<Vec<Misuse>, AllocError>
        ensures { IfOk result (λ v. reverse v.items ≡ repeated self.now new.now) }
    {
        let key = key_of(new.name.bytes());
        repeated(self.alloc, &self.entries, &self.index, key, new)
    }

    // The same of one whose key is known.
    pub(crate) fn repeated_by(&self, new: &SharedEntry) -> Result<Vec<Misuse>, AllocError>
        ensures { IfOk result (λ v. reverse v.items ≡ repeated self.now new.now) }
    {
        repeated(self.alloc, &self.entries, &self.index, new.key(), new.get())
    }

    // The origins of the declared names.
    pub(crate) fn origins(&self) -> &[u8]
        ensures { result.now ≡ declared_origins self.now }
    {
        &self.origins
    }

    // Leaves the first n names.
    pub(crate) fn cut(&mut self, n: usize)
        ensures { self.new ≡ take n self.old }
    {
        while self.entries.len() > n {
            self.pop();
        }
    }

    // Takes the last name out.
    fn pop(&mut self)
        requires { 0 < length self.old }
        ensures { self.new ≡ take (length self.old - 1) self.old }
    {
        let last = self.entries.len() - 1;
        let origin = self.entries[last].declared_origin().len();
        self.origins.truncate(self.origins.len() - origin);
        self.entries.truncate(last);
        self.index.pop();
    }
}

// What is told of a new name with this key that repeats some of these with their keys, the last of them first.
pub(crate) fn repeated(
    alloc: Global,
    entries: &[SharedEntry],
    index: &Index,
    key: usize,
    new: &Entry,
) -> Result<Vec<Misuse>, AllocError>
    requires keys { index.now ≡ keys_of entries.now }
    requires key { key ≡ key_of new.now.name }
    ensures { IfOk result (λ v. reverse v.items ≡ repeated entries.now new.now) }
{
    let mut told = Vec::new(alloc);
    let mut place = index.last(key);
    while place > 0 {
        let entry = &entries[place - 1];
        add_repeated(alloc, entry.get(), new, &mut told)?;
        place = index.before(place);
    }
    Ok(told)
}

fn is_name(entry: &Entry, name: &[u8]) -> bool
    ensures { result ≡ same_text name.now entry.now.name }
{
    same_bytes(name, entry.name.bytes())
}

// Whether the name that is there serves for the new one.
fn serves(entry: &Entry, new: &Entry) -> bool
    ensures { result ≡ serves new.now entry.now }
{
    same(&entry.name, &new.name)
        && same(&entry.origin, &new.origin)
        && (entry.exported || !new.exported)
        && (entry.kind == Kind::Declaration) == (new.kind == Kind::Declaration)
}
