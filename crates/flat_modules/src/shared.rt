// Values with several owners.
ghost use Rattle.std.specs.Prelude.{◌≡◌, ◌∷◌, [], IfOk, IfErr};
ghost use Rattle.tla_meaning.specs.Flattening.{declared_origins};
ghost use Rattle.flat_modules.specs.inner.Places.{key_of};

use crate::index::key_of;
use std::alloc::{AllocError, Global};
use std::marker::Model;
use std::rc::Rc;
use tla_meaning::{Entry, Kind};

// Contracts see the value alone.
#[derive(Drop)]
pub(crate) struct Shared<T> {
    inner: Rc<T, Global>,
}

impl<T> Model for Shared<T> {
    ghost Value = { T };

    ghost coded = { T.code };

    ghost view = { λ s. s.inner.value };
}

impl<T> Shared<T> {
    pub(crate) fn get(&self) -> &T
        ensures { result.now ≡ self.now }
    {
        self.inner.as_ref()
    }
}

impl<T: Drop> Shared<T> {
    pub(crate) fn new(alloc: Global, value: T) -> Result<Shared<T>, AllocError>
        ensures { IfOk result (λ s. s ≡ value) }
    {
        Ok(Shared {
            inner: Rc::new(alloc, value)?,
        })
    }

    // One more owner.
    pub(crate) fn share(&self) -> Result<Shared<T>, AllocError>
        ensures { IfOk result (λ s. s ≡ self.now) }
    {
        Ok(Shared {
            inner: self.inner.clone()?,
        })
    }

    // The value, where it has no other owner.
    pub(crate) fn into_inner(self) -> Result<T, Shared<T>>
        ensures alone { IfOk result (λ x. x ≡ self) }
        ensures shared { IfErr result (λ s. s ≡ self) }
    {
        let Shared { inner } = self;
        match Rc::try_unwrap(inner) {
            Ok(value) => Ok(value),
            Err(inner) => Err(Shared { inner }),
        }
    }
}

// A name with several owners. What is asked of it most stands beside it. Contracts see the name alone.
#[derive(Drop)]
pub(crate) struct SharedEntry {
    entry: Shared<Entry>,
    // The key of its name.
    key: usize,
    exported: bool,
    declared: bool,
}

impl Model for SharedEntry {
    ghost use Rattle.std.specs.Coded.{codes};
    ghost use Rattle.tla_meaning.specs.declared.symbols.Entry.{Entry as Name};
    ghost use Rattle.tla_meaning.specs.contracts.symbols.Entry as symbol;
    ghost use Rattle.flat_modules.specs.inner.Places.{IsKeyed};

    ghost Value = { Name };

    ghost coded = { symbol.the_row.coded };

    ghost view = { λ s. s.entry };

    ghost invariant = { λ s. IsKeyed s.entry s.key s.exported s.declared };
}

impl SharedEntry {
    pub(crate) fn new(alloc: Global, entry: Entry) -> Result<SharedEntry, AllocError>
        ensures { IfOk result (λ s. s ≡ entry) }
    {
        let key = key_of(entry.name.bytes());
        let exported = entry.exported;
        let declared = entry.kind == Kind::Declaration;
        let entry = Shared::new(alloc, entry)?;
        Ok(SharedEntry {
            entry,
            key,
            exported,
            declared,
        })
    }

    pub(crate) fn get(&self) -> &Entry
        ensures { result.now ≡ self.now }
    {
        self.entry.get()
    }

    // One more owner.
    pub(crate) fn share(&self) -> Result<SharedEntry, AllocError>
        ensures { IfOk result (λ s. s ≡ self.now) }
    {
        let entry = self.entry.share()?;
        Ok(SharedEntry {
            entry,
            key: self.key,
            exported: self.exported,
            declared: self.declared,
        })
    }

    pub(crate) fn key(&self) -> usize
        ensures { result ≡ key_of self.now.name }
    {
        self.key
    }

    pub(crate) fn is_exported(&self) -> bool
        ensures { result ≡ self.now.exported }
    {
        self.exported
    }

    // The origin of a declared name, and nothing of another.
    pub(crate) fn declared_origin(&self) -> &[u8]
        ensures { result.now ≡ declared_origins (self.now ∷ []) }
    {
        if self.declared {
            self.entry.get().origin.bytes()
        } else {
            &[]
        }
    }
}
