// What is told of names that units bring into scope.
ghost use Rattle.std.specs.Prelude.{◌≡◌, ◌&&◌, ◌++◌, map, length, OnOk};
ghost use Rattle.std.specs.List.{list_any};
ghost use Rattle.tla_meaning.specs.Flattening.{is_own, symbol_misuses, with_misuses};
ghost use Rattle.tla_meaning.specs.Scopes.{same_text};
ghost use Rattle.tla_meaning.specs.Symbols.{all_repeated, is_declaration, repeated};
ghost use Rattle.flat_modules.specs.inner.Learning.{TellsItems, one_symbol, told_body, with_resolved};
ghost use Rattle.flat_modules.specs.inner.Instances.{with_item};
ghost use Rattle.flat_modules.specs.inner.Places.{keys_of};
ghost use Rattle.flat_modules.specs.inner.Telling.{Tells, Told, own_count};

use crate::entries::same;
use crate::index::Index;
use crate::instances::with_definition;
use crate::items::Item;
use crate::resolving::Resolving;
use crate::scope::repeated;
use crate::shared::SharedEntry;
use std::alloc::AllocError;
use tla_meaning::{Def, Entry, Expr, Kind, Misuse, Op, Place};
use tla_values::{Text, copy_text};

impl Resolving {
    // Tells of new names that repeat names in scope or each other.
    pub(crate) fn tell_names(&mut self, entries: &[SharedEntry]) -> Result<(), AllocError>
        ensures { OnOk result (Told self.old self.new (all_repeated self.old.scope entries.now)) }
    {
        let mut index = Index::new(self.alloc);
        for i in 0..entries.len() {
            let new = &entries[i];
            self.tell_beside(&entries[..i], &index, new)?;
            index.push(new.key())?;
        }
        Ok(())
    }

    // Tells where a new name repeats one in scope, or a new one before it. The index has the keys of those before it.
    fn tell_beside(
        &mut self,
        before: &[SharedEntry],
        index: &Index,
        new: &SharedEntry,
    ) -> Result<(), AllocError>
        requires { index.now ≡ keys_of before.now }
        ensures { OnOk result (Told self.old self.new (repeated (self.old.scope ++ before.now) new.now)) }
    {
        let in_scope = self.scope.repeated_by(new)?;
        self.tell_all(in_scope);
        let among_new = repeated(self.alloc, before, index, new.key(), new.get())?;
        self.tell_all(among_new);
        Ok(())
    }

    // The body of a definition with its names resolved. Told is also where its name and its parameters repeat others.
    pub(crate) fn tell_definition(&mut self, entry: &Entry, d: &Def) -> Result<Expr, AllocError>
        ensures { Tells self.old self.new (told_body self.old.scope entry.now d.now) result }
    {
        self.tell_repeated(entry)?;
        self.tell_parameters(d.place, d.params.as_slice())?;
        let own = self.own(d);
        self.body(d.place, &d.name, d.params.as_slice(), own, &d.body)
    }

    // A definition is announced inside itself where RECURSIVE announces it, and where it is a function.
    fn own(&self, d: &Def) -> Option<usize>
        ensures { result ≡ own_count (length d.now.params) (is_own self.now.scope d.now) }
    {
        let count = d.params.len();
        let announced = match self.scope.find(d.name.bytes()) {
            None => false,
            Some(entry) => entry.kind == Kind::Announcement,
        };
        if announced || count == 0 && matches!(d.body.op, Op::Lambda) {
            Some(count)
        } else {
            None
        }
    }

    // ---- WITH

    // The definitions that the expressions of WITH are, whose names begin so. Told is where its names are no declared
    // ones of the module or stand there twice, and what is wrong with names in its expressions.
    pub(crate) fn with_definitions(
        &mut self,
        prefix: &[u8],
        place: Place,
        with: &[(Text, Expr)],
        inside: &[SharedEntry],
    ) -> Result<Vec<Item>, AllocError>
        ensures { TellsItems self.old self.new (with_misuses place self.old.scope inside.now with.now) (map (with_item prefix.now self.old.scope) with.now) result }
    {
        let mut items = Vec::new(self.alloc);
        for i in 0..with.len() {
            let part = &with[i];
            let tree = self.with_part(place, inside, part, &with[i + 1..])?;
            let item = with_definition(self.alloc, prefix, part, tree)?;
            items.push(item)?;
        }
        Ok(items)
    }

    fn with_part(
        &mut self,
        place: Place,
        inside: &[SharedEntry],
        part: &(Text, Expr),
        rest: &[(Text, Expr)],
    ) -> Result<Expr, AllocError>
        ensures { Tells self.old self.new (with_resolved place self.old.scope inside.now part.now rest.now) result }
    {
        let (name, e) = part;
        if !is_declared(name, inside) {
            let unknown = Misuse::Unknown(copy_text(self.alloc, name)?, place);
            self.tell(unknown);
        }
        if is_replaced(name, rest) {
            let twice = Misuse::Twice(copy_text(self.alloc, name)?, place, place);
            self.tell(twice);
        }
        self.resolve(e, 0)
    }

    // Tells of declared names that WITH does not replace and that have no symbol of the same name in scope.
    pub(crate) fn tell_symbols(
        &mut self,
        place: Place,
        with: &[(Text, Expr)],
        inside: &[SharedEntry],
    ) -> Result<(), AllocError>
        ensures { OnOk result (Told self.old self.new (symbol_misuses place self.old.scope with.now inside.now)) }
    {
        for i in 0..inside.len() {
            self.tell_symbol(place, with, inside[i].get())?;
        }
        Ok(())
    }

    fn tell_symbol(
        &mut self,
        place: Place,
        with: &[(Text, Expr)],
        entry: &Entry,
    ) -> Result<(), AllocError>
        ensures { OnOk result (Told self.old self.new (one_symbol place self.old.scope with.now entry.now)) }
    {
        if entry.kind == Kind::Declaration && !is_replaced(&entry.name, with) {
            self.tell_misuse(place, entry.name.bytes(), 0)
        } else {
            Ok(())
        }
    }
}

fn is_declared(name: &Text, inside: &[SharedEntry]) -> bool
    ensures { result ≡ list_any (λ e. is_declaration e.kind && same_text name.now e.name) inside.now }
{
    inside.iter().any(|entry| is_declared_as(entry.get(), name))
}

fn is_declared_as(entry: &Entry, name: &Text) -> bool
    ensures { result ≡ (is_declaration entry.now.kind && same_text name.now entry.now.name) }
{
    entry.kind == Kind::Declaration && same(name, &entry.name)
}

// Whether WITH has the name.
fn is_replaced(name: &Text, with: &[(Text, Expr)]) -> bool
    ensures { result ≡ list_any (λ c. same_text name.now c.0) with.now }
{
    with.iter().any(|part| same(name, &part.0))
}
