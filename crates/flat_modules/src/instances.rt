// What an INSTANCE brings in.
ghost use Rattle.std.specs.Prelude.{◌≡◌, ◌++◌, IfOk, OnOk};
ghost use Rattle.tla_meaning.specs.Flattening.{bare_instance, instance_entries, instance_names, instance_prefix};
ghost use Rattle.flat_modules.specs.inner.Copies.{copy_of};
ghost use Rattle.flat_modules.specs.inner.Instances.{IsInstance, brought, member_kind, renamed, with_body};
ghost use Rattle.flat_modules.specs.inner.Items.{item_of};

use crate::copies::{ModuleCopy, joined, origin_at};
use crate::entries::add_place;
use crate::items::Item;
use crate::scope::Scope;
use crate::shared::SharedEntry;
use std::alloc::{AllocError, Global};
use tla_meaning::{Def, Entry, Expr, Kind, Op, Place, copy_op};
use tla_values::{List, Text, copy_text};

// `name == INSTANCE module WITH with`
#[derive(Clone, Copy)]
pub(crate) struct Instance<'a> {
    pub(crate) name: &'a Option<Text>,
    pub(crate) module: &'a Text,
    pub(crate) with: &'a [(Text, Expr)],
    pub(crate) local: bool,
    pub(crate) place: Place,
}

// What a copy of the module is made of.
#[derive(Drop)]
pub(crate) struct InstanceParts {
    pub(crate) prefix: Vec<u8>,
    pub(crate) way: Vec<u8>,
    // What the names of WITH's expressions begin with.
    pub(crate) with_prefix: Vec<u8>,
}

impl InstanceParts {
    pub(crate) fn new(
        alloc: Global,
        outside: &ModuleCopy,
        unit: &Instance,
    ) -> Result<InstanceParts, AllocError>
        ensures { IfOk result (λ parts. IsInstance parts (bare_instance (copy_of outside.now) unit.now.name.now unit.now.module.now unit.now.local unit.now.place)) }
    {
        let mut prefix = outside.prefix(alloc, unit.local)?;
        add_instance_prefix(unit.name, &mut prefix)?;
        let mut way = Vec::from_slice(alloc, outside.way)?;
        add_place(unit.place, &mut way)?;
        let mut with_prefix = Vec::from_slice(alloc, &prefix)?;
        with_prefix.extend_from_slice(unit.module.bytes())?;
        with_prefix.extend_from_slice(&way)?;
        with_prefix.push(0)?;
        Ok(InstanceParts {
            prefix,
            way,
            with_prefix,
        })
    }
}

fn add_instance_prefix(name: &Option<Text>, out: &mut Vec<u8>) -> Result<(), AllocError>
    ensures { OnOk result (out.new.items ≡ out.old.items ++ instance_prefix name.now) }
{
    if let Some(name) = name {
        out.extend_from_slice(name.bytes())?;
        out.push(b'!')?;
    }
    Ok(())
}

// ---- names

impl<'a> Instance<'a> {
    // The names that it brings in: its own, and those of the definitions inside.
    pub(crate) fn names(
        &self,
        alloc: Global,
        scope: &Scope,
        inside: &[SharedEntry],
    ) -> Result<Vec<SharedEntry>, AllocError>
        ensures { IfOk result (λ v. v.items ≡ instance_names scope.now self.now.name.now self.now.local self.now.place
            ++ instance_entries self.now.name.now self.now.local inside.now) }
    {
        let mut names = self.own_name(alloc, scope)?;
        for entry in inside {
            if self.brings(entry.get()) {
                let name = self.renamed(alloc, entry.get())?;
                names.push(SharedEntry::new(alloc, name)?)?;
            }
        }
        Ok(names)
    }

    // The name of the INSTANCE, where it has one.
    fn own_name(&self, alloc: Global, scope: &Scope) -> Result<Vec<SharedEntry>, AllocError>
        ensures { IfOk result (λ v. v.items ≡ instance_names scope.now self.now.name.now self.now.local self.now.place) }
    {
        let mut names = Vec::new(alloc);
        if let Some(name) = self.name {
            let origin = origin_at(alloc, self.place, scope)?;
            let stands = Op::Use(copy_text(alloc, name)?);
            let name = copy_text(alloc, name)?;
            let entry = Entry {
                name,
                kind: Kind::InstanceName,
                place: self.place,
                origin,
                stands,
                arity: 0,
                exported: !self.local,
            };
            names.push(SharedEntry::new(alloc, entry)?)?;
        }
        Ok(names)
    }

    // A name inside as it is seen outside.
    fn renamed(&self, alloc: Global, entry: &Entry) -> Result<Entry, AllocError>
        ensures { IfOk result (λ e. e ≡ renamed self.now.name.now self.now.local entry.now) }
    {
        let mut name = Vec::new(alloc);
        add_instance_prefix(self.name, &mut name)?;
        name.extend_from_slice(entry.name.bytes())?;
        let origin = copy_text(alloc, &entry.origin)?;
        let stands = copy_op(alloc, &entry.stands)?;
        Ok(Entry {
            name: Text::from_vec(name),
            kind: self.member_kind(entry.kind),
            place: entry.place,
            origin,
            stands,
            arity: entry.arity,
            exported: !self.local,
        })
    }

    // A definition under the name of the INSTANCE is a member of it.
    fn member_kind(&self, kind: Kind) -> Kind
        ensures { result ≡ member_kind self.now.name.now kind }
    {
        match self.name {
            None => kind,
            Some(_) => Kind::Member,
        }
    }

    // Whether a name inside is brought in: a definition that is exported, and under no name also that of an INSTANCE.
    fn brings(&self, entry: &Entry) -> bool
        ensures { result ≡ brought self.now.name.now entry.now }
    {
        let defined = entry.exported && entry.kind != Kind::Declaration;
        match self.name {
            None => defined,
            Some(_) => defined && entry.kind != Kind::InstanceName,
        }
    }
}

// The definition that an expression of WITH is, once its names are resolved.
pub(crate) fn with_definition(
    alloc: Global,
    prefix: &[u8],
    part: &(Text, Expr),
    body: Expr,
) -> Result<Item, AllocError>
    ensures { IfOk result (λ i. item_of i ≡ with_body prefix.now part.now body) }
{
    let (name, e) = part;
    let name = joined(alloc, prefix, name.bytes())?;
    Ok(Item::Defines(Def {
        name,
        place: e.place,
        params: List::new(alloc),
        note: Text::from_vec(Vec::new(alloc)),
        body,
    }))
}
