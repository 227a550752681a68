// What is known of a module, unit by unit.
ghost use Rattle.std.specs.Prelude.{◌≡◌, ◌∷◌, ◌++◌, [], false, map, filter, IfOk, OnOk};
ghost use Rattle.tla_meaning.specs.Flattening.Item.{Declares, Defines, Assumes};
ghost use Rattle.tla_meaning.specs.Flattening.{Copy, Known, after_unit, announcements, declared, defined, definition, definition_misuses, instance_entries, instance_names, is_definition, is_open, nothing_known, symbol_misuses, with_misuses};
ghost use Rattle.tla_meaning.specs.Resolving.{resolved_in};
ghost use Rattle.tla_meaning.specs.Symbols.{all_repeated, entry_of};
ghost use Rattle.tla_meaning.specs.declared.symbols.Entry.{Entry as Name};
ghost use Rattle.flat_modules.specs.inner.Copies.{copy_of};
ghost use Rattle.flat_modules.specs.inner.Gathering.{Advances, is_instance};
ghost use Rattle.flat_modules.specs.inner.Instances.{with_item};
ghost use Rattle.flat_modules.specs.inner.Items.{item_of};
ghost use Rattle.flat_modules.specs.inner.Learning.{IsKnown, Learns};
ghost use Rattle.flat_modules.specs.inner.Standards.{entries_of};

use crate::copies::ModuleCopy;
use crate::entries::announced;
use crate::instances::Instance;
use crate::items::{Item, Items, copy_decl};
use crate::resolving::Resolving;
use crate::scope::Scope;
use crate::shared::SharedEntry;
use crate::standards::{OUTSIDE, Standard};
use std::alloc::{AllocError, Global};
use tla_meaning::{Decl, Def, Entry, Expr, Kind, Misuse, Unit};
use tla_values::{Text, copy_text, copy_texts};

// The names in scope, what is told of them, and what the module brings into the flat module.
#[derive(Drop)]
pub(crate) struct Knowing {
    pub(crate) resolving: Resolving,
    pub(crate) items: Items,
}

impl Knowing {
    // Nothing is known, where this misuse was told before.
    pub(crate) fn new(alloc: Global, told: Option<Misuse>) -> Knowing
        ensures { IsKnown told result nothing_known }
    {
        Knowing {
            resolving: Resolving {
                alloc,
                scope: Scope::new(alloc),
                told,
            },
            items: Items::new(alloc),
        }
    }

    // What is known of a standard module.
    pub(crate) fn standard(
        alloc: Global,
        standard: Standard,
        told: Option<Misuse>,
    ) -> Result<Knowing, AllocError>
        ensures { IfOk result (λ k. IsKnown told k (record { names = entries_of standard; items = []; misuses = [] })) }
    {
        let entries = standard.entries(alloc)?;
        let mut knowing = Knowing::new(alloc, told);
        knowing.resolving.scope.append(entries)?;
        Ok(knowing)
    }

    // After a unit that mentions no module.
    pub(crate) fn after(self, copy: &ModuleCopy, unit: &Unit) -> Result<Knowing, AllocError>
        ensures { IfOk result (λ k. (inside : Copy → Known) → is_instance unit.now ≡ false → Advances self k (λ s. after_unit inside (copy_of copy.now) s unit.now)) }
    {
        let mut knowing = self;
        match unit {
            Unit::Declare(decls) => {
                knowing.declare(copy, decls.as_slice())?;
                Ok(knowing)
            }
            Unit::Assume(e) => {
                knowing.assume(e)?;
                Ok(knowing)
            }
            Unit::Define(d, local) => {
                knowing.define(copy, d, *local)?;
                Ok(knowing)
            }
            Unit::Recursive(names) => {
                knowing.announce(names.as_slice())?;
                Ok(knowing)
            }
            Unit::Theorem(_) => Ok(knowing),
            Unit::Instance(_, _, _, _, _) => Ok(knowing),
        }
    }

    // VARIABLE(S) or CONSTANT(S).
    pub(crate) fn declare(&mut self, copy: &ModuleCopy, decls: &[Decl]) -> Result<(), AllocError>
        ensures { OnOk result (Learns self.old self.new (map (declared (copy_of copy.now)) decls.now) (map (λ d. Declares d) decls.now)
            (all_repeated self.old.resolving.scope (map (declared (copy_of copy.now)) decls.now))) }
    {
        let alloc = self.resolving.alloc;
        let names = declared_names(alloc, copy, decls)?;
        let items = declarations(alloc, decls)?;
        self.resolving.tell_names(&names)?;
        self.resolving.scope.add_all(names)?;
        self.items.add_all(items)
    }

    // ASSUME.
    pub(crate) fn assume(&mut self, e: &Expr) -> Result<(), AllocError>
        ensures { OnOk result (Learns self.old self.new [] (Assumes (resolved_in self.old.resolving.scope e.now).tree ∷ [])
            (resolved_in self.old.resolving.scope e.now).misuses) }
    {
        let tree = self.resolving.resolve(e, 0)?;
        self.items.add(Item::Assumes(tree))
    }

    // A definition.
    pub(crate) fn define(
        &mut self,
        copy: &ModuleCopy,
        d: &Def,
        local: bool,
    ) -> Result<(), AllocError>
        ensures { OnOk result (Learns self.old self.new (defined (copy_of copy.now) self.old.resolving.scope d.now local ∷ [])
            (Defines (definition (copy_of copy.now) self.old.resolving.scope d.now local) ∷ [])
            (definition_misuses (copy_of copy.now) self.old.resolving.scope d.now local)) }
    {
        let alloc = self.resolving.alloc;
        let entry = copy.defined(alloc, &self.resolving.scope, d, local)?;
        let name = copy.flat_name(alloc, local, &d.name)?;
        let params = copy_texts(alloc, &d.params)?;
        let note = copy_text(alloc, &d.note)?;
        let body = self.resolving.tell_definition(&entry, d)?;
        self.resolving.scope.add(entry)?;
        let definition = Def {
            name,
            place: d.place,
            params,
            note,
            body,
        };
        self.items.add(Item::Defines(definition))
    }

    // RECURSIVE.
    pub(crate) fn announce(&mut self, names: &[(Text, usize)]) -> Result<(), AllocError>
        ensures { OnOk result (self.new ≡ record self.old {
          resolving = record self.old.resolving {
            scope = self.old.resolving.scope ++ announcements self.old.resolving.scope names.now;
          };
        }) }
    {
        let entries = announcements(self.resolving.alloc, &self.resolving.scope, names)?;
        self.resolving.scope.append(entries)
    }

    // EXTENDS of a module of which so much is known.
    pub(crate) fn extend(&mut self, inside: &Knowing) -> Result<(), AllocError>
        ensures { OnOk result (Learns self.old self.new (filter (λ (e : Name). e.exported) inside.now.resolving.scope) (map item_of inside.now.items)
            (all_repeated self.old.resolving.scope (filter (λ (e : Name). e.exported) inside.now.resolving.scope))) }
    {
        let names = exported(self.resolving.alloc, inside.resolving.scope.entries())?;
        self.resolving.tell_names(&names)?;
        self.resolving.scope.add_all(names)?;
        self.items.extend(&inside.items)
    }

    // INSTANCE of a module of which so much is known, where the names of WITH's expressions begin so.
    pub(crate) fn instance(
        &mut self,
        unit: &Instance,
        prefix: &[u8],
        inside: Knowing,
    ) -> Result<(), AllocError>
        ensures { OnOk result (Learns self.old self.new
            (instance_names self.old.resolving.scope unit.now.name.now unit.now.local unit.now.place
            ++ instance_entries unit.now.name.now unit.now.local inside.resolving.scope)
            (map (with_item prefix.now self.old.resolving.scope) unit.now.with.now ++ filter is_definition (map item_of inside.items))
            (all_repeated self.old.resolving.scope (instance_names self.old.resolving.scope unit.now.name.now unit.now.local unit.now.place
            ++ instance_entries unit.now.name.now unit.now.local inside.resolving.scope)
            ++ with_misuses unit.now.place self.old.resolving.scope inside.resolving.scope unit.now.with.now
            ++ symbol_misuses unit.now.place self.old.resolving.scope unit.now.with.now inside.resolving.scope)) }
    {
        let Knowing { resolving, items } = inside;
        let entries = resolving.scope.entries();
        let names = unit.names(self.resolving.alloc, &self.resolving.scope, entries)?;
        self.resolving.tell_names(&names)?;
        let replacing = self
            .resolving
            .with_definitions(prefix, unit.place, unit.with, entries)?;
        self.resolving.tell_symbols(unit.place, unit.with, entries)?;
        self.resolving.scope.add_all(names)?;
        self.items.add_all(replacing)?;
        self.items.add_definitions(items)
    }
}

// ---- names and items of units

fn declared_names(
    alloc: Global,
    copy: &ModuleCopy,
    decls: &[Decl],
) -> Result<Vec<SharedEntry>, AllocError>
    ensures { IfOk result (λ v. v.items ≡ map (declared (copy_of copy.now)) decls.now) }
{
    let mut names = Vec::new(alloc);
    for d in decls {
        let name = copy.declared(alloc, d)?;
        names.push(SharedEntry::new(alloc, name)?)?;
    }
    Ok(names)
}

fn declarations(alloc: Global, decls: &[Decl]) -> Result<Vec<Item>, AllocError>
    ensures { IfOk result (λ v. map item_of v.items ≡ map (λ d. Declares d) decls.now) }
{
    let mut items = Vec::new(alloc);
    for d in decls {
        let d = copy_decl(alloc, d)?;
        items.push(Item::Declares(d))?;
    }
    Ok(items)
}

// The names that RECURSIVE announces, but for those that are defined already.
fn announcements(
    alloc: Global,
    scope: &Scope,
    names: &[(Text, usize)],
) -> Result<Vec<Entry>, AllocError>
    ensures { IfOk result (λ v. v.items ≡ announcements scope.now names.now) }
{
    let mut entries = Vec::new(alloc);
    for (name, count) in names {
        if is_open(scope, name) {
            entries.push(announced(alloc, OUTSIDE, name, *count)?)?;
        }
    }
    Ok(entries)
}

fn is_open(scope: &Scope, name: &Text) -> bool
    ensures { result ≡ is_open (entry_of name.now scope.now) }
{
    match scope.find(name.bytes()) {
        None => true,
        Some(entry) => entry.kind == Kind::Announcement,
    }
}

fn exported(alloc: Global, entries: &[SharedEntry]) -> Result<Vec<SharedEntry>, AllocError>
    ensures { IfOk result (λ v. v.items ≡ filter (λ (e : Name). e.exported) entries.now) }
{
    let mut names = Vec::new(alloc);
    for entry in entries {
        if entry.is_exported() {
            names.push(entry.share()?)?;
        }
    }
    Ok(names)
}
