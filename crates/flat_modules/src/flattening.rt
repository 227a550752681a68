// The flat module of a root.
ghost use Rattle.std.specs.Prelude.{◌≡◌, map, IfOk, OnOk};
ghost use Rattle.tla_meaning.specs.Flattening.{declared_names, flat_of, known, misuse_of, root_copy};
ghost use Rattle.tla_meaning.specs.Jobs.{in_state_order};
ghost use Rattle.flat_modules.specs.inner.Gathering.{Remembers};
ghost use Rattle.flat_modules.specs.inner.Flat.{Adds, IsSplit, IsFlatItems};
ghost use Rattle.flat_modules.specs.inner.Items.{item_of};
ghost use Rattle.flat_modules.specs.inner.Learning.{IsKnown};

use crate::copies::{Meaning, ModuleCopy};
use crate::gathering::{Sources, Walk};
use crate::items::{Item, Items, owned};
use crate::knowing::Knowing;
use crate::memo::Memo;
use std::alloc::{AllocError, Global};
use tla_meaning::{Decl, Def, Expr, Flat, Misuse, Module};
use tla_values::{List, Text};

/// The flat module of a root, whose modules were read from these files: its declarations, definitions and assumptions with
/// those that EXTENDS brings in, and the definitions that INSTANCE brings in. (Lamport, Specifying Systems, sections 4.1,
/// 4.2, 17.5 and 17.8.)
pub fn flat_of(
    alloc: Global,
    files: List<Text>,
    modules: &[(Text, Module)],
    root: &[u8],
) -> Result<Flat, AllocError>
    ensures { IfOk result (λ f. f ≡ record (flat_of (λ x. x) modules.now root.now) { files = files }) }
{
    let items = Sources { alloc, modules }.flat_items(root)?;
    let root = Text::from_vec(Vec::from_slice(alloc, root)?);
    let aliases = Sources { alloc, modules }.aliases(&root)?;
    let FlatItems {
        decls,
        defs,
        assumes,
    } = items;
    Ok(Flat {
        files,
        decls: List::from_vec(decls),
        defs: List::from_vec(defs),
        assumes: List::from_vec(assumes),
        aliases,
    })
}

/// The first of the least misuses of names in the modules of a root, each as if it were the root.
pub fn misuse_of(alloc: Global, modules: &[(Text, Module)]) -> Result<Option<Misuse>, AllocError>
    ensures { IfOk result (λ o. o ≡ misuse_of modules.now) }
{
    Sources { alloc, modules }.misuse()
}

// The items of a flat module, each kind in its order.
#[derive(Drop)]
pub(crate) struct FlatItems {
    pub(crate) decls: Vec<Decl>,
    pub(crate) defs: Vec<Def>,
    pub(crate) assumes: Vec<Expr>,
}

impl<'a> Sources<'a> {
    // What is known of a root, whose declared names stand for their numbers among these.
    fn root(
        self,
        name: &'a [u8],
        decls: &'a [Decl],
        told: Option<Misuse>,
        memo: &mut Memo,
    ) -> Result<Knowing, AllocError>
        requires { Remembers self.modules.now (root_copy name.now decls.now) memo.old }
        ensures known { IfOk result (λ k. IsKnown told k (known self.entry.modules.now (root_copy name.now decls.now))) }
        ensures kept { OnOk result (Remembers self.entry.modules.now (root_copy name.now decls.now) memo.new) }
    {
        let copy = ModuleCopy {
            name,
            prefix: &[],
            way: &[],
            meaning: Meaning::Root(decls),
            root: true,
        };
        let walk = Walk {
            alloc: self.alloc,
            modules: self.modules,
            depth: self.modules.len() + 1,
        };
        let reached = walk.known(&copy, told, memo)?;
        Ok(reached.knowing)
    }

    // The items that a root brings in, whose declared names stand for their numbers among these.
    fn items(self, name: &'a [u8], decls: &'a [Decl]) -> Result<Items, AllocError>
        ensures { IfOk result (λ i. map item_of i ≡ (known self.entry.modules.now (root_copy name.now decls.now)).items) }
    {
        let mut memo = Memo::new(self.alloc);
        let known = self.root(name, decls, None, &mut memo)?;
        Ok(known.items)
    }

    // The first of the least misuses in the modules, each as if it were the root.
    pub(crate) fn misuse(self) -> Result<Option<Misuse>, AllocError>
        ensures { IfOk result (λ o. o ≡ misuse_of self.entry.modules.now) }
    {
        let mut told = None;
        let mut memo = Memo::new(self.alloc);
        for (name, _) in self.modules {
            let known = self.root(name.bytes(), &[], told, &mut memo)?;
            told = known.resolving.told;
        }
        Ok(told)
    }

    // The declared names of a root, constants first.
    pub(crate) fn declared_names(self, name: &'a [u8]) -> Result<Vec<Decl>, AllocError>
        ensures { IfOk result (λ v. v.items ≡ declared_names self.entry.modules.now name.now) }
    {
        let items = self.items(name, &[])?;
        let items = split(self.alloc, items)?;
        in_state_order(self.alloc, items.decls)
    }

    // The items of the flat module of a root.
    pub(crate) fn flat_items(self, name: &'a [u8]) -> Result<FlatItems, AllocError>
        ensures { IfOk result (λ f. IsFlatItems f self.entry.modules.now name.now) }
    {
        let decls = self.declared_names(name)?;
        let sources = Sources {
            alloc: self.alloc,
            modules: self.modules,
        };
        let items = sources.items(name, &decls)?;
        split(self.alloc, items)
    }
}

fn split(alloc: Global, items: Items) -> Result<FlatItems, AllocError>
    ensures { IfOk result (λ f. IsSplit f (map item_of items)) }
{
    let mut flat = FlatItems {
        decls: Vec::new(alloc),
        defs: Vec::new(alloc),
        assumes: Vec::new(alloc),
    };
    for item in items.into_vec() {
        flat.add(owned(alloc, item)?)?;
    }
    Ok(flat)
}

impl FlatItems {
    fn add(&mut self, item: Item) -> Result<(), AllocError>
        ensures { OnOk result (Adds self.old self.new (item_of item)) }
    {
        match item {
            Item::Declares(d) => {
                self.decls.push(d)?;
                Ok(())
            }
            Item::Defines(d) => {
                self.defs.push(d)?;
                Ok(())
            }
            Item::Assumes(e) => {
                self.assumes.push(e)?;
                Ok(())
            }
        }
    }
}

// Constants first, then variables, each kind in its order.
fn in_state_order(alloc: Global, decls: Vec<Decl>) -> Result<Vec<Decl>, AllocError>
    ensures { IfOk result (λ v. v.items ≡ in_state_order decls.items) }
{
    let mut constants = Vec::new(alloc);
    let mut variables = Vec::new(alloc);
    for d in decls {
        if d.constant {
            constants.push(d)?;
        } else {
            variables.push(d)?;
        }
    }
    constants.append(&mut variables)?;
    Ok(constants)
}
