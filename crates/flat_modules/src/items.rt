// What a module brings into the flat module.
ghost use Rattle.std.specs.Prelude.{◌≡◌, ◌∷◌, [], map, filter, IfOk, OnOk};
ghost use Rattle.std.specs.List.{list_any};
ghost use Rattle.tla_meaning.specs.Flattening.{is_definition, same_item, with_items};
ghost use Rattle.flat_modules.specs.inner.Items.{item_of};
ghost use Rattle.flat_modules.specs.inner.Places.{item_key, place_key};

use crate::entries::{same, same_place};
use crate::index::{Index, key_of};
use crate::shared::Shared;
use std::alloc::{AllocError, Global};
use std::marker::Model;
use tla_meaning::{Decl, Def, Expr, Place, copy_expr};
use tla_values::{copy_text, copy_texts};

// A declaration, a definition or an assumption of the flat module.
#[derive(Drop)]
pub(crate) enum Item {
    Declares(Decl),
    Defines(Def),
    Assumes(Expr),
}

// Items in the order in which they came.
#[derive(Drop)]
pub(crate) struct Items {
    alloc: Global,
    items: Vec<Shared<Item>>,
    // Their keys.
    index: Index,
}

impl Model for Items {
    ghost use Rattle.std.specs.Prelude.{◌≡◌, List};
    ghost use Rattle.std.specs.Coded.{coded_list, codes};
    ghost use Rattle.flat_modules.specs.declared.items.Item.{Item as One};
    ghost use Rattle.flat_modules.specs.contracts.items.Item as item;
    ghost use Rattle.flat_modules.specs.inner.Places.{item_keys};

    ghost Value = { List One };

    ghost coded = { coded_list item.the_row.coded };

    ghost view = { λ i. i.items.items };

    ghost invariant = { λ i. i.index ≡ item_keys i.items.items };
}

impl Items {
    pub(crate) fn new(alloc: Global) -> Items
        ensures { result ≡ [] }
    {
        Items {
            alloc,
            items: Vec::new(alloc),
            index: Index::new(alloc),
        }
    }

    // Adds an item, where it is not there, on another way.
    pub(crate) fn add(&mut self, item: Item) -> Result<(), AllocError>
        ensures { OnOk result (map item_of self.new ≡ with_items (map item_of self.old) (item_of item ∷ [])) }
    {
        let item = Shared::new(self.alloc, item)?;
        self.add_shared(item)
    }

    fn add_shared(&mut self, item: Shared<Item>) -> Result<(), AllocError>
        ensures { OnOk result (map item_of self.new ≡ with_items (map item_of self.old) (item_of item ∷ [])) }
    {
        if self.is_there(item.get()) {
            return Ok(());
        }
        self.items.reserve(1)?;
        self.index.push(item_key(item.get()))?;
        self.items.push_reserved(item);
        Ok(())
    }

    pub(crate) fn add_all(&mut self, new: Vec<Item>) -> Result<(), AllocError>
        ensures { OnOk result (map item_of self.new ≡ with_items (map item_of self.old) (map item_of new.items)) }
    {
        for item in new {
            self.add(item)?;
        }
        Ok(())
    }

    // Adds those of a module that is extended.
    pub(crate) fn extend(&mut self, new: &Items) -> Result<(), AllocError>
        ensures { OnOk result (map item_of self.new ≡ with_items (map item_of self.old) (map item_of new.now)) }
    {
        for item in new.items.as_slice() {
            self.add_shared(item.share()?)?;
        }
        Ok(())
    }

    // Adds those that are definitions.
    pub(crate) fn add_definitions(&mut self, new: Items) -> Result<(), AllocError>
        ensures { OnOk result (map item_of self.new ≡ with_items (map item_of self.old) (filter is_definition (map item_of new))) }
    {
        for item in new.items.as_slice() {
            self.add_definition(item)?;
        }
        Ok(())
    }

    fn add_definition(&mut self, item: &Shared<Item>) -> Result<(), AllocError>
        ensures { OnOk result (map item_of self.new ≡ with_items (map item_of self.old) (filter is_definition (item_of item.now ∷ []))) }
    {
        match item.get() {
            Item::Defines(_) => self.add_shared(item.share()?),
            Item::Declares(_) => Ok(()),
            Item::Assumes(_) => Ok(()),
        }
    }

    fn is_there(&self, new: &Item) -> bool
        ensures { result ≡ list_any (λ other. same_item (item_of new.now) (item_of other)) self.now }
    {
        let mut place = self.index.last(item_key(new));
        while place > 0 {
            if same_item(new, self.items[place - 1].get()) {
                return true;
            }
            place = self.index.before(place);
        }
        false
    }
}

impl Items {
    // The items, in their order.
    pub(crate) fn into_vec(self) -> Vec<Shared<Item>>
        ensures { result.items ≡ self }
    {
        let Items { items, .. } = self;
        items
    }
}

// The item itself, copied where it has other owners.
pub(crate) fn owned(alloc: Global, item: Shared<Item>) -> Result<Item, AllocError>
    ensures { IfOk result (λ i. i ≡ item) }
{
    match item.into_inner() {
        Ok(item) => Ok(item),
        Err(shared) => copy_item(alloc, shared.get()),
    }
}

fn copy_item(alloc: Global, item: &Item) -> Result<Item, AllocError>
    ensures { IfOk result (λ i. i ≡ item.now) }
{
    match item {
        Item::Declares(d) => {
            let d = copy_decl(alloc, d)?;
            Ok(Item::Declares(d))
        }
        Item::Defines(d) => {
            let d = copy_def(alloc, d)?;
            Ok(Item::Defines(d))
        }
        Item::Assumes(e) => {
            let e = copy_expr(alloc, e)?;
            Ok(Item::Assumes(e))
        }
    }
}

// An equal declaration.
pub(crate) fn copy_decl(alloc: Global, d: &Decl) -> Result<Decl, AllocError>
    ensures { IfOk result (λ e. e ≡ d.now) }
{
    let name = copy_text(alloc, &d.name)?;
    let note = copy_text(alloc, &d.note)?;
    Ok(Decl {
        name,
        place: d.place,
        constant: d.constant,
        note,
    })
}

// An equal definition.
fn copy_def(alloc: Global, d: &Def) -> Result<Def, AllocError>
    ensures { IfOk result (λ e. e ≡ d.now) }
{
    let name = copy_text(alloc, &d.name)?;
    let params = copy_texts(alloc, &d.params)?;
    let note = copy_text(alloc, &d.note)?;
    let body = copy_expr(alloc, &d.body)?;
    Ok(Def {
        name,
        place: d.place,
        params,
        note,
        body,
    })
}

fn same_item(a: &Item, b: &Item) -> bool
    ensures { result ≡ same_item (item_of a.now) (item_of b.now) }
{
    match (a, b) {
        (Item::Declares(a), Item::Declares(b)) => same(&a.name, &b.name),
        (Item::Defines(a), Item::Defines(b)) => same(&a.name, &b.name),
        (Item::Assumes(a), Item::Assumes(b)) => same_place(a.place, b.place),
        _ => false,
    }
}

// The key of an item: that of its name, or of its place.
fn item_key(item: &Item) -> usize
    ensures { result ≡ item_key item.now }
{
    match item {
        Item::Declares(d) => key_of(d.name.bytes()),
        Item::Defines(d) => key_of(d.name.bytes()),
        Item::Assumes(e) => place_key(e.place),
    }
}

fn place_key(place: Place) -> usize
    ensures { result ≡ place_key place }
{
    (place.file as usize * 31 + place.line as usize) * 31 + place.col as usize
}
