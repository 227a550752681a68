// Modules as the root has them.
ghost use Rattle.std.specs.Prelude.{◌≡◌, ◌++◌, IfOk, OnOk, option_copied, None, if◌then◌else◌};
ghost use Rattle.tla_meaning.specs.Flattening.{declared, defined, extended, flat_name, local_prefix, meant_by, numbered, or_itself, origin_at, private_prefix, replaced};
ghost use Rattle.tla_meaning.specs.Scopes.{find_last};
ghost use Rattle.tla_meaning.specs.Symbols.{entry_of};
ghost use Rattle.tla_meaning.specs.StandardModules.{standard_module};
ghost use Rattle.flat_modules.specs.inner.Copies.{copy_of};
ghost use Rattle.flat_modules.specs.inner.Standards.{found};

use crate::entries::{origin_over, same_bytes};
use crate::scope::Scope;
use crate::standards::{Standard, standard_module};
use std::alloc::{AllocError, Global};
use tla_meaning::{Decl, Def, Entry, Expr, Kind, Op, Place, copy_op};
use tla_values::{Text, copy_text};

// What declared names stand for.
#[derive(Clone, Copy)]
pub(crate) enum Meaning<'a> {
    // In the root, their numbers among these.
    Root(&'a [Decl]),
    // In an instance: the scope around it, WITH, and what the names of WITH's expressions begin with.
    Instance(&'a Scope, &'a [(Text, Expr)], &'a [u8]),
}

// A module as the root has it.
#[derive(Clone, Copy)]
pub(crate) struct ModuleCopy<'a> {
    pub(crate) name: &'a [u8],
    // What the names of its definitions begin with in the flat module.
    pub(crate) prefix: &'a [u8],
    // The places of the INSTANCEs on the way to it.
    pub(crate) way: &'a [u8],
    pub(crate) meaning: Meaning<'a>,
    // The root's own LOCAL names are seen.
    pub(crate) root: bool,
}

impl<'a> ModuleCopy<'a> {
    // What the names of its definitions begin with, where they are LOCAL or not.
    pub(crate) fn prefix(&self, alloc: Global, local: bool) -> Result<Vec<u8>, AllocError>
        ensures { IfOk result (λ v. v.items ≡ (copy_of self.now).prefix ++ local_prefix (copy_of self.now) local) }
    {
        let mut bytes = Vec::from_slice(alloc, self.prefix)?;
        if local && !self.root {
            self.add_private_prefix(&mut bytes)?;
        }
        Ok(bytes)
    }

    fn add_private_prefix(&self, out: &mut Vec<u8>) -> Result<(), AllocError>
        ensures { OnOk result (out.new.items ≡ out.old.items ++ private_prefix (copy_of self.now)) }
    {
        out.extend_from_slice(self.name)?;
        out.extend_from_slice(self.way)?;
        out.push(0)?;
        Ok(())
    }

    // What begins the names of WITH's expressions, where this is an instance.
    pub(crate) fn with_prefix(&self, alloc: Global) -> Result<Vec<u8>, AllocError>
        ensures { IfOk result (λ v. v.items ≡ (copy_of self.now).prefix ++ private_prefix (copy_of self.now)) }
    {
        let mut bytes = Vec::from_slice(alloc, self.prefix)?;
        self.add_private_prefix(&mut bytes)?;
        Ok(bytes)
    }

    // The name of its definition in the flat module.
    pub(crate) fn flat_name(
        &self,
        alloc: Global,
        local: bool,
        name: &Text,
    ) -> Result<Text, AllocError>
        ensures { IfOk result (λ t. t ≡ flat_name (copy_of self.now) local name.now) }
    {
        let mut bytes = self.prefix(alloc, local)?;
        bytes.extend_from_slice(name.bytes())?;
        Ok(Text::from_vec(bytes))
    }

    // The standard module that it is; the root is none, whatever its name is.
    pub(crate) fn standard(&self) -> Option<Standard>
        ensures { found result ≡ (if self.now.root then None else standard_module self.now.name.now) }
    {
        if self.root {
            None
        } else {
            standard_module(self.name)
        }
    }

    // A module that it extends.
    pub(crate) fn extended(&self, name: &'a [u8]) -> ModuleCopy<'a>
        ensures { copy_of result ≡ extended (copy_of self.now) name.now }
    {
        ModuleCopy {
            name,
            prefix: self.prefix,
            way: self.way,
            meaning: self.meaning,
            root: false,
        }
    }

    // ---- its names

    // What a declared name stands for, and its origin.
    fn meant(&self, alloc: Global, name: &[u8]) -> Result<Option<(Op, Text)>, AllocError>
        ensures { IfOk result (λ m. m ≡ (copy_of self.now).meant name.now) }
    {
        match self.meaning {
            Meaning::Root(decls) => numbered(alloc, decls, name),
            Meaning::Instance(scope, with, prefix) => replaced(alloc, scope, with, prefix, name),
        }
    }

    // The same, or the name itself.
    fn meant_or_itself(&self, alloc: Global, d: &Decl) -> Result<(Op, Text), AllocError>
        ensures { IfOk result (λ m. m ≡ or_itself d.now ((copy_of self.now).meant d.now.name)) }
    {
        if let Some(meant) = self.meant(alloc, d.name.bytes())? {
            return Ok(meant);
        }
        let stands = Op::Use(copy_text(alloc, &d.name)?);
        let origin = origin_over(alloc, d.place, &[])?;
        Ok((stands, origin))
    }

    pub(crate) fn declared(&self, alloc: Global, d: &Decl) -> Result<Entry, AllocError>
        ensures { IfOk result (λ e. e ≡ declared (copy_of self.now) d.now) }
    {
        let name = copy_text(alloc, &d.name)?;
        let (stands, origin) = self.meant_or_itself(alloc, d)?;
        Ok(Entry {
            name,
            kind: Kind::Declaration,
            place: d.place,
            origin,
            stands,
            arity: 0,
            exported: true,
        })
    }

    pub(crate) fn defined(
        &self,
        alloc: Global,
        scope: &Scope,
        d: &Def,
        local: bool,
    ) -> Result<Entry, AllocError>
        ensures { IfOk result (λ e. e ≡ defined (copy_of self.now) scope.now d.now local) }
    {
        let name = copy_text(alloc, &d.name)?;
        let origin = origin_at(alloc, d.place, scope)?;
        let stands = Op::Use(self.flat_name(alloc, local, &d.name)?);
        Ok(Entry {
            name,
            kind: Kind::Definition,
            place: d.place,
            origin,
            stands,
            arity: d.params.len(),
            exported: !local,
        })
    }
}

// The origin of what stands at a place, where these names are in scope.
pub(crate) fn origin_at(alloc: Global, place: Place, scope: &Scope) -> Result<Text, AllocError>
    ensures { IfOk result (λ t. t ≡ origin_at place scope.now) }
{
    origin_over(alloc, place, scope.origins())
}

// A declared name of the root stands for its number.
fn numbered(alloc: Global, decls: &[Decl], name: &[u8]) -> Result<Option<(Op, Text)>, AllocError>
    ensures { IfOk result (λ m. m ≡ numbered name.now decls.now 0) }
{
    for (i, d) in decls.iter().enumerate() {
        if same_bytes(name, d.name.bytes()) {
            let origin = origin_over(alloc, d.place, &[])?;
            return Ok(Some((Op::Name(i, false), origin)));
        }
    }
    Ok(None)
}

// A declared name of an instance stands for the expression of WITH, or for the symbol of the same name.
fn replaced(
    alloc: Global,
    scope: &Scope,
    with: &[(Text, Expr)],
    prefix: &[u8],
    name: &[u8],
) -> Result<Option<(Op, Text)>, AllocError>
    ensures { IfOk result (λ m. m ≡ replaced (prefix.now ++ name.now) scope.now (entry_of name.now scope.now) (find_last name.now with.now)) }
{
    match find_last(name, with) {
        Some(e) => {
            let stands = Op::Use(joined(alloc, prefix, name)?);
            let origin = origin_at(alloc, e.place, scope)?;
            Ok(Some((stands, origin)))
        }
        None => symbol(alloc, scope, name),
    }
}

// What the symbol of a name stands for, and its origin.
fn symbol(alloc: Global, scope: &Scope, name: &[u8]) -> Result<Option<(Op, Text)>, AllocError>
    ensures { IfOk result (λ m. m ≡ meant_by (entry_of name.now scope.now)) }
{
    match scope.find(name) {
        None => Ok(None),
        Some(entry) => {
            let stands = copy_op(alloc, &entry.stands)?;
            let origin = copy_text(alloc, &entry.origin)?;
            Ok(Some((stands, origin)))
        }
    }
}

pub(crate) fn joined(alloc: Global, prefix: &[u8], name: &[u8]) -> Result<Text, AllocError>
    ensures { IfOk result (λ t. t ≡ prefix.now ++ name.now) }
{
    let mut bytes = Vec::from_slice(alloc, prefix)?;
    bytes.extend_from_slice(name)?;
    Ok(Text::from_vec(bytes))
}

// What the last entry of a name says.
pub(crate) fn find_last<'a, T>(name: &[u8], items: &'a [(Text, T)]) -> Option<&'a T>
    ensures { option_copied result ≡ find_last name.now items.now }
{
    let mut i = items.len();
    while i > 0 {
        i -= 1;
        let item = &items[i];
        if same_bytes(name, item.0.bytes()) {
            return Some(&item.1);
        }
    }
    None
}
