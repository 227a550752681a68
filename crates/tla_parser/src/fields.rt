// Whether a record names a field twice, told while a module is read.
ghost use Rattle.std.specs.Prelude.{◌≡◌, ◌∷◌, ◌&&◌, bytes_eq, drop, option_copied, reverse, None, IfOk};
ghost use Rattle.std.specs.List.{list_any};
ghost use Rattle.tla_parser.specs.Fields.{as_list, distinct};
ghost use Rattle.tla_parser.specs.Trees.{name_of};
ghost use Rattle.tla_parser.specs.declared.open.Code.TheVariants.{Close};
ghost use Rattle.tla_parser.specs.inner.Repeats.{end_name, named_at, named_from, operand_entry, shut_name, shut_once, walk_of, walk_start, walked, walked_one};

use crate::moves::Construct;
use crate::open::Code;
use std::alloc::{AllocError, Global};
use tla_lexer::TokenKind;
use tla_values::{Text, copy_text};

/// A part of a form that is open: a token or an operand, and the name that it is.
#[derive(Drop)]
pub(crate) struct Entry {
    pub(crate) is_token: bool,
    pub(crate) name: Option<Text>,
}

/// The parts that are open, and whether no record named a field twice.
#[derive(Drop)]
pub(crate) struct Fields {
    pub(crate) open: Vec<Entry>,
    pub(crate) once: bool,
}

// The field that a part of this index names, where it is a record's.
fn field(part: &Entry, index: usize) -> Option<&Text>
    ensures { as_list (option_copied result) ≡ named_at index part.now }
{
    if part.is_token || index == 1 {
        part.name.as_ref()
    } else {
        None
    }
}

// Whether a part from this index on names the field.
fn is_among(name: &Text, parts: &[Entry], from: usize) -> bool
    ensures { result ≡ list_any (bytes_eq name.now) (named_from from (drop from parts.now)) }
{
    for i in from..parts.len() {
        if let Some(other) = field(&parts[i], i) {
            if name.bytes() == other.bytes() {
                return true;
            }
        }
    }
    false
}

// Whether no two parts of a record name one field.
fn distinct(parts: &[Entry]) -> bool
    ensures { result ≡ distinct (named_from 0 parts.now) }
{
    for i in 0..parts.len() {
        if let Some(name) = field(&parts[i], i) {
            if is_among(name, parts, i + 1) {
                return false;
            }
        }
    }
    true
}

// The name that a token is.
fn copy_name(alloc: Global, kind: &TokenKind) -> Result<Option<Text>, AllocError>
    ensures { IfOk result (λ name. name ≡ name_of kind.now) }
{
    match kind {
        TokenKind::Name(name) => Ok(Some(copy_text(alloc, name)?)),
        _ => Ok(None),
    }
}

// The name that the parts end in.
fn end_name(parts: Vec<Entry>) -> Option<Text>
    ensures { result ≡ end_name (reverse parts.items) }
{
    let mut parts = parts;
    match parts.pop() {
        Some(part) if part.is_token => part.name,
        _ => None,
    }
}

// Whether no field is named twice, in a form either, and the name that it is.
#[tactic(auto, unfolding(crate::specs::Fields::has_fields, crate::specs::Written::class_of))]
fn shut(once: bool, construct: Construct, parts: Vec<Entry>) -> (bool, Option<Text>)
    ensures once { result.0 ≡ (once && shut_once construct parts.items) }
    ensures name { result.1 ≡ shut_name construct (reverse parts.items) }
{
    match construct {
        Construct::RecordValue | Construct::RecordSet => {
            (once && distinct(parts.as_slice()), None)
        }
        Construct::NameUse => (once, end_name(parts)),
        _ => (once, None),
    }
}

impl Fields {
    pub(crate) fn new(alloc: Global) -> Fields
        ensures { walk_of result ≡ walk_start }
    {
        Fields {
            open: Vec::new(alloc),
            once: true,
        }
    }

    // An operand stands for the last parts.
    fn close(&mut self, construct: Construct, count: usize) -> Result<(), AllocError>
        ensures { IfOk result (λ _. walk_of self.new ≡ walked_one (Close construct count) (walk_of self.old)) }
    {
        let kept = self.open.len().saturating_sub(count);
        let parts = self.open.split_off(kept)?;
        let (once, name) = shut(self.once, construct, parts);
        self.once = once;
        self.open.push(Entry {
            is_token: false,
            name,
        })?;
        Ok(())
    }

    // An operand that is no name.
    fn operand(&mut self) -> Result<(), AllocError>
        ensures { IfOk result (λ _. walk_of self.new ≡ (self.old.once, operand_entry None ∷ reverse self.old.open.items)) }
    {
        self.open.push(Entry {
            is_token: false,
            name: None,
        })?;
        Ok(())
    }

    fn step(&mut self, alloc: Global, code: &Code) -> Result<(), AllocError>
        ensures { IfOk result (λ _. walk_of self.new ≡ walked_one code.now (walk_of self.old)) }
    {
        match code {
            Code::Part(token) => {
                let name = copy_name(alloc, &token.kind)?;
                self.open.push(Entry {
                    is_token: true,
                    name,
                })?;
                Ok(())
            }
            Code::Prefix(_) => {
                let _ = self.open.pop();
                self.operand()
            }
            Code::Infix(_, _) => {
                let _ = self.open.pop();
                let _ = self.open.pop();
                self.operand()
            }
            Code::Close(construct, count) => self.close(*construct, *count),
        }
    }

    /// Reads the codes from this index on.
    pub(crate) fn walk(
        &mut self,
        alloc: Global,
        codes: &[Code],
        from: usize,
    ) -> Result<(), AllocError>
        ensures { IfOk result (λ _. walk_of self.new ≡ walked (drop from codes.now) (walk_of self.old)) }
    {
        for i in from..codes.len() {
            self.step(alloc, &codes[i])?;
        }
        Ok(())
    }
}
