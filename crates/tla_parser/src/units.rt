// The units of a module.
ghost use Rattle.std.specs.Prelude.{false, ◌≡◌, ◌++◌, ◌∷◌, [], cond, true, fold, IfOk};
ghost use Rattle.tla_meaning.specs.declared.modules.Unit.TheVariants.{Assume, Define, Theorem};
ghost use Rattle.tla_parser.specs.declared.items.Item.TheVariants.{Piece};
ghost use Rattle.tla_parser.specs.Trees.{name_of};
ghost use Rattle.tla_parser.specs.Modules.{begun_definition, body_tree, bracket_token, declared_name, definition_of, flushed, head_on, in_head, instance_token, instance_unit, instance_word, is_defining, is_listing, is_naming, is_outside, joined_notes, listed_name, module_node, module_tree, named_token, no_units, of_operand, opened_section, unit_item, unit_of, unit_token, unit_tree, with_blank, word_token};

use crate::binders::Copies;
use crate::copies::copy_kind;
use crate::digests::name_of;
use crate::items::{Head, Item};
use crate::locals::{Defined, definition, head_set, head_token, no_head};
use crate::looks::look;
use crate::nodes::{NOWHERE, added, joined};
use crate::signs::Sign;
use std::alloc::{AllocError, Global};
use tla_lexer::Token;
use tla_meaning::{Decl, Def, Expr, Module, Place, Unit};
use tla_values::{List, Text, copy_text};

/// What is read in a module.
#[derive(Clone, Copy)]
pub enum Section {
    /// Between units.
    Outside,
    Naming,
    Extending,
    /// Constants, or variables.
    Declaring(bool),
    Assuming,
    Stating,
    Defining,
    Instancing,
    Recurring,
}

/// A module as far as it was read.
#[derive(Drop)]
pub struct Units {
    pub name: Text,
    pub extends: List<Text>,
    pub units: List<Unit>,
    pub section: Section,
    /// Whether a name of the section's list is to come.
    pub expects: bool,
    pub local: bool,
    /// The notes of the keyword or of LOCAL.
    pub note: Text,
    pub place: Place,
    pub decls: List<Decl>,
    pub head: Head,
    pub operand: Option<Expr>,
    pub instance: Option<Text>,
    pub replaced: Text,
    pub pairs: List<(Text, Expr)>,
    pub recursive: List<(Text, usize)>,
}

#[tactic(auto, unfolding(crate::specs::Modules::no_units))]
fn no_units(alloc: Global) -> Units
    ensures { result ≡ no_units }
{
    Units {
        name: Text::from_vec(Vec::new(alloc)),
        extends: List::new(alloc),
        units: List::new(alloc),
        section: Section::Outside,
        expects: false,
        local: false,
        note: Text::from_vec(Vec::new(alloc)),
        place: NOWHERE,
        decls: List::new(alloc),
        head: no_head(alloc),
        operand: None,
        instance: None,
        replaced: Text::from_vec(Vec::new(alloc)),
        pairs: List::new(alloc),
        recursive: List::new(alloc),
    }
}

// Two notes, one behind the other.
fn joined_notes(first: Text, second: Text) -> Result<Text, AllocError>
    ensures { IfOk result (λ n. n ≡ joined_notes first second) }
{
    let mut bytes = first.into_vec();
    if bytes.is_empty() {
        return Ok(second);
    }
    if second.bytes().is_empty() {
        return Ok(Text::from_vec(bytes));
    }
    bytes.push(b'\n')?;
    bytes.extend_from_slice(second.bytes())?;
    Ok(Text::from_vec(bytes))
}

#[tactic(auto, unfolding(crate::specs::Modules::is_outside))]
fn is_outside(section: Section) -> bool
    ensures { result ≡ is_outside section }
{
    match section {
        Section::Outside => true,
        _ => false,
    }
}

#[tactic(auto, unfolding(crate::specs::Modules::is_defining))]
fn is_defining(section: Section) -> bool
    ensures { result ≡ is_defining section }
{
    match section {
        Section::Defining => true,
        _ => false,
    }
}

#[tactic(auto, unfolding(crate::specs::Modules::is_naming))]
fn is_naming(section: Section) -> bool
    ensures { result ≡ is_naming section }
{
    match section {
        Section::Naming => true,
        _ => false,
    }
}

#[tactic(auto, unfolding(crate::specs::Modules::is_listing))]
fn is_listing(section: Section) -> bool
    ensures { result ≡ is_listing section }
{
    match section {
        Section::Extending | Section::Declaring(_) | Section::Recurring | Section::Instancing =>
            true,
        _ => false,
    }
}

fn definition_of(alloc: Global, head: Head, note: Text, body: Expr) -> Result<Def, AllocError>
    ensures { IfOk result (λ d. d ≡ definition_of head note body) }
{
    let place = head.place;
    let note = joined_notes(note, copy_text(alloc, &head.note)?)?;
    let Defined { name, params, body } = definition(alloc, head, body)?;
    Ok(Def {
        name,
        place,
        params,
        note,
        body,
    })
}

fn defined_unit(
    alloc: Global,
    head: Head,
    note: Text,
    operand: Option<Expr>,
    local: bool,
) -> Result<List<Unit>, AllocError>
    ensures { IfOk result (λ us. us ≡ of_operand (λ e. Define (definition_of head note e) local) operand) }
{
    let none = List::new(alloc);
    match operand {
        Some(e) => added(
            none,
            Unit::Define(definition_of(alloc, head, note, e)?, local),
        ),
        None => Ok(none),
    }
}

// The unit that was read, where there is one.
#[tactic(auto, unfolding(crate::specs::Modules::unit_of))]
fn unit_of(alloc: Global, read: Units) -> Result<List<Unit>, AllocError>
    ensures { IfOk result (λ us. us ≡ unit_of read.section read) }
{
    let none = List::new(alloc);
    let Units {
        section,
        local,
        note,
        place,
        decls,
        head,
        operand,
        instance,
        pairs,
        recursive,
        ..
    } = read;
    match section {
        Section::Declaring(_) => added(none, Unit::Declare(decls)),
        Section::Recurring => added(none, Unit::Recursive(recursive)),
        Section::Assuming => match operand {
            Some(e) => added(none, Unit::Assume(e)),
            None => Ok(none),
        },
        Section::Stating => match operand {
            Some(e) => added(none, Unit::Theorem(e)),
            None => Ok(none),
        },
        Section::Defining => defined_unit(alloc, head, note, operand, local),
        Section::Instancing => match instance {
            Some(module) => added(
                none,
                Unit::Instance(instance_head(head), module, pairs, local, place),
            ),
            None => Ok(none),
        },
        _ => Ok(none),
    }
}

// The name that an instance has.
fn instance_head(head: Head) -> Option<Text>
    ensures { result ≡ cond head.named (Some head.name) None }
{
    if head.named { Some(head.name) } else { None }
}

// The unit that was read is among the units.
fn flushed(alloc: Global, read: Units) -> Result<Units, AllocError>
    ensures { IfOk result (λ u. u ≡ flushed read) }
{
    if is_outside(read.section) {
        return Ok(read);
    }
    let mut read = read;
    let mut flushed = no_units(alloc);
    flushed.name = read.name;
    flushed.extends = read.extends;
    let units = read.units;
    read.name = Text::from_vec(Vec::new(alloc));
    read.extends = List::new(alloc);
    read.units = List::new(alloc);
    flushed.units = joined(units, unit_of(alloc, read)?)?;
    Ok(flushed)
}

fn opened_section(
    alloc: Global,
    section: Section,
    token: Token,
    read: Units,
) -> Result<Units, AllocError>
    ensures { IfOk result (λ u. u ≡ opened_section section token read) }
{
    let mut read = flushed(alloc, read)?;
    let Token {
        kind: _,
        place,
        notes,
    } = token;
    read.section = section;
    read.expects = true;
    read.note = notes;
    read.place = place;
    Ok(read)
}

fn local_unit(alloc: Global, token: Token, read: Units) -> Result<Units, AllocError>
    ensures { IfOk result (λ u. u ≡ record (flushed read) { local = true; note = token.notes }) }
{
    let mut read = flushed(alloc, read)?;
    read.local = true;
    read.note = token.notes;
    Ok(read)
}

fn declared_name(
    alloc: Global,
    constant: bool,
    name: Text,
    token: Token,
    read: Units,
) -> Result<Units, AllocError>
    ensures { IfOk result (λ u. u ≡ declared_name constant name token read) }
{
    let mut read = read;
    let Token {
        kind: _,
        place,
        notes,
    } = token;
    let note = joined_notes(read.note, notes)?;
    let decl = Decl {
        name,
        place,
        constant,
        note,
    };
    read.decls = added(read.decls, decl)?;
    read.note = Text::from_vec(Vec::new(alloc));
    read.expects = false;
    Ok(read)
}

fn instance_word(name: Text, read: Units) -> Units
    ensures { result ≡ instance_word read.instance name read }
{
    let mut read = read;
    read.expects = false;
    if read.instance.is_none() {
        read.instance = Some(name);
    } else {
        read.replaced = name;
    }
    read
}

// A name of the section's list.
#[tactic(auto, unfolding(crate::specs::Modules::listed_name))]
fn listed_name(alloc: Global, name: Text, token: Token, read: Units) -> Result<Units, AllocError>
    ensures { IfOk result (λ u. u ≡ listed_name read.section name token read) }
{
    let mut read = read;
    match read.section {
        Section::Extending => {
            read.extends = added(read.extends, name)?;
            read.expects = false;
            Ok(read)
        }
        Section::Declaring(constant) => declared_name(alloc, constant, name, token, read),
        Section::Recurring => {
            read.recursive = added(read.recursive, (name, 0))?;
            read.expects = false;
            Ok(read)
        }
        Section::Instancing => Ok(instance_word(name, read)),
        _ => Ok(read),
    }
}

fn begun_definition(alloc: Global, token: Token, read: Units) -> Result<Units, AllocError>
    ensures { IfOk result (λ u. u ≡ begun_definition token read) }
{
    let mut read = flushed(alloc, read)?;
    read.section = Section::Defining;
    read.head = head_token(no_head(alloc), Sign::Word, token)?;
    Ok(read)
}

fn head_on(sign: Sign, token: Token, read: Units) -> Result<Units, AllocError>
    ensures { IfOk result (λ u. u ≡ head_on sign token read) }
{
    let mut read = read;
    read.head = head_token(read.head, sign, token)?;
    Ok(read)
}

// Whether what stands before `==` is read.
fn in_head(read: &Units) -> bool
    ensures { result ≡ in_head read.now }
{
    is_defining(read.section) && read.operand.is_none()
}

fn named_token(alloc: Global, name: Text, token: Token, read: Units) -> Result<Units, AllocError>
    ensures { IfOk result (λ u. u ≡ named_token name token read) }
{
    if in_head(&read) {
        return head_on(Sign::Word, token, read);
    }
    if is_naming(read.section) {
        let mut read = read;
        read.name = name;
        read.section = Section::Outside;
        return Ok(read);
    }
    if is_listing(read.section) && read.expects {
        return listed_name(alloc, name, token, read);
    }
    begun_definition(alloc, token, read)
}

fn word_token(
    alloc: Global,
    name: Option<Text>,
    token: Token,
    read: Units,
) -> Result<Units, AllocError>
    ensures { IfOk result (λ u. u ≡ word_token name token read) }
{
    match name {
        Some(name) => named_token(alloc, name, token, read),
        None => Ok(read),
    }
}

fn word(alloc: Global, token: Token, read: Units) -> Result<Units, AllocError>
    ensures { IfOk result (λ u. u ≡ word_token (name_of token.kind) token read) }
{
    let kind = copy_kind(alloc, &token.kind)?;
    word_token(alloc, name_of(kind), token, read)
}

fn bracket_token(sign: Sign, token: Token, read: Units) -> Result<Units, AllocError>
    ensures { IfOk result (λ u. u ≡ bracket_token sign token read) }
{
    if in_head(&read) {
        head_on(sign, token, read)
    } else {
        Ok(read)
    }
}

fn instance_token(alloc: Global, token: Token, read: Units) -> Result<Units, AllocError>
    ensures { IfOk result (λ u. u ≡ instance_token token read) }
{
    let inside = in_head(&read);
    let mut read = if inside { read } else { flushed(alloc, read)? };
    read.place = if inside { read.head.place } else { token.place };
    read.section = Section::Instancing;
    read.expects = true;
    Ok(read)
}

fn with_blank(rows: List<(Text, usize)>) -> Result<List<(Text, usize)>, AllocError>
    ensures { IfOk result (λ l. l ≡ with_blank rows) }
{
    let mut rows = rows.into_vec();
    match rows.pop() {
        Some((name, count)) => {
            let count = count.checked_add(1).ok_or(AllocError)?;
            rows.push((name, count))?;
            Ok(List::from_vec(rows))
        }
        None => Ok(List::from_vec(rows)),
    }
}

fn without_operand(read: Units) -> Units
    ensures { result ≡ cond (is_defining read.section) read (record read { operand = None }) }
{
    let mut read = read;
    if !is_defining(read.section) {
        read.operand = None;
    }
    read
}

#[tactic(auto, unfolding(crate::specs::Modules::unit_token))]
fn unit_token(alloc: Global, token: Token, read: Units) -> Result<Units, AllocError>
    ensures { IfOk result (λ u. u ≡ unit_item read (Piece token)) }
{
    let sign = look(&token).sign;
    match sign {
        Sign::Dashes | Sign::EndSign => flushed(alloc, read),
        Sign::VariableWord => opened_section(alloc, Section::Declaring(false), token, read),
        Sign::ConstantWord => opened_section(alloc, Section::Declaring(true), token, read),
        Sign::AssumeWord => opened_section(alloc, Section::Assuming, token, read),
        Sign::TheoremWord => opened_section(alloc, Section::Stating, token, read),
        Sign::RecursiveWord => opened_section(alloc, Section::Recurring, token, read),
        Sign::LocalWord => local_unit(alloc, token, read),
        Sign::InstanceWord => instance_token(alloc, token, read),
        Sign::Defines => Ok(without_operand(read)),
        Sign::LeftBracket | Sign::RightBracket => bracket_token(sign, token, read),
        Sign::Word => word(alloc, token, read),
        Sign::ModuleWord => Ok(in_section(Section::Naming, read)),
        Sign::ExtendsWord => Ok(expecting(in_section(Section::Extending, read))),
        Sign::Comma | Sign::WithWord => Ok(expecting(read)),
        Sign::Underscore => more_blanks(read),
        _ => Ok(read),
    }
}

fn in_section(section: Section, read: Units) -> Units
    ensures { result ≡ record read { section = section } }
{
    let mut read = read;
    read.section = section;
    read
}

fn expecting(read: Units) -> Units
    ensures { result ≡ record read { expects = true } }
{
    let mut read = read;
    read.expects = true;
    read
}

fn more_blanks(read: Units) -> Result<Units, AllocError>
    ensures { IfOk result (λ u. u ≡ record read { recursive = with_blank read.recursive; expects = false }) }
{
    let mut read = read;
    read.recursive = with_blank(read.recursive)?;
    read.expects = false;
    Ok(read)
}

fn body_tree(copies: &mut Copies, alloc: Global, e: Expr, read: Units) -> Result<Units, AllocError>
    ensures { IfOk result (λ u. u ≡ body_tree e read) }
{
    let mut read = read;
    if read.head.inside {
        read.head = head_set(copies, alloc, read.head, e)?;
    } else {
        read.operand = Some(e);
    }
    Ok(read)
}

#[tactic(auto, unfolding(crate::specs::Modules::unit_tree))]
fn unit_tree(copies: &mut Copies, alloc: Global, e: Expr, read: Units) -> Result<Units, AllocError>
    ensures { IfOk result (λ u. u ≡ unit_tree read.section e read) }
{
    let mut read = read;
    match read.section {
        Section::Defining => body_tree(copies, alloc, e, read),
        Section::Assuming | Section::Stating => {
            read.operand = Some(e);
            Ok(read)
        }
        Section::Instancing => {
            let name = copy_text(alloc, &read.replaced)?;
            read.pairs = added(read.pairs, (name, e))?;
            Ok(read)
        }
        _ => Ok(read),
    }
}

fn unit_item(
    copies: &mut Copies,
    alloc: Global,
    item: Item,
    read: Units,
) -> Result<Units, AllocError>
    ensures { IfOk result (λ u. u ≡ unit_item read item) }
{
    match item {
        Item::Piece(token) => unit_token(alloc, token, read),
        Item::Tree(e) => unit_tree(copies, alloc, e, read),
    }
}

/// The module of these tokens and expressions.
pub(crate) fn module_tree(
    copies: &mut Copies,
    alloc: Global,
    items: Vec<Item>,
) -> Result<Module, AllocError>
    ensures { IfOk result (λ m. m ≡ module_tree items.items) }
{
    let mut read = no_units(alloc);
    for item in items {
        read = unit_item(copies, alloc, item, read)?;
    }
    Ok(Module {
        name: read.name,
        extends: read.extends,
        units: read.units,
        aliases: List::new(alloc),
    })
}
