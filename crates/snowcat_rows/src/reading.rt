// The type that a text says.
ghost use Rattle.std.specs.Coded.{Coded-set, coded_bool};
ghost use Rattle.std.specs.Prelude.{ℕ, List as Items, ◌≡◌, ◌<◌, ◌^◌, [], IfErr, IfOk, MatchResult, drop, true};
ghost use Rattle.snowcat_rows.specs.Types.{Term, mean};
ghost use Rattle.snowcat_rows.specs.declared.faults.TypeTextFault.{TypeTextFault as AnyFault};
ghost use Rattle.snowcat_rows.specs.FieldNames.{names_differ};
ghost use Rattle.snowcat_rows.specs.inner.Naming.{aliases_named};
ghost use Rattle.snowcat_rows.specs.Said.{IsRegular};
ghost use Rattle.snowcat_rows.specs.Readings.{Counts, IsFaultOf, IsOnly, IsReadAs, IsTextFault, Knows, WantsMemory, IsReadBy, Known, begins_unknown, first_word, is_unknown, unknown_within};
ghost use Rattle.snowcat_rows.specs.TypeTexts.{IsBadAt};
ghost use Rattle.snowcat_rows.specs.inner.Readers.{known_of};

use crate::building::{Alias, Whole, build, find};
use crate::faults::TypeTextFault;
use crate::pieces::{after, in_word, is_name};
use crate::scanning::scan;
use crate::types::Ty;
use std::alloc::{AllocError, Global};
use tla_values::{List, Text, copy_text};

// The letters, digits and `_` that the bytes begin with.
fn first_word(bytes: &[u8]) -> &[u8]
    ensures { result.now ≡ first_word bytes.now }
{
    for at in 0..bytes.len() {
        if !in_word(bytes[at]) {
            return &bytes[..at];
        }
    }
    bytes
}

fn is_unknown(known: &[Alias], name: &[u8]) -> bool
    ensures { result ≡ is_unknown (known_of known.now) name.now }
{
    is_name(name) && find(known, name).is_none()
}

// Whether the bytes begin with an alias that is unknown.
fn begins_unknown(known: &[Alias], bytes: &[u8]) -> bool
    ensures { result ≡ begins_unknown (known_of known.now) bytes.now }
{
    match bytes {
        [] => false,
        [first, ..] => *first == b'$' && is_unknown(known, first_word(&bytes[1..])),
    }
}

// The first alias in the bytes that is unknown.
fn unknown_within(alloc: Global, known: &[Alias], bytes: &[u8]) -> Result<Option<Text>, AllocError>
    ensures { IfOk result (λ x. x ≡ unknown_within (known_of known.now) bytes.now) }
{
    for at in 0..bytes.len() {
        if begins_unknown(known, after(bytes, at)) {
            let name = Vec::from_slice(alloc, first_word(after(bytes, at + 1)))?;
            return Ok(Some(Text::from_vec(name)));
        }
    }
    Ok(None)
}

// Why a text that is bad at this place is not read.
fn fault_at(alloc: Global, known: &[Alias], text: &[u8], at: usize) -> TypeTextFault
    requires { IsBadAt text.now at }
    ensures { IsFaultOf (known_of known.now) text.now result }
{
    match unknown_within(alloc, known, &text[..at]) {
        Ok(Some(name)) => TypeTextFault::UnknownAlias(name),
        Ok(None) => TypeTextFault::BadType(at),
        Err(fault) => TypeTextFault::Memory(fault),
    }
}

// The type of a text, where these aliases are known.
fn read_by(alloc: Global, text: &[u8], known: &[Alias]) -> Result<Whole, TypeTextFault>
    requires { aliases_named known.now ≡ true }
    ensures read { MatchResult result
        (λ w. IsReadBy (known_of known.now) text.now (mean w.of) w.count)
        (IsFaultOf (known_of known.now) text.now) }
    ensures named { IfOk result (λ w. names_differ w.of ≡ true) }
{
    match scan(alloc, text)? {
        Err(at) => Err(fault_at(alloc, known, text, at)),
        Ok(marks) => match build(alloc, known, marks.as_slice()) {
            Err(fault) => Err(fault),
            Ok(builder) => {
                let whole = builder.whole()?;
                Ok(whole)
            }
        },
    }
}

// Goes on where a text is no type's, or an alias is unknown.
fn unless_memory(fault: TypeTextFault) -> Result<(), AllocError>
    ensures { IfOk result (λ _. WantsMemory fault → ⊥) }
{
    match fault {
        TypeTextFault::BadType(_) => Ok(()),
        TypeTextFault::UnknownAlias(_name) => Ok(()),
        TypeTextFault::Memory(fault) => Err(fault),
    }
}

fn alias_of(name: Text, whole: Whole) -> Alias
    ensures name { result.name ≡ name }
    ensures of { result.of ≡ whole.of }
    ensures count { result.count ≡ whole.count }
{
    Alias {
        name,
        of: whole.of,
        count: whole.count,
        depth: whole.depth,
        parts: whole.parts,
    }
}

fn type_and_count(whole: Whole) -> (Ty, u32)
    ensures of { result.0 ≡ whole.of }
    ensures count { result.1 ≡ whole.count }
    ensures small { result.1 < 2 ^ 32 }
{
    (whole.of, whole.count)
}

// The alias joins those that are known, where it counts.
fn learn(alloc: Global, alias: &(Text, Text), known: &mut Vec<Alias>) -> Result<(), AllocError>
    requires { aliases_named known.old.items ≡ true }
    ensures counts { IfOk result
        (λ _. Counts (known_of known.old.items) alias.now (known_of known.new.items)) }
    ensures named { IfOk result (λ _. aliases_named known.new.items ≡ true) }
{
    match read_by(alloc, alias.1.bytes(), known.as_slice()) {
        Ok(whole) => {
            let name = copy_text(alloc, &alias.0)?;
            known.push(alias_of(name, whole))?;
            Ok(())
        }
        Err(fault) => {
            unless_memory(fault)?;
            Ok(())
        }
    }
}

// The aliases that count.
fn known_aliases(alloc: Global, aliases: &[(Text, Text)]) -> Result<Vec<Alias>, AllocError>
    ensures knows { IfOk result (λ r. Knows [] aliases.now (known_of r.items)) }
    ensures named { IfOk result (λ r. aliases_named r.items ≡ true) }
{
    let mut known: Vec<Alias> = Vec::new(alloc);
    for i in 0..aliases.len() {
        learn(alloc, &aliases[i], &mut known)?;
    }
    Ok(known)
}

/// The aliases of a module that count, each read once.
#[derive(Drop)]
pub struct Aliases {
    known: Vec<Alias>,
    pub ghost named: { aliases_named known.items ≡ true } by { Coded-set coded_bool (aliases_named known.items) true },
}

impl Aliases {
    ghost use Rattle.snowcat_rows.specs.Views.{known_by};

    /// Those of names with the texts of their types: one counts where its text is a type's whose aliases stand before it
    /// and count, and of several of one name that count the first is taken.
    pub fn of(alloc: Global, aliases: &List<(Text, Text)>) -> Result<Aliases, AllocError>
        ensures { IfOk result (λ r. Knows [] aliases.now (known_by r)) }
    {
        let known = known_aliases(alloc, aliases.as_slice())?;
        Ok(Aliases { known })
    }

    /// The type that the text says, as [`read_type`] reads it, and how many variables it has.
    pub fn read(&self, alloc: Global, text: &[u8]) -> Result<(Ty, u32), TypeTextFault>
        ensures read { MatchResult result
            (λ r. IsReadBy (known_by self.now) text.now (mean r.0) r.1)
            (IsFaultOf (known_by self.now) text.now) }
        ensures regular { (aliases : Items (Items ℕ × Items ℕ)) → Knows [] aliases (known_by self.now)
            → IfOk result (λ r. IsRegular r.0) }
    {
        match read_by(alloc, text, self.known.as_slice()) {
            Ok(whole) => Ok(type_and_count(whole)),
            Err(fault) => Err(fault),
        }
    }
}

/// Aliases are known in one way, a text says one type by them with one number of variables, and where it says one, only
/// want of memory is a fault. It does nothing.
pub fn types_are_read_in_one_way()
    ensures known { (aliases : Items (Items ℕ × Items ℕ)) (j k : Known) → Knows [] aliases j → Knows [] aliases k → j ≡ k }
    ensures once { (k : Known) (text : Items ℕ) (t u : Term) (n m : ℕ)
        → IsReadBy k text t n → IsReadBy k text u m → (t ≡ u) × (n ≡ m) }
    ensures fault { (k : Known) (text : Items ℕ) (fault : AnyFault) (t : Term) (n : ℕ)
        → IsFaultOf k text fault → IsReadBy k text t n → WantsMemory fault }
{}

/// Reads the text of a type: `Int`, `a`, `NODE`, `Set(T)`, `Seq(T)`, `T -> U` (to the right), `<<T, U>>`,
/// `{f: T, r}`, `(T, U) => V`, `(T)`, `$alias`; blanks are free.
///
/// The aliases are names with the texts of their types. One counts where its text is a type's whose aliases stand before
/// it and count; of several of one name that count the first is taken. An alias's variables are its own wherever it
/// stands. Type and row variables are numbered together from 0, in the order in which they occur first. A type of more
/// than 1,000 levels or of more than 1,048,576 parts is want of memory.
///
/// The earlier place comes first: an alias that is unknown, also where the text is no type's and the alias stands before
/// its first bad byte; else this byte. Source: the Apalache manual, "Type System 1.2" and "Type aliases".
pub fn read_type(
    alloc: Global,
    text: &[u8],
    aliases: &List<(Text, Text)>,
) -> Result<Ty, TypeTextFault>
    ensures ok { IfOk result (λ t. IsReadAs aliases.now text.now (mean t)) }
    ensures regular { IfOk result IsRegular }
    ensures only { IsOnly aliases.now text.now result }
    ensures fault { IfErr result (IsTextFault aliases.now text.now) }
{
    let known = Aliases::of(alloc, aliases)?;
    match known.read(alloc, text) {
        Ok(read) => Ok(read.0),
        Err(fault) => Err(fault),
    }
}
