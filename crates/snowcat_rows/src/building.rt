// The type that the marks of a text leave.
ghost use Rattle.std.specs.Prelude.{◌≡◌, ◌+◌, ◌++◌, ◌∷◌, [], IfOk, IfSome, List as Items, MatchResult, OnOk, map, option_copied, option_map, reverse, true};
ghost use Rattle.std.specs.List.{list_all};
ghost use Rattle.snowcat_rows.specs.FieldNames.{names as names_of, names_differ};
ghost use Rattle.snowcat_rows.specs.TypeTexts.{are_distinct};
ghost use Rattle.snowcat_rows.specs.inner.Naming.{aliases_named, all_named, fields_named, is_construct, mark_named};
ghost use Rattle.snowcat_rows.specs.declared.types.Ty.{Ty as AnyType};
ghost use Rattle.snowcat_rows.specs.Types.{SeqHead, SetHead, con, lookup, mean, row};
ghost use Rattle.snowcat_rows.specs.Codes.{named};
ghost use Rattle.snowcat_rows.specs.Readings.{Known, find, moved, noted, number, own, read_row, same_seen, zipped};
ghost use Rattle.snowcat_rows.specs.inner.Building.{arrow, built, built_all, gather_more, gather_one, one, operator_all, record_all, several, site, tuple_all, unknown_in, unknown_mark, wrap};
ghost use Rattle.snowcat_rows.specs.declared.marks.Mark.TheVariants.{Alias as alias_mark};
ghost use Rattle.snowcat_rows.specs.inner.Readers.{AreBuilt, IsBuilt, Leaves, IsRow, Tells, found_of, item_of, known_of, moved_fields, recorded, site_of};

use crate::faults::TypeTextFault;
use crate::marks::{Mark, Seen};
use crate::types::Ty;
use std::alloc::{AllocError, Global};
use tla_values::{Boxed, List, Text, copy_text};

// How deep a type may be, and how many parts it may have.
pub(crate) const MOST_DEPTH: usize = 1_000;

pub(crate) const MOST_PARTS: usize = 1_048_576;

/// A type, or several, with its depth at most.
#[derive(Drop)]
pub(crate) enum Built {
    Type(Ty, usize),
    Types(List<Ty>, usize),
}

/// An alias that counts.
#[derive(Drop)]
pub(crate) struct Alias {
    pub(crate) name: Text,
    pub(crate) of: Ty,
    /// The number of its variables.
    pub(crate) count: u32,
    pub(crate) depth: usize,
    pub(crate) parts: usize,
}

/// What was built so far.
#[derive(Drop)]
pub(crate) struct Builder {
    /// The last stands last.
    pub(crate) items: Vec<Built>,
    /// What has a number, by its number.
    pub(crate) seen: Vec<Seen>,
    pub(crate) parts: usize,
}

fn same_seen(a: &Seen, b: &Seen) -> bool
    ensures { result ≡ same_seen a.now b.now }
{
    match a {
        Seen::Type(x) => match b {
            Seen::Type(y) => x.bytes() == y.bytes(),
            _ => false,
        },
        Seen::Row(x) => match b {
            Seen::Row(y) => x.bytes() == y.bytes(),
            _ => false,
        },
        Seen::Own => false,
    }
}

fn number(v: &Seen, seen: &[Seen]) -> usize
    ensures { result ≡ number v.now seen.now }
{
    for i in 0..seen.len() {
        if same_seen(&seen[i], v) {
            return i;
        }
    }
    seen.len()
}

// One deeper, where that is no more than a type may be.
fn deeper(depth: usize) -> Result<usize, AllocError> {
    if depth < MOST_DEPTH {
        Ok(depth + 1)
    } else {
        Err(AllocError)
    }
}

fn as_number(n: usize) -> Result<u32, AllocError>
    ensures { IfOk result (λ r. r ≡ n) }
{
    match u32::try_from(n) {
        Ok(number) => Ok(number),
        Err(_) => Err(AllocError),
    }
}

/// The type with the numbers of its variables, of either kind, greater by so many.
#[tactic(auto, using(crate::proofs::Means::means, crate::proofs::Naming::differs))]
#[cycle(moved)]
pub fn copy_moved(alloc: Global, t: &Ty, by: u32) -> Result<Ty, AllocError>
    ensures mean { IfOk result (λ r. mean r ≡ moved by (mean t.now)) }
    ensures named { IfOk result (λ r. names_differ r ≡ names_differ t.now) }
{
    match t {
        Ty::Bool => Ok(Ty::Bool),
        Ty::Int => Ok(Ty::Int),
        Ty::Str => Ok(Ty::Str),
        Ty::Named(name) => {
            let name = copy_text(alloc, name)?;
            Ok(Ty::Named(name))
        }
        Ty::Var(v) => {
            let moved = later(by, *v)?;
            Ok(Ty::Var(moved))
        }
        Ty::Set(a) => {
            let item = copy_moved(alloc, a.get(), by)?;
            Ok(Ty::Set(Boxed::new(alloc, item)?))
        }
        Ty::Seq(a) => {
            let item = copy_moved(alloc, a.get(), by)?;
            Ok(Ty::Seq(Boxed::new(alloc, item)?))
        }
        Ty::Fun(x, y) => {
            let argument = copy_moved(alloc, x.get(), by)?;
            let value = copy_moved(alloc, y.get(), by)?;
            Ok(Ty::Fun(Boxed::new(alloc, argument)?, Boxed::new(alloc, value)?))
        }
        Ty::Tup(ts) => {
            let items = copy_all_moved(alloc, ts.as_slice(), by)?;
            Ok(Ty::Tup(items))
        }
        Ty::Rec(fs, tail) => {
            let fields = copy_fields_moved(alloc, fs.as_slice(), by)?;
            let tail = row_later(by, *tail)?;
            Ok(Ty::Rec(fields, tail))
        }
        Ty::Oper(ts, y) => {
            let arguments = copy_all_moved(alloc, ts.as_slice(), by)?;
            let value = copy_moved(alloc, y.get(), by)?;
            Ok(Ty::Oper(arguments, Boxed::new(alloc, value)?))
        }
    }
}

#[tactic(auto, using(crate::proofs::Means::means, crate::proofs::Naming::differs))]
#[cycle(moved)]
fn copy_all_moved(alloc: Global, ts: &[Ty], by: u32) -> Result<List<Ty>, AllocError>
    ensures mean { IfOk result (λ r. row (map mean r) ≡ moved by (row (map mean ts.now))) }
    ensures named { IfOk result (λ r. list_all names_differ r ≡ list_all names_differ ts.now) }
{
    let mut items = Vec::new(alloc);
    for t in ts {
        let item = copy_moved(alloc, t, by)?;
        items.push(item)?;
    }
    Ok(List::from_vec(items))
}

#[tactic(auto, using(crate::proofs::Means::means, crate::proofs::Naming::differs))]
#[cycle(moved)]
fn copy_fields_moved(
    alloc: Global,
    fs: &[(Text, Ty)],
    by: u32,
) -> Result<List<(Text, Ty)>, AllocError>
    ensures mean { IfOk result (λ r. named r ≡ moved_fields by fs.now) }
    ensures names { IfOk result (λ r. names_of r ≡ names_of fs.now) }
    ensures named { IfOk result (λ r. fields_named r ≡ fields_named fs.now) }
{
    let mut items = Vec::new(alloc);
    for f in fs {
        let name = copy_text(alloc, &f.0)?;
        let item = copy_moved(alloc, &f.1, by)?;
        items.push((name, item))?;
    }
    Ok(List::from_vec(items))
}

fn later(by: u32, v: u32) -> Result<u32, AllocError>
    ensures { IfOk result (λ r. r ≡ by + v) }
{
    match by.checked_add(v) {
        Some(sum) => Ok(sum),
        None => Err(AllocError),
    }
}

fn row_later(by: u32, tail: Option<u32>) -> Result<Option<u32>, AllocError>
    ensures { IfOk result (λ r. r ≡ option_map (λ v. by + v) tail) }
{
    match tail {
        None => Ok(None),
        Some(v) => {
            let moved = later(by, v)?;
            Ok(Some(moved))
        }
    }
}

// Each type with its name.
fn with_names(alloc: Global, names: &[Text], types: Vec<Ty>) -> Result<Vec<(Text, Ty)>, AllocError>
    ensures mean { IfOk result (λ r. named r.items ≡ zipped names.now (map mean types.items)) }
    ensures named { list_all names_differ types.items ≡ true
        → IfOk result (λ r. fields_named r.items ≡ true) }
{
    let mut fields = Vec::new(alloc);
    for t in types {
        push_field(alloc, names, t, &mut fields)?;
    }
    Ok(fields)
}

// Adds the type with the name at its place, where there is one.
fn push_field(
    alloc: Global,
    names: &[Text],
    t: Ty,
    fields: &mut Vec<(Text, Ty)>,
) -> Result<(), AllocError>
    ensures mean { (ts : Items AnyType) → named fields.old.items ≡ zipped names.now (map mean ts) →
        OnOk result (named fields.new.items ≡ zipped names.now (map mean (ts ++ t ∷ []))) }
    ensures named { names_differ t ≡ true → fields_named fields.old.items ≡ true
        → OnOk result (fields_named fields.new.items ≡ true) }
{
    let place = fields.len();
    if place < names.len() {
        let name = copy_text(alloc, &names[place])?;
        fields.push((name, t))?;
    }
    Ok(())
}

impl Builder {
    // So many parts more.
    fn count(&mut self, parts: usize) -> Result<(), AllocError>
        ensures site { IfOk result (λ _. site_of self.new ≡ site_of self.old) }
        ensures named { IfOk result (λ _. all_named self.new ≡ all_named self.old) }
    {
        match self.parts.checked_add(parts) {
            Some(sum) => {
                if sum > MOST_PARTS {
                    return Err(AllocError);
                }
                self.parts = sum;
                Ok(())
            }
            None => Err(AllocError),
        }
    }

    fn push(&mut self, t: Ty, depth: usize) -> Result<(), AllocError>
        requires before { all_named self.old ≡ true }
        requires named { names_differ t ≡ true }
        ensures site { IfOk result (λ _. site_of self.new
            ≡ site (one (mean t) ∷ (site_of self.old).items) (site_of self.old).seen) }
        ensures named { IfOk result (λ _. all_named self.new ≡ true) }
    {
        self.count(1)?;
        self.items.push(Built::Type(t, depth))?;
        Ok(())
    }

    fn push_all(&mut self, ts: List<Ty>, depth: usize) -> Result<(), AllocError>
        requires before { all_named self.old ≡ true }
        requires named { list_all names_differ ts ≡ true }
        ensures site { IfOk result (λ _. site_of self.new
            ≡ site (several (map mean ts) ∷ (site_of self.old).items) (site_of self.old).seen) }
        ensures named { IfOk result (λ _. all_named self.new ≡ true) }
    {
        self.items.push(Built::Types(ts, depth))?;
        Ok(())
    }

    // The last, which is one type: the marks of a type do not lack their parts.
    fn pop(&mut self) -> Result<(Ty, usize), AllocError>
        requires before { all_named self.old ≡ true }
        ensures site { IfOk result (λ r. site_of self.old
            ≡ site (one (mean r.0) ∷ (site_of self.new).items) (site_of self.new).seen) }
        ensures named { IfOk result (λ r. names_differ r.0 ≡ true) }
        ensures left { IfOk result (λ _. all_named self.new ≡ true) }
    {
        match self.items.pop() {
            Some(Built::Type(t, depth)) => Ok((t, depth)),
            _ => Err(AllocError),
        }
    }

    // The last, which is a list of types.
    fn pop_all(&mut self) -> Result<(List<Ty>, usize), AllocError>
        requires before { all_named self.old ≡ true }
        ensures site { IfOk result (λ r. site_of self.old
            ≡ site (several (map mean r.0) ∷ (site_of self.new).items) (site_of self.new).seen) }
        ensures named { IfOk result (λ r. list_all names_differ r.0 ≡ true) }
        ensures left { IfOk result (λ _. all_named self.new ≡ true) }
    {
        match self.items.pop() {
            Some(Built::Types(ts, depth)) => Ok((ts, depth)),
            _ => Err(AllocError),
        }
    }

    // The number of a variable, which has one from now on.
    #[tactic(auto, using(crate::proofs::Moves::noted_new, crate::proofs::Moves::noted_cases))]
    fn note(&mut self, v: Seen) -> Result<u32, AllocError>
        ensures number { IfOk result (λ n. n ≡ number v (site_of self.old).seen) }
        ensures site { IfOk result (λ _. site_of self.new
            ≡ site (site_of self.old).items (noted v (site_of self.old).seen)) }
        ensures named { IfOk result (λ _. all_named self.new ≡ all_named self.old) }
    {
        let place = number(&v, self.seen.as_slice());
        let n = as_number(place)?;
        if place == self.seen.len() {
            self.seen.push(v)?;
        }
        Ok(n)
    }

    // So many variables of an alias have numbers from now on.
    #[tactic(auto, using(crate::proofs::Moves::own_next))]
    fn own(&mut self, count: u32) -> Result<(), AllocError>
        ensures site { IfOk result (λ _. site_of self.new
            ≡ site (site_of self.old).items ((site_of self.old).seen ++ own count)) }
        ensures named { IfOk result (λ _. all_named self.new ≡ all_named self.old) }
    {
        for i in 0..count {
            self.seen.push(Seen::Own)?;
        }
        Ok(())
    }

    fn alias(&mut self, alloc: Global, known: &[Alias], name: &Text) -> Result<(), TypeTextFault>
        requires before { all_named self.old ≡ true }
        requires known { aliases_named known.now ≡ true }
        ensures site { MatchResult result
            (λ _. IsBuilt (known_of known.now) (alias_mark name.now) (site_of self.old) (site_of self.new))
            (Tells (unknown_mark (known_of known.now) (alias_mark name.now))) }
        ensures named { IfOk result (λ _. all_named self.new ≡ true) }
    {
        match find(known, name.bytes()) {
            None => {
                let name = copy_text(alloc, name)?;
                Err(TypeTextFault::UnknownAlias(name))
            }
            Some(alias) => {
                let by = as_number(self.seen.len())?;
                let t = copy_moved(alloc, &alias.of, by)?;
                self.count(alias.parts)?;
                self.push(t, alias.depth)?;
                self.own(alias.count)?;
                Ok(())
            }
        }
    }

    #[tactic(auto, using(crate::proofs::Means::means, crate::proofs::Naming::differs))]
    fn set(&mut self, alloc: Global) -> Result<(), AllocError>
        requires before { all_named self.old ≡ true }
        ensures site { IfOk result (λ _. site_of self.new
            ≡ site (wrap (con SetHead) (site_of self.old).items) (site_of self.old).seen) }
        ensures named { IfOk result (λ _. all_named self.new ≡ true) }
    {
        let part = self.pop()?;
        let depth = deeper(part.1)?;
        let item = Boxed::new(alloc, part.0)?;
        self.push(Ty::Set(item), depth)?;
        Ok(())
    }

    #[tactic(auto, using(crate::proofs::Means::means, crate::proofs::Naming::differs))]
    fn sequence(&mut self, alloc: Global) -> Result<(), AllocError>
        requires before { all_named self.old ≡ true }
        ensures site { IfOk result (λ _. site_of self.new
            ≡ site (wrap (con SeqHead) (site_of self.old).items) (site_of self.old).seen) }
        ensures named { IfOk result (λ _. all_named self.new ≡ true) }
    {
        let part = self.pop()?;
        let depth = deeper(part.1)?;
        let item = Boxed::new(alloc, part.0)?;
        self.push(Ty::Seq(item), depth)?;
        Ok(())
    }

    #[tactic(auto, using(crate::proofs::Means::means, crate::proofs::Naming::differs))]
    fn function(&mut self, alloc: Global) -> Result<(), AllocError>
        requires before { all_named self.old ≡ true }
        ensures site { IfOk result (λ _. site_of self.new
            ≡ site (arrow (site_of self.old).items) (site_of self.old).seen) }
        ensures named { IfOk result (λ _. all_named self.new ≡ true) }
    {
        let value = self.pop()?;
        let argument = self.pop()?;
        let depth = deeper(argument.1.max(value.1))?;
        let from = Boxed::new(alloc, argument.0)?;
        let to = Boxed::new(alloc, value.0)?;
        self.push(Ty::Fun(from, to), depth)?;
        Ok(())
    }

    fn gather_one(&mut self, alloc: Global) -> Result<(), AllocError>
        requires before { all_named self.old ≡ true }
        ensures site { IfOk result (λ _. site_of self.new
            ≡ site (gather_one (site_of self.old).items) (site_of self.old).seen) }
        ensures named { IfOk result (λ _. all_named self.new ≡ true) }
    {
        let part = self.pop()?;
        let mut items = Vec::new(alloc);
        items.push(part.0)?;
        self.push_all(List::from_vec(items), part.1)?;
        Ok(())
    }

    fn gather_more(&mut self) -> Result<(), AllocError>
        requires before { all_named self.old ≡ true }
        ensures site { IfOk result (λ _. site_of self.new
            ≡ site (gather_more (site_of self.old).items) (site_of self.old).seen) }
        ensures named { IfOk result (λ _. all_named self.new ≡ true) }
    {
        let part = self.pop()?;
        let before = self.pop_all()?;
        let mut items = before.0.into_vec();
        items.push(part.0)?;
        self.push_all(List::from_vec(items), before.1.max(part.1))?;
        Ok(())
    }

    #[tactic(auto, using(crate::proofs::Means::means, crate::proofs::Naming::differs))]
    fn tuple(&mut self) -> Result<(), AllocError>
        requires before { all_named self.old ≡ true }
        ensures site { IfOk result (λ _. site_of self.new
            ≡ site (tuple_all (site_of self.old).items) (site_of self.old).seen) }
        ensures named { IfOk result (λ _. all_named self.new ≡ true) }
    {
        let parts = self.pop_all()?;
        let depth = deeper(parts.1)?;
        self.push(Ty::Tup(parts.0), depth)?;
        Ok(())
    }

    fn tail(&mut self, alloc: Global, row: &Option<Text>) -> Result<Option<u32>, AllocError>
        ensures site { IfOk result (λ k. IsRow k row.now (site_of self.old) (site_of self.new)) }
        ensures named { IfOk result (λ _. all_named self.new ≡ all_named self.old) }
    {
        match row {
            None => Ok(None),
            Some(name) => {
                let name = copy_text(alloc, name)?;
                let n = self.note(Seen::Row(name))?;
                Ok(Some(n))
            }
        }
    }

    #[tactic(auto, using(crate::proofs::Means::means, crate::proofs::Naming::differs))]
    fn record(
        &mut self,
        alloc: Global,
        names: &[Text],
        row: &Option<Text>,
    ) -> Result<(), AllocError>
        requires before { all_named self.old ≡ true }
        requires names { are_distinct names.now ≡ true }
        ensures site { IfOk result (λ _. site_of self.new
            ≡ recorded names.now (read_row row.now (site_of self.old).seen) (site_of self.old)) }
        ensures named { IfOk result (λ _. all_named self.new ≡ true) }
    {
        let tail = self.tail(alloc, row)?;
        let parts = self.pop_all()?;
        let depth = deeper(parts.1)?;
        let fields = with_names(alloc, names, parts.0.into_vec())?;
        self.push(Ty::Rec(List::from_vec(fields), tail), depth)?;
        Ok(())
    }

    #[tactic(auto, using(crate::proofs::Means::means, crate::proofs::Naming::differs))]
    fn operator(&mut self, alloc: Global) -> Result<(), AllocError>
        requires before { all_named self.old ≡ true }
        ensures site { IfOk result (λ _. site_of self.new
            ≡ site (operator_all (site_of self.old).items) (site_of self.old).seen) }
        ensures named { IfOk result (λ _. all_named self.new ≡ true) }
    {
        let value = self.pop()?;
        let arguments = self.pop_all()?;
        let depth = deeper(arguments.1.max(value.1))?;
        let to = Boxed::new(alloc, value.0)?;
        self.push(Ty::Oper(arguments.0, to), depth)?;
        Ok(())
    }
}

pub(crate) fn find<'a>(known: &'a [Alias], name: &[u8]) -> Option<&'a Alias>
    ensures found { found_of (option_copied result) ≡ find (known_of known.now) name.now }
    ensures named { aliases_named known.now ≡ true
        → IfSome result (λ a. names_differ a.now.of ≡ true) }
{
    for alias in known {
        if alias.name.bytes() == name {
            return Some(alias);
        }
    }
    None
}

impl Builder {
    // What the mark of a construct makes of its parts.
    #[tactic(auto, using(crate::proofs::Means::means, crate::proofs::Naming::differs))]
    fn construct(&mut self, alloc: Global, mark: &Mark) -> Result<(), AllocError>
        requires before { all_named self.old ≡ true }
        requires mark { mark_named mark.now ≡ true }
        requires construct { is_construct mark.now ≡ true }
        ensures site { IfOk result (λ _. (k : Known)
            → IsBuilt k mark.now (site_of self.old) (site_of self.new)) }
        ensures named { IfOk result (λ _. all_named self.new ≡ true) }
    {
        match mark {
            Mark::Set => self.set(alloc),
            Mark::Seq => self.sequence(alloc),
            Mark::Function => self.function(alloc),
            Mark::Nothing => self.push_all(List::new(alloc), 0),
            Mark::One => self.gather_one(alloc),
            Mark::Join => self.gather_more(),
            Mark::Tuple => self.tuple(),
            Mark::Record(names, row) => self.record(alloc, names.as_slice(), row),
            Mark::Operator => self.operator(alloc),
            _ => unreachable!(),
        }
    }

    // What one mark makes of it.
    #[tactic(auto, using(crate::proofs::Means::means, crate::proofs::Naming::differs))]
    fn step(&mut self, alloc: Global, known: &[Alias], mark: &Mark) -> Result<(), TypeTextFault>
        requires before { all_named self.old ≡ true }
        requires known { aliases_named known.now ≡ true }
        requires mark { mark_named mark.now ≡ true }
        ensures site { MatchResult result
            (λ _. IsBuilt (known_of known.now) mark.now (site_of self.old) (site_of self.new))
            (Tells (unknown_mark (known_of known.now) mark.now)) }
        ensures named { IfOk result (λ _. all_named self.new ≡ true) }
    {
        match mark {
            Mark::Bool => {
                self.push(Ty::Bool, 1)?;
                Ok(())
            }
            Mark::Int => {
                self.push(Ty::Int, 1)?;
                Ok(())
            }
            Mark::Str => {
                self.push(Ty::Str, 1)?;
                Ok(())
            }
            Mark::Named(name) => {
                let name = copy_text(alloc, name)?;
                self.push(Ty::Named(name), 1)?;
                Ok(())
            }
            Mark::Var(name) => {
                let name = copy_text(alloc, name)?;
                let n = self.note(Seen::Type(name))?;
                self.push(Ty::Var(n), 1)?;
                Ok(())
            }
            Mark::Alias(name) => self.alias(alloc, known, name),
            _ => {
                self.construct(alloc, mark)?;
                Ok(())
            }
        }
    }

    /// The one type that was built.
    pub(crate) fn whole(self) -> Result<Whole, AllocError>
        requires { all_named self ≡ true }
        ensures site { IfOk result (λ w. Leaves (site_of self) (mean w.of) w.count) }
        ensures named { IfOk result (λ w. names_differ w.of ≡ true) }
    {
        let mut builder = self;
        let count = as_number(builder.seen.len())?;
        let parts = builder.parts;
        let last = builder.pop()?;
        Ok(Whole {
            of: last.0,
            count,
            depth: last.1,
            parts,
        })
    }
}

/// A type that was read whole.
#[derive(Drop)]
pub(crate) struct Whole {
    pub(crate) of: Ty,
    /// The number of its variables.
    pub(crate) count: u32,
    pub(crate) depth: usize,
    pub(crate) parts: usize,
}

/// What the marks of a type build.
pub(crate) fn build(
    alloc: Global,
    known: &[Alias],
    marks: &[Mark],
) -> Result<Builder, TypeTextFault>
    requires known { aliases_named known.now ≡ true }
    requires marks { list_all mark_named marks.now ≡ true }
    ensures site { MatchResult result
        (λ b. AreBuilt (known_of known.now) marks.now (site_of b))
        (Tells (unknown_in (known_of known.now) marks.now)) }
    ensures named { IfOk result (λ b. all_named b ≡ true) }
{
    let mut builder = Builder {
        items: Vec::new(alloc),
        seen: Vec::new(alloc),
        parts: 0,
    };
    for i in 0..marks.len() {
        match builder.step(alloc, known, &marks[i]) {
            Ok(()) => {}
            Err(fault) => return Err(fault),
        }
    }
    Ok(builder)
}
