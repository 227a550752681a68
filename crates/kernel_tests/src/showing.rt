// Kernel trees as texts, in prefix notation.
//
// A node is `(word a b)` with its children, a set `{a b}` and a tuple `<a b>`. `[0 1]` behind the word has the numbers
// that are bound, the number of an item, or names of fields. Words alone are truth values, numbers and texts, declared
// names, with a prime where they have one, and `#n` for what is bound under n. `:` and a type, or a column, may stand
// behind each word, and behind the `{` or `<`.
use kernel_trees::{Ker, KerOp};
use snowcat_rows::show_type;
use std::alloc::{AllocError, Global};
use tla_meaning::Decl;
use tla_values::{Text, Value, show};

/// What is told of a node besides its operator.
#[derive(Clone, Copy, Drop)]
pub(crate) enum Detail {
    Nothing,
    Types,
    Columns,
}

#[derive(Drop)]
struct Writer<'a> {
    alloc: Global,
    names: &'a [Decl],
    detail: Detail,
    out: Vec<u8>,
}

/// The text of a tree over these declared names.
pub(crate) fn tree_text(
    alloc: Global,
    names: &[Decl],
    detail: Detail,
    tree: &Ker,
) -> Result<Vec<u8>, AllocError> {
    let mut writer = Writer {
        alloc,
        names,
        detail,
        out: Vec::new(alloc),
    };
    writer.tree(tree)?;
    Ok(writer.out)
}

impl<'a> Writer<'a> {
    fn put(&mut self, bytes: &[u8]) -> Result<(), AllocError> {
        self.out.extend_from_slice(bytes)
    }

    #[cycle(write)]
    fn tree(&mut self, k: &Ker) -> Result<(), AllocError> {
        match &k.op {
            KerOp::Const(value) => self.value(value)?,
            KerOp::Name(number, primed) => self.name(*number, *primed)?,
            KerOp::Bound(number) => self.number("#", *number as usize)?,
            KerOp::SetOf => return self.node(k, b"{", b"}"),
            KerOp::TupOf => return self.node(k, b"<", b">"),
            _ => return self.node(k, b"(", b")"),
        }
        self.detail(k)
    }

    #[cycle(write)]
    fn node(&mut self, k: &Ker, opening: &[u8], closing: &[u8]) -> Result<(), AllocError> {
        self.put(opening)?;
        self.put(word(&k.op))?;
        self.detail(k)?;
        self.bound(k)?;
        for child in k.args.as_slice() {
            self.space()?;
            self.tree(child)?;
        }
        self.put(closing)
    }

    // A blank, but for the first in brackets without a word.
    fn space(&mut self) -> Result<(), AllocError> {
        match self.out.last() {
            Some(b'{' | b'<' | b'[') => Ok(()),
            _ => self.put(b" "),
        }
    }

    fn value(&mut self, value: &Value) -> Result<(), AllocError> {
        show(self.alloc, value, &mut self.out)
    }

    fn number(&mut self, mark: &str, number: usize) -> Result<(), AllocError> {
        let text = format!(in self.alloc; "{mark}{number}")?;
        self.put(text.as_bytes())
    }

    fn name(&mut self, number: usize, primed: bool) -> Result<(), AllocError> {
        match self.names.get(number) {
            Some(decl) => self.put(decl.name.bytes())?,
            None => self.number("?", number)?,
        }
        if primed { self.put(b"'") } else { Ok(()) }
    }

    fn detail(&mut self, k: &Ker) -> Result<(), AllocError> {
        match self.detail {
            Detail::Nothing => Ok(()),
            Detail::Types => {
                self.put(b":")?;
                show_type(self.alloc, &k.ty, &mut self.out)
            }
            Detail::Columns => self.number(":", k.place.col as usize),
        }
    }

    // What stands in brackets behind the word.
    fn bound(&mut self, k: &Ker) -> Result<(), AllocError> {
        match &k.op {
            KerOp::Item(number) => self.item(*number),
            KerOp::FieldOf(name) => self.field(name),
            KerOp::RecOf(names) | KerOp::RecForm(names) => self.fields(names.as_slice()),
            _ if k.binds.is_empty() => Ok(()),
            _ => self.numbers(k.binds.as_slice()),
        }
    }

    fn item(&mut self, number: usize) -> Result<(), AllocError> {
        self.number(" [", number)?;
        self.put(b"]")
    }

    fn numbers(&mut self, numbers: &[u32]) -> Result<(), AllocError> {
        self.put(b" [")?;
        for number in numbers {
            self.space()?;
            self.number("", *number as usize)?;
        }
        self.put(b"]")
    }

    fn field(&mut self, name: &Text) -> Result<(), AllocError> {
        self.put(b" [")?;
        self.put(name.bytes())?;
        self.put(b"]")
    }

    fn fields(&mut self, names: &[Text]) -> Result<(), AllocError> {
        self.put(b" [")?;
        for name in names {
            self.space()?;
            self.put(name.bytes())?;
        }
        self.put(b"]")
    }
}

fn word(op: &KerOp) -> &'static [u8] {
    match op {
        KerOp::SetOf | KerOp::TupOf => b"",
        KerOp::And => b"and",
        KerOp::Or => b"or",
        KerOp::Not => b"not",
        KerOp::If => b"if",
        KerOp::Equal => b"equal",
        KerOp::Less => b"less",
        KerOp::Plus => b"plus",
        KerOp::Minus => b"minus",
        KerOp::Times => b"times",
        KerOp::Quotient => b"quotient",
        KerOp::Remainder => b"remainder",
        KerOp::Some => b"some",
        KerOp::Every => b"every",
        KerOp::NoCase => b"no-case",
        _ => set_word(op),
    }
}

fn set_word(op: &KerOp) -> &'static [u8] {
    match op {
        KerOp::Member => b"member",
        KerOp::Included => b"included",
        KerOp::Filter => b"filter",
        KerOp::MapOver => b"map-over",
        KerOp::Flatten => b"flatten",
        KerOp::Union => b"union",
        KerOp::Inter => b"inter",
        KerOp::Without => b"without",
        KerOp::Range => b"range",
        KerOp::Subsets => b"subsets",
        KerOp::Functions => b"functions",
        KerOp::Count => b"count",
        KerOp::IntForm => b"int-form",
        KerOp::NatForm => b"nat-form",
        KerOp::TextForm => b"text-form",
        KerOp::SeqForm => b"seq-form",
        KerOp::RecForm(_) => b"rec-form",
        KerOp::TupForm => b"tup-form",
        _ => function_word(op),
    }
}

fn function_word(op: &KerOp) -> &'static [u8] {
    match op {
        KerOp::FunOf => b"fun-of",
        KerOp::At => b"at",
        KerOp::Update => b"update",
        KerOp::Domain => b"domain",
        KerOp::Join => b"join",
        KerOp::Item(_) => b"item",
        KerOp::RecOf(_) => b"rec-of",
        KerOp::FieldOf(_) => b"field-of",
        KerOp::SeqOf => b"seq-of",
        KerOp::Length => b"length",
        KerOp::Push => b"push",
        KerOp::First => b"first",
        KerOp::Rest => b"rest",
        KerOp::Slice => b"slice",
        KerOp::Glue => b"glue",
        KerOp::FoldLeft => b"fold-left",
        _ => b"?",
    }
}
