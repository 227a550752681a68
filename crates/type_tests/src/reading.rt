//! The types that texts say.

ghost use Rattle.std.specs.Prelude.{IfOk};
ghost use Rattle.snowcat_rows.specs.Types.{Term, mean};
ghost use Rattle.snowcat_rows.specs.Readings.{IsReadAs};
ghost use Rattle.snowcat_rows.specs.Renamings.{Variants};

use crate::cases::READINGS;
use crate::passing::{Teller, first_wrong, passes};
use snowcat_rows::{
    Ty, TypeTextFault, read_type, said_types_are_spellable, show_type, shown_types_are_read_back,
};
use std::alloc::{AllocError, Global};
use std::test::Fail;
use tla_values::{List, Text};

fn text_of(alloc: Global, word: &str) -> Result<Text, AllocError> {
    let bytes = Vec::from_slice(alloc, word.as_bytes())?;
    Ok(Text::from_vec(bytes))
}

fn alias_of(alloc: Global, word: &str) -> Result<(Text, Text), AllocError> {
    let (name, text) = word.split_once("=").unwrap_or(("", ""));
    let name = text_of(alloc, name)?;
    let text = text_of(alloc, text)?;
    Ok((name, text))
}

fn aliases_of(alloc: Global, words: &str) -> Result<List<(Text, Text)>, AllocError> {
    let mut aliases = List::new(alloc);
    for word in words.split(";") {
        aliases.push(alias_of(alloc, word)?)?;
    }
    Ok(aliases)
}

fn put_bad(alloc: Global, at: usize, out: &mut Vec<u8>) -> Result<(), AllocError> {
    let text = format!(in alloc; "bad {at}")?;
    out.extend_from_slice(text.as_bytes())
}

fn put_unknown(name: &Text, out: &mut Vec<u8>) -> Result<(), AllocError> {
    out.extend_from_slice(b"unknown ")?;
    out.extend_from_slice(name.bytes())
}

fn put_answer(
    alloc: Global,
    answer: &Result<Ty, TypeTextFault>,
    out: &mut Vec<u8>,
) -> Result<(), AllocError> {
    match answer {
        Ok(t) => show_type(alloc, t, out),
        Err(TypeTextFault::BadType(at)) => put_bad(alloc, *at, out),
        Err(TypeTextFault::UnknownAlias(name)) => put_unknown(name, out),
        Err(TypeTextFault::Memory(_)) => out.extend_from_slice(b"memory"),
    }
}

fn put_told(
    alloc: Global,
    answer: Result<Ty, TypeTextFault>,
    out: &mut Vec<u8>,
) -> Result<(), AllocError> {
    let put = put_answer(alloc, &answer, out);
    drop(answer);
    put
}

// What the text says where these aliases are known.
fn put_read(alloc: Global, words: &str, text: &str, out: &mut Vec<u8>) -> Result<(), AllocError> {
    let aliases = aliases_of(alloc, words)?;
    put_told(alloc, read_type(alloc, text.as_bytes(), &aliases), out)
}

struct Readings;

impl Teller for Readings {
    fn tell(
        &self,
        alloc: Global,
        asked: &str,
        _wanted: &str,
        out: &mut Vec<u8>,
    ) -> Result<(), AllocError> {
        let (words, text) = asked.split_once(" | ").unwrap_or(("", asked));
        put_read(alloc, words, text, out)
    }
}

// The type of a text, read again from what is shown of it: the same but for the numbers of its variables.
fn read_again(alloc: Global, text: &[u8], aliases: &List<(Text, Text)>) -> Result<Ty, TypeTextFault>
    ensures { IfOk result (λ u. (t : Term) × IsReadAs aliases.now text.now t × Variants t (mean u)) }
{
    let first = read_type(alloc, text, aliases)?;
    let mut out = Vec::new(alloc);
    show_type(alloc, &first, &mut out)?;
    said_types_are_spellable();
    shown_types_are_read_back();
    let none = List::from_vec(Vec::new(alloc));
    let again = read_type(alloc, out.as_slice(), &none)?;
    Ok(again)
}

// What is shown of a type is read back as the same type.
struct ReadBack;

impl Teller for ReadBack {
    fn tell(
        &self,
        alloc: Global,
        _asked: &str,
        wanted: &str,
        out: &mut Vec<u8>,
    ) -> Result<(), AllocError> {
        if wanted.starts_with("bad ") || wanted.starts_with("unknown ") {
            return out.extend_from_slice(wanted.as_bytes());
        }
        put_read(alloc, "", wanted, out)
    }
}

#[test]
fn texts_say_these_types(rt: HostRuntime) -> Result<(), Fail> {
    passes(&rt, first_wrong(rt.alloc(), &Readings, READINGS, " ;; "))
}

#[test]
fn what_is_shown_is_read_back(rt: HostRuntime) -> Result<(), Fail> {
    passes(&rt, first_wrong(rt.alloc(), &ReadBack, READINGS, " ;; "))
}

// A text with these aliases, and what is read again.
const AGAIN: &str =
    "pair=<<a, b>>;open={f: a, r} | <<b, $pair, {f: b, r}, $open>> ;; <<a, <<b, c>>, {f: a, d}, {f: e, f}>>";

struct Again;

impl Teller for Again {
    fn tell(
        &self,
        alloc: Global,
        asked: &str,
        _wanted: &str,
        out: &mut Vec<u8>,
    ) -> Result<(), AllocError> {
        let (words, text) = asked.split_once(" | ").unwrap_or(("", asked));
        let aliases = aliases_of(alloc, words)?;
        put_told(alloc, read_again(alloc, text.as_bytes(), &aliases), out)
    }
}

#[test]
fn a_text_with_aliases_is_shown_and_read_again(rt: HostRuntime) -> Result<(), Fail> {
    passes(&rt, first_wrong(rt.alloc(), &Again, AGAIN, " ;; "))
}
