//! What becomes of types that are open, and what bindings make of variables.

use crate::cases::{CLOSED, LITERALS, ROOTS};
use crate::passing::{Teller, counts, first_wrong, passes};
use crate::postfix::{type_of, types_of};
use crate::showing::put_type;
use crate::unifying::{bind, five};
use snowcat_rows::{Aliases, Subst, Ty, closed, has_no_operator, literal_type, show_type};
use std::alloc::{AllocError, Global};
use std::test::Fail;
use tla_values::List;

fn put_closed(alloc: Global, t: &Ty, out: &mut Vec<u8>) -> Result<(), AllocError> {
    put_type(alloc, closed(alloc, t)?, out)?;
    if has_no_operator(t) {
        out.extend_from_slice(b" plain")?;
    }
    Ok(())
}

// What a type is closed, and `plain` where no operator type stands in it.
struct Closed;

impl Teller for Closed {
    fn tell(
        &self,
        alloc: Global,
        asked: &str,
        _wanted: &str,
        out: &mut Vec<u8>,
    ) -> Result<(), AllocError> {
        let t = type_of(alloc, asked)?;
        let put = put_closed(alloc, &t, out);
        drop(t);
        put
    }
}

struct Literals;

impl Teller for Literals {
    fn tell(
        &self,
        alloc: Global,
        asked: &str,
        _wanted: &str,
        out: &mut Vec<u8>,
    ) -> Result<(), AllocError> {
        put_type(alloc, literal_type(alloc, asked.as_bytes())?, out)
    }
}

fn equate(alloc: Global, s: &mut Subst, pair: &str) -> Result<(), AllocError> {
    let types = types_of(alloc, pair)?;
    let bound = bind(s, &types.0, &types.1);
    drop(types);
    bound
}

fn equate_all(alloc: Global, s: &mut Subst, pairs: &str) -> Result<(), AllocError> {
    for pair in pairs.split(", ") {
        equate(alloc, s, pair)?;
    }
    Ok(())
}

// The type variables in the order in which they were bound, `r` for a row variable.
fn put_bound(alloc: Global, s: &Subst, out: &mut Vec<u8>) -> Result<(), AllocError> {
    for i in 0..s.bound() {
        match s.bound_type(i) {
            Some(v) => {
                let text = format!(in alloc; "{v}")?;
                out.extend_from_slice(text.as_bytes())?;
            }
            None => out.extend_from_slice(b"r")?,
        }
    }
    Ok(())
}

fn put_root(alloc: Global, s: &Subst, word: &str, out: &mut Vec<u8>) -> Result<(), AllocError> {
    let t = type_of(alloc, word)?;
    let put = show_type(alloc, s.root(&t), out);
    drop(t);
    put
}

fn put_roots(
    alloc: Global,
    s: &mut Subst,
    asked: &str,
    out: &mut Vec<u8>,
) -> Result<(), AllocError> {
    let (pairs, word) = asked.split_once(" | ").unwrap_or((asked, ""));
    equate_all(alloc, s, pairs)?;
    put_bound(alloc, s, out)?;
    out.extend_from_slice(b" ")?;
    put_root(alloc, s, word, out)
}

// Pairs that are made equal; what is bound, and the root of a type.
struct Roots;

impl Teller for Roots {
    fn tell(
        &self,
        alloc: Global,
        asked: &str,
        _wanted: &str,
        out: &mut Vec<u8>,
    ) -> Result<(), AllocError> {
        let mut s = five(alloc);
        let put = put_roots(alloc, &mut s, asked, out);
        drop(s);
        put
    }
}

#[test]
fn types_are_closed(rt: HostRuntime) -> Result<(), Fail> {
    passes(&rt, first_wrong(rt.alloc(), &Closed, CLOSED, " => "))
}

#[test]
fn text_literals_have_these_types(rt: HostRuntime) -> Result<(), Fail> {
    passes(&rt, first_wrong(rt.alloc(), &Literals, LITERALS, " => "))
}

#[test]
fn roots_and_bindings_are_told(rt: HostRuntime) -> Result<(), Fail> {
    passes(&rt, first_wrong(rt.alloc(), &Roots, ROOTS, " => "))
}

// A text and how many variables it has, 9 where it is no type's.
static COUNTS: [(&str, u32); 3] = [("Int", 0), ("<<a, {f: b, r}, a>>", 3), ("Set(", 9)];

fn count_of(alloc: Global, known: &Aliases, text: &str) -> u32 {
    let answer = known.read(alloc, text.as_bytes());
    let count = match &answer {
        Ok(read) => read.1,
        Err(_) => 9,
    };
    drop(answer);
    count
}

fn count_right(alloc: Global, known: &Aliases) -> usize {
    for (i, (text, wanted)) in COUNTS.iter().enumerate() {
        if count_of(alloc, known, *text) != *wanted {
            return i;
        }
    }
    COUNTS.len()
}

fn count_without_aliases(alloc: Global) -> Result<usize, AllocError> {
    let none = List::new(alloc);
    let known = Aliases::of(alloc, &none)?;
    let right = count_right(alloc, &known);
    drop(known);
    Ok(right)
}

#[test]
fn variables_of_a_text_are_counted(rt: HostRuntime) -> Result<(), Fail> {
    counts(&rt, count_without_aliases(rt.alloc()), 3)
}
