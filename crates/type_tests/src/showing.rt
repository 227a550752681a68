//! The text of types.

use crate::cases::{TEXTS, TOGETHER};
use crate::passing::{Teller, first_wrong, passes};
use crate::postfix::{type_of, types_of};
use snowcat_rows::{Ty, renumbered, show_type};
use std::alloc::{AllocError, Global};
use std::test::Fail;

/// Shows a type. It ends by a call of `drop`, here and below, since its end at the end of a function has many cases.
pub(crate) fn put_type(alloc: Global, t: Ty, out: &mut Vec<u8>) -> Result<(), AllocError> {
    let shown = show_type(alloc, &t, out);
    drop(t);
    shown
}

fn show_both(
    alloc: Global,
    types: &(Ty, Ty),
    between: &str,
    out: &mut Vec<u8>,
) -> Result<(), AllocError> {
    show_type(alloc, &types.0, out)?;
    out.extend_from_slice(between.as_bytes())?;
    show_type(alloc, &types.1, out)
}

/// Shows two types with this text between them.
pub(crate) fn put_both(
    alloc: Global,
    types: (Ty, Ty),
    between: &str,
    out: &mut Vec<u8>,
) -> Result<(), AllocError> {
    let shown = show_both(alloc, &types, between, out);
    drop(types);
    shown
}

struct Texts;

impl Teller for Texts {
    fn tell(
        &self,
        alloc: Global,
        asked: &str,
        _wanted: &str,
        out: &mut Vec<u8>,
    ) -> Result<(), AllocError> {
        put_type(alloc, type_of(alloc, asked)?, out)
    }
}

fn numbered(alloc: Global, words: &str) -> Result<(Ty, Ty), AllocError> {
    let types = types_of(alloc, words)?;
    let numbered = renumbered(alloc, &types.0, &types.1);
    drop(types);
    numbered
}

// Two types with their variables numbered together.
struct Together;

impl Teller for Together {
    fn tell(
        &self,
        alloc: Global,
        asked: &str,
        _wanted: &str,
        out: &mut Vec<u8>,
    ) -> Result<(), AllocError> {
        put_both(alloc, numbered(alloc, asked)?, ", ", out)
    }
}

#[test]
fn two_types_have_their_letters_together(rt: HostRuntime) -> Result<(), Fail> {
    passes(&rt, first_wrong(rt.alloc(), &Together, TOGETHER, " => "))
}

#[test]
fn types_are_shown_as_users_write_them(rt: HostRuntime) -> Result<(), Fail> {
    passes(&rt, first_wrong(rt.alloc(), &Texts, TEXTS, " => "))
}
