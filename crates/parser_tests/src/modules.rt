// Whole modules.
use crate::asking::{Texts, Told, differing, put_many, same, shown};
use std::alloc::{AllocError, Global};
use std::test::Fail;

const UNITS: &str = r#"---- MODULE M ----
EXTENDS Integers, TLC
CONSTANTS
  \* @type: Int;
  N,
  \* first
  K
VARIABLE (* @type: Bool; *) x
----
ASSUME N > 0
ASSUME Positive == K > 0
LOCAL F(a, b) == a + b
f[i \in 1..N, j \in 1..K] == i
I == INSTANCE Other WITH c <- N + 1, d <- x
LOCAL INSTANCE Naturals
INSTANCE Sequences
RECURSIVE G(_, _), H
\* @type: (Int) => Int;
G(a, b) == IF a = 0 THEN b ELSE G(a - 1, b)
RECURSIVE P(_, _, _)
P(a, b, c) == a
THEOREM Spec == []x
Init == x = FALSE
====
"#;

const UNITS_SHOWN: &str = r#"M Integers TLC
declare constant N < @type: Int;> constant K < first>
declare variable x < @type: Bool; >
assume (gt N 0)
assume (gt K 0)
local F a b <> (add a b)
define f <> (fun [ i j ] (range 1 N) (range 1 K) i)
instance I Other c <- (add N 1) d <- x
local instance Naturals
instance Sequences
recursive G/2 H/0
define G a b < @type: (Int) => Int;> (if (eq a 0) b (G (sub a 1) b))
recursive P/3
define P a b c <> a
theorem (temporal x)
define Init <> (eq x FALSE)"#;

#[test]
fn units_are_read(rt: HostRuntime) -> Result<(), Fail> {
    same(
        &rt,
        shown(rt.alloc(), UNITS.as_bytes(), Told::Units),
        UNITS_SHOWN,
    )
}

// Modules with what is refused in them, a line a case; `;` is a line feed.
const REFUSED: &str = r#"---- MODULE M ----;  => grammar 1:15
---- MODULE M ----;====  => M
---- MODULE M ----;EXTENDS A, B;====  => M A B
---- MODULE M;x == 1;====  => grammar 1:1
---- MODULE M ----;VARIABLE x;);====  => grammar 2:1
---- MODULE M ----;);====  => grammar 2:1
---- MODULE M ----;x == 1;y == 2 +;z == 3;====  => grammar 3:1
---- MODULE M ----;LOCAL x == (1;====  => grammar 2:1
---- MODULE M ----;x == 1;---- MODULE N ----;====;====  => nested MODULE 3:1
---- MODULE M ----;I(x) == INSTANCE N WITH c <- x;====  => parametrized INSTANCE 2:9
---- MODULE M ----;a (+) b == 1;====  => grammar 2:1
---- MODULE M ----;a ^ b == 1;====  => operator definition by symbol 2:3
---- MODULE M ----;F(G(_), x) == 1;====  => operator parameter 2:5
---- MODULE M ----;CONSTANT C(_);====  => operator parameter 2:12
---- MODULE M ----;THEOREM x;<1> QED;====  => proof 3:1
---- MODULE M ----;THEOREM x BY y;z == [a |-> 1, a |-> 2];====  => proof 2:11"#;

#[test]
fn refused_modules_name_their_causes(rt: HostRuntime) -> Result<(), Fail> {
    assert!(rt; REFUSED.lines().count() == 16);
    same(&rt, differing(rt.alloc(), REFUSED, Texts::Whole), "")
}

// A definition of a text between as many of this byte and as many `)`.
fn between(
    alloc: Global,
    byte: u8,
    count: usize,
    text: &[u8],
    closed: usize,
) -> Result<Vec<u8>, AllocError> {
    let mut whole = Vec::from_slice(alloc, b"---- MODULE Row ----\nInv == ")?;
    put_many(&mut whole, byte, count)?;
    whole.extend_from_slice(text)?;
    put_many(&mut whole, b')', closed)?;
    whole.extend_from_slice(b"\n====\n")?;
    Ok(whole)
}

// How many units there are in a module of as many `~` before TRUE.
fn negated(alloc: Global, count: usize) -> Result<Vec<u8>, AllocError> {
    let text = between(alloc, b'~', count, b"TRUE", 0)?;
    shown(alloc, text.as_slice(), Told::Count)
}

#[test]
fn levels_end_at_four_hundred(rt: HostRuntime) -> Result<(), Fail> {
    same(&rt, negated(rt.alloc(), 399), "1")?;
    same(&rt, negated(rt.alloc(), 400), "deep 2:1")?;
    same(&rt, negated(rt.alloc(), 100_000), "deep 2:1")
}

// As many parentheses around a number.
fn wrapped(alloc: Global, count: usize, closed: usize) -> Result<Vec<u8>, AllocError> {
    let text = between(alloc, b'(', count, b"1", closed)?;
    shown(alloc, text.as_slice(), Told::Units)
}

#[test]
fn parentheses_make_no_level(rt: HostRuntime) -> Result<(), Fail> {
    same(&rt, wrapped(rt.alloc(), 5000, 5000), "Row\ndefine Inv <> 1")?;
    same(&rt, wrapped(rt.alloc(), 5000, 4999), "grammar 2:1")
}

const NOTED: &str = r#"---- MODULE M ----
\* @typeAlias: MSG = {kind: Str};
VARIABLE
  \* @typeAlias:pair=<<Int, Int>>; @type: $pair;
  x
(* @typeAlias: none Int; @typeAlias: = Int; @typeAlias: open = Int
   @typeAlias: late = Set($MSG) ; *)
Init == x = (* @typeAlias: inside = Int; *) <<0, 0>>
===="#;

#[test]
fn aliases_of_types_are_read_in_any_notes(rt: HostRuntime) -> Result<(), Fail> {
    same(
        &rt,
        shown(rt.alloc(), NOTED.as_bytes(), Told::Aliases),
        "MSG= {kind: Str};pair=<<Int, Int>>;late= Set($MSG) ;inside= Int;",
    )
}
