//! Each kind of cell against the text of its value.

ghost use Rattle.std.specs.Prelude.{◌<◌, ◌≤◌, ◌≡◌, IfOk, length};
ghost use Rattle.cell_arena.specs.Growth.{Grows};

use crate::constants::{int, seq, text};
use crate::decoding::shown;
use cell_arena::{Build, CellId, all_differ};
use sat_formula::{Lit, Word};
use std::alloc::{AllocError, Global};
use std::test::Fail;
use tla_values::{List, Text};

fn text_of(alloc: Global, bytes: &[u8]) -> Result<Text, AllocError> {
    Ok(Text::from_vec(Vec::from_slice(alloc, bytes)?))
}

fn texts(alloc: Global, names: &[&[u8]]) -> Result<List<Text>, AllocError> {
    let mut list = List::new(alloc);
    for name in names {
        list.push(text_of(alloc, name)?)?;
    }
    Ok(list)
}

// The set of x where p, of y where q, and of x once more where p.
#[tactic(auto, using(cell_arena::proofs::Growing::growing))]
fn set(alloc: Global, b: &mut Build, p: Lit, q: Lit) -> Result<CellId, AllocError>
    requires p_below { p.var < b.old.formula.vars }
    requires q_below { q.var < b.old.formula.vars }
    ensures grows { Grows b.old b.new }
{
    let x = int(alloc, b, 1)?;
    let y = int(alloc, b, 2)?;
    let edges = Vec::from_slice(alloc, &[(p, x), (q, y), (p, x)])?;
    let id = b.set(List::from_vec(edges))?;
    Ok(id)
}

// 1 goes to 2 where p, else to 1 where q; 2 goes to 2 where q.
#[tactic(auto, using(cell_arena::proofs::Growing::growing))]
fn fun(alloc: Global, b: &mut Build, p: Lit, q: Lit) -> Result<CellId, AllocError>
    requires p_below { p.var < b.old.formula.vars }
    requires q_below { q.var < b.old.formula.vars }
    ensures grows { Grows b.old b.new }
{
    let x = int(alloc, b, 1)?;
    let y = int(alloc, b, 2)?;
    let edges = Vec::from_slice(alloc, &[(p, x, y), (q, x, x), (q, y, y)])?;
    let id = b.fun(List::from_vec(edges))?;
    Ok(id)
}

// A word of two free bits, as a part of a tuple.
#[tactic(auto, using(cell_arena::proofs::Growing::growing), unfolding(word_blaster::specs::Word::WordBelow))]
fn tup(alloc: Global, b: &mut Build, p: Lit, q: Lit) -> Result<CellId, AllocError>
    requires width { b.old.arena.width ≡ 4 }
    requires p_below { p.var < b.old.formula.vars }
    requires q_below { q.var < b.old.formula.vars }
{
    let word = Vec::from_slice(alloc, &[q, p, p, p])?;
    let x = b.word(Word::from_vec(word))?;
    let y = b.bit(p.negated())?;
    let parts = Vec::from_slice(alloc, &[x, y])?;
    b.tup(List::from_vec(parts))
}

#[tactic(auto, using(cell_arena::proofs::Growing::growing))]
fn rec(alloc: Global, b: &mut Build, p: Lit) -> Result<CellId, AllocError>
    requires { p.var < b.old.formula.vars }
{
    let name = text_of(alloc, b"f")?;
    let x = b.bit(p)?;
    let mut fields = List::new(alloc);
    fields.push((name, x))?;
    b.rec(fields)
}

#[tactic(auto, using(cell_arena::proofs::Growing::growing))]
fn places(alloc: Global, b: &mut Build, count: usize) -> Result<CellId, AllocError>
    requires { count < 3 }
{
    let x = int(alloc, b, -1)?;
    let y = int(alloc, b, 7)?;
    let parts = Vec::from_slice(alloc, &[x, y])?;
    seq(alloc, b, count, List::from_vec(parts))
}

// A free bit.
#[tactic(auto, using(cell_arena::proofs::Growing::growing))]
pub fn free(b: &mut Build) -> Result<Lit, AllocError>
    ensures arena { b.new.arena ≡ b.old.arena }
    ensures grows { Grows b.old b.new }
    ensures below { IfOk result (λ l. l.var < b.new.formula.vars) }
    ensures more { b.old.formula.vars ≤ b.new.formula.vars }
{
    let l = b.formula.fresh()?;
    Ok(l)
}

#[derive(Clone, Copy, Debug)]
enum Kind {
    Set,
    Fun,
    Tup,
    Seq,
    Rec,
    Text,
}

// The text of the value of a cell of the kind where p and q have these values.
#[tactic(auto, using(cell_arena::proofs::Growing::growing))]
fn value(alloc: Global, kind: Kind, p: bool, q: bool) -> Result<Vec<u8>, AllocError> {
    let names = texts(alloc, &[b"f", b"g"])?;
    if !all_differ(names.as_slice()) || names.len() < 2 {
        return Ok(Vec::new(alloc));
    }
    let mut b = Build::new(alloc, &names, 4)?;
    let l = free(&mut b)?;
    let m = free(&mut b)?;
    let _ = match kind {
        Kind::Set => set(alloc, &mut b, l, m)?,
        Kind::Fun => fun(alloc, &mut b, l, m)?,
        Kind::Tup => tup(alloc, &mut b, l, m)?,
        Kind::Seq => places(alloc, &mut b, 1)?,
        Kind::Rec => rec(alloc, &mut b, l)?,
        Kind::Text => text(alloc, &mut b, 1)?,
    };
    shown(alloc, &b, &[true, p, q])
}

const CASES: [(Kind, bool, bool, &[u8]); 14] = [
    (Kind::Set, false, false, b"{}"),
    (Kind::Set, false, true, b"{2}"),
    (Kind::Set, true, false, b"{1}"),
    (Kind::Set, true, true, b"{1, 2}"),
    (Kind::Fun, false, false, b"<<>>"),
    (Kind::Fun, false, true, b"<<1, 2>>"),
    (Kind::Fun, true, false, b"<<2>>"),
    (Kind::Fun, true, true, b"<<2, 2>>"),
    (Kind::Tup, false, true, b"<<1, TRUE>>"),
    (Kind::Tup, true, false, b"<<-2, FALSE>>"),
    (Kind::Tup, true, true, b"<<-1, FALSE>>"),
    (Kind::Seq, true, true, b"<<-1>>"),
    (Kind::Rec, true, false, b"[f |-> TRUE]"),
    (Kind::Text, false, false, b"\"g\""),
];

#[test]
fn each_kind_has_its_value(rt: HostRuntime) -> Result<(), Fail> {
    for (kind, p, q, want) in CASES {
        assert_eq!(rt; value(rt.alloc(), kind, p, q)?.as_slice(), want, "{kind:?}");
    }
    Ok(())
}

#[test]
fn equal_texts_are_seen(rt: HostRuntime) -> Result<(), Fail> {
    let alloc = rt.alloc();
    let cases: [(&[&[u8]], bool); 5] = [
        (&[], true),
        (&[b"a"], true),
        (&[b"a", b"", b"b"], true),
        (&[b"a", b"b", b"a"], false),
        (&[b"", b""], false),
    ];
    for (names, want) in cases {
        assert_eq!(rt;
            all_differ(texts(alloc, names)?.as_slice()),
            want,
            "{:?}",
            want
        );
    }
    Ok(())
}

// A word of free bits, at a width of 4.
#[tactic(auto, using(cell_arena::proofs::Growing::growing), unfolding(word_blaster::specs::Word::WordBelow))]
fn word(alloc: Global, b: &mut Build, p: Lit, q: Lit) -> Result<CellId, AllocError>
    requires p_below { p.var < b.old.formula.vars }
    requires q_below { q.var < b.old.formula.vars }
    ensures grows { Grows b.old b.new }
{
    if b.width() != 4 {
        return b.bit(p);
    }
    let lits = Vec::from_slice(alloc, &[q, p, p, p])?;
    let id = b.word(Word::from_vec(lits))?;
    Ok(id)
}

#[derive(Clone, Copy, Debug)]
enum Made {
    Bit,
    Word,
    Set,
    Fun,
}

#[tactic(auto, using(cell_arena::proofs::Growing::growing))]
fn make(alloc: Global, b: &mut Build, kind: Made, p: Lit, q: Lit) -> Result<CellId, AllocError>
    requires p_below { p.var < b.old.formula.vars }
    requires q_below { q.var < b.old.formula.vars }
    ensures grows { Grows b.old b.new }
{
    match kind {
        Made::Bit => b.bit(p),
        Made::Word => word(alloc, b, p, q),
        Made::Set => set(alloc, b, p, q),
        Made::Fun => fun(alloc, b, p, q),
    }
}

// A cell that is asked for twice, and then with its literals the other way round: whether the second
// is the first, whether it adds none, and whether the third is the first.
#[tactic(auto, using(cell_arena::proofs::Growing::growing))]
fn made_again(alloc: Global, kind: Made) -> Result<[bool; 3], AllocError> {
    let mut b = Build::new(alloc, &List::new(alloc), 4)?;
    let p = free(&mut b)?;
    let q = free(&mut b)?;
    let first = make(alloc, &mut b, kind, p, q)?;
    let cells = b.arena.len();
    let again = make(alloc, &mut b, kind, p, q)?;
    let none = b.arena.len() == cells;
    let other = make(alloc, &mut b, kind, q, p)?;
    Ok([again == first, none, other == first])
}

#[test]
fn equal_cells_are_made_once(rt: HostRuntime) -> Result<(), Fail> {
    for kind in [Made::Bit, Made::Word, Made::Set, Made::Fun] {
        assert_eq!(rt;
            made_again(rt.alloc(), kind)?,
            [true, true, false],
            "{kind:?}"
        );
    }
    Ok(())
}
