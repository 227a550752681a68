//! Whether two kinds are equal. It takes no memory.

ghost use Rattle.std.specs.Prelude.{◌↔◌, ◌≡◌, IsTrue};

use crate::kinds::{CellId, CellKind};
use sat_formula::Lit;
use tla_values::{Text, same_text};

/// Whether two cells are of one kind, with equal contents.
pub(crate) fn same_kind(a: &CellKind, b: &CellKind) -> bool
    ensures { IsTrue result ↔ (a.now ≡ b.now) }
{
    match a {
        CellKind::Bit(l) => is_bit(*l, b),
        CellKind::Word(w) => is_word(w.lits(), b),
        CellKind::Text(code) => is_text(code.lits(), b),
        CellKind::Set(edges) => is_set(edges.as_slice(), b),
        CellKind::Fun(edges) => is_function(edges.as_slice(), b),
        CellKind::Rec(fields) => is_record(fields.as_slice(), b),
        CellKind::Tup(parts) => is_tuple(parts.as_slice(), b),
        CellKind::Seq(count, places) => is_sequence(count.lits(), places.as_slice(), b),
    }
}

fn is_bit(l: Lit, kind: &CellKind) -> bool
    ensures { IsTrue result ↔ (CellKind.Bit l ≡ kind.now) }
{
    match kind {
        CellKind::Bit(other) => l == *other,
        _ => false,
    }
}

fn is_word(lits: &[Lit], kind: &CellKind) -> bool
    ensures { IsTrue result ↔ (CellKind.Word lits.now ≡ kind.now) }
{
    match kind {
        CellKind::Word(other) => same_lits(lits, other.lits()),
        _ => false,
    }
}

fn is_text(code: &[Lit], kind: &CellKind) -> bool
    ensures { IsTrue result ↔ (CellKind.Text code.now ≡ kind.now) }
{
    match kind {
        CellKind::Text(other) => same_lits(code, other.lits()),
        _ => false,
    }
}

fn is_set(edges: &[(Lit, CellId)], kind: &CellKind) -> bool
    ensures { IsTrue result ↔ (CellKind.Set edges.now ≡ kind.now) }
{
    match kind {
        CellKind::Set(other) => same_edges(edges, other.as_slice()),
        _ => false,
    }
}

fn is_function(edges: &[(Lit, CellId, CellId)], kind: &CellKind) -> bool
    ensures { IsTrue result ↔ (CellKind.Fun edges.now ≡ kind.now) }
{
    match kind {
        CellKind::Fun(other) => same_arrows(edges, other.as_slice()),
        _ => false,
    }
}

fn is_record(fields: &[(Text, CellId)], kind: &CellKind) -> bool
    ensures { IsTrue result ↔ (CellKind.Rec fields.now ≡ kind.now) }
{
    match kind {
        CellKind::Rec(other) => same_fields(fields, other.as_slice()),
        _ => false,
    }
}

fn is_tuple(parts: &[CellId], kind: &CellKind) -> bool
    ensures { IsTrue result ↔ (CellKind.Tup parts.now ≡ kind.now) }
{
    match kind {
        CellKind::Tup(other) => same_ids(parts, other.as_slice()),
        _ => false,
    }
}

fn is_sequence(count: &[Lit], places: &[CellId], kind: &CellKind) -> bool
    ensures { IsTrue result ↔ (CellKind.Seq count.now places.now ≡ kind.now) }
{
    match kind {
        CellKind::Seq(word, other) => same_lits(count, word.lits())
            && same_ids(places, other.as_slice()),
        _ => false,
    }
}

fn same_lits(a: &[Lit], b: &[Lit]) -> bool
    ensures { IsTrue result ↔ (a.now ≡ b.now) }
{
    a == b
}

fn same_ids(a: &[CellId], b: &[CellId]) -> bool
    ensures { IsTrue result ↔ (a.now ≡ b.now) }
{
    a == b
}

fn same_edges(a: &[(Lit, CellId)], b: &[(Lit, CellId)]) -> bool
    ensures { IsTrue result ↔ (a.now ≡ b.now) }
{
    a == b
}

fn same_arrows(a: &[(Lit, CellId, CellId)], b: &[(Lit, CellId, CellId)]) -> bool
    ensures { IsTrue result ↔ (a.now ≡ b.now) }
{
    a == b
}

fn same_fields(a: &[(Text, CellId)], b: &[(Text, CellId)]) -> bool
    ensures { IsTrue result ↔ (a.now ≡ b.now) }
{
    if a.len() != b.len() {
        return false;
    }
    for i in 0..a.len() {
        if !same_text(&a[i].0, &b[i].0) || a[i].1 != b[i].1 {
            return false;
        }
    }
    true
}
