//! Numbers of kinds, by which equal ones are found. They take no memory.

ghost use Rattle.cell_arena.specs.inner.KindNumbers.{mixed, mixed_lit, lits_number, edges_number, arrows_number, fields_number, ids_number, text_number, kind_number};
ghost use Rattle.std.specs.Prelude.{◌≡◌};

use crate::kinds::{CellId, CellKind};
use sat_formula::Lit;
use tla_values::Text;

/// The number of a kind.
#[tactic(auto, unfolding(crate::specs::inner::KindNumbers::kind_number))]
pub(crate) fn number_of(kind: &CellKind) -> usize
    ensures { result ≡ kind_number kind.now }
{
    match kind {
        CellKind::Bit(l) => mix_lit(1, *l),
        CellKind::Word(w) => mix_lits(2, w.lits()),
        CellKind::Text(code) => mix_lits(3, code.lits()),
        CellKind::Set(edges) => mix_edges(4, edges.as_slice()),
        CellKind::Fun(edges) => mix_arrows(5, edges.as_slice()),
        CellKind::Rec(fields) => mix_fields(6, fields.as_slice()),
        CellKind::Tup(parts) => mix_ids(7, parts.as_slice()),
        CellKind::Seq(count, places) => mix_ids(mix_lits(8, count.lits()), places.as_slice()),
    }
}

// A number of 32 bits that differs much for numbers that differ little.
#[tactic(auto, unfolding(crate::specs::inner::KindNumbers::mixed))]
fn mix(number: usize, more: usize) -> usize
    ensures { result ≡ mixed number more }
{
    (number % 4_294_967_296 * 2_654_435_761 + more % 4_294_967_296) % 4_294_967_296
}

fn mix_lit(number: usize, l: Lit) -> usize
    ensures { result ≡ mixed_lit number l }
{
    mix(mix(number, l.var), usize::from(l.neg))
}

fn mix_lits(start: usize, lits: &[Lit]) -> usize
    ensures { result ≡ lits_number start lits.now }
{
    let mut number = start;
    for l in lits {
        number = mix_lit(number, *l);
    }
    number
}

fn mix_edges(start: usize, edges: &[(Lit, CellId)]) -> usize
    ensures { result ≡ edges_number start edges.now }
{
    let mut number = start;
    for edge in edges {
        number = mix(mix_lit(number, edge.0), edge.1.index);
    }
    number
}

fn mix_arrows(start: usize, edges: &[(Lit, CellId, CellId)]) -> usize
    ensures { result ≡ arrows_number start edges.now }
{
    let mut number = start;
    for edge in edges {
        number = mix(mix(mix_lit(number, edge.0), edge.1.index), edge.2.index);
    }
    number
}

fn mix_fields(start: usize, fields: &[(Text, CellId)]) -> usize
    ensures { result ≡ fields_number start fields.now }
{
    let mut number = start;
    for field in fields {
        number = mix(mix_text(number, field.0.bytes()), field.1.index);
    }
    number
}

fn mix_text(start: usize, bytes: &[u8]) -> usize
    ensures { result ≡ text_number start bytes.now }
{
    let mut number = start;
    for byte in bytes {
        number = mix(number, usize::from(*byte));
    }
    number
}

fn mix_ids(start: usize, ids: &[CellId]) -> usize
    ensures { result ≡ ids_number start ids.now }
{
    let mut number = start;
    for id in ids {
        number = mix(number, id.index);
    }
    number
}
