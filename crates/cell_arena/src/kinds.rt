//! Cells and their kinds.

use sat_formula::{Lit, Word};
use tla_values::{List, Text};

/// The place of a cell in its arena, from 0.
#[derive(Clone, Copy, PartialEq, Eq, Debug)]
pub struct CellId {
    pub index: usize,
}

/// What a cell is made of. The cells that it names are older ones.
#[derive(Drop)]
pub enum CellKind {
    /// The truth value of a literal.
    Bit(Lit),
    /// The number of a word of the build's width.
    Word(Word),
    /// The text whose index among the build's texts is the number of this word of 32 bits.
    Text(Word),
    /// The members whose literal is true.
    Set(List<(Lit, CellId)>),
    /// Arguments and results: at an argument, the result of its first edge with a true literal.
    Fun(List<(Lit, CellId, CellId)>),
    /// A record: a function on the names of its fields.
    Rec(List<(Text, CellId)>),
    /// A tuple: a function on the numbers from 1 to its length.
    Tup(List<CellId>),
    /// A sequence of the first of these places, as many as the word of 32 bits says.
    Seq(Word, List<CellId>),
}
