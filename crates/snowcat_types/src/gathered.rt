// What a job asks of the types of its nodes, as it is built.
use crate::waiting::Wait;
use snowcat_rows::Ty;
use tla_meaning::Place;
use tla_values::{List, Text};

/// What the table asks of two types.
#[derive(Drop)]
pub enum Requirement {
    /// The two are equal; what the table says stands first.
    Equal(Ty, Ty),
    /// The unknown type of the first number is a record whose field of that name is the unknown type of the other.
    FieldOf(u32, Text, u32),
}

/// What a visit of a node adds: what its row of the table asks, or a node that waits.
#[derive(Drop)]
pub enum Entry {
    Asks(Place, List<Requirement>),
    Waits(Wait),
}

/// The unknown types of a job and what is asked of them.
#[derive(Drop)]
pub struct System {
    /// How many unknown types there are.
    pub count: u32,
    /// What is asked of those of the declared names.
    pub declared: List<Requirement>,
    /// In the order in which the nodes are visited, part by part.
    pub entries: List<Entry>,
    /// The types of the declared names.
    pub names: List<Ty>,
    /// The types of the nodes of each part, a node before its children.
    pub parts: List<List<Ty>>,
}
