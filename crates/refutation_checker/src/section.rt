//! Certificates: a section for each question that was put to the solver.

use crate::log::Log;
use sat_formula::Cnf;
use tla_values::List;

/// What a section's formula asks: whether some execution makes a step that is no value or leaves
/// the range of the integers, or whether it reaches a state at which the invariant is not true or
/// leaves that range; or whether the assumption leaves it.
#[derive(Clone, Copy, Debug, PartialEq, Eq)]
pub enum QueryName {
    StepWrong,
    StepBig,
    InvNotTrue,
    InvBig,
    AssumeBig,
}

/// A question with its formula and log. `level` is the number of steps of the executions that it
/// speaks of; `typed` says that it speaks of any state of its type instead, and then the level is
/// 0. An open section's log does not refute the formula.
///
/// A section is in the grammar of certificates if its formula has fewer than 2^31 variables and
/// 2^63 clauses, its clauses and steps name these variables alone, the steps' numbers are below
/// 2^63 and the hints from 1 to 2^63 - 1. The last step is the empty clause; of an open section
/// no step is.
#[derive(Drop)]
pub struct Section {
    pub level: u32,
    pub typed: bool,
    pub query: QueryName,
    pub formula: Cnf,
    pub log: Log,
    pub is_open: bool,
}

/// The sections of a certificate in their order.
pub type Certificate = List<Section>;
