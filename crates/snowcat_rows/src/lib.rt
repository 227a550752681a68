//! Types with rows, and their unification.
//!
//! The types of the Apalache type system 1.2 (Apalache manual, "Type System 1.2: Type annotations"):
//! uninterpreted types, sets, sequences, functions, tuples, operators, and records that may be open,
//! that is, end in a variable which stands for a row of further fields. Field names of one record
//! differ, and their order tells nothing.
//!
//! `substitution` (over `bindings`, `replacement`, `settling`, `limits`, `places`, `differences`, `occurrences`,
//! `records`), `showing` with `renumbering`, and `reading` stand beside each other over `types`. A text is read in two
//! steps: `scanning` (over `reader`, `pieces`) leaves the marks of what it read (`marks`), each construct behind its
//! parts, and `building` makes the type of them.
#![tactic(auto)]

mod bindings;
mod building;
mod closing;
mod differences;
mod faults;
mod following;
mod limits;
mod literals;
mod marks;
mod occurrences;
mod operators;
mod pieces;
mod places;
mod reader;
mod reading;
mod records;
mod renumbering;
mod replacement;
mod scanning;
mod settling;
mod showing;
mod substitution;
mod types;

pub use building::copy_moved;
pub use closing::closed;
pub use faults::TypeTextFault;
pub use literals::literal_type;
pub use occurrences::is_within;
pub use operators::has_no_operator;
pub use reading::{Aliases, read_type, types_are_read_in_one_way};
pub use records::has_distinct_names;
pub use renumbering::{renumbered, renumbered_types_are_the_same};
pub use settling::Settled;
pub use showing::{
    said_types_are_spellable, show_type, shown_types_are_read_back, shown_types_are_spelled,
};
pub use substitution::{Subst, UnifyFault};
pub use types::{Ty, Typed, copy_type};
