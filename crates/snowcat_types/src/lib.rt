//! A type for each node and each name of a job.
//!
//! The rules are those of Apalache's type checker Snowcat (Apalache manual, "Type System 1.2"), with a choice
//! and a default for each overloaded operator. Begin with `specs/Typings`.
#![tactic(auto)]

mod annotations;
mod around;
mod asking;
mod awaiting;
mod choosing;
mod counts;
mod deciding;
mod earliest;
mod faults;
mod forms;
mod gathered;
mod gathering;
mod hearing;
mod jobs;
mod kinds;
mod meeting;
mod names;
mod notes;
mod numbered;
mod ordering;
mod rows;
mod saying;
mod solving;
mod theorems;
mod told;
mod trees;
mod tying;
mod typable;
mod undecided;
mod updates;
mod waiting;
mod watching;

pub use faults::TypeFault;
pub use jobs::typing;
pub use kinds::Kind;
pub use theorems::{
    clashes_have_no_typing, jobs_have_one_typing, typings_are_ground, typings_meet_rows,
    unread_annotations_have_no_typing,
};
pub use typable::is_typable;
pub use waiting::{Index, Wait};
