//! The operators on functions, records, tuples and sequences over cells.
//!
//! Each call takes cells of the sorts that its operator asks for and gives, under every satisfying
//! assignment, what the operator gives of their values: a value, Wrong or Big. A record is a
//! function on texts, a tuple or sequence one on the numbers from 1. Faults of the operands are no
//! concern of these calls: a cell in whose place there is a fault has some value of its sort, and
//! what is shown of it does not count. EXCEPT is two calls, with the right side between them:
//! `old_at` and `update`.
//! (Konnov, Kukovec and Tran, "TLA+ Model Checking Made Symbolic", OOPSLA 2019, section 5;
//! Specifying Systems, sections 16.1.7 to 16.1.9 and 18.1.)
#![tactic(auto)]

mod composites;
mod domains;
mod functions;
mod index;
mod parts;
mod sequences;
mod updates;
mod widths;

pub use composites::{field, item, record, sequence, tuple};
pub use domains::domain;
pub use functions::{at, join};
pub use index::Index;
pub use sequences::{first, glue, length, push, rest, slice};
pub use updates::{old_at, update};
