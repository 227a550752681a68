//! The operators on truth values, numbers and sets over cells.
//!
//! Each call takes cells of the sorts that its operator asks for and gives, under every satisfying assignment, what the
//! operator gives of their values: a value, Wrong or Big. Faults of the operands are no concern of these calls: a cell
//! in whose place there is a fault has some value of its sort, and what is shown of it does not count.
//! (Konnov, Kukovec and Tran, "TLA+ Model Checking Made Symbolic", OOPSLA 2019, section 5; Specifying Systems, sections
//! 16.1.6, 16.1.7 and 18.4.)
#![tactic(auto)]

mod making;
mod numbers;
mod ranges;
mod sets;
mod truths;
mod words;

pub use numbers::{minus, plus, quotient, remainder, times};
pub use ranges::range;
pub use sets::{count, flatten, functions, inter, set, subsets, union, without};
pub use truths::{equal, less, not};
