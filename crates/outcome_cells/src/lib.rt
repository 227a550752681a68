//! Cells in the place of an outcome: a cell with two literals, which say where there is a fault in its place.
//!
//! An operator that evaluates all its operands has their faults joined (`join_all`), and what it gives of their values
//! behind these (`strict`). A conjunction or a disjunction goes from the left up to the first operand that decides
//! (`in_turn`), and a guard takes one of two branches (`chosen`): of an operand that is not evaluated nothing is asked.
//! Faults that cannot be are the negation of `top`, and add nothing to a formula.
//! (Konnov, Kukovec and Tran, "TLA+ Model Checking Made Symbolic", OOPSLA 2019; Specifying Systems, section 14.2.2.)
#![tactic(auto)]

mod bits;
mod branches;
mod cells;
mod faults;
mod making;

pub use bits::{bit_of, bits_of};
pub use branches::{chosen, in_turn};
pub use cells::{Cells, Faults};
pub use faults::{any_of, behind, in_front, join, join_all, strict};
pub use making::{big_where, sure, wrong_where};
