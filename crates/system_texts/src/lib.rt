//! The texts that cells of a system may stand for: its text constants, the field names of the records in its types, and the
//! empty text. (Konnov, Kukovec and Tran, "TLA+ Model Checking Made Symbolic", OOPSLA 2019, on cells of uninterpreted
//! constants.)
#![tactic(auto)]

mod gathering;

pub use gathering::texts_of;
