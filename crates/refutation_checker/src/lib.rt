//! A checker of refutation logs, which is what a user trusts who trusts nothing else.
//!
//! A log is a list of clauses. Each stands with hints: the numbers of earlier clauses that force
//! it by unit propagation. `check` says whether each step follows and the last is the empty
//! clause; its yes implies that no assignment satisfies the formula. (Cruz-Filipe, Heule, Hunt,
//! Kaufmann and Schneider-Kamp, "Efficient Certified RAT Verification", 2017: the format LRAT,
//! here without deletions and without resolution asymmetric tautologies.)
#![tactic(auto)]

mod answers;
mod checking;
mod cursor;
mod endings;
mod faults;
mod following;
mod lines;
mod log;
mod marks;
mod printing;
mod reading;
mod rechecking;
mod section;
mod trail;
mod words;

pub use answers::{Check, Recheck};
pub use checking::check;
pub use faults::CertFault;
pub use following::follows;
pub use log::{Log, Step};
pub use printing::{certificate_head, print_section};
pub use reading::read_certificate;
pub use rechecking::recheck;
pub use section::{Certificate, QueryName, Section};
pub use trail::Trail;
