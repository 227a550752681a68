//! The kernel: the few operators to which typed expressions are reduced, the paths of an action, and what both mean.
//!
//! A kernel tree stands for an expression and means what that means, so it has no meaning of its own and every law
//! of the meaning holds for it. An action is taken apart into paths: what must hold, and the values that are picked.
//! (Konnov, Kukovec and Tran, "TLA+ Model Checking Made Symbolic", OOPSLA 2019, on the language KerA+ and on
//! symbolic transitions.)
#![tactic(auto)]

mod action_kind;
mod copy;
mod faults;
mod kernel;
mod path;
mod system;
mod theorems;

pub use action_kind::{ActionKind, AssignableNames, counts, marks_of};
pub use copy::{copy_ker, copy_ker_op, copy_sets, copy_step};
pub use faults::KerFault;
pub use kernel::{Ker, KerOp};
pub use path::{Assigned, AssignedStep, KerPath, PathStep, is_end};
pub use system::{KerJob, System};
pub use theorems::{
    actions_go_by_their_paths, faults_read_what_was_assigned, paths_of_sound_trees_are_sound,
    sound_trees_are_scoped, trees_mention_what_they_stand_for, what_is_read_has_a_place,
};
