//! The trees of a module and what they mean.
#![tactic(auto)]

mod actions;
mod copy;
mod expr;
mod forms;
mod job;
mod modules;
mod op;
mod outcome;
mod place;
mod questions;
mod symbols;
mod theorems;

pub use actions::{Assignable, Effect};
pub use copy::{copy_expr, copy_op};
pub use expr::{Decl, Def, Expr};
pub use forms::SetForm;
pub use job::{Env, Job, State};
pub use modules::{Flat, Module, Unit};
pub use op::{Form, Op};
pub use outcome::{Fault, Outcome};
pub use place::Place;
pub use questions::Query;
pub use symbols::{Entry, Kind, Misuse};
pub use theorems::{
    bound_names_may_be_renamed, constants_stand_first, faults_join, nothing_is_big_without_a_width,
    questions_tell_errors, trees_may_be_put_in, trees_read_their_free_names,
    typed_questions_tell_errors, values_are_normal, widths_agree,
};
