//! What typed expressions are reduced to: a relation between an expression and the kernel trees that stand for it, row by
//! row, as a value and in an action position, with what a job's kernel is. Its laws are contracts of functions that do
//! nothing: outcomes, effects, paths, places, texts, shapes, refusals and soundness are kept. (Konnov, Kukovec and Tran,
//! "TLA+ Model Checking Made Symbolic", OOPSLA 2019, on the language KerA+.)
#![tactic(auto)]

mod path_theorems;
mod size_theorems;
mod sound_theorems;
mod theorems;

pub use path_theorems::{
    built_actions_keep_their_effect, built_actions_keep_their_paths,
    built_jobs_keep_outcomes_and_paths, built_jobs_keep_places_and_texts,
    built_trees_keep_places_and_names,
};
pub use size_theorems::{built_jobs_keep_their_refusals, built_trees_keep_shapes_and_refusals};
pub use sound_theorems::built_jobs_are_sound;
pub use theorems::what_is_built_keeps_its_outcomes;
