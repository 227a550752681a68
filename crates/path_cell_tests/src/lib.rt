//! Tests of paths as literals and cells: paths that the stages make of jobs, and what the assignments that satisfy their
//! formula decode to.
#![tactic(auto)]

#[cfg(test)]
mod answers;
#[cfg(test)]
mod cases;
#[cfg(test)]
mod models;
#[cfg(test)]
mod outcomes;
#[cfg(test)]
mod paths;
#[cfg(test)]
mod systems;
#[cfg(test)]
mod texts;
