//! Tests of `typing`: the types of a job's nodes, or why it has none, from data.
#![tactic(auto)]

#[cfg(test)]
mod answers;
#[cfg(test)]
mod choices;
#[cfg(test)]
mod notes;
#[cfg(test)]
mod operators;
#[cfg(test)]
mod refusals;
