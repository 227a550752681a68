//! Tests of the public calls of the crates for formulas, circuits and refutations.
#![tactic(auto)]

#[cfg(test)]
mod circuits;
#[cfg(test)]
mod counts;
#[cfg(test)]
mod formulas;
#[cfg(test)]
mod refutations;
