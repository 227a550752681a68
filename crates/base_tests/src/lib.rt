//! Tests of the public calls of the crates for values, the outside, trees, tokens, the queue and the chains.
#![tactic(auto)]

#[cfg(test)]
mod chains;
#[cfg(test)]
mod lexer;
#[cfg(test)]
mod meaning;
#[cfg(test)]
mod outside;
#[cfg(test)]
mod passing;
#[cfg(test)]
mod queue;
#[cfg(test)]
mod values;
