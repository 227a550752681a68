//! Tests of the engine on modules with few states: what it answers is what a search of all states by
//! the evaluator finds, and the trace that it gives is taken step by step. Verdicts that are worked
//! out by hand stand in `by_hand`, and `sizes` counts the clauses, variables and cells of encodings.
#![tactic(auto)]

#[cfg(test)]
mod accepting;
#[cfg(test)]
mod asking;
#[cfg(test)]
mod by_hand;
#[cfg(test)]
mod comparing;
#[cfg(test)]
mod counting;
#[cfg(test)]
mod findings;
#[cfg(test)]
mod first_modules;
#[cfg(test)]
mod passing;
#[cfg(test)]
mod records;
#[cfg(test)]
mod requests;
#[cfg(test)]
mod searching;
#[cfg(test)]
mod second_modules;
#[cfg(test)]
mod sized_modules;
#[cfg(test)]
mod sizes;
#[cfg(test)]
mod taking;
