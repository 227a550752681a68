//! Tests of records, tuples, functions and sequences as cells: equality, choice and their parts, against
//! values.
#![tactic(auto)]

#[cfg(test)]
mod arrows;
#[cfg(test)]
mod building;
#[cfg(test)]
mod call_cases;
#[cfg(test)]
mod call_tests;
#[cfg(test)]
mod calls;
#[cfg(test)]
mod cases;
#[cfg(test)]
mod decoding;
#[cfg(test)]
mod equalities;
#[cfg(test)]
mod sequence_calls;
#[cfg(test)]
mod sequence_cases;
#[cfg(test)]
mod sequence_tests;
#[cfg(test)]
mod sequences;
#[cfg(test)]
mod solving;
#[cfg(test)]
mod tests;
