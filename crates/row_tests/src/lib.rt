//! Tests of the operators on functions, records, tuples and sequences as cells, against what the
//! evaluator gives of the values of their operands.
#![tactic(auto)]

#[cfg(test)]
mod agreeing;
#[cfg(test)]
mod calls;
#[cfg(test)]
mod cases;
#[cfg(test)]
mod decoding;
#[cfg(test)]
mod operands;
#[cfg(test)]
mod passing;
#[cfg(test)]
mod sequence_calls;
#[cfg(test)]
mod sequences;
#[cfg(test)]
mod sorts;
#[cfg(test)]
mod tables;
#[cfg(test)]
mod trees;
