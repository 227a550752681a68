//! Tests of values and states that are decoded from cells, against values written by hand.
#![tactic(auto)]

#[cfg(test)]
mod cases;
#[cfg(test)]
mod cells;
#[cfg(test)]
mod decoding;
