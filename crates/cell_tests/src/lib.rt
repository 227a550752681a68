//! Tests of the crates of cells: what cells decode to, against values.
#![tactic(auto)]

#[cfg(test)]
mod arena;
#[cfg(test)]
mod cases;
#[cfg(test)]
mod constants;
#[cfg(test)]
mod decoding;
#[cfg(test)]
mod equality;
#[cfg(test)]
mod picks;
#[cfg(test)]
mod sets;
#[cfg(test)]
mod sizes;
