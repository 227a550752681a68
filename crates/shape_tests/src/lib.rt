//! Tests of the bounds of shapes, from data.
#![tactic(auto)]

#[cfg(test)]
mod answers;
#[cfg(test)]
mod first_rows;
#[cfg(test)]
mod notation;
#[cfg(test)]
mod rows;
#[cfg(test)]
mod showing;
#[cfg(test)]
mod start_rows;
#[cfg(test)]
mod systems;
#[cfg(test)]
mod tree_rows;
#[cfg(test)]
mod trees;
