//! Tests of `cdcl_solver` with the crates below it.
#![tactic(auto)]

#[cfg(test)]
mod tests;
