//! Tests of the public calls of `watched_search`, each call on known values.
#![tactic(auto)]

#[cfg(test)]
mod cases;
#[cfg(test)]
mod steps;
