//! Tests of the text of reports and of states read back, with expected texts written by hand.
#![tactic(auto)]

#[cfg(test)]
mod blocks;
#[cfg(test)]
mod examples;
#[cfg(test)]
mod making;
#[cfg(test)]
mod reports;
