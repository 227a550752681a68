//! Tests of expansion: the trees that are answered of operators and jobs of small flat modules, and their refusals.
#![tactic(auto)]

#[cfg(test)]
mod answers;
#[cfg(test)]
mod cases;
#[cfg(test)]
mod printing;
#[cfg(test)]
mod reader;
