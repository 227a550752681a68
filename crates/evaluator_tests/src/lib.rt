//! Tests of the evaluator: what each operator, action and job gives.
#![tactic(auto)]

#[cfg(test)]
mod actions;
#[cfg(test)]
mod asking;
#[cfg(test)]
mod calls;
#[cfg(test)]
mod cases;
#[cfg(test)]
mod reader;
