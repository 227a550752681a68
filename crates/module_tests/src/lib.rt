//! Tests of the modules of a root: which flat module, which job and which types they make, and why they make none.
#![tactic(auto)]

#[cfg(test)]
mod asking;
#[cfg(test)]
mod badly_typed_cases;
#[cfg(test)]
mod expanding;
#[cfg(test)]
mod expansions_cases;
#[cfg(test)]
mod extending_cases;
#[cfg(test)]
mod further_cases;
#[cfg(test)]
mod generated_cases;
#[cfg(test)]
mod instances_cases;
#[cfg(test)]
mod lines;
#[cfg(test)]
mod names_cases;
#[cfg(test)]
mod reader;
#[cfg(test)]
mod room_cases;
#[cfg(test)]
mod sets;
#[cfg(test)]
mod showing;
#[cfg(test)]
mod sources_cases;
#[cfg(test)]
mod tree_tokens;
#[cfg(test)]
mod trees;
#[cfg(test)]
mod typed;
#[cfg(test)]
mod typed_cases;
#[cfg(test)]
mod users_cases;
