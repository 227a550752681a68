//! Tests of what is accepted, and of why modules are refused.
#![tactic(auto)]

#[cfg(test)]
mod asking;
#[cfg(test)]
mod cases;
#[cfg(test)]
mod line_cases;
#[cfg(test)]
mod options;
#[cfg(test)]
mod protocol_texts;
#[cfg(test)]
mod protocols;
#[cfg(test)]
mod requests;
#[cfg(test)]
mod rows;
#[cfg(test)]
mod sets;
#[cfg(test)]
mod showing;
#[cfg(test)]
mod small_texts;
#[cfg(test)]
mod telling;
