//! Tests of the parser: which tree or refusal each text gives.
#![tactic(auto)]

#[cfg(test)]
mod asking;
#[cfg(test)]
mod cases;
mod faults;
#[cfg(test)]
mod modules;
#[cfg(test)]
mod outside;
#[cfg(test)]
mod pluscal;
#[cfg(test)]
mod showing;
#[cfg(test)]
mod trees;
