//! Tests of the public calls on paths: the paths of actions, and the assignments on them.
#![tactic(auto)]

#[cfg(test)]
mod actions;
#[cfg(test)]
mod assigning;
#[cfg(test)]
mod passing;
#[cfg(test)]
mod splitting;
