//! Tests of the reduction to the kernel, from data.
#![tactic(auto)]

#[cfg(test)]
mod actions;
#[cfg(test)]
mod cases;
#[cfg(test)]
mod details;
#[cfg(test)]
mod modules;
#[cfg(test)]
mod passing;
#[cfg(test)]
mod reducing;
#[cfg(test)]
mod samples;
#[cfg(test)]
mod scans;
#[cfg(test)]
mod showing;
#[cfg(test)]
mod updates;
#[cfg(test)]
mod values;
