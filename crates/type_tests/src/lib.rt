//! Tests of the public calls on types, on jobs to be typed and on copies of kernel trees.
#![tactic(auto)]

#[cfg(test)]
mod cases;
#[cfg(test)]
mod forms;
#[cfg(test)]
mod kernels;
#[cfg(test)]
mod passing;
#[cfg(test)]
mod postfix;
#[cfg(test)]
mod reading;
#[cfg(test)]
mod showing;
#[cfg(test)]
mod typable;
#[cfg(test)]
mod unifying;
