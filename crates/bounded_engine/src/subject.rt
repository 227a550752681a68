// What is checked.

use kernel_trees::System;
use tla_meaning::Job;

/// A job, a system that stands for it, and the bits of its integers.
#[derive(Drop)]
pub(crate) struct Subject<'a> {
    pub job: &'a Job,
    pub system: &'a System,
    pub width: u32,
}
