// A job as kernel trees, and the system of its paths.
use crate::kernel::Ker;
use crate::path::Assigned;
use snowcat_rows::Ty;
use tla_values::{List, Text};

/// A job as kernel trees: the types of its names, which of them are constants, and the text literals of its trees.
#[derive(Drop)]
pub struct KerJob {
    pub names: List<Ty>,
    pub fixed: List<bool>,
    pub texts: List<Text>,
    pub cinit: Ker,
    pub assume: Ker,
    pub init: Ker,
    pub next: Ker,
    pub invs: List<Ker>,
}

/// The kernel trees of a job with the paths of CInit, Init and Next.
#[derive(Drop)]
pub struct System {
    pub ker: KerJob,
    pub constants: List<Assigned>,
    pub start: List<Assigned>,
    pub next: List<Assigned>,
}
