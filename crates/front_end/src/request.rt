// What is asked, and what is accepted.
use kernel_shapes::{Bounds, Shapes};
use kernel_trees::System;
use snowcat_rows::Typed;
use tla_meaning::Job;
use tla_values::{List, Text};

/// What is asked: the file of the root module, the operators that are Init, Next, the invariants and CInit, the
/// greatest number of steps of an execution, the width of integers in bits, and the bounds of typed states, where
/// these are asked for.
#[derive(Drop)]
pub struct Request {
    pub root: Text,
    pub init: Text,
    pub next: Text,
    pub invs: List<Text>,
    pub cinit: Option<Text>,
    pub length: u32,
    pub width: u32,
    pub bounds: Option<Bounds>,
}

/// What is accepted: the job, its types, its kernel with the paths of CInit, Init and Next, and the shapes of the
/// names at levels 0 to the length.
#[derive(Drop)]
pub struct Accepted {
    pub job: Job,
    pub typed: Typed,
    pub system: System,
    pub shapes: Shapes,
    pub length: u32,
    pub width: u32,
    pub bounds: Option<Bounds>,
}
