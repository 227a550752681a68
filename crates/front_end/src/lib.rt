//! What is accepted of the modules of a file and a request, and why they are refused: the stages up to shapes, one
//! behind the other.
#![tactic(auto)]

mod accepting;
mod bounding;
mod fault;
mod inline_lines;
mod kernel_lines;
mod kernels;
mod line_parts;
mod module_lines;
mod refusal_lines;
mod request;
mod splitting;
mod theorems;
mod type_lines;

pub use accepting::accept;
pub use fault::{FrontFault, Refusal};
pub use refusal_lines::refusal_text;
pub use request::{Accepted, Request};
pub use theorems::accepted_requests_are_not_refused;
