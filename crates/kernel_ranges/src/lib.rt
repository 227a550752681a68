//! When the ranges of a kernel tree that are evaluated lie within their bounds.
#![tactic(auto)]
