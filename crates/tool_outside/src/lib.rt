//! The outside of the tool: files that are read and written by name, and a sink for what is printed.
//!
//! A caller is written over the traits [`Files`] and [`Sink`]. Tests hand in objects in memory that
//! fail at chosen calls, and the program hands in the files and the standard output of the system.
#![tactic(auto)]

mod files;
mod held;
mod host_files;
mod host_sink;
mod memory_files;
mod memory_sink;
mod plan;
mod sink;

pub use files::{FileFail, Files};
pub use host_files::HostFiles;
pub use host_sink::HostSink;
pub use memory_files::MemoryFiles;
pub use memory_sink::MemorySink;
pub use sink::{Sink, SinkFail};
