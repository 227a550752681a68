//! A symbolic bounded model checker for TLA+.
#![tactic(auto)]

use std::alloc::{AllocError, Global};
use std::env;
use std::io::{self, ErrorKind};
use std::process::ExitCode;
use tool_outside::{HostFiles, HostSink};

mod accepting;
mod answer;
mod copies;
mod lines;
mod naming;
mod saving;
mod top;
mod words;

pub use top::run;

fn main(rt: HostRuntime) -> ExitCode {
    let mut files = HostFiles::new(&rt);
    let mut out = HostSink::new(io::writer(&rt));
    let status = match given_words(&rt, rt.alloc()) {
        Ok(words) => run(rt.alloc(), &words, &mut files, &mut out),
        Err(_) => 50,
    };
    ExitCode::from(status)
}

// The words after the program's name. Words that are not text are taken as none, which is no command.
fn given_words(rt: &HostRuntime, alloc: Global) -> Result<Vec<String>, AllocError> {
    let mut words = Vec::new(alloc);
    match env::args(rt) {
        Ok(args) => {
            for word in args.skip(1) {
                words.push(word)?;
            }
            Ok(words)
        }
        Err(error) if error.kind() == ErrorKind::OutOfMemory => Err(AllocError),
        Err(_) => Ok(words),
    }
}

#[cfg(test)]
mod checks;
#[cfg(test)]
mod known;
#[cfg(test)]
mod rows;
#[cfg(test)]
mod tests;
