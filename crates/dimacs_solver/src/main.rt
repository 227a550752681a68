//! A solver of DIMACS files, by which `cdcl_solver` is measured.
//!
//! It reads the file that its one argument names ("Satisfiability: Suggested Format", 1993), and ends
//! with status 10 where an assignment satisfies the clauses and with 20 where none does, as solvers
//! do by custom. It then prints how many clauses were learned.
#![tactic(auto)]

mod dimacs;

use cdcl_solver::{Answer, solve};
use std::alloc::{AllocError, Global};
use std::process::ExitCode;
use std::{env, fs, io};

fn main(rt: HostRuntime) -> ExitCode {
    match ran(&rt) {
        Ok(status) => ExitCode::from(status),
        Err(_) => ExitCode::from(1),
    }
}

fn ran(rt: &HostRuntime) -> io::Result<u8> {
    let mut status = 1;
    for path in env::args(rt)?.skip(1) {
        let text = fs::read_to_string(rt, path.as_str())?;
        match answer_of(rt.alloc(), text.as_str())? {
            Answer::Sat(_) => {
                println!(rt; "s SATISFIABLE")?;
                status = 10;
            }
            Answer::Unsat(log) => {
                let steps = log.len();
                println!(rt; "s UNSATISFIABLE")?;
                println!(rt; "c learned {steps}")?;
                status = 20;
            }
            Answer::Spent(_) => {}
        }
    }
    Ok(status)
}

fn answer_of(alloc: Global, text: &str) -> Result<Answer, AllocError> {
    let formula = dimacs::read(alloc, text)?;
    let top = formula.top();
    solve(alloc, &formula, top, None)
}
