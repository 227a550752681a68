// The report of each kind of verdict, byte for byte.
use crate::making::{
    agrees, assumption_overflow, at, inv_wrong, not_inductive, same, start_wrong, step_overflow,
    step_wrong, violated,
};
use std::alloc::{AllocError, Global};
use std::test::Fail;
use trace_text::{Verdict, Where};

// What is printed of the verdicts below, over the variables x and y and the file models/Row.tla.
const EXPECTED: [&str; 11] = [
    "no error to 5\n",
    "inductive\n",
    "unknown: conflict budget 1 spent at level 0\n",
    "unknown: conflict budget 7 spent from a typed state\n",
    "error at level 1: invariant Inv is FALSE\nstate 0\n/\\ x = 0\n/\\ y = 0\nstate 1\n/\\ x = 5\n/\\ y = 0\n",
    "error at level 0: invariant Inv is outside an operator's domain at Row:8:24\nstate 0\n/\\ x = -1\n/\\ y = 2\n",
    "error at level 0: start is outside an operator's domain at Row:6:9\nattempt\n/\\ x = 3\n/\\ y = 4\n",
    "error at level 1: step is outside an operator's domain at Row:7:10\nstate 0\n/\\ x = <<1, 2>>\nattempt\n/\\ x = <<1, 2>>\n",
    "unknown: integer out of range at level 1: step at Row:7:16\nstate 0\n/\\ x = 126\n/\\ y = 0\nstate 1\n/\\ x = 127\n/\\ y = 0\nattempt\n/\\ x = 127\n/\\ y = 0\n",
    "unknown: integer out of range from a typed state: assumption at Row:8:10\nattempt\n/\\ x = 7\n/\\ y = 0\n",
    "not inductive: invariant Inv is FALSE\nstate 0\n/\\ x = 3\n/\\ y = 0\nstate 1\n/\\ x = 5\n/\\ y = 0\n",
];

fn errors(alloc: Global, number: usize) -> Result<Verdict, AllocError> {
    match number {
        4 => violated(alloc, 1, &[&[0, 0], &[5, 0]]),
        5 => inv_wrong(alloc, at(8, 24), &[-1, 2]),
        6 => start_wrong(alloc, at(6, 9), &[3, 4]),
        _ => step_wrong(alloc, at(7, 10), &[1, 2]),
    }
}

fn verdict(alloc: Global, number: usize) -> Result<Verdict, AllocError> {
    match number {
        0 => Ok(Verdict::Clean(5)),
        1 => Ok(Verdict::Inductive),
        2 => Ok(Verdict::Spent(1, Where::Level(0))),
        3 => Ok(Verdict::Spent(7, Where::Typed)),
        8 => step_overflow(alloc, 1, &[&[126, 0], &[127, 0]], &[127, 0]),
        9 => assumption_overflow(alloc, &[7, 0]),
        10 => not_inductive(alloc, &[&[3, 0], &[5, 0]]),
        _ => errors(alloc, number),
    }
}

// How many of the reports differ from the expected ones.
fn differing(alloc: Global) -> Result<u64, AllocError> {
    let mut count: u64 = 0;
    for number in 0..11 {
        let verdict = verdict(alloc, number)?;
        if !agrees(alloc, verdict, &["x", "y"], EXPECTED[number])? {
            count = count.saturating_add(1);
        }
    }
    Ok(count)
}

#[test]
fn each_kind_of_verdict_is_printed_line_by_line(rt: HostRuntime) -> Result<(), Fail> {
    same(&rt, differing(rt.alloc()), 0)
}
