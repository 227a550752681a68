// The reports of whole runs, byte for byte: two jugs, a counter that leaves eight bits, a sequence that is applied
// outside its domain, a budget of one conflict, and checks of inductive invariants.
use crate::making::{
    agrees, assumption_overflow, at, not_inductive, same, step_overflow, step_wrong, violated,
};
use std::alloc::{AllocError, Global};
use std::test::Fail;
use trace_text::{Verdict, Where};

// What is printed, each beside the one of the same number below.
const EXPECTED: [&str; 10] = [
    "no error to 5\n",
    "error at level 6: invariant Inv is FALSE\nstate 0\n/\\ big = 0\n/\\ small = 0\nstate 1\n/\\ big = 5\n/\\ small = 0\nstate 2\n/\\ big = 2\n/\\ small = 3\nstate 3\n/\\ big = 2\n/\\ small = 0\nstate 4\n/\\ big = 0\n/\\ small = 2\nstate 5\n/\\ big = 5\n/\\ small = 2\nstate 6\n/\\ big = 4\n/\\ small = 3\n",
    "unknown: integer out of range at level 8: step at Row:7:16\nstate 0\n/\\ x = 120\nstate 1\n/\\ x = 121\nstate 2\n/\\ x = 122\nstate 3\n/\\ x = 123\nstate 4\n/\\ x = 124\nstate 5\n/\\ x = 125\nstate 6\n/\\ x = 126\nstate 7\n/\\ x = 127\nattempt\n/\\ x = 127\n",
    "no error to 7\n",
    "error at level 1: step is outside an operator's domain at Row:7:10\nstate 0\n/\\ x = <<1, 2, 3>>\nattempt\n/\\ x = <<1, 2, 3>>\n",
    "no error to 0\n",
    "unknown: conflict budget 1 spent at level 0\n",
    "inductive\n",
    "not inductive: invariant Inv is FALSE\nstate 0\n/\\ x = 3\nstate 1\n/\\ x = 5\n",
    "unknown: integer out of range from a typed state: assumption at Row:8:10\nattempt\n/\\ x = 7\n",
];

// The states of the jugs.
static JUGS: [&[i128]; 7] = [
    &[0, 0],
    &[5, 0],
    &[2, 3],
    &[2, 0],
    &[0, 2],
    &[5, 2],
    &[4, 3],
];

// The states of the counter.
static COUNTED: [&[i128]; 8] = [
    &[120],
    &[121],
    &[122],
    &[123],
    &[124],
    &[125],
    &[126],
    &[127],
];

fn verdict(alloc: Global, number: usize) -> Result<Verdict, AllocError> {
    match number {
        0 => Ok(Verdict::Clean(5)),
        1 => violated(alloc, 6, &JUGS),
        2 => step_overflow(alloc, 8, &COUNTED, &[127]),
        3 => Ok(Verdict::Clean(7)),
        4 => step_wrong(alloc, at(7, 10), &[1, 2, 3]),
        5 => Ok(Verdict::Clean(0)),
        6 => Ok(Verdict::Spent(1, Where::Level(0))),
        7 => Ok(Verdict::Inductive),
        8 => not_inductive(alloc, &[&[3], &[5]]),
        _ => assumption_overflow(alloc, &[7]),
    }
}

fn is_right(alloc: Global, number: usize, expected: &str) -> Result<bool, AllocError> {
    let verdict = verdict(alloc, number)?;
    if number == 1 {
        agrees(alloc, verdict, &["big", "small"], expected)
    } else {
        agrees(alloc, verdict, &["x"], expected)
    }
}

fn differing(alloc: Global) -> Result<u64, AllocError> {
    let mut count: u64 = 0;
    for number in 0..10 {
        if !is_right(alloc, number, EXPECTED[number])? {
            count = count.saturating_add(1);
        }
    }
    Ok(count)
}

#[test]
fn whole_runs_are_printed_byte_for_byte(rt: HostRuntime) -> Result<(), Fail> {
    same(&rt, differing(rt.alloc()), 0)
}
