// Modules at a width or with CInit, and what is printed of their verdicts.
//
// A case begins with a line behind `>`: the width, the length, the name of CInit or `-`, and the type of
// the variable x. Then come the module's lines from the sixth on, and behind a line `=` what is printed.
// The expected lines are written by hand, from the meaning of the language (Specifying Systems, chapter
// 16).
ghost use Rattle.front_end.specs.Accepted.{IsAccepted};
ghost use Rattle.accepted_systems.specs.Checking.{CanCheck};

use crate::accepting::{accepted, file};
use crate::passing::passes;
use crate::requests::request;
use bounded_engine::check_to;
use front_end::{Accepted, Request};
use std::alloc::{AllocError, Global};
use std::test::Fail;
use tool_outside::MemoryFiles;
use trace_text::report_text;

const CASES: &str = r#"
> 8 20 - Int
Init == x = 120
Next == x' = x + 1
Inv == x >= 0
=
unknown: integer out of range at level 8: step at Row:7:16
state 0
/\ x = 120
state 1
/\ x = 121
state 2
/\ x = 122
state 3
/\ x = 123
state 4
/\ x = 124
state 5
/\ x = 125
state 6
/\ x = 126
state 7
/\ x = 127
attempt
/\ x = 127
> 8 7 - Int
Init == x = 120
Next == x' = x + 1
Inv == x >= 0
=
no error to 7
> 32 2 C Int
CONSTANT
  \* @type: Int;
  c
Init == x = 0
Next == x' = x
Inv == c # 3
C == c \in 1..3
=
error at level 0: invariant Inv is FALSE
state 0
/\ c = 3
/\ x = 0
> 32 3 C Int
CONSTANT
  \* @type: Int;
  c
Init == x = 0
Next == x' = x + c
Inv == x # 4
C == c \in 1..2
=
error at level 2: invariant Inv is FALSE
state 0
/\ c = 2
/\ x = 0
state 1
/\ c = 2
/\ x = 2
state 2
/\ c = 2
/\ x = 4
> 32 5 C Int
CONSTANT
  \* @type: Int;
  c
ASSUME c # 2
Init == x = c
Next == x' = x + c
Inv == x # 4
C == c \in 1..3
=
error at level 3: invariant Inv is FALSE
state 0
/\ c = 1
/\ x = 1
state 1
/\ c = 1
/\ x = 2
state 2
/\ c = 1
/\ x = 3
state 3
/\ c = 1
/\ x = 4
> 32 2 C Int
CONSTANT
  \* @type: Int;
  c
ASSUME c > 5
Init == x = 0
Next == x' = x
Inv == FALSE
C == c \in 1..3
=
no error to 2
> 32 1 C Int
CONSTANT
  \* @type: Int;
  c
Init == x = 5
Next == x' = x
Inv == TRUE
C == c = 1 \div 0
=
error at level 0: start is outside an operator's domain at Row:12:12
attempt
/\ c = 0
/\ x = 0
> 32 1 C Int
CONSTANT
  \* @type: Int;
  c
Init == x = 5
Next == x' = x
Inv == TRUE
C == c \in 1..3 /\ 6 \div (c - 1) # 3
=
error at level 0: start is outside an operator's domain at Row:12:22
attempt
/\ c = 1
/\ x = 0
> 32 1 C Int
CONSTANT
  \* @type: Int;
  c
Init == x = 5
Next == x' = x
Inv == TRUE
C == c = 1 \/ (c = 1 /\ 1 \div 0 = 1)
=
error at level 0: start is outside an operator's domain at Row:12:27
attempt
/\ c = 1
/\ x = 0
> 32 1 C Int
CONSTANT
  \* @type: Int;
  c
ASSUME 6 \div (c - 1) # 3
Init == x = 5
Next == x' = x
Inv == TRUE
C == c \in 1..3
=
error at level 0: start is outside an operator's domain at Row:9:10
attempt
/\ c = 1
/\ x = 0
> 8 1 C Int
CONSTANT
  \* @type: Int;
  c
ASSUME c + 127 > 0
Init == x = 5
Next == x' = x
Inv == TRUE
C == c \in 0..1
=
unknown: integer out of range at level 0: start at Row:9:10
attempt
/\ c = 1
/\ x = 0
> 32 1 C Int
CONSTANT
  \* @type: Int;
  c
Init == 6 \div (c - 1) # 3 /\ x = 5
Next == x' = x
Inv == TRUE
C == c \in 1..3
=
error at level 0: start is outside an operator's domain at Row:9:11
attempt
/\ c = 1
/\ x = 0
> 32 1 C Int
CONSTANT
  \* @type: Int;
  c
Init == x = 5 /\ 6 \div (c - 1) # 3
Next == x' = x
Inv == TRUE
C == c \in 1..3
=
error at level 0: start is outside an operator's domain at Row:9:20
attempt
/\ c = 1
/\ x = 5
> 32 1 C {b: Bool, f: Int -> Int, i: Int, q: Seq(Int), s: Set(Int), t: <<Int, Bool>>, w: Str}
CONSTANT
  \* @type: Int;
  c
ASSUME 6 \div c # 3
Init == x = [b |-> TRUE, f |-> [j \in {1} |-> 1], i |-> 3, q |-> <<1>>, s |-> {1}, t |-> <<1, TRUE>>, w |-> "a"]
Next == x' = x
Inv == TRUE
C == c = 0
=
error at level 0: start is outside an operator's domain at Row:9:10
attempt
/\ c = 0
/\ x = [b |-> FALSE, f |-> <<>>, i |-> 0, q |-> <<>>, s |-> {}, t |-> <<0, FALSE>>, w |-> ""]"#;

// The width, the length, the name of CInit where there is one, and the type.
fn options(head: &str) -> (u32, u32, Option<&str>, &str) {
    let (width, rest) = head.split_once(' ').unwrap_or(("", ""));
    let (length, rest) = rest.split_once(' ').unwrap_or(("", ""));
    let (cinit, ty) = rest.split_once(' ').unwrap_or(("", ""));
    let cinit = if cinit == "-" { None } else { Some(cinit) };
    (
        width.parse::<u32>().unwrap_or(0),
        length.parse::<u32>().unwrap_or(0),
        cinit,
        ty,
    )
}

fn files_of(alloc: Global, ty: &str, lines: &str) -> Result<MemoryFiles, AllocError> {
    let module = format!(in alloc;
        "---- MODULE Row ----\nEXTENDS Integers, Sequences, FiniteSets\nVARIABLE\n  \\* @type: {ty};\n  x\n{lines}\n====\n"
    )?;
    file(alloc, "Row.tla", module.as_str())
}

fn of_accepted(alloc: Global, accepted: &Accepted) -> Result<Vec<u8>, AllocError>
    requires accepted { IsAccepted accepted.now }
    requires ready { CanCheck accepted.now }
{
    let run = check_to(alloc, accepted, None)?;
    let report = report_text(
        alloc,
        &run.verdict,
        &accepted.job.names,
        &accepted.job.files,
    );
    drop(run);
    report
}

// What is printed of the verdict, or of the refusal.
fn of_files(
    alloc: Global,
    request: &Request,
    files: &mut MemoryFiles,
) -> Result<Vec<u8>, AllocError> {
    match accepted(alloc, request, files) {
        Ok(accepted) => {
            let report = of_accepted(alloc, &accepted);
            drop(accepted);
            report
        }
        Err(line) => Ok(line),
    }
}

fn of_request(
    alloc: Global,
    request: &Request,
    ty: &str,
    lines: &str,
) -> Result<Vec<u8>, AllocError> {
    let mut files = files_of(alloc, ty, lines)?;
    of_files(alloc, request, &mut files)
}

fn printed(alloc: Global, head: &str, lines: &str) -> Result<Vec<u8>, AllocError> {
    let (width, length, cinit, ty) = options(head);
    let request = request(alloc, "Row.tla", "Inv", cinit, width, length)?;
    let report = of_request(alloc, &request, ty, lines);
    drop(request);
    report
}

// Whether the lines are printed, and nothing else.
fn are_lines(printed: &[u8], lines: &str) -> bool {
    match printed.strip_suffix(b"\n") {
        Some(printed) => printed == lines.as_bytes(),
        None => false,
    }
}

fn tell(alloc: Global, case: &str, found: &[u8], report: &mut String) -> Result<(), AllocError> {
    let text = str::from_utf8(found).unwrap_or("?");
    let line = format!(in alloc; "{case}\nBUT\n{text}")?;
    report.push_str(line.as_str())
}

// Whether a case is printed as it says; if not, what is printed is added.
fn is_right(alloc: Global, case: &str, report: &mut String) -> Result<bool, AllocError> {
    let (head, rest) = case.split_once('\n').unwrap_or(("", ""));
    let (lines, expected) = rest.split_once("\n=\n").unwrap_or(("", ""));
    let found = printed(alloc, head, lines)?;
    if are_lines(&found, expected) {
        return Ok(true);
    }
    tell(alloc, case, &found, report)?;
    Ok(false)
}

// What is printed otherwise, and how many cases are right.
fn answers(alloc: Global, cases: &str) -> Result<String, AllocError> {
    let mut report = String::new(alloc);
    let mut right: u32 = 0;
    for case in cases.split("\n> ").skip(1) {
        if is_right(alloc, case, &mut report)? {
            right = right.saturating_add(1);
        }
    }
    let line = format!(in alloc; "{right} right")?;
    report.push_str(line.as_str())?;
    Ok(report)
}

#[test]
fn modules_have_the_verdicts_that_they_mean(rt: HostRuntime) -> Result<(), Fail> {
    passes(&rt, answers(rt.alloc(), CASES), "14 right")
}
